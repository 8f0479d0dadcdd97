//! How a line with a key and a value begins, by layout `Follow`: as its neighbours do.
ghost use Rattle.std.specs.Prelude.{IfOk};
ghost use Rattle.toml_layout.specs.OpenOutlines.{leaf_text};
ghost use Rattle.toml_working.specs.Looking.{BeginsBehind, LaysOut};
ghost use Rattle.toml_working.specs.LookingUp.{BeginsSection, CountsLines, FindsLike, GoesUpLine, GoesUpSlot, TellsBeginning};
ghost use Rattle.toml_working.specs.Starting.{read_of};

use crate::working::{Before, Position, Tree};
use std::alloc::AllocError;
use toml_layout::{Equals, Layout, Leaf};

impl<'x> Tree<'x> {
    /// How a line begins that is put in behind another, in the layout of the tree.
    pub(crate) fn laid_out(
        &self,
        before: Before<'_, 'x>,
        behind: Position,
    ) -> Result<(Leaf<'x>, Option<Equals<'x>>), AllocError>
        ensures { let layout = self.now.texts.layout in
            IfOk result (λ r. LaysOut layout (read_of before.entry) self.now.slots.items behind r.0 r.1) }
    {
        match self.texts.layout {
            Layout::Plain => Ok((Leaf::EMPTY, None)),
            Layout::Follow => self.beginning(before, behind),
        }
    }

    /// How a line with a key and a value begins that is put in behind another: as that one, where it has a key and a value; behind
    /// a header line as the last such line above in a section whose header begins with the same whitespace, else as the
    /// header.
    fn beginning(
        &self,
        before: Before<'_, 'x>,
        behind: Position,
    ) -> Result<(Leaf<'x>, Option<Equals<'x>>), AllocError>
        ensures { IfOk result (λ r. BeginsBehind (read_of before.entry) self.now.slots.items behind r.0 r.1) }
    {
        let Some(line) = self.seen(before, behind) else {
            return Ok((Leaf::EMPTY, None));
        };
        if line.is_bare() {
            return Ok((Leaf::EMPTY, None));
        }
        let look = self.look_at(before, behind)?;
        if line.is_header() {
            self.beginning_below(before, behind, look.ws)
        } else {
            Ok((look.ws, look.equals))
        }
    }

    /// How the first line with a key and a value begins in a section whose header line stands at a place, or is to, and begins
    /// with this whitespace.
    pub(crate) fn beginning_below(
        &self,
        before: Before<'_, 'x>,
        header: Position,
        ws: Leaf<'x>,
    ) -> Result<(Leaf<'x>, Option<Equals<'x>>), AllocError>
        ensures { let own = leaf_text ws.entry in
            IfOk result (λ r. BeginsSection own (read_of before.entry) self.now.slots.items header r.0 r.1) }
    {
        match self.like_pair(before, header, ws)? {
            Some(pair) => {
                let look = self.look_at(before, pair)?;
                Ok((look.ws, look.equals))
            }
            None => Ok((ws, None)),
        }
    }

    /// The last line with a key and a value before a place in a section whose header begins with this whitespace. The section of
    /// the root has no header, and begins with none.
    fn like_pair(
        &self,
        before: Before<'_, 'x>,
        place: Position,
        ws: Leaf<'x>,
    ) -> Result<Option<Position>, AllocError>
        ensures { IfOk result (FindsLike (leaf_text ws.entry) (read_of before.entry) self.now.slots.items place) }
    {
        let (mut last, found) = self.like_in(before, place, ws, None)?;
        if found {
            return Ok(last);
        }
        for slot in (0..place.slot).rev() {
            let index = self.lines_in(slot);
            let (next, found) = self.like_in(before, Position { slot, index }, ws, last)?;
            if found {
                return Ok(next);
            }
            last = next;
        }
        Ok(if ws.is_empty() { last } else { None })
    }

    /// How many lines a slot has.
    pub(crate) fn lines_in(&self, slot: usize) -> usize
        ensures { CountsLines self.now.slots.items slot result }
    {
        match self.slots.get(slot) {
            Some(lines) => lines.count(),
            None => 0,
        }
    }

    /// Goes up past the lines of a slot before a place. With `true`: the line that is looked for. With `false`: the last line with a key
    /// and a value from the slot's first line on and before the next header, if there is one; `last` is that from the place on.
    fn like_in(
        &self,
        before: Before<'_, 'x>,
        place: Position,
        ws: Leaf<'x>,
        last: Option<Position>,
    ) -> Result<(Option<Position>, bool), AllocError>
        ensures { let read = read_of before.entry in
            IfOk result (λ r. GoesUpSlot (leaf_text ws.entry) read self.now.slots.items place last r.1 r.0) }
    {
        let slot = place.slot;
        let mut last = last;
        for index in (0..place.index).rev() {
            let (next, found) = self.like_line(before, Position { slot, index }, ws, last)?;
            if found {
                return Ok((next, true));
            }
            last = next;
        }
        Ok((last, false))
    }

    /// The same past the line at a place.
    fn like_line(
        &self,
        before: Before<'_, 'x>,
        at: Position,
        ws: Leaf<'x>,
        last: Option<Position>,
    ) -> Result<(Option<Position>, bool), AllocError>
        ensures { let read = read_of before.entry in
            IfOk result (λ r. GoesUpLine (leaf_text ws.entry) read self.now.slots.items at last r.1 r.0) }
    {
        let Some(line) = self.seen(before, at) else {
            return Ok((last, false));
        };
        if !line.is_header() {
            return Ok((line.last_pair_from(at, last), false));
        }
        if last.is_some() && self.begins_with(before, at, ws)? {
            Ok((last, true))
        } else {
            Ok((None, false))
        }
    }

    /// Whether the line at a place begins with this whitespace.
    fn begins_with(
        &self,
        before: Before<'_, 'x>,
        at: Position,
        ws: Leaf<'x>,
    ) -> Result<bool, AllocError>
        ensures { IfOk result (TellsBeginning (leaf_text ws.entry) (read_of before.entry) self.now.slots.items at) }
    {
        Ok(self.look_at(before, at)?.ws.text() == ws.text())
    }
}
