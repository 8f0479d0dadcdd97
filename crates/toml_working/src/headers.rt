//! Where a header line goes, and how it begins, by layout `Follow`.
ghost use Rattle.std.specs.Prelude.{◌≡◌, IfOk, OnOk, true};
ghost use Rattle.toml_text.specs.Source.{text_of};
ghost use Rattle.toml_layout.specs.OpenOutlines.{leaf_text};
ghost use Rattle.toml_working.specs.Following.{BeginsHeader, EndsSectionAt, FillsFrom, FindsBeside, FindsFamily, FindsLandmark, FindsLastBelow, FillsSlot, GoesUpTo, IsBehindAll, ArrayIsNotRoot, TellsAt, is_landmark};
ghost use Rattle.toml_working.specs.Following.{PutsAtEnd, PutsBeside, PutsBlank, TellsClose, TellsFilled, TellsBlankDue, TreeFollows, may_write_blank};
ghost use Rattle.toml_working.specs.Manners.{ends_in_newline};
ghost use Rattle.toml_working.specs.FollowingHeaders.{is_entry_line, is_filled, is_header_line, is_no_comment};
ghost use Rattle.toml_working.specs.Standing.{Read};
ghost use Rattle.toml_working.specs.Starting.{read_of};
ghost use Rattle.toml_working.specs.Stands.{KeepsRest, KeepsTexts};

use crate::lines::Line;
use crate::removing::parent_of;
use crate::sections::{Above, NewHeader};
use crate::steps::{is_element, names_in};
use crate::working::{Before, Position, Tree};
use std::alloc::AllocError;
use toml_layout::{Expr, Leaf};
use toml_names::Address;
use toml_text::Span;

/// A line that is sought above a place.
#[derive(Clone, Copy)]
pub(crate) enum Landmark<'a> {
    /// A line at the address, or below it.
    Below(&'a Address),
    /// A header line.
    Header,
    /// A header line whose key has so many parts.
    Parts(usize),
    /// A line that is no comment line.
    NoComment,
    /// Any line.
    Line,
}

impl<'x> Tree<'x> {
    /// Puts a header line in: behind the section of the last line of its family, else at the end of the text. The family of an
    /// element is its array, where that has lines, and else what its parent is, as of a table.
    pub(crate) fn add_beside(
        &mut self,
        before: Before<'_, 'x>,
        above: &Above,
        new: NewHeader<'_, 'x>,
    ) -> Result<bool, AllocError>
        ensures rest { OnOk result (KeepsTexts self.old self.new) }
        ensures put { let it = new.entry in
            IfOk result (TreeFollows above.now.at it.at.now it.brackets it.spelled.now (read_of before.entry) self.old self.new) }
    {
        match self.place_beside(before, above, new)? {
            Some(behind) => self.put_beside(before, behind, new),
            None => self.add_at_end(before, new),
        }
    }

    /// Puts a header line in behind another line.
    fn put_beside(
        &mut self,
        before: Before<'_, 'x>,
        behind: Position,
        new: NewHeader<'_, 'x>,
    ) -> Result<bool, AllocError>
        ensures rest { OnOk result (KeepsRest self.old self.new) }
        ensures put { let it = new.entry in
            let style = leaf_text self.old.style in
            IfOk result (PutsBeside it.at.now it.brackets it.spelled.now style (read_of before.entry) behind self.old.slots.items self.new.slots.items) }
    {
        let at = behind.next();
        let ws = self.header_ws(before, at, new.at)?;
        self.put_header(before, at, new, ws)
    }

    /// The line behind which the last section of the family ends: the last with a key and a value, or its header. There is none where
    /// only blank lines follow that.
    fn place_beside(
        &self,
        before: Before<'_, 'x>,
        above: &Above,
        new: NewHeader<'_, 'x>,
    ) -> Result<Option<Position>, AllocError>
        ensures { IfOk result (FindsBeside above.now.at new.entry.at.now (read_of before.entry) self.now.slots.items) }
    {
        let Some(last) = self.last_of_family(before, above, new)? else {
            return Ok(None);
        };
        let behind = self.section_end(before, last);
        if self.has_more(before, behind.next())? {
            Ok(Some(behind))
        } else {
            Ok(None)
        }
    }

    /// The last line of the family.
    fn last_of_family(
        &self,
        before: Before<'_, 'x>,
        above: &Above,
        new: NewHeader<'_, 'x>,
    ) -> Result<Option<Position>, AllocError>
        ensures { let q = above.now.at in
            IfOk result (λ found. ArrayIsNotRoot q new.entry.at.now → FindsFamily q new.entry.at.now (read_of before.entry) self.now.slots.items found) }
    {
        if let Some(last) = self.last_of(before, &above.at)? {
            return Ok(Some(last));
        }
        if !is_element(new.at) {
            return Ok(None);
        }
        let parent = parent_of(self.alloc(), &above.at)?;
        self.last_of(before, &parent)
    }

    /// The last line at the address or below it, which is not the root.
    fn last_of(
        &self,
        before: Before<'_, 'x>,
        address: &Address,
    ) -> Result<Option<Position>, AllocError>
        ensures { IfOk result (FindsLastBelow address.now (read_of before.entry) self.now.slots.items) }
    {
        if address.steps().is_empty() {
            return Ok(None);
        }
        self.landmark(before, self.text_end(), Landmark::Below(address))
    }

    /// The place behind all lines.
    fn text_end(&self) -> Position
        ensures { (read : Read) → IsBehindAll read self.now.slots.items result }
    {
        Position {
            slot: self.slots.len(),
            index: 0,
        }
    }

    /// The last line before a place that is sought.
    pub(crate) fn landmark(
        &self,
        before: Before<'_, 'x>,
        place: Position,
        what: Landmark<'_>,
    ) -> Result<Option<Position>, AllocError>
        ensures { IfOk result (FindsLandmark (is_landmark what.entry) (read_of before.entry) self.now.slots.items place) }
    {
        if let Some(found) = self.landmark_in(before, place, what)? {
            return Ok(Some(found));
        }
        for slot in (0..place.slot).rev() {
            let index = self.lines_in(slot);
            if let Some(found) = self.landmark_in(before, Position { slot, index }, what)? {
                return Ok(Some(found));
            }
        }
        Ok(None)
    }

    /// The last line before a place that is sought, of those in its slot.
    fn landmark_in(
        &self,
        before: Before<'_, 'x>,
        place: Position,
        what: Landmark<'_>,
    ) -> Result<Option<Position>, AllocError>
        ensures { IfOk result (GoesUpTo (is_landmark what.entry) (read_of before.entry) self.now.slots.items place) }
    {
        let slot = place.slot;
        for index in (0..place.index).rev() {
            let at = Position { slot, index };
            if self.is_landmark(before, at, what)? {
                return Ok(Some(at));
            }
        }
        Ok(None)
    }

    /// Whether the line at a place is sought.
    fn is_landmark(
        &self,
        before: Before<'_, 'x>,
        at: Position,
        what: Landmark<'_>,
    ) -> Result<bool, AllocError>
        ensures { IfOk result (TellsAt (is_landmark what.entry) (read_of before.entry) self.now.slots.items at) }
    {
        let Some(line) = self.seen(before, at) else {
            return Ok(false);
        };
        match what {
            Landmark::Below(address) => Ok(line.is_below(address)),
            Landmark::Header => Ok(line.is_header()),
            Landmark::Parts(parts) => Ok(line.is_header_in(parts)),
            Landmark::NoComment => self.is_no_comment(before, at),
            Landmark::Line => Ok(true),
        }
    }

    /// The last line with a key and a value of the section in which a line stands, or its header.
    fn section_end(&self, before: Before<'_, 'x>, at: Position) -> Position
        ensures { EndsSectionAt (read_of before.entry) self.now.slots.items at result }
    {
        if self.is_header_at(before, at) {
            self.last_pair(before, at.next()).unwrap_or(at)
        } else {
            self.last_pair(before, at).unwrap_or(at)
        }
    }

    /// Whether something stands on one of the lines from a place on.
    fn has_more(&self, before: Before<'_, 'x>, from: Position) -> Result<bool, AllocError>
        ensures { IfOk result (FillsFrom (read_of before.entry) self.now.slots.items from) }
    {
        let mut index = from.index;
        for slot in from.slot..self.slots.len() {
            if self.is_filled_in(before, Position { slot, index })? {
                return Ok(true);
            }
            index = 0;
        }
        Ok(false)
    }

    /// Whether something stands on one of the lines of a slot from a place on.
    fn is_filled_in(&self, before: Before<'_, 'x>, from: Position) -> Result<bool, AllocError>
        ensures { IfOk result (FillsSlot (read_of before.entry) self.now.slots.items from) }
    {
        let slot = from.slot;
        for index in from.index..self.lines_in(slot) {
            if self.is_filled(before, Position { slot, index })? {
                return Ok(true);
            }
        }
        Ok(false)
    }

    /// Whether something stands on the line at a place.
    fn is_filled(&self, before: Before<'_, 'x>, at: Position) -> Result<bool, AllocError>
        ensures { IfOk result (TellsAt is_filled (read_of before.entry) self.now.slots.items at) }
    {
        let Some(line) = self.seen(before, at) else {
            return Ok(false);
        };
        if !line.is_bare() {
            return Ok(true);
        }
        Ok(self.look_at(before, at)?.has_comment)
    }

    /// Whether there is a line at a place that is no comment line.
    fn is_no_comment(&self, before: Before<'_, 'x>, at: Position) -> Result<bool, AllocError>
        ensures { IfOk result (TellsAt is_no_comment (read_of before.entry) self.now.slots.items at) }
    {
        let Some(line) = self.seen(before, at) else {
            return Ok(false);
        };
        if !line.is_bare() {
            return Ok(true);
        }
        Ok(!self.look_at(before, at)?.has_comment)
    }

    /// Whether the line at a place is a header.
    fn is_header_at(&self, before: Before<'_, 'x>, at: Position) -> bool
        ensures { TellsAt is_header_line (read_of before.entry) self.now.slots.items at result }
    {
        match self.seen(before, at) {
            Some(line) => line.is_header(),
            None => false,
        }
    }

    /// The whitespace with which a header line begins that is put in at a place: that of the last one above with as many parts.
    fn header_ws(
        &self,
        before: Before<'_, 'x>,
        at: Position,
        address: &Address,
    ) -> Result<Leaf<'x>, AllocError>
        ensures { IfOk result (BeginsHeader address.now (read_of before.entry) self.now.slots.items at) }
    {
        let parts = names_in(address.steps());
        match self.landmark(before, at, Landmark::Parts(parts))? {
            Some(other) => Ok(self.look_at(before, other)?.ws),
            None => Ok(Leaf::EMPTY),
        }
    }

    /// Puts a header line in at the end of the text, behind a blank line where one is due.
    fn add_at_end(
        &mut self,
        before: Before<'_, 'x>,
        new: NewHeader<'_, 'x>,
    ) -> Result<bool, AllocError>
        ensures rest { OnOk result (KeepsTexts self.old self.new) }
        ensures put { let it = new.entry in
            IfOk result (PutsAtEnd it.at.now it.brackets it.spelled.now (read_of before.entry) self.old self.new) }
    {
        let ws = self.header_ws(before, self.text_end(), new.at)?;
        if !self.is_blank_due(before)? {
            return self.add_last(before, new, ws);
        }
        if !self.put_blank(before)? {
            return Ok(false);
        }
        self.add_last(before, new, ws)
    }

    /// Puts a blank line in before the last line, which has no bytes.
    fn put_blank(&mut self, before: Before<'_, 'x>) -> Result<bool, AllocError>
        ensures rest { OnOk result (KeepsTexts self.old self.new) }
        ensures wrote { IfOk result (λ done. done ≡ true → self.new.has_written_blank ≡ true) }
        ensures put { let style = leaf_text self.old.style in
            let text = text_of self.old.texts.source in
            IfOk result (PutsBlank style text (read_of before.entry) self.old.slots.items self.new.slots.items) }
    {
        let Some(last) = self.last_line() else {
            return Ok(false);
        };
        self.has_written_blank = true;
        let blank = Line::new(self.alloc(), None, None, Expr::Blank, self.style)?;
        self.put(before, last, blank)
    }

    /// Whether a blank line parts a new last section from what stands above it: the last line has no bytes, and may become a blank one,
    /// the line above is not blank, and the last header line, with the comment lines above it, does not stand directly behind another
    /// or a key.
    fn is_blank_due(&self, before: Before<'_, 'x>) -> Result<bool, AllocError>
        ensures { IfOk result (TellsBlankDue (read_of before.entry) self.now) }
    {
        if !self.may_write_blank() {
            return Ok(false);
        }
        let Some(last) = self.last_line() else {
            return Ok(false);
        };
        if !self.has_no_bytes(last) {
            return Ok(false);
        }
        if !self.ends_filled(before, last)? {
            return Ok(false);
        }
        Ok(!self.is_close(before, last)?)
    }

    /// Whether a blank line may be written: none was, and the text before the edits ends in a newline.
    fn may_write_blank(&self) -> bool
        ensures { result ≡ may_write_blank self.now }
    {
        !self.has_written_blank && self.ended()
    }

    /// Whether the text before the edits ends in a newline.
    fn ended(&self) -> bool
        ensures { result ≡ ends_in_newline (text_of self.now.texts.source) }
    {
        let source = self.texts.source;
        let end = source.len();
        let last = Span {
            start: end.saturating_sub(1),
            end,
        };
        source.holds(last) && source.slice(last) == "\n"
    }

    /// Whether there is a line before a place, and the last one there is not blank.
    fn ends_filled(&self, before: Before<'_, 'x>, place: Position) -> Result<bool, AllocError>
        ensures { IfOk result (TellsFilled (read_of before.entry) self.now.slots.items place) }
    {
        match self.landmark(before, place, Landmark::Line)? {
            Some(above) => self.is_filled(before, above),
            None => Ok(false),
        }
    }

    /// Whether the last header line before a place, with the comment lines directly above it, stands directly behind a header or a key.
    fn is_close(&self, before: Before<'_, 'x>, place: Position) -> Result<bool, AllocError>
        ensures { IfOk result (TellsClose (read_of before.entry) self.now.slots.items place) }
    {
        let Some(header) = self.landmark(before, place, Landmark::Header)? else {
            return Ok(false);
        };
        match self.landmark(before, header, Landmark::NoComment)? {
            Some(line) => Ok(self.is_entry_at(before, line)),
            None => Ok(false),
        }
    }

    /// Whether the line at a place has a key or a header.
    fn is_entry_at(&self, before: Before<'_, 'x>, at: Position) -> bool
        ensures { TellsAt is_entry_line (read_of before.entry) self.now.slots.items at result }
    {
        match self.seen(before, at) {
            Some(line) => !line.is_bare(),
            None => false,
        }
    }
}
