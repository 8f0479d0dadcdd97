//! `section` and `element`: a header line of a new table, or of a new element of an array of tables.
ghost use Rattle.std.specs.Prelude.{◌≡◌, IfOk, IsTrue, List, OnOk, false, map, string_bytes, true};
ghost use Rattle.toml_text.specs.Source.{text_of};
ghost use Rattle.toml_layout.specs.NewKeys.{HasParts};
ghost use Rattle.toml_layout.specs.OpenOutlines.{leaf_text};
ghost use Rattle.toml_working.specs.Headers.{innermost};
ghost use Rattle.toml_working.specs.NextHeaders.{FindsNext, FindsPlace, WalksPast, WalksSlot};
ghost use Rattle.toml_working.specs.PuttingHeaders.{AddsPlainly, FindsEnd, HasNoBytesAt, IsHeaderOf, PutsHeader, PutsLast, name_texts, up_to};
ghost use Rattle.toml_working.specs.AddingHeaders.{LaysOutHeader, TreeAddsHeader};
ghost use Rattle.toml_working.specs.Starting.{read_of};
ghost use Rattle.toml_working.specs.Stands.{KeepsRest, KeepsTexts};
ghost use Rattle.toml_working.specs.declared.sections.Walk.TheVariants as walks;

use crate::lines::{Line, Seen, Slot};
use crate::working::{Before, Position, Tree};
use std::alloc::{AllocError, Global};
use toml_layout::{Brackets, Expr, Header, Key, Layout, Leaf};
use toml_names::{Address, Place, Step};
use toml_units::Unit;

/// A header line that is to be put in.
#[derive(Clone, Copy)]
pub struct NewHeader<'a, 'x> {
    /// Where its table or element stands.
    pub at: &'a Address,
    pub brackets: Brackets,
    /// The spellings of the steps of the address.
    pub spelled: &'x [String],
}

/// What stands above the table or the element of a header line that is to be put in.
#[derive(Drop)]
pub struct Above {
    /// The address right above its own.
    pub at: Address,
    /// The place that the document's names have for it.
    pub named: Option<Place>,
    /// The innermost element of an array of tables there or above, if there is one, and its place by the same names.
    pub element: Option<Address>,
    pub near: Option<Place>,
}

/// How far a walk through the lines has come that looks for the first header line behind those of an element.
#[derive(Clone, Copy)]
enum Walk {
    /// No header line of the element was met yet.
    Before,
    /// The last header line that was met is one of the element.
    Within,
    /// The first header line behind the last one of the element.
    Behind(Position),
    /// The first header line behind the last one of the element, where it begins another element of the array: no line of this one follows.
    Ended(Position),
}

impl<'x> Tree<'x> {
    /// Puts a header line in. By layout `Plain` it goes before the first header line behind those of the innermost element of an array
    /// of tables in which it is to stand, else to the end of the text. By layout `Follow` it goes behind the last section of its family,
    /// where more than blank lines follow there; else to the end, and a blank line may go before it. It answers `false` where a line's
    /// value stands above it.
    pub fn add_header(
        &mut self,
        before: Before<'_, 'x>,
        above: &Above,
        new: NewHeader<'_, 'x>,
    ) -> Result<bool, AllocError>
        ensures rest { OnOk result (KeepsTexts self.old self.new) }
        ensures put { let it = new.entry in
            let element = above.now.element in
            IfOk result (TreeAddsHeader above.now.at element it.at.now it.brackets it.spelled.now (read_of before.entry) self.old self.new) }
    {
        if self.value_line(before, above.named, &above.at).is_some() {
            return Ok(false);
        }
        self.add_laid_out(before, above, new)
    }

    /// Puts a header line in by the layout of the tree.
    fn add_laid_out(
        &mut self,
        before: Before<'_, 'x>,
        above: &Above,
        new: NewHeader<'_, 'x>,
    ) -> Result<bool, AllocError>
        ensures rest { OnOk result (KeepsTexts self.old self.new) }
        ensures put { let it = new.entry in
            let element = above.now.element in
            IfOk result (LaysOutHeader above.now.at element it.at.now it.brackets it.spelled.now (read_of before.entry) self.old self.new) }
    {
        match self.texts.layout {
            Layout::Plain => self.add_plainly(before, above, new),
            Layout::Follow => self.add_beside(before, above, new),
        }
    }

    /// Puts a header line in by layout `Plain`.
    fn add_plainly(
        &mut self,
        before: Before<'_, 'x>,
        above: &Above,
        new: NewHeader<'_, 'x>,
    ) -> Result<bool, AllocError>
        ensures rest { OnOk result (KeepsRest self.old self.new) }
        ensures put { let it = new.entry in
            let style = leaf_text self.old.style in
            let text = text_of self.old.texts.source in
            IfOk result (AddsPlainly above.now.element it.at.now it.brackets it.spelled.now style text (read_of before.entry) self.old.slots.items self.new.slots.items) }
    {
        match self.next_header(before, above) {
            Some(next) => self.put_header(before, next, new, Leaf::EMPTY),
            None => self.add_last(before, new, Leaf::EMPTY),
        }
    }

    /// The header line before which another goes by layout `Plain`, if that does not go at the end of the text.
    fn next_header(&self, before: Before<'_, 'x>, above: &Above) -> Option<Position>
        ensures { FindsPlace above.now.element before.entry.units.now self.now.slots.items result }
    {
        match &above.element {
            Some(element) => self.behind_element(before, above.near, element),
            None => None,
        }
    }

    /// Puts a header line in before the line at a place, with this whitespace to begin with.
    pub(crate) fn put_header(
        &mut self,
        before: Before<'_, 'x>,
        at: Position,
        new: NewHeader<'_, 'x>,
        ws: Leaf<'x>,
    ) -> Result<bool, AllocError>
        ensures rest { OnOk result (KeepsRest self.old self.new) }
        ensures put { let it = new.entry in
            let style = leaf_text self.old.style in
            IfOk result (PutsHeader it.at.now it.brackets (leaf_text ws.entry) it.spelled.now style (read_of before.entry) at self.old.slots.items self.new.slots.items) }
    {
        let line = new.line(self.alloc(), self.style)?;
        self.put(before, at, line.beginning_as(ws, None))
    }

    /// Puts a header line in before the last line where that has no bytes, else behind it.
    pub(crate) fn add_last(
        &mut self,
        before: Before<'_, 'x>,
        new: NewHeader<'_, 'x>,
        ws: Leaf<'x>,
    ) -> Result<bool, AllocError>
        ensures rest { OnOk result (KeepsRest self.old self.new) }
        ensures put { let it = new.entry in
            let style = leaf_text self.old.style in
            let text = text_of self.old.texts.source in
            IfOk result (PutsLast it.at.now it.brackets (leaf_text ws.entry) it.spelled.now style text (read_of before.entry) self.old.slots.items self.new.slots.items) }
    {
        let Some(last) = self.last_line() else {
            return Ok(false);
        };
        if self.has_no_bytes(last) {
            return self.put_header(before, last, new, ws);
        }
        let newline = self.newline_behind(before, last)?;
        let line = new.line(self.alloc(), newline)?;
        self.put(before, last.next(), line.beginning_as(ws, None))
    }

    /// The last line.
    pub(crate) fn last_line(&self) -> Option<Position>
        ensures { FindsEnd self.now.slots.items result }
    {
        for slot in (0..self.slots.len()).rev() {
            if let Some(index) = self.slots[slot].count().checked_sub(1) {
                return Some(Position { slot, index });
            }
        }
        None
    }

    /// Whether the line at a place has no bytes, and ends in no newline.
    pub(crate) fn has_no_bytes(&self, at: Position) -> bool
        ensures { HasNoBytesAt self.now.slots.items at result }
    {
        match self.slots.get(at.slot) {
            Some(slot) => slot.has_no_bytes(at.index),
            None => false,
        }
    }

    /// The first header line behind the last one that stands at the element or below it. `named` is the place that the
    /// document's names have for the element.
    fn behind_element(
        &self,
        before: Before<'_, 'x>,
        named: Option<Place>,
        element: &Address,
    ) -> Option<Position>
        ensures { FindsNext element.now before.entry.units.now self.now.slots.items result }
    {
        let mut walk = Walk::Before;
        for slot in self.first_slot(before, named, element, true)..self.slots.len() {
            walk = self.slots[slot].walked(before.units, slot, element, walk);
            if let Walk::Ended(next) = walk {
                return Some(next);
            }
        }
        match walk {
            Walk::Behind(next) | Walk::Ended(next) => Some(next),
            Walk::Before | Walk::Within => None,
        }
    }
}

impl Slot<'_> {
    /// Goes on with a walk through its lines.
    fn walked<'a>(&'a self, units: &'a [Unit], slot: usize, element: &Address, walk: Walk) -> Walk
        ensures { WalksSlot element.now units.now self.now slot walk result }
    {
        let mut walk = walk;
        for index in 0..self.count() {
            let Some(line) = self.seen(units, index) else {
                return walk;
            };
            if line.is_header() {
                walk = walk.past(line, element, Position { slot, index });
            }
        }
        walk
    }
}

impl Walk {
    /// The walk past a header line at a place.
    fn past(self, line: Seen<'_>, element: &Address, at: Position) -> Walk
        ensures { WalksPast element.now line.entry at self result }
    {
        if let Walk::Ended(_) = self {
            return self;
        }
        if line.is_below(element) {
            return Walk::Within;
        }
        match self {
            Walk::Before => Walk::Before,
            Walk::Within => Walk::behind(at, line.begins_later(element)),
            Walk::Behind(next) => Walk::behind(next, line.begins_later(element)),
            Walk::Ended(_) => self,
        }
    }

    /// The walk behind the last header line of the element: this is the first one there, and `ends` tells whether no line of it follows.
    fn behind(next: Position, ends: bool) -> Walk
        ensures ended { ends ≡ true → result ≡ walks.Ended next }
        ensures behind { ends ≡ false → result ≡ walks.Behind next }
    {
        if ends {
            Walk::Ended(next)
        } else {
            Walk::Behind(next)
        }
    }
}

impl<'x> NewHeader<'_, 'x> {
    /// The line, with this newline: the names of the address between brackets, indices left out.
    pub(crate) fn line(self, alloc: Global, newline: Leaf<'x>) -> Result<Line<'x>, AllocError>
        ensures { let it = self.entry in
            IfOk result (IsHeaderOf it.at.now it.brackets it.spelled.now (leaf_text newline.entry)) }
    {
        let header = Header {
            brackets: self.brackets,
            before: Leaf::EMPTY,
            key: names_key(alloc, self.at, self.spelled)?,
            after: Leaf::EMPTY,
        };
        let address = self.at.copy(alloc)?;
        Line::new(alloc, Some(address), None, Expr::Header(header), newline)
    }
}

/// The key of the names of an address, by the spellings of its steps; indices are left out.
fn names_key<'t>(alloc: Global, at: &Address, spelled: &'t [String]) -> Result<Key<'t>, AllocError>
    ensures { IfOk result (HasParts (name_texts at.now (map string_bytes spelled.now))) }
{
    let mut key = Key::none(alloc);
    let mut first = true;
    for (place, step) in at.steps().iter().enumerate() {
        let Some(text) = spelled.get(place) else {
            return Ok(key);
        };
        match step {
            Step::Name(_) => {
                key.push(first, text.as_str())?;
                first = false;
            }
            Step::Index(_) => {}
        }
    }
    Ok(key)
}

/// The element at the address, or the innermost one above it.
pub fn innermost_element(alloc: Global, at: &Address) -> Result<Option<Address>, AllocError>
    ensures { IfOk result (λ found. found ≡ innermost at.now) }
{
    let count = steps_to_index(at.steps());
    if count == 0 {
        return Ok(None);
    }
    let mut steps = at.copy(alloc)?.into_steps();
    steps.truncate(count);
    Ok(Some(Address::of(steps)))
}

/// How many steps there are up to the last index, it among them; none where there is no index.
fn steps_to_index(steps: &[Step]) -> usize
    ensures { innermost steps.now ≡ up_to result steps.now }
{
    let mut count = 0;
    for (place, step) in steps.iter().enumerate() {
        match step {
            Step::Index(_) => count = place + 1,
            Step::Name(_) => {}
        }
    }
    count
}
