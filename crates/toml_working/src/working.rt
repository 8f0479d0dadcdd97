//! Where things stand in the working tree.
ghost use Rattle.std.specs.Prelude.{◌≡◌, ◌+◌, ◌<◌, ◌^◌, List, IfOk, IfSome, true};
ghost use Rattle.toml_text.specs.Source.{text_of};
ghost use Rattle.toml_working.specs.Starting.{AreFacts, IsAsRead, IsReadOf};
ghost use Rattle.toml_working.specs.Putting.{IsLastAt};
ghost use Rattle.toml_working.specs.Placing.{FindsLast, FindsRootEnd, IsOfRoot, PassesSlot};
ghost use Rattle.toml_working.specs.RemovingIn.{CountsBase};
ghost use Rattle.toml_working.specs.Seeing.{CountsSteps, FindsAny, FindsHeader, FindsHeaderIn, FindsHolder, FindsLine, FindsTable, FindsValue, HoldsNone, MeetsHeader, SeesAt};
ghost use Rattle.toml_working.specs.TablePlaces.{FindsDotted, FindsDottedIn, FindsFirst, FindsImplied, FindsImpliedIn, MeetsDotted};

use crate::elements::Elements;
use crate::lines::{Line, Seen, Slot, Sought};
use crate::placing::Guesses;
use crate::reading::LineFacts;
use crate::starting::{kept_slots, style_of};
use std::alloc::{AllocError, Global};
use toml_layout::{KnownLine, Leaf, Texts};
use toml_names::{Address, Place};
use toml_units::Unit;

/// The place of a line: the slot, and the index among the lines that stand there.
#[derive(Clone, Copy)]
pub struct Position {
    pub slot: usize,
    pub index: usize,
}

impl Position {
    /// The place behind it.
    pub(crate) fn next(self) -> Position
        ensures slot { result.slot ≡ self.slot }
        ensures index { self.index + 1 < 2 ^ 64 → result.index ≡ self.index + 1 }
    {
        Position {
            slot: self.slot,
            index: self.index.saturating_add(1),
        }
    }
}

/// Where a table stands that is no value of a line, nor inside one.
#[derive(Clone, Copy)]
pub enum TablePlace {
    /// The header line that makes it.
    Header(Position),
    /// A line whose dotted key makes it.
    Dotted(Position),
    /// The first header line below it, where no line makes it.
    Implicit(Position),
}

/// The document before the edits, as the working tree looks at it.
#[derive(Clone, Copy)]
pub struct Before<'a, 'x> {
    pub known: &'a [KnownLine<'x>],
    pub units: &'a [Unit],
}

/// The working tree. There is a slot for each line of the document, and in it the lines that now stand there.
///
/// It holds neither the document nor its names: each lifetime that its type would name for them makes all its methods dearer
/// to prove. Who asks for a line or a table hands in the document, and says where the names have it.
#[derive(Drop)]
pub struct Tree<'x> {
    pub texts: Texts<'x>,
    pub slots: Vec<Slot<'x>>,
    /// Which elements of arrays of tables are gone. All addresses here are uncut.
    pub elements: Elements,
    /// The newline of new lines: that of the document's first line, or LF where that has none.
    pub style: Leaf<'x>,
    /// Where the last line with a key and a value before the first header was put in, if one was: a guess that is tested.
    pub root_end: Position,
    /// The line behind which the last one was put in, in the section of a table: a guess that is tested.
    pub section_end: Position,
    /// Whether a blank line was written before a header line at the end of the text.
    pub has_written_blank: bool,
    /// Where to look for what was put in or renamed: guesses that are tested.
    pub guesses: Guesses,
}

impl<'x> Tree<'x> {
    /// The tree of a document that is as it was.
    pub fn of(
        texts: Texts<'x>,
        before: Before<'_, 'x>,
        facts: &[LineFacts],
    ) -> Result<Tree<'x>, AllocError>
        requires read { IsReadOf (text_of texts.source) before }
        requires facts { AreFacts before facts.now }
        ensures { IfOk result (IsAsRead texts.entry before.entry) }
    {
        Ok(Tree {
            texts,
            slots: kept_slots(texts.alloc, before.units, facts)?,
            elements: Elements::all(texts.alloc),
            style: style_of(texts.alloc, before.known)?,
            root_end: Position { slot: 0, index: 0 },
            section_end: Position { slot: 0, index: 0 },
            has_written_blank: false,
            guesses: Guesses::none(texts.alloc),
        })
    }

    /// The memory for what is new in the tree.
    pub(crate) fn alloc(&self) -> Global {
        self.texts.alloc
    }

    /// The line at a place, to be looked at.
    pub(crate) fn seen<'a>(&'a self, before: Before<'a, 'x>, at: Position) -> Option<Seen<'a>>
        ensures { SeesAt before.entry.units.now self.now.slots.items at result }
    {
        self.slots.get(at.slot)?.seen(before.units, at.index)
    }

    /// Whether the line at a place is the last one, which ends in no newline.
    pub(crate) fn is_last(&self, at: Position) -> bool
        ensures { IsLastAt self.now.slots.items at result }
    {
        match self.slots.get(at.slot) {
            Some(slot) => slot.is_last(at.index),
            None => false,
        }
    }

    /// The line at a place, to be changed.
    pub(crate) fn line_mut(
        &mut self,
        before: Before<'_, 'x>,
        at: Position,
    ) -> Result<Option<&mut Line<'x>>, AllocError> {
        let alloc = self.texts.alloc;
        let Some(slot) = self.slots.get_mut(at.slot) else {
            return Ok(None);
        };
        slot.open(alloc, before.units)?;
        Ok(slot.line_mut(at.index))
    }

    /// How many steps the address of the line at a place has.
    pub(crate) fn depth(&self, before: Before<'_, 'x>, at: Position) -> usize
        ensures { CountsSteps before.entry.units.now self.now.slots.items at result }
    {
        match self.seen(before, at) {
            Some(line) => line.steps(),
            None => 0,
        }
    }

    /// How many steps the address of the table has in which the line at a place stands.
    pub(crate) fn base(&self, before: Before<'_, 'x>, at: Position) -> usize
        ensures { CountsBase before.entry.units.now self.now.slots.items at result }
    {
        match self.seen(before, at) {
            Some(line) => line.base.unwrap_or(0),
            None => 0,
        }
    }

    /// The line whose value stands at the address, or holds what stands there. `named` is the place that the document's names
    /// have for the address.
    pub(crate) fn value_line(
        &self,
        before: Before<'_, 'x>,
        named: Option<Place>,
        at: &Address,
    ) -> Option<Position>
        ensures { FindsValue at.now before.entry.units.now self.now.slots.items result }
    {
        if let Some(near) = self.near_value(before, named, at) {
            return Some(near);
        }
        if self.is_table(before, named, at) {
            return None;
        }
        self.sought_value(before, at)
    }

    /// The line whose value stands at the address, or holds what stands there, by the place that the document's names have for it.
    fn near_value(
        &self,
        before: Before<'_, 'x>,
        named: Option<Place>,
        at: &Address,
    ) -> Option<Position>
        ensures { FindsHolder at.now before.entry.units.now self.now.slots.items result }
    {
        match named {
            Some(Place::KeyVal(line)) | Some(Place::Inside(line)) => {
                self.line_in(before, line, Sought::Holder, at)
            }
            _ => None,
        }
    }

    /// Whether what stands at the address is the root, or a table or an array of tables that a line makes, or has below it,
    /// where the document's names have it: then no value holds it.
    fn is_table(&self, before: Before<'_, 'x>, named: Option<Place>, at: &Address) -> bool
        ensures { result ≡ true → HoldsNone at.now before.entry.units.now self.now.slots.items }
    {
        match named {
            Some(Place::Tables(line)) | Some(Place::Implicit(line)) => {
                self.line_in(before, line, Sought::HeaderBelow, at)
                    .is_some()
            }
            _ => at.steps().is_empty() || self.near_table(before, named, at).is_some(),
        }
    }

    /// The line whose value stands at the address, or holds what stands there, by all lines.
    fn sought_value(&self, before: Before<'_, 'x>, at: &Address) -> Option<Position>
        ensures { FindsAny at.now before.entry.units.now self.now.slots.items result }
    {
        for slot in 0..self.slots.len() {
            if let Some(found) = self.line_in(before, slot, Sought::Holder, at) {
                return Some(found);
            }
        }
        None
    }

    /// The first line of a slot that is what is sought.
    fn line_in(
        &self,
        before: Before<'_, 'x>,
        slot: usize,
        what: Sought,
        at: &Address,
    ) -> Option<Position>
        ensures finds { FindsLine what at.now before.entry.units.now self.now.slots.items slot result }
        ensures first { FindsFirst what at.now before.entry.units.now self.now.slots.items slot result }
        ensures low { IfSome result (λ at. at.index + 1 < 2 ^ 64) }
    {
        let index = self.slots.get(slot)?.find(before.units, what, at)?;
        Some(Position { slot, index })
    }

    /// Where the table at the address stands. `named` is the place that the document's names have for the address.
    pub(crate) fn table_place(
        &self,
        before: Before<'_, 'x>,
        named: Option<Place>,
        at: &Address,
    ) -> Option<TablePlace>
        ensures finds { FindsTable at.now before.entry.units.now self.now.slots.items result }
        ensures header { FindsHeader at.now before.entry.units.now self.now.slots.items result }
        ensures dotted { FindsDotted at.now before.entry.units.now self.now.slots.items result }
        ensures implied { FindsImplied at.now before.entry.units.now self.now.slots.items result }
    {
        match self.near_table(before, named, at) {
            Some(place) => Some(place),
            None => self.sought_table(before, at),
        }
    }

    /// Where the table at the address stands, by the place that the document's names have for it.
    pub(crate) fn near_table(
        &self,
        before: Before<'_, 'x>,
        named: Option<Place>,
        at: &Address,
    ) -> Option<TablePlace>
        ensures finds { FindsTable at.now before.entry.units.now self.now.slots.items result }
        ensures meets { MeetsHeader at.now before.entry.units.now self.now.slots.items result }
        ensures dotted { MeetsDotted at.now before.entry.units.now self.now.slots.items result }
    {
        match named {
            Some(Place::Header(line)) => self.header_in(before, line, at),
            Some(Place::Dotted(line)) => self.dotted_in(before, line, at),
            _ => None,
        }
    }

    /// Where the table at the address stands, by all lines: a header comes before a dotted key, and that before a longer
    /// header.
    fn sought_table(&self, before: Before<'_, 'x>, at: &Address) -> Option<TablePlace>
        ensures finds { FindsTable at.now before.entry.units.now self.now.slots.items result }
        ensures header { FindsHeader at.now before.entry.units.now self.now.slots.items result }
        ensures dotted { FindsDotted at.now before.entry.units.now self.now.slots.items result }
        ensures implied { FindsImplied at.now before.entry.units.now self.now.slots.items result }
    {
        let mut dotted = None;
        let mut implicit = None;
        for slot in 0..self.slots.len() {
            if let Some(header) = self.header_in(before, slot, at) {
                return Some(header);
            }
            if dotted.is_none() {
                dotted = self.dotted_in(before, slot, at);
            }
            if implicit.is_none() {
                implicit = self.implicit_in(before, slot, at);
            }
        }
        dotted.or(implicit)
    }

    /// The header line of a slot that makes the table.
    fn header_in(&self, before: Before<'_, 'x>, slot: usize, at: &Address) -> Option<TablePlace>
        ensures finds { FindsTable at.now before.entry.units.now self.now.slots.items result }
        ensures header { FindsHeaderIn at.now before.entry.units.now self.now.slots.items slot result }
    {
        match self.line_in(before, slot, Sought::Header, at) {
            Some(place) => Some(TablePlace::Header(place)),
            None => None,
        }
    }

    /// The line of a slot whose dotted key makes the table.
    fn dotted_in(&self, before: Before<'_, 'x>, slot: usize, at: &Address) -> Option<TablePlace>
        ensures finds { FindsTable at.now before.entry.units.now self.now.slots.items result }
        ensures meets { MeetsHeader at.now before.entry.units.now self.now.slots.items result }
        ensures dotted { FindsDottedIn at.now before.entry.units.now self.now.slots.items slot result }
    {
        let place = self.line_in(before, slot, Sought::Dotted, at)?;
        Some(TablePlace::Dotted(place))
    }

    /// The first header line of a slot that stands below the table.
    fn implicit_in(&self, before: Before<'_, 'x>, slot: usize, at: &Address) -> Option<TablePlace>
        ensures finds { FindsTable at.now before.entry.units.now self.now.slots.items result }
        ensures implied { FindsImpliedIn at.now before.entry.units.now self.now.slots.items slot result }
    {
        let place = self.line_in(before, slot, Sought::HeaderBelow, at)?;
        Some(TablePlace::Implicit(place))
    }

    /// The last line with a key and a value from the place on, before the next header line.
    pub(crate) fn last_pair(&self, before: Before<'_, 'x>, from: Position) -> Option<Position>
        ensures { FindsLast before.entry.units.now self.now.slots.items from result }
    {
        let mut last = None;
        let mut skip = from.index;
        for slot in from.slot..self.slots.len() {
            let (found, ends) = self.pairs_in(before, slot, skip, last);
            if ends {
                return found;
            }
            last = found;
            skip = 0;
        }
        last
    }

    /// The last line with a key and a value before the first header line. All lines are gone through where one of the root's is
    /// not found from the guess on.
    pub(crate) fn last_root_pair(&self, before: Before<'_, 'x>) -> Option<Position>
        ensures { FindsRootEnd before.entry.units.now self.now.slots.items result }
    {
        match self.last_pair(before, self.root_end) {
            Some(found) if self.is_of_root(before, found) => Some(found),
            _ => self.last_pair(before, Position { slot: 0, index: 0 }),
        }
    }

    /// Whether the line at a place has a key and a value and stands in the root.
    fn is_of_root(&self, before: Before<'_, 'x>, at: Position) -> bool
        ensures { result ≡ true → IsOfRoot before.entry.units.now self.now.slots.items at }
    {
        match self.seen(before, at) {
            Some(line) => matches!(line.base, Some(0)),
            None => false,
        }
    }

    /// The last line of a slot with a key and a value, before a header line of it, or the last one before the slot; and whether
    /// there is a header line. So many lines are passed over.
    fn pairs_in(
        &self,
        before: Before<'_, 'x>,
        slot: usize,
        skip: usize,
        last: Option<Position>,
    ) -> (Option<Position>, bool)
        ensures { PassesSlot before.entry.units.now self.now.slots.items slot skip last result.1 result.0 }
    {
        let Some(lines) = self.slots.get(slot) else {
            return (last, true);
        };
        let mut found = last;
        for index in skip..lines.count() {
            let Some(line) = lines.seen(before.units, index) else {
                return (found, false);
            };
            if line.is_header() {
                return (found, true);
            }
            found = line.pair_at(Position { slot, index }, found);
        }
        (found, false)
    }
}
