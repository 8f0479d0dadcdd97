//! `insert`: an element of an array, a pair of an inline table, or a line with a key and a value.
ghost use Rattle.std.specs.Prelude.{◌≡◌, ◌++◌, ◌<◌, ◌∷◌, IfOk, OnOk, drop, false, is_some, length, take, true};
ghost use Rattle.toml_layout.specs.KnownLines.{lines_known};
ghost use Rattle.toml_layout.specs.OpenOutlines.{leaf_text, value};
ghost use Rattle.toml_working.specs.Putting.{EndsOne, EndsSlot, EndsSlots, IsElsewhere, IsPairLine};
ghost use Rattle.toml_working.specs.Putting.{PutsSlot, PutsSlots, PutsThere, TreeEndsBefore, TreeInserts, TreeInsertsFirst, TreePutsBehind};
ghost use Rattle.toml_working.specs.Headers.{element_of};
ghost use Rattle.toml_working.specs.HeldLines.{PutsInValue, PutsNoElement, RefusesElement};
ghost use Rattle.toml_working.specs.DottedTables.{TreePutsDotted};
ghost use Rattle.toml_working.specs.ImpliedTables.{TreePutsAhead};
ghost use Rattle.toml_working.specs.InTables.{TreePutsIn};
ghost use Rattle.toml_working.specs.Sections.{TreeInsertsBelow};
ghost use Rattle.toml_working.specs.Starting.{read_of};
ghost use Rattle.toml_working.specs.Stands.{KeepsRest};

use crate::lines::{Line, Slot};
use crate::working::{Before, Position, TablePlace, Tree};
use std::alloc::{AllocError, Global};
use toml_layout::{Expr, Inside, KeyVal, KnownLine, Layout, Leaf, Texts, Value};
use toml_names::{Address, Place, Step};
use toml_units::Unit;

/// A value for an address, and the spellings of the steps of it.
#[derive(Drop)]
pub(crate) struct Insertion<'a, 'x> {
    at: &'a Address,
    pub(crate) spelled: &'x [String],
    new: Value<'x>,
}

impl<'x> Tree<'x> {
    /// Puts a value in at the address; `spelled` are the spellings of its steps, and `named` is the place that the document's
    /// names have for the parent. Of a parent that is a table or an array it answers `false` where that is an array of tables.
    pub fn insert(
        &mut self,
        before: Before<'_, 'x>,
        named: Option<Place>,
        parent: &Address,
        at: &Address,
        spelled: &'x [String],
        new: Value<'x>,
    ) -> Result<bool, AllocError>
        ensures rest { OnOk result (KeepsRest self.old self.new) }
        ensures root { OnOk result (TreeInserts at.now spelled.now (value new.entry) (read_of before.entry) self.old self.new) }
        ensures value { let read = read_of before.entry in
            IfOk result (PutsInValue parent.now at.now spelled.now new.entry read self.old self.new) }
        ensures below { OnOk result (TreePutsIn parent.now at.now spelled.now (value new.entry) (read_of before.entry) self.old self.new) }
        ensures element { IfOk result (PutsNoElement parent.now at.now (read_of before.entry) self.old) }
    {
        let insertion = Insertion { at, spelled, new };
        if is_at_root(at) {
            self.insert_at_root(before, insertion)
        } else {
            self.insert_below(before, named, parent, insertion)
        }
    }

    /// Puts a value in at an address that is no name at the root.
    fn insert_below(
        &mut self,
        before: Before<'_, 'x>,
        named: Option<Place>,
        parent: &Address,
        insertion: Insertion<'_, 'x>,
    ) -> Result<bool, AllocError>
        ensures rest { OnOk result (KeepsRest self.old self.new) }
        ensures value { let it = insertion.entry in
            IfOk result (PutsInValue parent.now it.at.now it.spelled.now it.new (read_of before.entry) self.old self.new) }
        ensures below { let it = insertion.entry in
            OnOk result (TreePutsIn parent.now it.at.now it.spelled.now (value it.new) (read_of before.entry) self.old self.new) }
        ensures element { IfOk result (PutsNoElement parent.now insertion.entry.at.now (read_of before.entry) self.old) }
    {
        match self.value_line(before, named, parent) {
            Some(place) => {
                let Insertion { at, spelled, new } = insertion;
                self.change_value(before, place, at, Inside::Insert { spelled, new })
            }
            None => self.insert_line(before, named, parent, insertion),
        }
    }

    /// Puts a line in for a name in a table that is no value of a line, and in none.
    fn insert_line(
        &mut self,
        before: Before<'_, 'x>,
        named: Option<Place>,
        parent: &Address,
        insertion: Insertion<'_, 'x>,
    ) -> Result<bool, AllocError>
        ensures rest { OnOk result (KeepsRest self.old self.new) }
        ensures below { let it = insertion.entry in
            OnOk result (TreeInsertsBelow parent.now it.at.now it.spelled.now (value it.new) (read_of before.entry) self.old self.new) }
        ensures dotted { let it = insertion.entry in
            OnOk result (TreePutsDotted parent.now it.at.now it.spelled.now (value it.new) (read_of before.entry) self.old self.new) }
        ensures implied { let it = insertion.entry in
            OnOk result (TreePutsAhead parent.now it.at.now it.spelled.now (value it.new) (read_of before.entry) self.old self.new) }
        ensures element { IfOk result (RefusesElement insertion.entry.at.now) }
    {
        let Some((last, above)) = insertion.at.steps().split_last() else {
            return Ok(false);
        };
        let Step::Name(_) = last else {
            return Ok(false);
        };
        match self.table_place(before, named, parent) {
            Some(TablePlace::Header(header)) => {
                let last = self.last_of_section(before, header.next(), above);
                self.insert_in_section(before, last.unwrap_or(header), above.len(), insertion)
            }
            Some(TablePlace::Dotted(line)) => {
                let base = self.base(before, line);
                let (table, _) = above.split_at(base.min(above.len()));
                let behind = self.table_end(before, line, table, parent);
                self.insert_in_section(before, behind, base, insertion)
            }
            Some(TablePlace::Implicit(header)) => {
                self.insert_ahead(before, header, parent, insertion)
            }
            None => Ok(false),
        }
    }

    /// Puts a line in behind the last one with a key and a value before the first header, or as the first one of the root.
    fn insert_at_root(
        &mut self,
        before: Before<'_, 'x>,
        insertion: Insertion<'_, 'x>,
    ) -> Result<bool, AllocError>
        ensures rest { OnOk result (KeepsRest self.old self.new) }
        ensures root { let it = insertion.entry in
            OnOk result (TreeInserts it.at.now it.spelled.now (value it.new) (read_of before.entry) self.old self.new) }
    {
        match self.last_root_pair(before) {
            Some(behind) => {
                self.root_end = behind;
                self.insert_behind(before, behind, 0, insertion)
            }
            None => self.insert_first(before, insertion),
        }
    }

    /// Puts the first line of the root in: below the comment lines with which the text begins, where these do not belong to what
    /// follows, or before all lines.
    fn insert_first(
        &mut self,
        before: Before<'_, 'x>,
        insertion: Insertion<'_, 'x>,
    ) -> Result<bool, AllocError>
        ensures rest { OnOk result (KeepsRest self.old self.new) }
        ensures first { let it = insertion.entry in
            OnOk result (TreeInsertsFirst it.at.now it.spelled.now (value it.new) (read_of before.entry) self.old self.new) }
    {
        match self.comments_end(before)? {
            Some(behind) => self.insert_behind(before, behind, 0, insertion),
            None => {
                let line = self.pair_line(0, insertion, self.style)?;
                self.put(before, Position { slot: 0, index: 0 }, line)
            }
        }
    }

    /// Puts a line in behind another, laid out as the tree has it; its table's address has `base` steps.
    pub(crate) fn insert_behind(
        &mut self,
        before: Before<'_, 'x>,
        behind: Position,
        base: usize,
        insertion: Insertion<'_, 'x>,
    ) -> Result<bool, AllocError>
        ensures rest { OnOk result (KeepsRest self.old self.new) }
        ensures put { let it = insertion.entry in
            OnOk result (TreePutsBehind it.at.now base it.spelled.now (value it.new) (read_of before.entry) behind self.old self.new) }
    {
        let (ws, equals) = self.laid_out(before, behind)?;
        let newline = self.newline_behind(before, behind)?;
        let line = self.pair_line(base, insertion, newline)?;
        self.put(before, behind.next(), line.beginning_as(ws, equals))
    }

    /// The newline of a line that is put in behind another. Where this one was the last line of the text, it gets the newline
    /// of new lines, and the new one has none.
    pub(crate) fn newline_behind(
        &mut self,
        before: Before<'_, 'x>,
        behind: Position,
    ) -> Result<Leaf<'x>, AllocError>
        ensures rest { OnOk result (KeepsRest self.old self.new) }
        ensures ended { IfOk result (λ newline. TreeEndsBefore (read_of before.entry) behind self.old self.new (leaf_text newline)) }
    {
        if !self.is_last(behind) {
            return Ok(self.style);
        }
        end_at(&mut self.slots, self.texts, before, behind, self.style)?;
        Ok(Leaf::EMPTY)
    }

    /// A line with the key of the steps below its table, whose address has `base` steps.
    pub(crate) fn pair_line(
        &self,
        base: usize,
        insertion: Insertion<'_, 'x>,
        newline: Leaf<'x>,
    ) -> Result<Line<'x>, AllocError>
        ensures { let it = insertion.entry in
            IfOk result (IsPairLine it.at.now base it.spelled.now (value it.new) (leaf_text newline.entry)) }
    {
        let Insertion { at, spelled, new } = insertion;
        let (_, parts) = spelled.split_at(base.min(spelled.len()));
        let expr = Expr::Pair(KeyVal {
            assign: self.texts.assign(parts)?,
            value: new,
        });
        let address = at.copy(self.alloc())?;
        Line::new(self.alloc(), Some(address), Some(base), expr, newline)
    }

    /// Puts a line in at a place: before the one that stands there, or behind the last one of the slot.
    pub(crate) fn put(
        &mut self,
        before: Before<'_, 'x>,
        at: Position,
        line: Line<'x>,
    ) -> Result<bool, AllocError>
        ensures rest { OnOk result (KeepsRest self.old self.new) }
        ensures put { let old = self.old.slots.items in
            let now = self.new.slots.items in
            OnOk result (PutsSlots (read_of before.entry) at line.entry old now) }
        ensures there { let old = self.old.slots.items in
            let now = self.new.slots.items in
            OnOk result (PutsThere (read_of before.entry) at line.entry old now) }
        ensures done { IfOk result (λ done. at.slot < length self.old.slots.items → done ≡ true) }
    {
        self.guesses.put(self.texts.alloc, at.slot, &line)?;
        put_at(&mut self.slots, self.texts.alloc, before, at, line)
    }
}

/// Whether the address is that of a name at the root.
fn is_at_root(at: &Address) -> bool
    ensures no { result ≡ false → IsElsewhere at.now }
    ensures yes { result ≡ true → length at.now ≡ 1 }
    ensures name { result ≡ true → is_some (element_of at.now) ≡ false }
{
    matches!(at.steps(), [Step::Name(_)])
}

/// Puts a line in at a place, if there is such a slot: before the one that stands there, or behind the last one of the slot.
fn put_at<'t>(
    slots: &mut Vec<Slot<'t>>,
    alloc: Global,
    before: Before<'_, 't>,
    at: Position,
    line: Line<'t>,
) -> Result<bool, AllocError>
    ensures put { OnOk result (PutsSlots (read_of before.entry) at line.entry slots.old.items slots.new.items) }
    ensures there { OnOk result (PutsThere (read_of before.entry) at line.entry slots.old.items slots.new.items) }
    ensures done { IfOk result (λ done. at.slot < length slots.old.items → done ≡ true) }
{
    match slots.get_mut(at.slot) {
        Some(slot) => slot.put(alloc, before, at.index, line),
        None => Ok(false),
    }
}

/// Puts a line in among others: before the one with the index, or behind the last one.
fn put_in<'t>(lines: &mut Vec<Line<'t>>, index: usize, line: Line<'t>) -> Result<(), AllocError>
    ensures { OnOk result (lines.new.items ≡ take index lines.old.items ++ line.entry ∷ drop index lines.old.items) }
{
    if index < lines.len() {
        lines.insert(index, line)?;
    } else {
        lines.push(line)?;
    }
    Ok(())
}

/// Gives the line at a place another newline, if there is one.
fn end_at<'t>(
    slots: &mut Vec<Slot<'t>>,
    texts: Texts<'t>,
    before: Before<'_, 't>,
    at: Position,
    newline: Leaf<'t>,
) -> Result<(), AllocError>
    ensures { let read = read_of before.entry in
        OnOk result (EndsSlots (leaf_text newline.entry) texts.entry read at slots.old.items slots.new.items) }
{
    match slots.get_mut(at.slot) {
        Some(slot) => slot.end_in(texts, before, at.index, newline),
        None => Ok(()),
    }
}

/// Gives the line with the index another newline, if there is one.
fn end_one<'t>(
    lines: &mut Vec<Line<'t>>,
    texts: Texts<'t>,
    known: &[KnownLine<'t>],
    index: usize,
    newline: Leaf<'t>,
) -> Result<(), AllocError>
    ensures { let read = lines_known known.now in
        OnOk result (EndsOne (leaf_text newline.entry) texts.entry read index lines.old.items lines.new.items) }
{
    match lines.get_mut(index) {
        Some(line) => line.end_in(texts, known, newline),
        None => Ok(()),
    }
}

impl<'t> Slot<'t> {
    /// Puts a line in among its own: before the one with the index, or behind the last one.
    fn put(
        &mut self,
        alloc: Global,
        before: Before<'_, 't>,
        index: usize,
        line: Line<'t>,
    ) -> Result<bool, AllocError>
        ensures put { OnOk result (PutsSlot (read_of before.entry) index line.entry self.old self.new) }
        ensures done { IfOk result (λ done. done ≡ true) }
    {
        self.open(alloc, before.units)?;
        match self {
            Slot::Lines(lines) => {
                put_in(lines, index, line)?;
                Ok(true)
            }
            Slot::Kept(_) => Ok(false),
        }
    }

    /// Gives its line with the index another newline, if there is one.
    fn end_in(
        &mut self,
        texts: Texts<'t>,
        before: Before<'_, 't>,
        index: usize,
        newline: Leaf<'t>,
    ) -> Result<(), AllocError>
        ensures { let read = read_of before.entry in
            OnOk result (EndsSlot (leaf_text newline.entry) texts.entry read index self.old self.new) }
    {
        self.open(texts.alloc, before.units)?;
        match self {
            Slot::Lines(lines) => end_one(lines, texts, before.known, index, newline),
            Slot::Kept(_) => Ok(()),
        }
    }
}
