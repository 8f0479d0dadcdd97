//! `remove`: elements and pairs in a value, and lines.
ghost use Rattle.std.specs.Prelude.{◌≡◌, IfOk, OnOk, true};
ghost use Rattle.std.specs.List.{list_any};
ghost use Rattle.toml_working.specs.HeldLines.{TakesFromValue};
ghost use Rattle.toml_working.specs.Parents.{IsParent};
ghost use Rattle.toml_working.specs.RemoveStanding.{makes_apart};
ghost use Rattle.toml_working.specs.RemovingBelow.{KeepsOthers, RemovesBelow, RemovesTogether, TellsLeft};
ghost use Rattle.toml_working.specs.RemovingIn.{LeavesElements, RemovesLines, SlotTellsMaker, TakesElement, TakesOutLine, TellsMaker, TellsStays};
ghost use Rattle.toml_working.specs.RemovingTables.{RemovesTable};
ghost use Rattle.toml_working.specs.Seeing.{IsSoughtAt};
ghost use Rattle.toml_working.specs.Starting.{read_of};
ghost use Rattle.toml_working.specs.Stands.{KeepsRest};
ghost use Rattle.toml_working.specs.declared.lines.Line.{Line as WorkingLine};
ghost use Rattle.toml_working.specs.declared.lines.Sought.TheVariants.{Holder};

use crate::lines::{Line, Slot};
use crate::steps::is_element;
use crate::taking::{remove_in, remove_in_slots};
use crate::working::{Before, Position, Tree};
use std::alloc::{AllocError, Global};
use toml_layout::Inside;
use toml_names::{Address, Place, Step};
use toml_units::Unit;

/// What is left of the first removed line that makes the parent, where no line that stays makes it.
#[derive(Drop)]
pub(crate) struct Parent {
    pub(crate) address: Address,
    /// It is left already.
    pub(crate) stays: bool,
}

impl<'x> Tree<'x> {
    /// Takes out what stands at the address. Where it is a table, `flat` says that no table stands in it. It answers `false` at the
    /// only element of an array of tables: without its header there would be no array; and where what stands in the value of a line
    /// is not found there.
    pub fn remove(
        &mut self,
        before: Before<'_, 'x>,
        named: Option<Place>,
        at: &Address,
        flat: bool,
    ) -> Result<bool, AllocError>
        ensures line { OnOk result (RemovesLines at.now (read_of before.entry) self.old self.new) }
        ensures value { IfOk result (TakesFromValue at.now (read_of before.entry) self.old self.new) }
        ensures element { IfOk result (TakesElement at.now (read_of before.entry) self.old) }
        ensures table { IfOk result (RemovesTable at.now flat (read_of before.entry) self.old self.new) }
    {
        match self.value_line(before, named, at) {
            Some(place) => self.remove_value(before, place, at),
            None => self.remove_table(before, named, at, flat),
        }
    }

    /// Takes out the value at the address: the line at the place has it, or holds it.
    fn remove_value(
        &mut self,
        before: Before<'_, 'x>,
        place: Position,
        at: &Address,
    ) -> Result<bool, AllocError>
        ensures line { let read = read_of before.entry in
            OnOk result (IsSoughtAt Holder at.now read self.old.slots.items place → RemovesLines at.now read self.old self.new) }
        ensures value { let read = read_of before.entry in
            IfOk result (λ done. IsSoughtAt Holder at.now read self.old.slots.items place → TakesFromValue at.now read self.old self.new done) }
    {
        if self.depth(before, place) < at.steps().len() {
            self.change_value(before, place, at, Inside::Remove)
        } else {
            self.remove_line(before, place, at)?;
            Ok(true)
        }
    }

    /// Takes out a table or an array of tables, which is no line's value, and in none.
    fn remove_table(
        &mut self,
        before: Before<'_, 'x>,
        named: Option<Place>,
        at: &Address,
        flat: bool,
    ) -> Result<bool, AllocError>
        ensures elements { IfOk result (LeavesElements at.now before.entry.units.now self.old.slots.items) }
        ensures table { IfOk result (RemovesTogether at.now flat (read_of before.entry) self.old self.new) }
    {
        let first = self.first_slot(before, named, at, flat || is_element(at));
        if !self.leaves_elements(before, first, at)? {
            return Ok(false);
        }
        self.remove_lines(before, first, at, flat)?;
        self.elements.take_out(self.texts.alloc, at)?;
        Ok(true)
    }

    /// Takes out the line at the place, whose value stands at the address: no other line is at it or below.
    fn remove_line(
        &mut self,
        before: Before<'_, 'x>,
        place: Position,
        at: &Address,
    ) -> Result<(), AllocError>
        ensures rest { OnOk result (KeepsRest self.old self.new) }
        ensures line { OnOk result (TakesOutLine at.now (read_of before.entry) place self.old self.new) }
    {
        let mut parent = self.parent_of_line(before, at, place)?;
        remove_in(
            &mut self.slots,
            self.texts,
            before,
            place.slot,
            at,
            &mut parent,
        )
    }

    /// The parent of the address of a line. Where this is the table in whose section the line stands, that stays.
    fn parent_of_line(
        &self,
        before: Before<'_, 'x>,
        at: &Address,
        place: Position,
    ) -> Result<Parent, AllocError>
        ensures address { IfOk result (λ parent. IsParent at.now parent.address) }
        ensures stays { let read = read_of before.entry in
            IfOk result (λ parent. TellsStays at.now parent.address read self.now.slots.items place parent.stays) }
    {
        let address = parent_of(self.alloc(), at)?;
        let is_dotted = self.base(before, place) < address.steps().len();
        let stays = !is_dotted || self.is_made_around(before, place.slot, &address, at);
        Ok(Parent { address, stays })
    }

    /// The parent of the address, and whether it is the root, or a line that is not at the address, nor below it, makes it: such a line
    /// is mostly near before the slot.
    fn parent_left(
        &self,
        before: Before<'_, 'x>,
        at: &Address,
        slot: usize,
    ) -> Result<Parent, AllocError>
        ensures address { IfOk result (λ parent. IsParent at.now parent.address) }
        ensures stays { IfOk result (λ parent. TellsLeft at.now before.entry.units.now self.now.slots.items parent.address parent.stays) }
    {
        let address = parent_of(self.alloc(), at)?;
        let stays = address.steps().is_empty() || self.is_made_around(before, slot, &address, at);
        Ok(Parent { address, stays })
    }

    /// Whether a line that is not at the other address, nor below it, makes what is at the address. The slots before this one are asked
    /// first, the nearest before the others.
    fn is_made_around(
        &self,
        before: Before<'_, 'x>,
        slot: usize,
        address: &Address,
        other: &Address,
    ) -> bool
        ensures { TellsMaker address.now other.now before.entry.units.now self.now.slots.items result }
    {
        let (above, behind) = self.slots.split_at(slot.min(self.slots.len()));
        is_made_above(above, before.units, address, other)
            || is_made_in(behind, before.units, address, other)
    }

    /// Whether the address is not that of an element, or another element of its array stays.
    fn leaves_elements(
        &self,
        before: Before<'_, 'x>,
        first: usize,
        at: &Address,
    ) -> Result<bool, AllocError>
        ensures elements { IfOk result (LeavesElements at.now before.entry.units.now self.now.slots.items) }
        ensures others { IfOk result (KeepsOthers at.now) }
    {
        if !is_element(at) {
            return Ok(true);
        }
        let array = parent_of(self.alloc(), at)?;
        Ok(self.is_made_around(before, first, &array, at))
    }

    /// Takes out all lines at the address and below, of which the slot has the first or comes before it. Where no other line makes the
    /// parent, the first of them that does becomes the parent as an empty table.
    fn remove_lines(
        &mut self,
        before: Before<'_, 'x>,
        first: usize,
        at: &Address,
        flat: bool,
    ) -> Result<(), AllocError>
        ensures texts { OnOk result (self.new.texts ≡ self.old.texts) }
        ensures lines { OnOk result (RemovesBelow at.now flat first (read_of before.entry) self.old self.new) }
    {
        let mut parent = self.parent_left(before, at, first)?;
        remove_in_slots(
            &mut self.slots,
            self.texts,
            before,
            first,
            at,
            flat,
            &mut parent,
        )
    }
}

impl<'t> Slot<'t> {
    /// Whether a line of it that is not at the other address, nor below it, makes what is at the address.
    fn is_made(&self, units: &[Unit], address: &Address, other: &Address) -> bool
        ensures { SlotTellsMaker address.now other.now units.now self.now result }
    {
        match self {
            Slot::Kept(kept) => kept.seen(units).makes_beside(address, other),
            Slot::Lines(lines) => is_any_made(lines, address, other),
        }
    }
}

/// Whether one of the lines that is not at the other address, nor below it, makes what is at the address.
fn is_any_made(lines: &[Line<'_>], address: &Address, other: &Address) -> bool
    ensures { result ≡ list_any (λ (l : WorkingLine). makes_apart address.now other.now l.base l.address) lines.now }
{
    for line in lines {
        if line.seen().makes_beside(address, other) {
            return true;
        }
    }
    false
}

/// Whether a line of the slots that is not at the other address, nor below it, makes what is at the address. The last slot is asked
/// first.
fn is_made_above(slots: &[Slot<'_>], units: &[Unit], address: &Address, other: &Address) -> bool
    ensures { TellsMaker address.now other.now units.now slots.now result }
{
    for place in (0..slots.len()).rev() {
        if slots[place].is_made(units, address, other) {
            return true;
        }
    }
    false
}

/// Whether a line of the slots that is not at the other address, nor below it, makes what is at the address. The first slot is asked
/// first.
fn is_made_in(slots: &[Slot<'_>], units: &[Unit], address: &Address, other: &Address) -> bool
    ensures { TellsMaker address.now other.now units.now slots.now result }
{
    for slot in slots {
        if slot.is_made(units, address, other) {
            return true;
        }
    }
    false
}

/// The address without its last step.
pub fn parent_of(alloc: Global, at: &Address) -> Result<Address, AllocError>
    ensures { IfOk result (λ q. IsParent at.now q) }
{
    let mut steps = at.copy(alloc)?.into_steps();
    let _ = steps.pop();
    Ok(Address::of(steps))
}
