//! Lines that a `remove` takes out, and what is left of them.
ghost use Rattle.std.specs.Prelude.{◌≡◌, ◌∷◌, [], IfOk, OnOk, true};
ghost use Rattle.toml_layout.specs.KnownLines.{lines_known};
ghost use Rattle.toml_working.specs.RemovingBelow.{EndsBelow, LeavesBelow, MeetsBelow, StaysBehindSlot, TellsAny, TellsEnd, is_later_line};
ghost use Rattle.toml_working.specs.RemovingIn.{LeavesBehind, LeavesLines, LeavesSlot, LeavesSlots, lines_of};
ghost use Rattle.toml_working.specs.Starting.{read_of};

use crate::lines::{Line, Slot};
use crate::removing::Parent;
use crate::working::Before;
use std::alloc::AllocError;
use std::mem;
use toml_layout::{KnownLine, Texts};
use toml_names::Address;
use toml_units::Unit;

impl<'t> Slot<'t> {
    /// Takes out its lines at the address and below; `is_met` says whether there was one, in it or before it. It answers whether its own
    /// lines tell that there is none behind it.
    fn remove_below(
        &mut self,
        texts: Texts<'t>,
        before: Before<'_, 't>,
        at: &Address,
        flat: bool,
        is_met: &mut bool,
        parent: &mut Parent,
    ) -> Result<bool, AllocError>
        ensures address { parent.new.address ≡ parent.old.address }
        ensures meets { MeetsBelow at.now before.entry.units.now is_met.old self.old is_met.new }
        ensures slot { let old = parent.old in
            OnOk result (LeavesSlot texts.entry (read_of before.entry) at.now old.address old.stays self.old self.new) }
        ensures stays { let old = parent.old in let new = parent.new in
            OnOk result (StaysBehindSlot texts.entry (read_of before.entry) at.now old.address old.stays new.stays self.old) }
        ensures ends { IfOk result (λ ends. ends ≡ true → EndsBelow at.now before.entry.units.now flat is_met.old self.old) }
    {
        if self.is_below(before.units, at) {
            *is_met = true;
            let ends = self.begins_later(before.units, at);
            self.remove(texts, before, at, parent)?;
            return Ok(ends);
        }
        Ok(*is_met && self.ends(before.units, at, flat))
    }

    /// Whether no line behind it is at the address or below, where such a line was met before it and none is its own: one of its lines is
    /// the header of a later element of the array, or any header where all lines of the table stand in one section.
    fn ends<'a>(&'a self, units: &'a [Unit], at: &Address, in_section: bool) -> bool
        ensures { TellsEnd at.now units.now in_section self.now result }
    {
        (in_section && self.has_header(units)) || self.begins_later(units, at)
    }

    /// Whether one of its lines is the header of a later element of the array.
    fn begins_later<'a>(&'a self, units: &'a [Unit], at: &Address) -> bool
        ensures { TellsAny (is_later_line at.now) units.now self.now result }
    {
        for index in 0..self.count() {
            let Some(line) = self.seen(units, index) else {
                return false;
            };
            if line.begins_later(at) {
                return true;
            }
        }
        false
    }

    /// Takes out its lines at the address and below.
    fn remove(
        &mut self,
        texts: Texts<'t>,
        before: Before<'_, 't>,
        at: &Address,
        parent: &mut Parent,
    ) -> Result<(), AllocError>
        ensures address { parent.new.address ≡ parent.old.address }
        ensures slot { let old = parent.old in
            OnOk result (LeavesSlot texts.entry (read_of before.entry) at.now old.address old.stays self.old self.new) }
        ensures stays { let old = parent.old in let new = parent.new in
            OnOk result (StaysBehindSlot texts.entry (read_of before.entry) at.now old.address old.stays new.stays self.old) }
    {
        self.open(texts.alloc, before.units)?;
        match self {
            Slot::Lines(lines) => remove_from(lines, texts, before.known, at, parent),
            Slot::Kept(_) => Ok(()),
        }
    }
}

/// Takes out the lines of the slot at the address and below, if there is such a slot.
pub(crate) fn remove_in<'t>(
    slots: &mut Vec<Slot<'t>>,
    texts: Texts<'t>,
    before: Before<'_, 't>,
    slot: usize,
    at: &Address,
    parent: &mut Parent,
) -> Result<(), AllocError>
    ensures { let old = parent.old in
        OnOk result (LeavesSlots texts.entry (read_of before.entry) at.now old.address old.stays slot slots.old.items slots.new.items) }
{
    match slots.get_mut(slot) {
        Some(lines) => lines.remove(texts, before, at, parent),
        None => Ok(()),
    }
}

/// Takes out the lines of the slots at the address and below. No slot before the first one here has such a line.
pub(crate) fn remove_in_slots<'t>(
    slots: &mut Vec<Slot<'t>>,
    texts: Texts<'t>,
    before: Before<'_, 't>,
    first: usize,
    at: &Address,
    flat: bool,
    parent: &mut Parent,
) -> Result<(), AllocError>
    ensures { let old = parent.old in
        OnOk result (LeavesBelow texts.entry (read_of before.entry) at.now flat first old.address old.stays slots.old.items slots.new.items) }
{
    let mut is_met = false;
    for index in first..slots.len() {
        if let Some(slot) = slots.get_mut(index) {
            if slot.remove_below(texts, before, at, flat, &mut is_met, parent)? {
                return Ok(());
            }
        }
    }
    Ok(())
}

/// Takes out the lines at the address and below.
fn remove_from<'t>(
    lines: &mut Vec<Line<'t>>,
    texts: Texts<'t>,
    known: &[KnownLine<'t>],
    at: &Address,
    parent: &mut Parent,
) -> Result<(), AllocError>
    ensures address { parent.new.address ≡ parent.old.address }
    ensures lines { let old = parent.old in let new = parent.new in
        OnOk result (LeavesLines texts.entry (lines_known known.now) at.now old.address old.stays new.stays lines.old.items lines.new.items) }
{
    let old = mem::replace(lines, Vec::new(texts.alloc));
    for line in old {
        if let Some(left) = left_of(texts, known, line, at, parent)? {
            lines.push(left)?;
        }
    }
    Ok(())
}

/// What is left of a line once what stands at the address and below is taken out.
fn left_of<'t>(
    texts: Texts<'t>,
    known: &[KnownLine<'t>],
    line: Line<'t>,
    at: &Address,
    parent: &mut Parent,
) -> Result<Option<Line<'t>>, AllocError>
    ensures parent { parent.new.address ≡ parent.old.address }
    ensures left { let old = parent.old in let new = parent.new in
        IfOk result (λ left. LeavesLines texts.entry (lines_known known.now) at.now old.address old.stays new.stays (line.entry ∷ []) (lines_of left)) }
{
    if line.seen().is_below(at) {
        removed(texts, known, line, parent)
    } else {
        Ok(Some(line))
    }
}

/// What is left of a removed line: its parent as an empty table, or of the last line one of no bytes.
fn removed<'t>(
    texts: Texts<'t>,
    known: &[KnownLine<'t>],
    line: Line<'t>,
    parent: &mut Parent,
) -> Result<Option<Line<'t>>, AllocError>
    ensures parent { parent.new.address ≡ parent.old.address }
    ensures left { let old = parent.old in let new = parent.new in
        IfOk result (λ left. LeavesBehind texts.entry (lines_known known.now) old.address old.stays new.stays line.entry left) }
{
    if !parent.stays && line.seen().makes(&parent.address) {
        parent.stays = true;
        let mut line = line;
        line.stand_for(texts, known, &parent.address)?;
        return Ok(Some(line));
    }
    if line.is_last() {
        return Ok(Some(Line::empty(texts.alloc)?));
    }
    Ok(None)
}
