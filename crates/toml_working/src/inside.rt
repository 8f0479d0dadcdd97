//! What an edit changes inside the value of a line.
ghost use Rattle.std.specs.Prelude.{IfOk, OnOk};
ghost use Rattle.toml_layout.specs.KnownLines.{lines_known};
ghost use Rattle.toml_working.specs.Changing.{ChangesBody, ChangesLine, ChangesOne, ChangesSlot, ChangesSlots, TreeChanges};
ghost use Rattle.toml_working.specs.Starting.{read_of};
ghost use Rattle.toml_working.specs.Stands.{KeepsRest};

use crate::lines::{Body, Line, Slot};
use crate::steps::below;
use crate::working::{Before, Position, Tree};
use std::alloc::AllocError;
use toml_layout::{Expr, Inside, KnownLine, Texts};
use toml_names::{Address, Step};

impl<'t> Body<'t> {
    /// Changes what stands at the steps in the value of what is opened, if it has one.
    fn change(
        &mut self,
        texts: Texts<'t>,
        steps: &[Step],
        change: Inside<'t>,
    ) -> Result<bool, AllocError>
        ensures { IfOk result (λ done. ChangesBody texts.entry.layout steps.now change.entry self.old self.new done) }
    {
        match self {
            Body::Open(open) => match &mut open.expr {
                Expr::Pair(pair) => texts.change_in(&mut pair.value, steps, change),
                Expr::Blank => Ok(false),
                Expr::Header(_) => Ok(false),
            },
            Body::Kept(_) => Ok(false),
        }
    }
}

impl<'t> Line<'t> {
    /// Opens it, and changes what stands in its value at the address, if it has one.
    fn change(
        &mut self,
        texts: Texts<'t>,
        known: &[KnownLine<'t>],
        at: &Address,
        change: Inside<'t>,
    ) -> Result<bool, AllocError>
        ensures { IfOk result (λ done. ChangesLine texts.entry (lines_known known.now) at.now change.entry self.old self.new done) }
    {
        self.open(texts, known)?;
        let used = self.seen().steps();
        self.body.change(texts, below(at, used), change)
    }
}

/// Changes what stands at the address in the value of the line with the index, if there is one.
fn change_one<'t>(
    lines: &mut Vec<Line<'t>>,
    texts: Texts<'t>,
    known: &[KnownLine<'t>],
    index: usize,
    at: &Address,
    change: Inside<'t>,
) -> Result<bool, AllocError>
    ensures { let read = lines_known known.now in
        IfOk result (λ done. ChangesOne texts.entry read index at.now change.entry lines.old.items lines.new.items done) }
{
    match lines.get_mut(index) {
        Some(line) => line.change(texts, known, at, change),
        None => Ok(false),
    }
}

impl<'t> Slot<'t> {
    /// Changes what stands at the address in the value of its line with the index, if there is one.
    fn change(
        &mut self,
        texts: Texts<'t>,
        before: Before<'_, 't>,
        index: usize,
        at: &Address,
        change: Inside<'t>,
    ) -> Result<bool, AllocError>
        ensures { let read = read_of before.entry in
            IfOk result (λ done. ChangesSlot texts.entry read index at.now change.entry self.old self.new done) }
    {
        self.open(texts.alloc, before.units)?;
        match self {
            Slot::Lines(lines) => change_one(lines, texts, before.known, index, at, change),
            Slot::Kept(_) => Ok(false),
        }
    }
}

/// Changes what stands at the address in the value of the line at a place, if there is one.
fn change_at<'t>(
    slots: &mut Vec<Slot<'t>>,
    texts: Texts<'t>,
    before: Before<'_, 't>,
    place: Position,
    at: &Address,
    change: Inside<'t>,
) -> Result<bool, AllocError>
    ensures { let read = read_of before.entry in
        IfOk result (λ done. ChangesSlots texts.entry read place at.now change.entry slots.old.items slots.new.items done) }
{
    match slots.get_mut(place.slot) {
        Some(slot) => slot.change(texts, before, place.index, at, change),
        None => Ok(false),
    }
}

impl<'x> Tree<'x> {
    /// Changes what stands at the address in the value of the line at a place.
    pub(crate) fn change_value(
        &mut self,
        before: Before<'_, 'x>,
        place: Position,
        at: &Address,
        change: Inside<'x>,
    ) -> Result<bool, AllocError>
        ensures rest { OnOk result (KeepsRest self.old self.new) }
        ensures slots { IfOk result (λ done. TreeChanges (read_of before.entry) place at.now change.entry self.old self.new done) }
    {
        change_at(&mut self.slots, self.texts, before, place, at, change)
    }
}
