//! `rename`: each key part that stands for the address, in headers, keys of lines and keys of pairs, becomes the spelling of
//! the new name.
ghost use Rattle.std.specs.Prelude.{◌≡◌, OnOk, Option, Some, option_map};
ghost use Rattle.toml_layout.specs.KnownLines.{lines_known};
ghost use Rattle.toml_working.specs.Becoming.{LineBecomes, LinesBecome, OpenBecomes, PartBecomes, SlotAtBecomes, SlotBecomes};
ghost use Rattle.toml_working.specs.Becoming.{SlotsBecome, TreeBecomes, TreeRenames, renamed_below, renamed_own};
ghost use Rattle.toml_layout.specs.OpenOutlines.{leaf_text};
ghost use Rattle.toml_layout.specs.RenamedPairs.{line_part_with};
ghost use Rattle.toml_working.specs.RenameStanding.{part_number, renamed_address};
ghost use Rattle.toml_working.specs.Starting.{NoneIsGone, read_of};

use crate::lines::{Body, Line, Slot};
use crate::steps::changed;
use crate::working::{Before, Tree};
use std::alloc::AllocError;
use toml_layout::{Inside, KnownLine, Leaf, Texts};
use toml_names::{Address, Name, Place, Step};

/// A new name for what stands at an address, and its spelling.
#[derive(Clone, Copy)]
struct Renaming<'a, 't> {
    at: &'a Address,
    name: &'a Name,
    spelled: &'t str,
}

impl<'x> Tree<'x> {
    /// Renames what stands at the address, and carries the addresses of lines at it and below.
    pub fn rename(
        &mut self,
        before: Before<'_, 'x>,
        named: Option<Place>,
        at: &Address,
        name: &Name,
        spelled: &'x str,
    ) -> Result<(), AllocError>
        ensures renames { OnOk result (TreeRenames at.now name.now spelled.now (read_of before.entry) self.old self.new) }
        ensures texts { OnOk result (self.new.texts ≡ self.old.texts) }
        ensures style { OnOk result (self.new.style ≡ self.old.style) }
        ensures blank { OnOk result (self.new.has_written_blank ≡ self.old.has_written_blank) }
        ensures elements { OnOk result (NoneIsGone self.old.elements → NoneIsGone self.new.elements) }
    {
        let renaming = Renaming { at, name, spelled };
        self.guesses.rename(self.texts.alloc, at, name)?;
        match self.value_line(before, named, at) {
            Some(place) if self.depth(before, place) < at.steps().len() => {
                self.change_value(before, place, at, Inside::Rename(spelled))?;
                Ok(())
            }
            // No other line is at it or below.
            Some(place) => rename_in_slot(
                &mut self.slots,
                self.texts,
                before,
                place.slot,
                renaming,
            ),
            None => self.rename_lines(before, renaming),
        }
    }

    /// Renames in the lines at the address and below.
    fn rename_lines(
        &mut self,
        before: Before<'_, 'x>,
        renaming: Renaming<'_, 'x>,
    ) -> Result<(), AllocError>
        ensures slots { OnOk result (TreeBecomes (read_of before.entry) (renamed_below renaming.entry) self.old self.new) }
        ensures texts { OnOk result (self.new.texts ≡ self.old.texts) }
        ensures style { OnOk result (self.new.style ≡ self.old.style) }
        ensures blank { OnOk result (self.new.has_written_blank ≡ self.old.has_written_blank) }
        ensures elements { OnOk result (NoneIsGone self.old.elements → NoneIsGone self.new.elements) }
    {
        rename_in_slots(&mut self.slots, self.texts, before, renaming)?;
        self.elements
            .rename(self.texts.alloc, renaming.at, renaming.name)
    }
}

/// Renames in the lines of a slot at the address or below, if there is one with the index.
fn rename_in_slot<'t>(
    slots: &mut Vec<Slot<'t>>,
    texts: Texts<'t>,
    before: Before<'_, 't>,
    index: usize,
    renaming: Renaming<'_, 't>,
) -> Result<(), AllocError>
    ensures { let rename = renamed_below renaming.entry in
        OnOk result (SlotAtBecomes texts.entry (read_of before.entry) rename index slots.old.items slots.new.items) }
{
    match slots.get_mut(index) {
        Some(slot) => slot.rename(texts, before, renaming),
        None => Ok(()),
    }
}

/// Renames in the lines of all slots at the address or below.
fn rename_in_slots<'t>(
    slots: &mut Vec<Slot<'t>>,
    texts: Texts<'t>,
    before: Before<'_, 't>,
    renaming: Renaming<'_, 't>,
) -> Result<(), AllocError>
    ensures { let rename = renamed_below renaming.entry in
        OnOk result (SlotsBecome texts.entry (read_of before.entry) rename slots.old.items slots.new.items) }
{
    for index in 0..slots.len() {
        if let Some(slot) = slots.get_mut(index) {
            slot.rename(texts, before, renaming)?;
        }
    }
    Ok(())
}

impl<'t> Slot<'t> {
    /// Opens it, and renames in its lines at the address or below. Without such a line it stays as it is.
    fn rename(
        &mut self,
        texts: Texts<'t>,
        before: Before<'_, 't>,
        renaming: Renaming<'_, 't>,
    ) -> Result<(), AllocError>
        ensures { let rename = renamed_below renaming.entry in
            OnOk result (SlotBecomes texts.entry (read_of before.entry) rename self.old self.new) }
    {
        if !self.is_below(before.units, renaming.at) {
            return Ok(());
        }
        self.open(texts.alloc, before.units)?;
        match self {
            Slot::Lines(lines) => rename_in_lines(lines, texts, before.known, renaming),
            Slot::Kept(_) => Ok(()),
        }
    }
}

/// Renames in the lines at the address or below.
fn rename_in_lines<'t>(
    lines: &mut Vec<Line<'t>>,
    texts: Texts<'t>,
    known: &[KnownLine<'t>],
    renaming: Renaming<'_, 't>,
) -> Result<(), AllocError>
    ensures { let rename = renamed_below renaming.entry in
        OnOk result (LinesBecome texts.entry (lines_known known.now) rename lines.old.items lines.new.items) }
{
    for index in 0..lines.len() {
        if let Some(line) = lines.get_mut(index) {
            line.rename_below(texts, known, renaming)?;
        }
    }
    Ok(())
}

impl<'t> Line<'t> {
    /// Renames in it, if it stands at the address or below.
    fn rename_below(
        &mut self,
        texts: Texts<'t>,
        known: &[KnownLine<'t>],
        renaming: Renaming<'_, 't>,
    ) -> Result<(), AllocError>
        ensures { let rename = renamed_below renaming.entry in
            OnOk result (LineBecomes texts.entry (lines_known known.now) rename self.old self.new) }
    {
        if self.seen().is_below(renaming.at) {
            self.rename(texts, known, renaming)
        } else {
            Ok(())
        }
    }

    /// Renames in a line at the address or below.
    fn rename(
        &mut self,
        texts: Texts<'t>,
        known: &[KnownLine<'t>],
        renaming: Renaming<'_, 't>,
    ) -> Result<(), AllocError>
        ensures { let rename = renamed_own renaming.entry in
            OnOk result (LineBecomes texts.entry (lines_known known.now) rename self.old self.new) }
    {
        self.rename_key(texts, known, renaming.at, renaming.spelled)?;
        self.carry(renaming.at, renaming.name)
    }

    /// Gives the part of its key that stands for the address, if one does, the spelling.
    fn rename_key(
        &mut self,
        texts: Texts<'t>,
        known: &[KnownLine<'t>],
        at: &Address,
        spelled: &'t str,
    ) -> Result<(), AllocError>
        ensures address { self.new.address ≡ self.old.address }
        ensures base { self.new.base ≡ self.old.base }
        ensures body { let part = part_number at.now self.old.base in
            OnOk result (PartBecomes part spelled.now texts.entry (lines_known known.now) self.old.body self.new.body) }
    {
        match self.seen().part_of(at) {
            Some(part) => self.set_part(texts, known, part, Leaf::New(spelled)),
            None => Ok(()),
        }
    }

    /// Puts the name in the place of the last step of the address, in its own address, which begins with that.
    fn carry(&mut self, at: &Address, name: &Name) -> Result<(), AllocError>
        ensures body { self.new.body ≡ self.old.body }
        ensures base { self.new.base ≡ self.old.base }
        ensures address { OnOk result (self.new.address ≡ option_map (renamed_address at.now name.now) self.old.address) }
    {
        let place = at.steps().len().saturating_sub(1);
        let step = Step::Name(name.copy()?);
        if let Some(own) = self.address.take() {
            self.address = Some(changed(own, place, step));
        }
        Ok(())
    }

    /// Changes a part of its key.
    fn set_part(
        &mut self,
        texts: Texts<'t>,
        known: &[KnownLine<'t>],
        part: usize,
        leaf: Leaf<'t>,
    ) -> Result<(), AllocError>
        ensures address { self.new.address ≡ self.old.address }
        ensures base { self.new.base ≡ self.old.base }
        ensures body { let text = leaf_text leaf.entry in
            OnOk result (PartBecomes (Some part) text texts.entry (lines_known known.now) self.old.body self.new.body) }
    {
        self.open(texts, known)?;
        self.body.set_part(part, leaf);
        Ok(())
    }
}

impl<'t> Body<'t> {
    /// Changes a part of the key of what is opened.
    fn set_part(&mut self, part: usize, leaf: Leaf<'t>)
        ensures { OpenBecomes (line_part_with (Some part) (leaf_text leaf.entry)) self.old self.new }
    {
        match self {
            Body::Open(open) => open.set_part(part, leaf),
            Body::Kept(_) => {}
        }
    }
}
