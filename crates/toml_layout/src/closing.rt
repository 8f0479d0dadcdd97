//! Entries taken out by layout `Follow`, each with what the layout of its neighbours does not need.
ghost use Rattle.std.specs.Prelude.{◌≡◌, IfOk, OnOk, option_map, slice_get};
ghost use Rattle.toml_layout.specs.Items.{gap_parts, items_of};
ghost use Rattle.toml_layout.specs.Leaving.{remains};
ghost use Rattle.toml_layout.specs.Takings.{ClosesOne, ClosesUp, IsPartedIf, gap_behind, item_above, put_above, put_behind, put_left};

use crate::leaving::{Around, Left};
use crate::texts::Texts;
use crate::tree::{Entries, Gap, GapPart};
use std::alloc::AllocError;

/// The parts of a gap, if there is one.
fn parts_of<'a, 't>(gap: &'a Option<Gap<'t>>) -> Option<&'a [GapPart<'t>]>
    ensures { option_map (λ p. p.now) result ≡ option_map gap_parts gap.now }
{
    match gap {
        Some(gap) => Some(&gap.parts),
        None => None,
    }
}

impl<'t> Entries<'t> {
    /// Takes out the entry with the index, with what the layout of its neighbours does not need. The others are not gone through.
    pub(crate) fn close_one(&mut self, texts: Texts<'t>, index: usize) -> Result<(), AllocError>
        ensures { OnOk result (ClosesOne index (items_of self.old) (items_of self.new)) }
    {
        if !self.list.has(index) {
            return Ok(());
        }
        let entry = self.list.remove(index);
        self.close_up(texts, index, &entry.before, &entry.after)?;
        Ok(())
    }

    /// Leaves what an entry with these gaps leaves that is out of the list, before the one that has its index now or behind the
    /// last one.
    fn close_up(
        &mut self,
        texts: Texts<'t>,
        index: usize,
        before: &Gap<'t>,
        after: &Gap<'t>,
    ) -> Result<(), AllocError>
        ensures { let own = before.now in let other = after.now in
            OnOk result (ClosesUp (items_of self.old) index (gap_parts own) (gap_parts other) (items_of self.new)) }
    {
        let (before, after) = (texts.parted(before)?, texts.parted(after)?);
        let above = self.parted_above(texts, index)?;
        let behind = self.parted_behind(texts, index)?;
        let around = Around {
            above: parts_of(&above),
            before: &before.parts,
            after: &after.parts,
            behind: parts_of(&behind),
            is_last: !self.list.has(index),
        };
        let left = around.left(texts.alloc)?;
        self.leave(index, left);
        Ok(())
    }

    /// What stands behind the entry before the index, if there is one, in its parts.
    fn parted_above(&self, texts: Texts<'t>, index: usize) -> Result<Option<Gap<'t>>, AllocError>
        ensures { let above = item_above (items_of self.now) index in
            IfOk result (λ g. IsPartedIf (option_map (λ a. a.after) above) (option_map gap_parts g)) }
    {
        if index == 0 {
            return Ok(None);
        }
        let Some(entry) = self.list.get(index - 1) else {
            return Ok(None);
        };
        let parted = texts.parted(&entry.after)?;
        Ok(Some(parted))
    }

    /// What stands before the entry with the index, in its parts; without one what stands behind the last comma, if one does.
    fn parted_behind(&self, texts: Texts<'t>, index: usize) -> Result<Option<Gap<'t>>, AllocError>
        ensures { let here = items_of self.now in
            IfOk result (λ g. IsPartedIf (gap_behind (slice_get here.list index) here.end) (option_map gap_parts g)) }
    {
        if let Some(entry) = self.list.get(index) {
            let parted = texts.parted(&entry.before)?;
            return Ok(Some(parted));
        }
        let Some(gap) = &self.end else {
            return Ok(None);
        };
        let parted = texts.parted(gap)?;
        Ok(Some(parted))
    }

    /// Puts what is left behind the entry before the index, and before the one with it or the closing bracket.
    fn leave(&mut self, index: usize, left: Left<'t>)
        ensures { items_of self.new ≡ put_left (items_of self.old) index (remains left.entry) }
    {
        let Left { above, behind } = left;
        self.leave_above(index, above);
        self.leave_behind(index, behind);
    }

    /// Puts a gap behind the entry before the index, if there are both.
    fn leave_above(&mut self, index: usize, gap: Option<Gap<'t>>)
        ensures { let old = items_of self.old in
            items_of self.new ≡ put_above old index (item_above old index) (option_map gap_parts gap.entry) }
    {
        let Some(gap) = gap else {
            return;
        };
        if index == 0 || !self.list.has(index - 1) {
            return;
        }
        let _old = self.change_after(index - 1, gap);
    }

    /// Puts a gap before the entry with the index, and where there is none before the closing bracket.
    fn leave_behind(&mut self, index: usize, gap: Option<Gap<'t>>)
        ensures { let old = items_of self.old in
            items_of self.new ≡ put_behind old index (slice_get old.list index) (option_map gap_parts gap.entry) }
    {
        if !self.list.has(index) {
            self.put_end(gap);
            return;
        }
        let Some(gap) = gap else {
            return;
        };
        let _old = self.change_before(index, gap);
    }
}
