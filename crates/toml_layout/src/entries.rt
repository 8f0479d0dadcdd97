//! What stands in arrays and inline tables: entries put in and taken out, with their commas.
ghost use Rattle.std.specs.Prelude.{◌≡◌, ◌++◌, ◌∷◌, ◌<◌, [], IfOk, None, OnOk, length, option_map, vec_len};
ghost use Rattle.toml_layout.specs.Emptying.{no_entries};
ghost use Rattle.toml_layout.specs.Items.{ChangesAfter, ChangesAfterAt, ChangesBefore, ChangesBeforeAt, gap_parts, item, items_of, with_end, with_item};
ghost use Rattle.toml_layout.specs.OpenOutlines.{entries};
ghost use Rattle.toml_layout.specs.Rooms.{PutsItem, RoomFor, room, room_of};
ghost use Rattle.toml_layout.specs.Takings.{TakesAll, TakesOne, closed, followed, leaves_plain, taken};

use crate::gaps::one_space;
use crate::layout::Layout;
use crate::parts::are_ws;
use crate::texts::Texts;
use crate::tree::{Assign, Entries, Entry, Gap, Leaf, Value};
use std::alloc::{AllocError, Global};
use std::mem;
use toml_lists::{GapList, Side};

impl<'t> Entries<'t> {
    /// A new inline table with nothing in it.
    pub(crate) fn none(alloc: Global) -> Entries<'t>
        ensures { entries result ≡ record { opening = 0x7B ∷ []; entries = no_entries } }
    {
        Entries {
            opening: Leaf::New("{"),
            list: GapList::none(alloc),
            end: Some(Gap::empty(alloc)),
        }
    }

    /// Puts an entry in before the one with the index, or behind the last one. An element of an array has no key.
    pub(crate) fn put(
        &mut self,
        texts: Texts<'t>,
        index: usize,
        assign: Option<Box<Assign<'t>>>,
        value: Value<'t>,
    ) -> Result<(), AllocError>
        ensures { OnOk result (PutsItem texts.entry.layout index assign.entry value.entry (items_of self.old) (items_of self.new)) }
    {
        let (before, after) = self.room_for(texts, index, assign.is_some())?;
        self.add(
            index,
            Entry {
                before,
                assign,
                value,
                after,
            },
        )?;
        Ok(())
    }

    /// Makes room for an entry before the one with the index, or behind the last one, in the layout of the texts.
    fn room_for(
        &mut self,
        texts: Texts<'t>,
        index: usize,
        is_pair: bool,
    ) -> Result<(Gap<'t>, Gap<'t>), AllocError>
        ensures { IfOk result (λ r. RoomFor texts.entry.layout (items_of self.old) index is_pair (room_of self.new r)) }
    {
        match texts.layout {
            Layout::Plain => {
                let space = one_space(texts.alloc)?;
                let around = self.room(texts.alloc, index, space)?;
                Ok(around)
            }
            Layout::Follow => {
                let beside = self.room_beside(texts, index, is_pair)?;
                Ok(beside)
            }
        }
    }

    /// Puts an entry in before the one with the index, or behind the last one; the gaps beside it stay.
    fn add(&mut self, index: usize, entry: Entry<'t>) -> Result<(), AllocError>
        ensures { OnOk result (items_of self.new ≡ with_item (items_of self.old) index (item entry.entry)) }
    {
        if self.list.takes(index) {
            self.list.insert(index, entry)?;
        } else {
            self.list.push(entry)?;
        }
        Ok(())
    }

    /// Makes room for an entry before the one with the index, or behind the last one, and answers the gaps around it; behind the
    /// comma that parts it from another this space is to stand. Where there is no entry it stands directly behind the bracket.
    /// Before another one it takes its place.
    pub(crate) fn room(
        &mut self,
        alloc: Global,
        index: usize,
        space: Gap<'t>,
    ) -> Result<(Gap<'t>, Gap<'t>), AllocError>
        ensures { IfOk result (λ r. room_of self.new r ≡ room (items_of self.old) index (gap_parts space.entry)) }
    {
        if self.list.has(index) {
            let before = self.change_before(index, space);
            return Ok((before, Gap::empty(alloc)));
        }
        if let Some(last) = self.list.len().checked_sub(1) {
            let after = self.change_after(last, Gap::empty(alloc));
            return Ok((space, after));
        }
        let after = self.take_end().unwrap_or(Gap::empty(alloc));
        Ok((Gap::empty(alloc), after))
    }

    /// Takes what stands before the closing bracket behind the last comma, or where no entry stands.
    pub(crate) fn take_end(&mut self) -> Option<Gap<'t>>
        ensures now { items_of self.new ≡ with_end (items_of self.old) None }
        ensures stood { option_map gap_parts result ≡ (items_of self.old).end }
    {
        self.end.take()
    }

    /// Puts this before the closing bracket.
    pub(crate) fn put_end(&mut self, end: Option<Gap<'t>>)
        ensures { items_of self.new ≡ with_end (items_of self.old) (option_map gap_parts end.entry) }
    {
        self.end = end;
    }

    /// Puts a gap before the entry with the index, and answers the one that stood there.
    pub(crate) fn change_before(&mut self, index: usize, gap: Gap<'t>) -> Gap<'t>
        requires { index < length (items_of self.old).list }
        ensures { ChangesBefore index (gap_parts gap.entry) (items_of self.old) (items_of self.new) (gap_parts result) }
    {
        match self.list.side(index) {
            Some(Side::Before(place)) => change_before(&mut self.list.before, place, gap),
            Some(Side::Behind(place)) => change_before(&mut self.list.behind, place, gap),
            None => gap,
        }
    }

    /// Puts a gap behind the entry with the index, and answers the one that stood there.
    pub(crate) fn change_after(&mut self, index: usize, gap: Gap<'t>) -> Gap<'t>
        requires { index < length (items_of self.old).list }
        ensures { ChangesAfter index (gap_parts gap.entry) (items_of self.old) (items_of self.new) (gap_parts result) }
    {
        match self.list.side(index) {
            Some(Side::Before(place)) => change_after(&mut self.list.before, place, gap),
            Some(Side::Behind(place)) => change_after(&mut self.list.behind, place, gap),
            None => gap,
        }
    }

    /// Takes out the entries with these marks, one after the other in text order.
    pub(crate) fn remove_marked(
        &mut self,
        texts: Texts<'t>,
        marks: &[bool],
    ) -> Result<(), AllocError>
        ensures { OnOk result (TakesAll texts.entry.layout marks.now (items_of self.old) (items_of self.new)) }
    {
        let mut index = 0usize;
        for is_marked in marks {
            if *is_marked {
                self.remove_one(texts, index)?;
            } else {
                index = index.saturating_add(1);
            }
        }
        Ok(())
    }

    /// Takes out the entry with the index.
    pub(crate) fn remove_one(&mut self, texts: Texts<'t>, index: usize) -> Result<(), AllocError>
        ensures { OnOk result (TakesOne texts.entry.layout index (items_of self.old) (items_of self.new)) }
    {
        match texts.layout {
            Layout::Plain => self.take_one(texts.alloc, index),
            Layout::Follow => self.close_one(texts, index),
        }
    }

    /// Takes out the entry with the index, and a comma: the one behind it, or where none follows the one before it. If nothing but
    /// whitespace stands between that comma and the next thing on its far side, that whitespace goes too. All comments and
    /// newlines stay. The others are not gone through.
    fn take_one(&mut self, alloc: Global, index: usize) -> Result<(), AllocError>
        ensures { OnOk result (items_of self.new ≡ taken (items_of self.old) index) }
    {
        if !self.list.has(index) {
            return Ok(());
        }
        let entry = self.list.remove(index);
        self.leave_plain(alloc, index, entry)?;
        Ok(())
    }

    /// Leaves what an entry leaves that is out of the list, before the one that has its index now or behind the last one.
    fn leave_plain(
        &mut self,
        alloc: Global,
        index: usize,
        entry: Entry<'t>,
    ) -> Result<(), AllocError>
        ensures { OnOk result (items_of self.new ≡ leaves_plain (items_of self.old) index (item entry.entry)) }
    {
        let Entry { before, after, .. } = entry;
        if self.list.has(index) {
            let next = self.change_before(index, Gap::empty(alloc));
            let left = followed(joined(before, after)?, next)?;
            let _empty = self.change_before(index, left);
            return Ok(());
        }
        if let Some(end) = self.take_end() {
            let left = followed(joined(before, after)?, end)?;
            self.put_end(Some(left));
            return Ok(());
        }
        let Some(last) = self.list.len().checked_sub(1) else {
            let left = joined(before, after)?;
            self.put_end(Some(left));
            return Ok(());
        };
        let above = self.change_after(last, Gap::empty(alloc));
        let left = closed(above, before, after)?;
        let _empty = self.change_after(last, left);
        Ok(())
    }
}

/// Puts a gap before the entry at the place, and answers the one that stood there.
fn change_before<'t>(list: &mut Vec<Entry<'t>>, place: usize, gap: Gap<'t>) -> Gap<'t>
    requires { place < vec_len list.old }
    ensures { ChangesBeforeAt place (gap_parts gap.entry) list.old.items list.new.items (gap_parts result) }
{
    mem::replace(&mut list[place].before, gap)
}

/// Puts a gap behind the entry at the place, and answers the one that stood there.
fn change_after<'t>(list: &mut Vec<Entry<'t>>, place: usize, gap: Gap<'t>) -> Gap<'t>
    requires { place < vec_len list.old }
    ensures { ChangesAfterAt place (gap_parts gap.entry) list.old.items list.new.items (gap_parts result) }
{
    mem::replace(&mut list[place].after, gap)
}

/// Both gaps, one behind the other.
fn joined<'t>(one: Gap<'t>, other: Gap<'t>) -> Result<Gap<'t>, AllocError>
    ensures { IfOk result (λ g. gap_parts g ≡ gap_parts one.entry ++ gap_parts other.entry) }
{
    let mut both = one;
    both.join(other)?;
    Ok(both)
}

/// What a removed entry left before a comma that went with it, and the gap behind that comma, unless this is whitespace
/// alone.
fn followed<'t>(left: Gap<'t>, behind: Gap<'t>) -> Result<Gap<'t>, AllocError>
    ensures { IfOk result (λ g. gap_parts g ≡ followed (gap_parts left.entry) (gap_parts behind.entry)) }
{
    if are_ws(&behind.parts) {
        Ok(left)
    } else {
        joined(left, behind)
    }
}

/// What the last entry leaves, which goes with the comma before it, behind the gap that stands before that comma.
fn closed<'t>(above: Gap<'t>, before: Gap<'t>, after: Gap<'t>) -> Result<Gap<'t>, AllocError>
    ensures { IfOk result (λ g. gap_parts g ≡ closed (gap_parts above.entry) (gap_parts before.entry) (gap_parts after.entry)) }
{
    if are_ws(&before.parts) {
        joined(above, after)
    } else {
        joined(joined(above, before)?, after)
    }
}
