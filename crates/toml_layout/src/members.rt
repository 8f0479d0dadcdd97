//! Elements and pairs that are put into a value and taken out of it.
ghost use Rattle.std.specs.List.{list_all, list_any};
ghost use Rattle.std.specs.Prelude.{◌≡◌, ◌<◌, IfOk, MatchOption, OnOk, false, map, string_bytes, vec_len};
ghost use Rattle.toml_layout.specs.Holders.{is_name};
ghost use Rattle.toml_layout.specs.Holding.{ChangesElement, ChangesPairs, HoldsEntry, HoldsIn, MakesHeld};
ghost use Rattle.toml_layout.specs.Items.{item, items_of};
ghost use Rattle.toml_layout.specs.Leading.{ChangesAt};
ghost use Rattle.toml_layout.specs.OpenOutlines.{entries as entries_outlined, value as value_outlined};
ghost use Rattle.toml_layout.specs.PairPlaces.{PutsPair};
ghost use Rattle.toml_layout.specs.PairRemovals.{EmptiesEntry, EmptiesIf, IsEmptied, ReplacesFirst, TakesPairs, is_left, keeps_at, marks_at, reaches_at};
ghost use Rattle.toml_layout.specs.Takings.{IsFirstMark};

use crate::texts::Texts;
use crate::tree::{Entries, Entry, Value};
use crate::values::{behind, index_first, key_at};
use std::alloc::AllocError;
use toml_lists::Side;
use toml_names::Step;

/// What becomes of what an array or an inline table holds.
#[derive(Drop)]
pub(crate) enum Held<'t> {
    /// A value is put in; these are the spellings of its whole address.
    Put {
        spelled: &'t [String],
        new: Value<'t>,
    },
    /// It is taken out.
    Out,
}

impl<'t> Texts<'t> {
    /// Changes what the steps name in the innermost array or inline table that holds it, or would hold it. It answers `false`
    /// where there is none.
    #[cycle(holding)]
    pub(crate) fn change_held(
        self,
        own: &mut Value<'t>,
        steps: &[Step],
        change: Held<'t>,
    ) -> Result<bool, AllocError>
        ensures { IfOk result (HoldsIn steps.now (MakesHeld self.entry.layout change.entry) (value_outlined own.old) (value_outlined own.new)) }
    {
        let Some((_, parent)) = steps.split_last() else {
            return Ok(false);
        };
        match own {
            Value::Scalar(_) => Ok(false),
            Value::Array(elements) => match index_first(steps) {
                None => Ok(false),
                Some(index) => {
                    if parent.is_empty() {
                        self.change_element(elements, index, change)?;
                        return Ok(true);
                    }
                    let done = self.held_entry(elements, index, behind(steps, 1), change)?;
                    Ok(done)
                }
            },
            Value::Inline(pairs) => match self.pair_on(pairs, parent)? {
                Some((index, used)) => {
                    let done = self.held_entry(pairs, index, behind(steps, used), change)?;
                    Ok(done)
                }
                None => {
                    if !are_names(steps) {
                        return Ok(false);
                    }
                    self.change_pairs(pairs, parent, steps, change)?;
                    Ok(true)
                }
            },
        }
    }

    /// Changes what the steps name in the value of the entry with the index, if there is one.
    #[cycle(holding)]
    fn held_entry(
        self,
        entries: &mut Entries<'t>,
        index: usize,
        steps: &[Step],
        change: Held<'t>,
    ) -> Result<bool, AllocError>
        ensures { let old = entries_outlined entries.old in let now = entries_outlined entries.new in
            IfOk result (HoldsEntry index steps.now (MakesHeld self.entry.layout change.entry) old now) }
    {
        match entries.list.side(index) {
            Some(Side::Before(place)) => {
                let done = self.held_at(&mut entries.list.before, place, steps, change)?;
                Ok(done)
            }
            Some(Side::Behind(place)) => {
                let done = self.held_at(&mut entries.list.behind, place, steps, change)?;
                Ok(done)
            }
            None => Ok(false),
        }
    }

    /// Changes what the steps name in the value of the entry at the place.
    #[cycle(holding)]
    fn held_at(
        self,
        list: &mut Vec<Entry<'t>>,
        place: usize,
        steps: &[Step],
        change: Held<'t>,
    ) -> Result<bool, AllocError>
        requires { place < vec_len list.old }
        ensures { let old = list.old.items in let now = list.new.items in
            IfOk result (λ done. ChangesAt (λ v w. HoldsIn steps.now (MakesHeld self.entry.layout change.entry) v w done) place old now) }
    {
        let done = self.change_held(&mut list[place].value, steps, change)?;
        Ok(done)
    }

    /// Changes the element with the index.
    fn change_element(
        self,
        elements: &mut Entries<'t>,
        index: usize,
        change: Held<'t>,
    ) -> Result<(), AllocError>
        ensures { OnOk result (ChangesElement self.entry.layout change.entry index (items_of elements.old) (items_of elements.new)) }
    {
        match change {
            Held::Put { new, .. } => elements.put(self, index, None, new),
            Held::Out => elements.remove_one(self, index),
        }
    }

    /// Changes the pairs that the steps name, in the table at the parent.
    fn change_pairs(
        self,
        pairs: &mut Entries<'t>,
        parent: &[Step],
        steps: &[Step],
        change: Held<'t>,
    ) -> Result<(), AllocError>
        ensures { let old = items_of pairs.old in
            OnOk result (ChangesPairs self.entry.layout change.entry parent.now steps.now old (items_of pairs.new)) }
    {
        match change {
            Held::Put { spelled, new } => {
                let used = spelled.len().saturating_sub(steps.len());
                let (_, parts) = spelled.split_at(used);
                self.put_pair(pairs, parent, parts, new)
            }
            Held::Out => self.remove_pairs(pairs, parent, steps),
        }
    }

    /// Puts a pair in for the table at the parent, its key of these parts.
    fn put_pair(
        self,
        pairs: &mut Entries<'t>,
        parent: &[Step],
        parts: &'t [String],
        new: Value<'t>,
    ) -> Result<(), AllocError>
        ensures { let spelled = map string_bytes parts.now in
            OnOk result (PutsPair self.entry.layout spelled new.entry parent.now (items_of pairs.old) (items_of pairs.new)) }
    {
        let mut assign = Box::new(self.alloc, self.assign(parts)?)?;
        let index = self.pair_index(pairs, parent, &mut assign)?;
        pairs.put(self, index, Some(assign), new)
    }

    /// Takes out all pairs at or below the steps. Where no other pair mentions the parent, which is a table of dotted keys,
    /// the first of them becomes the parent as an empty inline table.
    fn remove_pairs(
        self,
        pairs: &mut Entries<'t>,
        parent: &[Step],
        steps: &[Step],
    ) -> Result<(), AllocError>
        ensures { OnOk result (TakesPairs self.entry.layout parent.now steps.now (items_of pairs.old) (items_of pairs.new)) }
    {
        let mut marks = self.marks_at(pairs, steps)?;
        if !self.is_left(pairs, parent, steps)? {
            self.replace_first(pairs, &mut marks, parent.len())?;
        }
        pairs.remove_marked(self, &marks)
    }

    /// Which pairs stand at the steps, or below.
    fn marks_at(self, pairs: &Entries<'t>, steps: &[Step]) -> Result<Vec<bool>, AllocError>
        ensures { IfOk result (λ marks. marks.items ≡ marks_at steps.now (items_of pairs.now).list) }
    {
        let mut marks = Vec::with_capacity(self.alloc, pairs.list.len())?;
        for index in 0..pairs.list.len() {
            marks.push(self.reaches_at(pairs, index, steps)?)?;
        }
        Ok(marks)
    }

    /// Whether the table at the parent is left: it is no table of dotted keys, or a pair that stays mentions it.
    fn is_left(
        self,
        pairs: &Entries<'t>,
        parent: &[Step],
        steps: &[Step],
    ) -> Result<bool, AllocError>
        ensures { IfOk result (λ left. left ≡ is_left parent.now steps.now (items_of pairs.now).list) }
    {
        if parent.is_empty() {
            return Ok(true);
        }
        for index in 0..pairs.list.len() {
            if self.keeps_at(pairs, index, parent, steps)? {
                return Ok(true);
            }
        }
        Ok(false)
    }

    /// Whether the pair with the index stays, and mentions the parent.
    fn keeps_at(
        self,
        pairs: &Entries<'t>,
        index: usize,
        parent: &[Step],
        steps: &[Step],
    ) -> Result<bool, AllocError>
        ensures { IfOk result (λ keeps. keeps ≡ keeps_at parent.now steps.now (items_of pairs.now).list index) }
    {
        let mentions = self.reaches_at(pairs, index, parent)?;
        let goes = self.reaches_at(pairs, index, steps)?;
        Ok(mentions && !goes)
    }

    /// Whether the first parts of the key of the pair with the index are the steps.
    fn reaches_at(
        self,
        pairs: &Entries<'t>,
        index: usize,
        steps: &[Step],
    ) -> Result<bool, AllocError>
        ensures { IfOk result (λ all. all ≡ reaches_at steps.now (items_of pairs.now).list index) }
    {
        match key_at(&pairs.list, index) {
            Some(key) => self.reaches(key, steps),
            None => Ok(false),
        }
    }

    /// Makes of the first marked pair, if there is one, one whose key has so many parts, and whose value is an empty inline
    /// table. Its mark goes.
    fn replace_first(
        self,
        pairs: &mut Entries<'t>,
        marks: &mut [bool],
        parts: usize,
    ) -> Result<(), AllocError>
        ensures { OnOk result (ReplacesFirst parts marks.old marks.new (items_of pairs.old) (items_of pairs.new)) }
    {
        let Some(index) = first_mark(marks) else {
            return Ok(());
        };
        marks[index] = false;
        self.empty_at(pairs, index, parts)
    }

    /// Makes of the pair with the index, if there is one, one whose key has so many parts, and whose value is an empty inline
    /// table.
    fn empty_at(self, pairs: &mut Entries<'t>, index: usize, parts: usize) -> Result<(), AllocError>
        ensures { OnOk result (EmptiesIf parts index (items_of pairs.old) (items_of pairs.new)) }
    {
        match pairs.list.side(index) {
            Some(Side::Before(place)) => {
                self.empty_in(&mut pairs.list.before, place, parts)?;
                Ok(())
            }
            Some(Side::Behind(place)) => {
                self.empty_in(&mut pairs.list.behind, place, parts)?;
                Ok(())
            }
            None => Ok(()),
        }
    }

    /// Makes so of the pair at the place.
    fn empty_in(
        self,
        list: &mut Vec<Entry<'t>>,
        place: usize,
        parts: usize,
    ) -> Result<(), AllocError>
        requires { place < vec_len list.old }
        ensures { OnOk result (EmptiesEntry parts place list.old.items list.new.items) }
    {
        self.empty_pair(&mut list[place], parts)?;
        Ok(())
    }

    /// Cuts the key of a pair to so many parts, and makes its value an empty inline table.
    fn empty_pair(self, pair: &mut Entry<'t>, parts: usize) -> Result<(), AllocError>
        ensures { OnOk result (IsEmptied parts (item pair.old) (item pair.new)) }
    {
        if let Some(assign) = &mut pair.assign {
            assign.cut(parts);
        }
        pair.value = self.empty_table()?;
        Ok(())
    }
}

/// The index of the first mark, if there is one.
fn first_mark(marks: &[bool]) -> Option<usize>
    ensures { MatchOption result (list_any (λ m. m) marks.now ≡ false) (IsFirstMark marks.now) }
{
    for (index, is_marked) in marks.iter().enumerate() {
        if *is_marked {
            return Some(index);
        }
    }
    None
}

/// Whether all steps are names.
fn are_names(steps: &[Step]) -> bool
    ensures { result ≡ list_all is_name steps.now }
{
    for step in steps {
        if !matches!(step, Step::Name(_)) {
            return false;
        }
    }
    true
}
