//! Where steps lead in a value, and the two edits that change what is there: `set` and `rename`.
ghost use Rattle.std.specs.Prelude.{◌≡◌, ◌<◌, IfOk, OnOk, drop, map, option_and_then, option_map, slice_get, string_bytes, vec_len};
ghost use Rattle.toml_lists.specs.Gaps.{items};
ghost use Rattle.toml_layout.specs.NewKeys.{key_of};
ghost use Rattle.toml_layout.specs.Leading.{ChangesAt, LeadsOn, first_index, key_in, leads, led_by, open_names, pair_key};
ghost use Rattle.toml_layout.specs.SettingIn.{SetsEntry, SetsIn};
ghost use Rattle.toml_layout.specs.OpenOutlines.{assign as assign_outline, entries as entries_outline};
ghost use Rattle.toml_layout.specs.OpenOutlines.{entry as entry_outline, value as value_outline};
ghost use Rattle.toml_layout.specs.RenamingIn.{AreRenamed, KeysRenamed, RenamesEntry, RenamesIn, key_with, pair_with, reaches};

use crate::texts::Texts;
use crate::tree::{Assign, Entries, Entry, Key, Leaf, Value};
use std::alloc::AllocError;
use toml_lists::{GapList, Side};
use toml_names::Step;

impl<'t> Texts<'t> {
    /// Puts a value in place of the one at the steps. It answers `false`, and changes nothing, where no single value stands
    /// there.
    #[cycle(setting)]
    pub(crate) fn set_in(
        self,
        own: &mut Value<'t>,
        steps: &[Step],
        new: Value<'t>,
    ) -> Result<bool, AllocError>
        ensures { let new = value_outline new.entry in
            IfOk result (λ done. SetsIn steps.now new (value_outline own.old) (value_outline own.new) done) }
    {
        if steps.is_empty() {
            *own = new;
            return Ok(true);
        }
        match own {
            Value::Scalar(_) => Ok(false),
            Value::Array(elements) => match index_first(steps) {
                Some(index) => {
                    let done = self.set_entry(elements, index, behind(steps, 1), new)?;
                    Ok(done)
                }
                None => Ok(false),
            },
            Value::Inline(pairs) => match self.pair_on(pairs, steps)? {
                Some((index, used)) => {
                    let done = self.set_entry(pairs, index, behind(steps, used), new)?;
                    Ok(done)
                }
                None => Ok(false),
            },
        }
    }

    /// Sets what stands at the steps in the value of the entry with the index, if there is one.
    #[cycle(setting)]
    fn set_entry(
        self,
        entries: &mut Entries<'t>,
        index: usize,
        steps: &[Step],
        new: Value<'t>,
    ) -> Result<bool, AllocError>
        ensures { let new = value_outline new.entry in
            IfOk result (λ done. SetsEntry index steps.now new (entries_outline entries.old) (entries_outline entries.new) done) }
    {
        match entries.list.side(index) {
            Some(Side::Before(place)) => {
                let done = self.set_at(&mut entries.list.before, place, steps, new)?;
                Ok(done)
            }
            Some(Side::Behind(place)) => {
                let done = self.set_at(&mut entries.list.behind, place, steps, new)?;
                Ok(done)
            }
            None => Ok(false),
        }
    }

    /// Sets what stands at the steps in the value of the entry at the place.
    #[cycle(setting)]
    fn set_at(
        self,
        list: &mut Vec<Entry<'t>>,
        place: usize,
        steps: &[Step],
        new: Value<'t>,
    ) -> Result<bool, AllocError>
        requires { place < vec_len list.old }
        ensures { let new = value_outline new.entry in
            IfOk result (λ done. ChangesAt (λ v w. SetsIn steps.now new v w done) place list.old.items list.new.items) }
    {
        let done = self.set_in(&mut list[place].value, steps, new)?;
        Ok(done)
    }

    /// A pair whose value is what the steps name, or holds it: its index, and how many parts its key has.
    pub(crate) fn pair_on(
        self,
        pairs: &Entries<'t>,
        steps: &[Step],
    ) -> Result<Option<(usize, usize)>, AllocError>
        ensures { IfOk result (LeadsOn (entries_outline pairs.now).entries steps.now) }
    {
        for index in 0..pairs.list.len() {
            if let Some(used) = self.key_on(pairs, index, steps)? {
                return Ok(Some((index, used)));
            }
        }
        Ok(None)
    }

    /// How many parts the key of the pair with the index has, if the steps begin with all of them.
    fn key_on(
        self,
        pairs: &Entries<'t>,
        index: usize,
        steps: &[Step],
    ) -> Result<Option<usize>, AllocError>
        ensures { IfOk result (λ used. used ≡ led_by (key_in (entries_outline pairs.now).entries index) steps.now) }
    {
        let Some(key) = key_at(&pairs.list, index) else {
            return Ok(None);
        };
        let leads = self.leads(key, steps)?;
        Ok(leads.then_some(key.parts()))
    }

    /// Whether the steps begin with all parts of the key.
    fn leads(self, key: &Key<'t>, steps: &[Step]) -> Result<bool, AllocError>
        ensures { IfOk result (λ all. all ≡ leads (open_names key.now) steps.now) }
    {
        let parts = key.parts();
        if steps.len() < parts {
            return Ok(false);
        }
        Ok(self.common(key, steps)? == parts)
    }

    /// The key of these parts, and ` = `.
    pub fn assign(self, parts: &'t [String]) -> Result<Assign<'t>, AllocError>
        ensures { IfOk result (λ a. assign_outline a ≡ key_of (map string_bytes parts.now)) }
    {
        Ok(Assign {
            key: Key::of(self.alloc, parts)?,
            before_equals: Leaf::New(" "),
            after_equals: Leaf::New(" "),
        })
    }

    /// Writes another key part wherever one stands for the steps.
    #[cycle(renaming)]
    pub(crate) fn rename_in(
        self,
        own: &mut Value<'t>,
        steps: &[Step],
        to: &'t str,
    ) -> Result<(), AllocError>
        ensures { OnOk result (RenamesIn steps.now to.now (value_outline own.old) (value_outline own.new)) }
    {
        let Some((_, parent)) = steps.split_last() else {
            return Ok(());
        };
        match own {
            Value::Scalar(_) => Ok(()),
            Value::Array(elements) => match index_first(steps) {
                Some(index) => {
                    self.rename_entry(elements, index, behind(steps, 1), to)?;
                    Ok(())
                }
                None => Ok(()),
            },
            Value::Inline(pairs) => match self.pair_on(pairs, parent)? {
                Some((index, used)) => {
                    self.rename_entry(pairs, index, behind(steps, used), to)?;
                    Ok(())
                }
                None => {
                    self.rename_keys(pairs, steps, to)?;
                    Ok(())
                }
            },
        }
    }

    /// Renames what the steps name in the value of the entry with the index, if there is one.
    #[cycle(renaming)]
    fn rename_entry(
        self,
        entries: &mut Entries<'t>,
        index: usize,
        steps: &[Step],
        to: &'t str,
    ) -> Result<(), AllocError>
        ensures { OnOk result (RenamesEntry index steps.now to.now (entries_outline entries.old) (entries_outline entries.new)) }
    {
        match entries.list.side(index) {
            Some(Side::Before(place)) => {
                self.rename_at(&mut entries.list.before, place, steps, to)?;
                Ok(())
            }
            Some(Side::Behind(place)) => {
                self.rename_at(&mut entries.list.behind, place, steps, to)?;
                Ok(())
            }
            None => Ok(()),
        }
    }

    /// Renames what the steps name in the value of the entry at the place.
    #[cycle(renaming)]
    fn rename_at(
        self,
        list: &mut Vec<Entry<'t>>,
        place: usize,
        steps: &[Step],
        to: &'t str,
    ) -> Result<(), AllocError>
        requires { place < vec_len list.old }
        ensures { OnOk result (ChangesAt (RenamesIn steps.now to.now) place list.old.items list.new.items) }
    {
        self.rename_in(&mut list[place].value, steps, to)?;
        Ok(())
    }

    /// Writes another part in the keys of the pairs, wherever one stands for the steps.
    fn rename_keys(
        self,
        pairs: &mut Entries<'t>,
        steps: &[Step],
        to: &'t str,
    ) -> Result<(), AllocError>
        ensures { OnOk result (KeysRenamed steps.now to.now (entries_outline pairs.old) (entries_outline pairs.new)) }
    {
        self.rename_list(&mut pairs.list, steps, to)
    }

    /// Writes another part in the keys of the pairs on both sides of the gap.
    fn rename_list(
        self,
        pairs: &mut GapList<Entry<'t>>,
        steps: &[Step],
        to: &'t str,
    ) -> Result<(), AllocError>
        ensures { OnOk result (AreRenamed steps.now to.now pairs.old pairs.new) }
    {
        self.rename_all(&mut pairs.before, steps, to)?;
        self.rename_all(&mut pairs.behind, steps, to)
    }

    /// Writes another part in the keys of these pairs, wherever one stands for the steps.
    fn rename_all(
        self,
        pairs: &mut Vec<Entry<'t>>,
        steps: &[Step],
        to: &'t str,
    ) -> Result<(), AllocError>
        ensures { OnOk result (map entry_outline pairs.new.items ≡ map (pair_with steps.now to.now) (map entry_outline pairs.old.items)) }
    {
        for index in 0..pairs.len() {
            self.rename_pair(&mut pairs[index], steps, to)?;
        }
        Ok(())
    }

    /// Writes another part in the key of a pair, if one stands for the steps.
    fn rename_pair(
        self,
        pair: &mut Entry<'t>,
        steps: &[Step],
        to: &'t str,
    ) -> Result<(), AllocError>
        ensures { OnOk result (entry_outline pair.new ≡ pair_with steps.now to.now (entry_outline pair.old)) }
    {
        if let Some(assign) = &mut pair.assign {
            self.rename_key(assign, steps, to)?;
        }
        Ok(())
    }

    /// Writes another part in the key, if one stands for the steps.
    fn rename_key(
        self,
        assign: &mut Assign<'t>,
        steps: &[Step],
        to: &'t str,
    ) -> Result<(), AllocError>
        ensures { OnOk result (assign_outline assign.new ≡ key_with steps.now to.now (assign_outline assign.old)) }
    {
        if self.reaches(&assign.key, steps)? {
            assign
                .key
                .set_part(steps.len().saturating_sub(1), Leaf::New(to));
        }
        Ok(())
    }

    /// Whether the first parts of the key are the steps, each of them.
    pub(crate) fn reaches(self, key: &Key<'t>, steps: &[Step]) -> Result<bool, AllocError>
        ensures { IfOk result (λ all. all ≡ reaches (open_names key.now) steps.now) }
    {
        Ok(self.common(key, steps)? == steps.len())
    }
}

/// The key of the pair with the index.
pub(crate) fn key_at<'a, 't>(pairs: &'a GapList<Entry<'t>>, index: usize) -> Option<&'a Key<'t>>
    ensures { option_map (λ k. open_names k.now) result ≡ option_and_then pair_key (slice_get (items pairs.now) index) }
{
    Some(&pairs.get(index)?.assign.as_ref()?.key)
}

/// The index with which the steps begin, if they begin with one.
pub(crate) fn index_first(steps: &[Step]) -> Option<usize>
    ensures { result ≡ first_index steps.now }
{
    match steps.first() {
        Some(Step::Index(index)) => Some(*index as usize),
        _ => None,
    }
}

/// The steps behind the first so many.
pub fn behind(steps: &[Step], used: usize) -> &[Step]
    ensures { result.now ≡ drop used steps.now }
{
    let (_, rest) = steps.split_at(used.min(steps.len()));
    rest
}
