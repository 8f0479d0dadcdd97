//! Parts of data that change places: taken out and put back, no memory taken.
ghost use Rattle.std.specs.BTreeMap.{get_by_text};
ghost use Rattle.std.specs.Prelude.{◌≡◌, ◌∷◌, [], ◌<◌, ◌≤◌, Some, None, IsSome, slice_get, slice_set, vec_len};
ghost use Rattle.toml_names.specs.model.Addresses.{Address};
ghost use Rattle.toml_names.specs.model.Data.{kind_at};
ghost use Rattle.toml_names.specs.model.Parts.{AreBothSame, HasMemberPut, HasPartPut};

use crate::model::address::Step;
use crate::model::datum::Datum;
use std::collections::BTreeMap;
use std::mem;

/// Puts a member where one is, and gives the one before; where none is it gives the new one back.
fn swap_member(members: &mut BTreeMap<String, Datum>, name: &str, part: Datum) -> Datum
    ensures before { IsSome (get_by_text members.old name.now) → get_by_text members.old name.now ≡ Some result }
    ensures after { IsSome (get_by_text members.old name.now) → HasMemberPut name.now part members.old members.new }
    ensures none { get_by_text members.old name.now ≡ None → (members.new.entries ≡ members.old.entries) × (result ≡ part) }
{
    match members.get_mut(name) {
        Some(member) => mem::replace(member, part),
        None => part,
    }
}

/// Puts an element where one is, and gives the one before; where none is it gives the new one back.
fn swap_item(items: &mut Vec<Datum>, index: usize, part: Datum) -> Datum
    ensures before { index < vec_len items.old → slice_get items.old.items index ≡ Some result }
    ensures after { index < vec_len items.old → items.new.items ≡ slice_set items.old.items index part }
    ensures none { vec_len items.old ≤ index → (items.new.items ≡ items.old.items) × (result ≡ part) }
{
    if index >= items.len() {
        return part;
    }
    mem::replace(&mut items[index], part)
}

impl Datum {
    /// Puts a part one step below, where one is, and gives the one before. Where nothing stands there, the datum stays
    /// as it is and the part comes back.
    pub fn swap_child(self, step: &Step, part: Datum) -> (Datum, Datum)
        ensures before { IsSome (kind_at self (step.now ∷ [])) → (at : Address) → kind_at result.1 at ≡ kind_at self (step.now ∷ at) }
        ensures after { IsSome (kind_at self (step.now ∷ [])) → HasPartPut step.now part self result.0 }
        ensures none { kind_at self (step.now ∷ []) ≡ None → AreBothSame result (self, part) }
    {
        match (step, self) {
            (Step::Index(index), Datum::Array(mut items)) => {
                let before = swap_item(&mut items, *index as usize, part);
                (Datum::Array(items), before)
            }
            (Step::Name(name), Datum::Table(mut members)) => {
                let before = swap_member(&mut members, name.as_str(), part);
                (Datum::Table(members), before)
            }
            (_, other) => (other, part),
        }
    }
}
