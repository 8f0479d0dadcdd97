//! What edits ask for, found from the last edit to the first, each where the ones behind it carry what it makes.
ghost use Rattle.std.specs.Prelude.{◌≡◌, IfOk, map};
ghost use Rattle.toml_edits.specs.Edits.{change};
ghost use Rattle.toml_checker.specs.Added.{Asks};

use crate::added::Asked;
use crate::debts::{no_debts, owed_by, with_owed};
use crate::edit_list::EditList;
use crate::written::written_by;
use std::alloc::{AllocError, Global};
use toml_edits::Edit;
use toml_tree::Profile;

/// The list of the edits, and what they ask for, their values read in the profile.
pub(crate) fn asked_by<'e>(
    alloc: Global,
    edits: &'e [Edit],
    profile: Profile,
) -> Result<(EditList<'e>, Asked<'e>), AllocError>
    ensures { IfOk result (λ p. (p.0.edits.now ≡ edits.now) × Asks profile (map change edits.now) p.1) }
{
    let mut later = EditList::none(alloc, &edits[edits.len()..]);
    let mut debts = no_debts(alloc);
    let mut written = Vec::new(alloc);
    for count in 0..edits.len() {
        let left = &edits[edits.len() - 1 - count..];
        let edit = &left[0];
        debts = with_owed(alloc, debts, owed_by(alloc, edit, &later)?)?;
        written.push(written_by(alloc, edit, &later, profile)?)?;
        later = later.with_front(left)?;
    }
    written.reverse();
    let asked = Asked {
        debts,
        written,
        edited: !edits.is_empty(),
    };
    Ok((later, asked))
}
