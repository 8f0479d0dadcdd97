//! What a list of edits does to the thing at an address.
ghost use Rattle.std.specs.Prelude.{◌≡◌, IfOk, map};
ghost use Rattle.toml_edits.specs.Edits.{change};
ghost use Rattle.toml_edits.specs.Lists.{carried};
ghost use Rattle.toml_edits.specs.Told.{IsWhere};
ghost use Rattle.toml_checker.specs.EditLists.{changes};
ghost use Rattle.toml_checker.specs.Sights.{HasSight};

use crate::edit_list::EditList;
use std::alloc::{AllocError, Global};
use toml_edits::{Carried, Edit, Sight, carry};
use toml_names::Address;
use toml_units::Unit;

impl<'e> EditList<'e> {
    /// What they do to the thing at the address of a unit. It takes no memory.
    pub(crate) fn come_to(&self, unit: &Unit) -> Sight
        ensures { HasSight self.now unit.now.address result }
    {
        match (&unit.address, &self.moves) {
            (Some(at), Some(moves)) => moves.look(at),
            _ => Sight::Unknown,
        }
    }

    /// Where they carry the thing at an address, if that is told.
    fn find(&self, alloc: Global, at: &Address) -> Result<Carried, AllocError>
        ensures { IfOk result (λ to. ∥ IsWhere (carried (changes self.now) at.now) to ∥₁) }
    {
        match &self.moves {
            Some(moves) => moves.find(alloc, at),
            None => Ok(Carried::Unknown),
        }
    }

    /// Where they carry it.
    pub(crate) fn carry(&self, alloc: Global, at: &Address) -> Result<Option<Address>, AllocError>
        ensures { IfOk result (λ to. to ≡ carried (changes self.now) at.now) }
    {
        match self.find(alloc, at)? {
            Carried::Unknown => carried_along(alloc, self.edits, at),
            Carried::Nowhere => Ok(None),
            Carried::To(to) => Ok(Some(to)),
        }
    }
}

/// Where edits carry the thing at an address, one after the other.
fn carried_along(alloc: Global, edits: &[Edit], at: &Address) -> Result<Option<Address>, AllocError>
    ensures { IfOk result (λ to. to ≡ carried (map change edits.now) at.now) }
{
    let mut here = at.copy(alloc)?;
    for edit in edits {
        let Some(next) = carry(alloc, edit, &here)? else {
            return Ok(None);
        };
        here = next;
    }
    Ok(Some(here))
}
