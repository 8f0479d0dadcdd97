//! Where the thing at an address stands after an edit.
ghost use Rattle.std.specs.Prelude.{◌≡◌, IfOk, set};
ghost use Rattle.toml_edits.specs.Carry as moves;
ghost use Rattle.toml_edits.specs.Courses.{arrives};
ghost use Rattle.toml_edits.specs.Edits.{change};

use crate::course::{Course, course_of};
use crate::edit::Edit;
use std::alloc::{AllocError, Global};
use toml_names::{Address, Name, Step};

/// The address with another step behind so many, changed in place; a shorter one stays as it is.
fn with_step(address: Address, place: usize, step: Step) -> Address
    ensures { result ≡ set address place step }
{
    let mut steps = address.into_steps();
    if let Some(old) = steps.get_mut(place) {
        *old = step;
    }
    Address::of(steps)
}

impl<'e> Course<'e> {
    /// Where the thing at the address then stands. The address is changed in place; a long new name alone takes memory.
    pub fn bring(self, alloc: Global, address: Address) -> Result<Option<Address>, AllocError>
        ensures { IfOk result (λ to. to ≡ arrives self.entry address) }
    {
        match self {
            Course::Stays => Ok(Some(address)),
            Course::ToIndex(place, index) => {
                Ok(Some(with_step(address, place, Step::Index(index))))
            }
            Course::ToName(place, text) => {
                let name = Name::spelled(alloc, text)?;
                Ok(Some(with_step(address, place, Step::Name(name))))
            }
            Course::Nowhere => Ok(None),
        }
    }
}

/// Where the thing at an address stands after an edit at the place `p`:
///
/// | Edit | Where the thing at `a` stands |
/// |---|---|
/// | set `p` | nowhere if `a` is strictly below `p`; else at `a` |
/// | insert `p`, its last step an index `i` | if `a` is at or below an element `j >= i` of that array, at `a` with `j + 1`; else at `a` |
/// | insert `p`, its last step a name | at `a` |
/// | rename `p` to `t` | if `a` is at or below `p`, at `a` with that step replaced by `t`; else at `a` |
/// | remove `p` | nowhere if `a` is at or below `p`; if the last step of `p` is an index `i` and `a` is at or below an element `j > i` of that array, at `a` with `j - 1`; else at `a` |
/// | section `p`, element `p` | at `a` |
///
/// An edit at the root, and a rename of an element, move nothing. An index that would pass 64 bits stands nowhere.
pub fn carry(alloc: Global, edit: &Edit, address: &Address) -> Result<Option<Address>, AllocError>
    ensures { IfOk result (λ o. o ≡ moves.carry (change edit.now) address.now) }
{
    match course_of(edit, address.steps()) {
        Course::Nowhere => Ok(None),
        found => found.bring(alloc, address.copy(alloc)?),
    }
}
