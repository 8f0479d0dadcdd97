//! The edit list that `edit` and `verify` are handed.
ghost use Rattle.std.specs.Prelude.{map, IfErr, IfOk};
ghost use Rattle.toml_edits.specs.EditList.{IsEditList};
ghost use Rattle.toml_edits.specs.Edits.{change};
ghost use Rattle.toml_delivery.specs.Outcomes.{Ends};
ghost use Rattle.toml_commands.specs.EditLists.{AreListedOrNone, IsListRefusal, IsRefusedList};

use std::alloc::{AllocError, Global};
use toml_delivery::{Ending, Refusal};
use toml_edits::{Edit, EditsFault, read_edits};

/// The edits of the list, or why the bytes are none: 321 where they are no JSON list, 320 with the first entry that is no
/// edit.
pub fn edit_list(alloc: Global, bytes: &[u8]) -> Result<Vec<Edit>, Ending>
    ensures read { IfOk result (λ edits. IsEditList bytes.now (map change edits.items)) }
    ensures refused { IfErr result (Ends (IsListRefusal bytes.now)) }
{
    match read_edits(alloc, bytes) {
        Ok(edits) => Ok(edits),
        Err(EditsFault::NotAList) => Err(Ending::Refused(Refusal {
            code: 321,
            place: 0,
        })),
        Err(EditsFault::BadEdits { index }) => Err(Ending::Refused(Refusal {
            code: 320,
            place: index,
        })),
        Err(EditsFault::NoMemory) => Err(Ending::NoMemory),
    }
}

/// The edits of a list; none where it is refused.
#[tactic(auto, using(crate::proofs::NoEdits::none_listed))]
pub fn edits_listed(alloc: Global, bytes: &[u8]) -> Result<Vec<Edit>, AllocError>
    ensures { IfOk result (λ edits. AreListedOrNone bytes.now (map change edits.items)) }
{
    match edit_list(alloc, bytes) {
        Ok(edits) => Ok(edits),
        Err(ending) => no_edits(alloc, ending),
    }
}

/// No edits, where something is refused.
pub fn no_edits(alloc: Global, ending: Ending) -> Result<Vec<Edit>, AllocError>
    ensures { IfOk result (λ edits. IsRefusedList ending (map change edits.items)) }
{
    match ending {
        Ending::Refused(_) => Ok(Vec::new(alloc)),
        Ending::NoMemory => Err(AllocError),
    }
}
