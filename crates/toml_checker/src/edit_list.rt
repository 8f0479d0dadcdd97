//! Lists of edits, each with the tree of what it does.
ghost use Rattle.std.specs.Prelude.{◌≡◌, ◌<◌, ◌^◌, [], IfOk, IfSome, length, map};
ghost use Rattle.toml_edits.specs.Edits.{change};
ghost use Rattle.toml_edits.specs.Told.{TellsOf};
ghost use Rattle.toml_checker.specs.Longer.{IsLonger, TellsMore};

use std::alloc::{AllocError, Global};
use toml_edits::{Edit, Moves, moves_of};

/// Edits, and what they do to each address: so most addresses need not be asked of each edit.
#[derive(Drop)]
pub(crate) struct EditList<'e> {
    pub(crate) edits: &'e [Edit],
    /// What they do, unless that is not told.
    pub(crate) moves: Option<Moves>,
    pub ghost few: { length (map change edits.now) < 2 ^ 63 },
    pub ghost tells: { ∥ IfSome moves (TellsOf (map change edits.now)) ∥₁ },
}

impl<'e> EditList<'e> {
    /// The list of these edits.
    pub(crate) fn of(alloc: Global, edits: &'e [Edit]) -> Result<EditList<'e>, AllocError>
        ensures { IfOk result (λ list. list.edits.now ≡ edits.now) }
    {
        // each takes some bytes of memory
        prove!(edits.len() <= isize::MAX as usize);
        let moves = moves_of(alloc, edits)?;
        Ok(EditList { edits, moves })
    }

    /// The list of no edits.
    pub(crate) fn none(alloc: Global, edits: &'e [Edit]) -> EditList<'e>
        requires { edits.now ≡ [] }
        ensures { result.edits.now ≡ edits.now }
    {
        EditList {
            edits,
            moves: Some(Moves::none(alloc)),
        }
    }

    /// The list of these edits, that were its own and one in front of them.
    pub(crate) fn with_front(self, edits: &'e [Edit]) -> Result<EditList<'e>, AllocError>
        requires { IsLonger self.edits.now edits.now }
        ensures { IfOk result (λ list. list.edits.now ≡ edits.now) }
    {
        // each takes some bytes of memory
        prove!(edits.len() <= isize::MAX as usize);
        let EditList { moves, .. } = self;
        let moves = put_in_front(moves, &edits[0])?;
        Ok(EditList { edits, moves })
    }
}

/// The tree with an edit more in front, if there is one and that is told.
fn put_in_front(moves: Option<Moves>, edit: &Edit) -> Result<Option<Moves>, AllocError>
    ensures { IfOk result (TellsMore moves (change edit.now)) }
{
    let Some(tree) = moves else {
        return Ok(None);
    };
    let mut tree = tree;
    if tree.add_front(edit)? {
        Ok(Some(tree))
    } else {
        Ok(None)
    }
}
