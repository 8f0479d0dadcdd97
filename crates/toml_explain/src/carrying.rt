//! Where edits carry things: by the tree of what a list does, so that many edits cost little more than one.
use std::alloc::{AllocError, Global};
use toml_edits::{Carried, Edit, Moves, carry, moves_of};
use toml_names::Address;

/// Some edits, and the tree of what they do, where that tells.
#[derive(Drop)]
pub(crate) struct Carrier<'e> {
    edits: &'e [Edit],
    moves: Option<Moves>,
}

impl<'e> Carrier<'e> {
    /// By all edits of a list.
    pub(crate) fn of(alloc: Global, edits: &'e [Edit]) -> Result<Carrier<'e>, AllocError> {
        let moves = moves_of(alloc, edits)?;
        Ok(Carrier { edits, moves })
    }

    /// By none.
    pub(crate) fn none(alloc: Global) -> Carrier<'e> {
        Carrier {
            edits: &[],
            moves: Some(Moves::none(alloc)),
        }
    }

    /// By the edits of an end of the list, which is one longer than that of this carrier.
    pub(crate) fn with_front(self, edits: &'e [Edit]) -> Result<Carrier<'e>, AllocError> {
        let moves = match (self.moves, edits.first()) {
            (Some(tree), Some(edit)) => with_edit(tree, edit)?,
            _ => None,
        };
        Ok(Carrier { edits, moves })
    }

    /// Where the thing at an address stands behind the edits.
    pub(crate) fn carry(&self, alloc: Global, at: &Address) -> Result<Option<Address>, AllocError> {
        let told = match &self.moves {
            Some(moves) => moves.find(alloc, at)?,
            None => Carried::Unknown,
        };
        match told {
            Carried::Unknown => carried_along(alloc, self.edits, at),
            Carried::Nowhere => Ok(None),
            Carried::To(to) => Ok(Some(to)),
        }
    }
}

/// The tree with one edit more in front; none where it does not tell of that.
fn with_edit(tree: Moves, edit: &Edit) -> Result<Option<Moves>, AllocError> {
    let mut tree = tree;
    if tree.add_front(edit)? {
        Ok(Some(tree))
    } else {
        Ok(None)
    }
}

/// Where the thing at an address stands behind edits, asked of one after the other.
fn carried_along(
    alloc: Global,
    edits: &[Edit],
    at: &Address,
) -> Result<Option<Address>, AllocError> {
    let mut here = at.copy(alloc)?;
    for edit in edits {
        match carry(alloc, edit, &here)? {
            Some(next) => here = next,
            None => return Ok(None),
        }
    }
    Ok(Some(here))
}
