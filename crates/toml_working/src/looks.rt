//! How the lines of the working tree look.
ghost use Rattle.std.specs.Prelude.{◌≡◌, IfOk};
ghost use Rattle.toml_layout.specs.KnownLines.{lines_known};
ghost use Rattle.toml_working.specs.Looking.{BodyBegins, BodyLooks, KeptLooks, LooksAt, SlotLooks};
ghost use Rattle.toml_layout.specs.Looks.{around};
ghost use Rattle.toml_layout.specs.OpenOutlines.{leaf_text};
ghost use Rattle.toml_working.specs.Starting.{read_of};

use crate::lines::{Body, Kept, Line, Slot};
use crate::working::{Before, Position, Tree};
use std::alloc::{AllocError, Global};
use toml_layout::{Equals, KnownLine, Leaf, Look};

impl Kept {
    /// How the line of the document looks.
    fn look<'x>(self, alloc: Global, known: &[KnownLine<'x>]) -> Result<Look<'x>, AllocError>
        ensures { IfOk result (KeptLooks (lines_known known.now) self) }
    {
        match known.get(self.line) {
            Some(line) => line.look(alloc),
            None => Ok(Look::NONE),
        }
    }
}

impl<'x> Line<'x> {
    /// How it looks.
    fn look(&self, alloc: Global, known: &[KnownLine<'x>]) -> Result<Look<'x>, AllocError>
        ensures { IfOk result (BodyLooks (lines_known known.now) self.now.body) }
    {
        match &self.body {
            Body::Kept(kept) => kept.look(alloc, known),
            Body::Open(open) => Ok(open.look()),
        }
    }

    /// The line with this whitespace to begin with, and around its `=` what stands around another's, where that is nothing or one
    /// space on each side.
    pub(crate) fn beginning_as(self, ws: Leaf<'x>, equals: Option<Equals<'x>>) -> Line<'x>
        ensures address { result.address ≡ self.entry.address }
        ensures base { result.base ≡ self.entry.base }
        ensures body { BodyBegins (leaf_text ws.entry) (around equals.entry) self.entry.body result.body }
    {
        let mut line = self;
        if let Body::Open(open) = &mut line.body {
            open.begin_as(ws, equals);
        }
        line
    }
}

impl<'x> Slot<'x> {
    /// How the line with the index looks.
    pub(crate) fn look(
        &self,
        alloc: Global,
        known: &[KnownLine<'x>],
        index: usize,
    ) -> Result<Look<'x>, AllocError>
        ensures { IfOk result (SlotLooks (lines_known known.now) self.now index) }
    {
        match self {
            Slot::Kept(kept) => kept.look(alloc, known),
            Slot::Lines(lines) => match lines.get(index) {
                Some(line) => line.look(alloc, known),
                None => Ok(Look::NONE),
            },
        }
    }
}

impl<'x> Tree<'x> {
    /// How the line at a place looks.
    pub(crate) fn look_at(
        &self,
        before: Before<'_, 'x>,
        at: Position,
    ) -> Result<Look<'x>, AllocError>
        ensures { IfOk result (LooksAt (read_of before.entry) self.now.slots.items at) }
    {
        match self.slots.get(at.slot) {
            Some(slot) => slot.look(self.alloc(), before.known, at.index),
            None => Ok(Look::NONE),
        }
    }
}
