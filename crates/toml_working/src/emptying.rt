//! Lines that come to stand for an empty table.
ghost use Rattle.std.specs.Prelude.{◌≡◌, OnOk, Some};
ghost use Rattle.toml_layout.specs.Emptying.{line_emptied};
ghost use Rattle.toml_layout.specs.KnownLines.{lines_known};
ghost use Rattle.toml_working.specs.Becoming.{BodyBecomes, OpenBecomes};
ghost use Rattle.toml_working.specs.RemoveStanding.{parts_to};

use crate::lines::{Body, Line};
use std::alloc::AllocError;
use toml_layout::{KnownLine, Texts};
use toml_names::Address;

impl<'t> Line<'t> {
    /// Makes it stand for the parent: its key's front up to it as an empty table, or as a header.
    pub(crate) fn stand_for(
        &mut self,
        texts: Texts<'t>,
        known: &[KnownLine<'t>],
        parent: &Address,
    ) -> Result<(), AllocError>
        ensures base { self.new.base ≡ self.old.base }
        ensures address { OnOk result (self.new.address ≡ Some parent.now) }
        ensures body { let parts = parts_to parent.now self.old.base in
            OnOk result (BodyBecomes texts.entry (lines_known known.now) (line_emptied parts) self.old.body self.new.body) }
    {
        let parts = self.seen().parts_to(parent);
        self.cut(texts, known, parts)?;
        self.address = Some(parent.copy(texts.alloc)?);
        Ok(())
    }

    /// Leaves so many parts of its key, with an empty table, or in a header.
    fn cut(
        &mut self,
        texts: Texts<'t>,
        known: &[KnownLine<'t>],
        parts: usize,
    ) -> Result<(), AllocError>
        ensures address { self.new.address ≡ self.old.address }
        ensures base { self.new.base ≡ self.old.base }
        ensures body { OnOk result (BodyBecomes texts.entry (lines_known known.now) (line_emptied parts) self.old.body self.new.body) }
    {
        self.open(texts, known)?;
        self.body.cut(texts, parts)
    }
}

impl<'t> Body<'t> {
    /// Leaves so many parts of the key of a line that is opened, with an empty table, or in a header.
    fn cut(&mut self, texts: Texts<'t>, parts: usize) -> Result<(), AllocError>
        ensures { OnOk result (OpenBecomes (line_emptied parts) self.old self.new) }
    {
        match self {
            Body::Open(open) => open.empty(texts, parts),
            Body::Kept(_) => Ok(()),
        }
    }
}
