ghost use Rattle.std.specs.Prelude.{◌≡◌, map};
ghost use Rattle.toml_tree.specs.Lines.{SpellSome, line};

use crate::line::Line;
use crate::piece::Piece;

/// The tree of a text: the mark U+FEFF or an empty piece, and the lines. The last line has no newline,
/// so there is always one line or more.
#[derive(Drop)]
pub struct Doc<'t> {
    pub(crate) mark: Piece<'t>,
    pub(crate) lines: Vec<Line<'t>>,
    // they are the tree of some text; `∥ ∥₁` says that one exists and not which
    pub ghost spelled: { ∥ SpellSome mark lines ∥₁ },
}

impl<'t> Doc<'t> {
    ghost use Rattle.toml_tree.specs.Document.{document};
    ghost use Rattle.toml_tree.specs.View.{piece};

    /// The mark at the front of the text, or an empty piece.
    pub fn mark(&self) -> Piece<'t>
        ensures { piece result ≡ (document self.now).mark }
    {
        self.mark
    }

    /// The lines in text order.
    pub fn lines(&self) -> &[Line<'t>]
        ensures { map line result.now ≡ (document self.now).lines }
    {
        &self.lines
    }
}
