ghost use Rattle.std.specs.Prelude.{◌≡◌};
ghost use Rattle.toml_tree.specs.View.{IsLine};

use crate::piece::Piece;
use crate::tree::Expr;

/// One expression of the grammar and the newline that ends it. A value over several physical lines is
/// part of one line.
#[derive(Drop)]
pub struct Line<'t> {
    pub(crate) expr: Expr<'t>,
    pub(crate) newline: Piece<'t>,
    // each piece is in its form; `∥ ∥₁` says so and forgets how it is proved
    pub ghost form: { ∥ IsLine expr newline ∥₁ },
}

impl<'t> Line<'t> {
    ghost use Rattle.toml_tree.specs.Lines.{line};
    ghost use Rattle.toml_tree.specs.View.{expr, piece};

    /// What stands on the line.
    pub fn expr(&self) -> &Expr<'t>
        ensures { expr result.now ≡ (line self.now).expr }
    {
        &self.expr
    }

    /// The newline behind it, an empty piece at the last line.
    pub fn newline(&self) -> Piece<'t>
        ensures { piece result ≡ (line self.now).newline }
    {
        self.newline
    }
}
