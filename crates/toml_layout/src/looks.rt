//! How a line looks: what a new line takes of it.
ghost use Rattle.std.specs.Prelude.{◌≡◌};
ghost use Rattle.toml_layout.specs.Looks.{LooksAs, around, begun_as};
ghost use Rattle.toml_layout.specs.OpenOutlines.{leaf_text, line as outlined};

use crate::tree::{Expr, Leaf, OpenLine};

/// What stands around the `=` of a line.
#[derive(Clone, Copy)]
pub struct Equals<'x> {
    pub before: Leaf<'x>,
    pub after: Leaf<'x>,
}

/// How a line looks: the whitespace before its key or its header, what stands around its `=`, if it has one, and whether a
/// comment stands on it.
#[derive(Clone, Copy)]
pub struct Look<'x> {
    pub ws: Leaf<'x>,
    pub equals: Option<Equals<'x>>,
    pub has_comment: bool,
}

impl Look<'_> {
    /// That of a line on which nothing stands.
    pub const NONE: Look<'static> = Look {
        ws: Leaf::EMPTY,
        equals: None,
        has_comment: false,
    };
}

impl<'x> OpenLine<'x> {
    /// How it looks.
    pub fn look(&self) -> Look<'x>
        ensures { LooksAs result (outlined self.now) }
    {
        let equals = match &self.expr {
            Expr::Pair(pair) => Some(Equals {
                before: pair.assign.before_equals,
                after: pair.assign.after_equals,
            }),
            Expr::Blank | Expr::Header(_) => None,
        };
        Look {
            ws: self.ws,
            equals,
            has_comment: self.tail.comment.is_some(),
        }
    }

    /// Gives it this whitespace to begin with, and around its `=` what stands around another's, where that is nothing or one
    /// space on each side.
    pub fn begin_as(&mut self, ws: Leaf<'x>, equals: Option<Equals<'x>>)
        ensures { outlined self.new ≡ begun_as (leaf_text ws.entry) (around equals.entry) (outlined self.old) }
    {
        self.ws = ws.anew();
        if let (Expr::Pair(pair), Some(other)) = (&mut self.expr, equals) {
            pair.assign.space_as(other.before, other.after);
        }
    }
}
