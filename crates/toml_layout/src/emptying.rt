//! What a line is made that stands for an empty table: its key is cut, and nothing stands in its value.
ghost use Rattle.std.specs.Prelude.{◌≡◌, ◌-◌, IfOk, OnOk, take};
ghost use Rattle.toml_layout.specs.Emptying.{assign_cut, expr_emptied, line_emptied, no_pairs};
ghost use Rattle.toml_layout.specs.OpenOutlines.{assign as assign_outline, header, line, value};

use crate::texts::Texts;
use crate::tree::{Assign, Blank, Brackets, Entries, Expr, Header, Key, Leaf, OpenLine, Value};
use std::alloc::AllocError;

impl Key<'_> {
    /// Leaves so many parts of it, at least one.
    pub(crate) fn cut(&mut self, parts: usize)
        ensures first { self.new.first ≡ self.old.first }
        ensures rest { self.new.rest.items ≡ take (parts - 1) self.old.rest.items }
    {
        self.rest.truncate(parts.saturating_sub(1));
    }
}

impl<'t> Assign<'t> {
    /// Leaves so many parts of the key, and ` = `.
    #[tactic(auto, using(crate::proofs::Emptied::rest_left))]
    pub(crate) fn cut(&mut self, parts: usize)
        ensures { assign_outline self.new ≡ assign_cut parts (assign_outline self.old) }
    {
        self.key.cut(parts);
        self.before_equals = Leaf::New(" ");
        self.after_equals = Leaf::New(" ");
    }
}

impl<'t> Texts<'t> {
    /// `{}`
    pub(crate) fn empty_table(self) -> Result<Value<'t>, AllocError>
        ensures { IfOk result (λ v. value v ≡ no_pairs) }
    {
        Ok(Value::Inline(Box::new(self.alloc, Entries::none(self.alloc))?))
    }
}

impl<'t> OpenLine<'t> {
    /// Makes it a line of an empty table, whose key has so many parts of this one's.
    pub fn empty(&mut self, texts: Texts<'t>, parts: usize) -> Result<(), AllocError>
        ensures { OnOk result (line self.new ≡ line_emptied parts (line self.old)) }
    {
        self.is_new = true;
        self.tail = Blank {
            ws: Leaf::EMPTY,
            comment: None,
        };
        match &mut self.expr {
            Expr::Blank => {}
            Expr::Pair(pair) => {
                pair.assign.cut(parts);
                pair.value = texts.empty_table()?;
            }
            Expr::Header(header) => header.cut(parts),
        }
        Ok(())
    }
}

impl Header<'_> {
    /// Leaves so many parts of its key, between single brackets.
    #[tactic(auto, using(crate::proofs::Emptied::rest_left))]
    fn cut(&mut self, parts: usize)
        ensures { header self.new ≡ expr_emptied parts (header self.old) }
    {
        self.brackets = Brackets::One;
        self.before = Leaf::EMPTY;
        self.key.cut(parts);
        self.after = Leaf::EMPTY;
    }
}
