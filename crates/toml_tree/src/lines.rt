//! Lines: key/value pairs, expressions, and the newlines between them.
ghost use Rattle.std.specs.Prelude.{map, IfOk};
ghost use Rattle.toml_tree.specs.Lines.{line};
ghost use Rattle.toml_tree.specs.ReadingLines.{keyval_line_at, expr_at, line_step, lines_at};
ghost use Rattle.toml_tree.specs.Reads.{cursor, Moves, Reads, step};
ghost use Rattle.toml_tree.specs.View.{piece, expr};

use crate::line::Line;
use crate::piece::{Blank, Piece};
use crate::profile::Profile;
use crate::reader::Reader;
use crate::step::Step;
use crate::tree::Expr;
use crate::values::MAX_DEPTH;
use std::alloc::Global;
use toml_scalar::SyntaxFault;

impl<'t> Reader<'t> {
    /// `keyval ws [ comment ]`, behind whitespace
    #[tactic(auto, unfolding(crate::specs::ReadingLines::keyval_line_at))]
    fn keyval_line(
        &mut self,
        alloc: Global,
        profile: Profile,
        ws: Piece<'t>,
    ) -> Result<Expr<'t>, SyntaxFault>
        ensures { Reads expr (cursor self.old) (cursor self.new) result (keyval_line_at profile (piece ws.entry) (cursor self.old)) }
    {
        let keyval = self.keyval(alloc, MAX_DEPTH, profile)?;
        let tail = self.blank();
        Ok(Expr::KeyVal { ws, keyval, tail })
    }

    /// `expression`
    #[tactic(auto, unfolding(crate::specs::ReadingLines::expr_at))]
    fn expr(&mut self, alloc: Global, profile: Profile) -> Result<Expr<'t>, SyntaxFault>
        ensures { Reads expr (cursor self.old) (cursor self.new) result (expr_at profile (cursor self.old)) }
    {
        let ws = self.ws();
        if self.is_at_key() {
            return self.keyval_line(alloc, profile, ws);
        }
        if self.begins(b'[') {
            return self.header_line(alloc, ws);
        }
        let comment = self.comment();
        Ok(Expr::Blank(Blank { ws, comment }))
    }

    /// An expression and the newline behind it, or the last expression.
    #[tactic(auto, unfolding(crate::specs::ReadingLines::line_step))]
    pub(crate) fn line_step(
        &mut self,
        alloc: Global,
        profile: Profile,
    ) -> Result<Step<Line<'t>, Line<'t>>, SyntaxFault>
        ensures reads { Reads (step line line) (cursor self.old) (cursor self.new) result (line_step profile (cursor self.old)) }
        ensures moves { IfOk result (Moves (cursor self.old) (cursor self.new)) }
    {
        let expr = self.expr(alloc, profile)?;
        let newline = self.newline();
        if !newline.text.is_empty() {
            return Ok(Step::Next(Line { expr, newline }));
        }
        if !self.rest().is_empty() {
            return Err(self.refuse());
        }
        Ok(Step::Done(Line { expr, newline }))
    }

    /// All lines.
    pub(crate) fn lines(
        &mut self,
        alloc: Global,
        profile: Profile,
    ) -> Result<Vec<Line<'t>>, SyntaxFault>
        ensures { Reads (λ v. map line v.items) (cursor self.old) (cursor self.new) result (lines_at profile (cursor self.old)) }
    {
        let mut lines = Vec::new(alloc);
        loop {
            match self.line_step(alloc, profile)? {
                Step::Next(line) => lines.push(line)?,
                Step::Done(line) => {
                    lines.push(line)?;
                    return Ok(lines);
                }
            }
        }
    }
}
