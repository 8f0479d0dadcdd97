//! Headers, `[table]` and `[[array of tables]]`.
ghost use Rattle.std.specs.Prelude.{◌≡◌, drop};
ghost use Rattle.toml_text.specs.Runs.{begins, is_byte};
ghost use Rattle.toml_tree.specs.ReadingLines.{named_at, header_at, array_header_at, header_line_at};
ghost use Rattle.toml_tree.specs.Reads.{cursor, Reads};
ghost use Rattle.toml_tree.specs.View.{piece, header, expr};

use crate::piece::Piece;
use crate::reader::Reader;
use crate::tree::{Expr, Header};
use std::alloc::Global;
use toml_scalar::SyntaxFault;

impl<'t> Reader<'t> {
    /// `ws key std-table-close`
    #[tactic(auto, unfolding(crate::specs::ReadingLines::named_at))]
    fn named(&mut self, alloc: Global) -> Result<Header<'t>, SyntaxFault>
        ensures { Reads header (cursor self.old) (cursor self.new) result (named_at (cursor self.old)) }
    {
        let before = self.ws();
        let key = self.key(alloc)?;
        let after = self.ws();
        if !self.eat(b']') {
            return Err(self.refuse());
        }
        Ok(Header { before, key, after })
    }

    /// `std-table`
    #[tactic(auto, unfolding(crate::specs::ReadingLines::header_at))]
    fn header(&mut self, alloc: Global) -> Result<Header<'t>, SyntaxFault>
        ensures { Reads header (cursor self.old) (cursor self.new) result (header_at (cursor self.old)) }
    {
        if !self.eat(b'[') {
            return Err(self.refuse());
        }
        self.named(alloc)
    }

    /// `array-table`: a header between one more pair of brackets.
    #[tactic(auto, unfolding(crate::specs::ReadingLines::array_header_at))]
    fn array_header(&mut self, alloc: Global) -> Result<Header<'t>, SyntaxFault>
        ensures { Reads header (cursor self.old) (cursor self.new) result (array_header_at (cursor self.old)) }
    {
        if !self.eat(b'[') {
            return Err(self.refuse());
        }
        let header = self.header(alloc)?;
        if !self.eat(b']') {
            return Err(self.refuse());
        }
        Ok(header)
    }

    /// Whether the second byte from here is `[`.
    fn is_bracket_next(&self) -> bool
        ensures { result ≡ begins (is_byte 0x5B) (drop 1 (cursor self.now).rest) }
    {
        match self.rest() {
            [_, second, ..] => *second == b'[',
            _ => false,
        }
    }

    /// `table ws [ comment ]`, behind whitespace
    #[tactic(auto, unfolding(crate::specs::ReadingLines::header_line_at))]
    pub(crate) fn header_line(
        &mut self,
        alloc: Global,
        ws: Piece<'t>,
    ) -> Result<Expr<'t>, SyntaxFault>
        ensures { Reads expr (cursor self.old) (cursor self.new) result (header_line_at (piece ws.entry) (cursor self.old)) }
    {
        if self.is_bracket_next() {
            let header = self.array_header(alloc)?;
            let tail = self.blank();
            return Ok(Expr::Array { ws, header, tail });
        }
        let header = self.header(alloc)?;
        let tail = self.blank();
        Ok(Expr::Std { ws, header, tail })
    }
}
