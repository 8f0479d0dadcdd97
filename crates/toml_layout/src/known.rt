//! The lines of the document, for edits that change something on them.
ghost use Rattle.std.specs.Prelude.{◌≡◌, IfOk};
ghost use Rattle.toml_tree.specs.HandedOut.{line_ahead};
ghost use Rattle.toml_tree.specs.Lines.{line as tree_line};
ghost use Rattle.toml_layout.specs.KnownLines.{known_line};
ghost use Rattle.toml_layout.specs.Looks.{LooksAs};
ghost use Rattle.toml_layout.specs.Opening.{OpensLine};
ghost use Rattle.toml_layout.specs.TreeOutlines.{line_outline};

use crate::looks::{Equals, Look};
use crate::opening::Opener;
use crate::texts::Texts;
use crate::tree::{Leaf, OpenLine};
use std::alloc::{AllocError, Global};
use toml_tree::{Expr, Line, LineReader};

/// A line of the document. Those are held on which an edit may change something, as far as the edits tell by their addresses: so
/// no line is read twice, and a document takes memory for few of its lines.
#[derive(Drop)]
pub enum KnownLine<'x> {
    Held(Box<Line<'x>>),
    /// It was let go, and this hands it out again.
    Place(LineReader<'x>),
}

impl<'x> KnownLine<'x> {
    /// A line that the reader hands out.
    pub fn of(
        alloc: Global,
        reader: LineReader<'x>,
        line: Line<'x>,
        is_held: bool,
    ) -> Result<KnownLine<'x>, AllocError>
        requires { tree_line line ≡ line_ahead reader }
        ensures { IfOk result (λ known. known_line known ≡ tree_line line.entry) }
    {
        if is_held {
            return Ok(KnownLine::Held(Box::new(alloc, line)?));
        }
        Ok(KnownLine::Place(reader))
    }

    /// All that stands on it.
    pub fn open(&self, texts: Texts<'x>) -> Result<OpenLine<'x>, AllocError>
        ensures { OpensLine texts.entry (known_line self.now) result }
    {
        let opener = Opener::kept(texts);
        match self {
            KnownLine::Held(line) => opener.line(line),
            KnownLine::Place(reader) => {
                let line = read_again(texts.alloc, *reader)?;
                opener.line(&line)
            }
        }
    }

    /// How it looks.
    pub fn look(&self, alloc: Global) -> Result<Look<'x>, AllocError>
        ensures { IfOk result (λ look. LooksAs look (line_outline (known_line self.now))) }
    {
        match self {
            KnownLine::Held(line) => Ok(look_of(line)),
            KnownLine::Place(reader) => Ok(look_of(&read_again(alloc, *reader)?)),
        }
    }

    /// Its newline, the empty text where it has none.
    pub fn newline(&self, alloc: Global) -> Result<&'x str, AllocError>
        ensures { IfOk result (λ newline. newline.now ≡ (known_line self.now).newline.text) }
    {
        match self {
            KnownLine::Held(line) => Ok(line.newline().text),
            KnownLine::Place(reader) => Ok(read_again(alloc, *reader)?.newline().text),
        }
    }
}

/// How a line of the document looks.
fn look_of<'x>(line: &Line<'x>) -> Look<'x>
    ensures { LooksAs result (line_outline (tree_line line.now)) }
{
    match line.expr() {
        Expr::Blank(tail) => Look {
            ws: Leaf::EMPTY,
            equals: None,
            has_comment: tail.comment.is_some(),
        },
        Expr::KeyVal { ws, keyval, tail } => Look {
            ws: Leaf::New(ws.text),
            equals: Some(Equals {
                before: Leaf::New(keyval.assign.before_equals.text),
                after: Leaf::New(keyval.assign.after_equals.text),
            }),
            has_comment: tail.comment.is_some(),
        },
        Expr::Std { ws, tail, .. } | Expr::Array { ws, tail, .. } => Look {
            ws: Leaf::New(ws.text),
            equals: None,
            has_comment: tail.comment.is_some(),
        },
    }
}

/// The line that a reader hands out. It was read before, so it is there, and only memory can lack.
fn read_again<'x>(alloc: Global, reader: LineReader<'x>) -> Result<Line<'x>, AllocError>
    ensures { IfOk result (λ l. tree_line l ≡ line_ahead reader.entry) }
{
    match reader.next(alloc) {
        Ok((line, _)) => Ok(line),
        Err(_) => Err(AllocError),
    }
}
