//! The document before the edits, read line by line.
ghost use Rattle.std.specs.Prelude.{◌≡◌, [], IfErr, IfOk, List, OnOk};
ghost use Rattle.toml_text.specs.Source.{text_of};
ghost use Rattle.toml_tree.specs.HandedOut.{line_ahead};
ghost use Rattle.toml_tree.specs.Lines.{line as tree_line};
ghost use Rattle.toml_tree.specs.Pieces.{expr_start};
ghost use Rattle.toml_tree.specs.Tree.{Line as Lined};
ghost use Rattle.toml_tree.specs.View.{expr as expr_tree};
ghost use Rattle.toml_names.specs.reader.Texts.{RefusesText};
ghost use Rattle.toml_working.specs.Reading.{HasRead, IsReadText, ReadsLine, fact_of};

use std::alloc::{AllocError, Global};
use toml_layout::KnownLine;
use toml_names::{AddressSet, NameFault, ReadFault, refuse_names};
use toml_text::{Source, Span};
use toml_tree::{Expr, Line, LineReader, Profile};
use toml_units::{TakenLines, Unit};

/// What the working tree knows of a line that is as it was.
#[derive(Clone, Copy)]
pub struct LineFacts {
    /// Where it stands, with its newline.
    pub span: Span,
    /// Whether it is the last line, which ends in no newline.
    pub is_last: bool,
}

/// A document that was read.
#[derive(Drop)]
pub struct ReadDocument<'x> {
    pub lines: Vec<KnownLine<'x>>,
    pub facts: Vec<LineFacts>,
    /// What the lines name, and their units.
    pub taken: TakenLines<'x>,
}

/// A line that was read just now, what handed it out, and whether it is the last one.
#[derive(Drop)]
struct ReadLine<'x> {
    line: Line<'x>,
    reader: LineReader<'x>,
    is_last: bool,
}

impl<'x> ReadDocument<'x> {
    /// No line of the text.
    fn new(alloc: Global, source: Source<'x>) -> Result<ReadDocument<'x>, AllocError>
        ensures { IfOk result (λ read. HasRead read []) }
    {
        Ok(ReadDocument {
            lines: Vec::new(alloc),
            facts: Vec::new(alloc),
            taken: TakenLines::new(alloc, source)?,
        })
    }

    /// Takes a line, and holds it where an edit may change something on it: the first and the last one, whose newlines matter to
    /// new lines, and what the set reaches.
    fn take(
        &mut self,
        alloc: Global,
        read: ReadLine<'x>,
        touched: &AddressSet,
    ) -> Result<(), NameFault>
        requires taken { (lines : List Lined) × HasRead self.old lines }
        requires same { tree_line read.line ≡ line_ahead read.reader }
        ensures { (lines : List Lined) → HasRead self.old lines → ReadsLine lines (tree_line read.entry.line) self.new result }
    {
        let first = self.taken.units().len();
        self.facts.push(facts_of(&read.line))?;
        self.taken.take(alloc, &read.line)?;
        let is_held = read.is_last || first == 0 || is_near(self.taken.units().get(first), touched);
        let known = KnownLine::of(alloc, read.reader, read.line, is_held)?;
        self.lines.push(known)?;
        Ok(())
    }

    /// Takes all lines of the text.
    fn take_all(
        &mut self,
        alloc: Global,
        source: Source<'x>,
        profile: Profile,
        touched: &AddressSet,
    ) -> Result<(), ReadFault>
        requires new { HasRead self.old [] }
        ensures read { OnOk result (IsReadText profile (text_of source.entry) self.new) }
        ensures refused { IfErr result (RefusesText profile (text_of source.entry)) }
    {
        let mut left = Some(LineReader::new(source, profile));
        while let Some(reader) = left {
            let (line, more) = reader.next(alloc)?;
            let one = ReadLine {
                line,
                reader,
                is_last: more.is_none(),
            };
            if let Err(fault) = self.take(alloc, one, touched) {
                return Err(refuse_names(alloc, more, fault));
            }
            left = more;
        }
        Ok(())
    }
}

/// Lets go what was read of lines. Its parts are many, and they are let go one by one here alone.
pub fn let_go(_taken: TakenLines<'_>) {}

/// Whether the set reaches a line, by its own unit.
fn is_near(unit: Option<&Unit>, touched: &AddressSet) -> bool {
    match unit {
        Some(unit) => match &unit.address {
            Some(at) => touched.reaches(at.steps()),
            None => false,
        },
        None => false,
    }
}

/// The document of the profile that the text is, or why it is none. The set has the addresses that edits touch.
pub fn read_document<'x>(
    alloc: Global,
    source: Source<'x>,
    profile: Profile,
    touched: &AddressSet,
) -> Result<ReadDocument<'x>, ReadFault>
    ensures read { IfOk result (IsReadText profile (text_of source.entry)) }
    ensures refused { IfErr result (RefusesText profile (text_of source.entry)) }
{
    let mut read = ReadDocument::new(alloc, source)?;
    match read.take_all(alloc, source, profile, touched) {
        Ok(()) => Ok(read),
        Err(fault) => {
            let_go(read.taken);
            Err(fault)
        }
    }
}

/// What the working tree knows of a line.
fn facts_of(line: &Line<'_>) -> LineFacts
    ensures { result ≡ fact_of (tree_line line.now) }
{
    LineFacts {
        span: Span {
            start: start_of(line.expr()),
            end: line.newline().span().end,
        },
        is_last: line.newline().text.is_empty(),
    }
}

/// Where an expression begins, with the whitespace before it.
fn start_of(expr: &Expr<'_>) -> usize
    ensures { result ≡ expr_start (expr_tree expr.now) }
{
    match expr {
        Expr::Blank(blank) => blank.ws.start,
        Expr::KeyVal { ws, .. } | Expr::Std { ws, .. } | Expr::Array { ws, .. } => ws.start,
    }
}
