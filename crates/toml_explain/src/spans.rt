//! Where a line of a text and its key stand.
ghost use Rattle.std.specs.Prelude.{◌≡◌, IfOk};
ghost use Rattle.toml_text.specs.Source.{text_of};
ghost use Rattle.toml_tree.specs.Lines.{line as tree_line};
ghost use Rattle.toml_tree.specs.Pieces.{expr_start};
ghost use Rattle.toml_tree.specs.View.{blank, expr};
ghost use Rattle.toml_units.specs.Ends.{blank_end, expr_end};
ghost use Rattle.toml_explain.specs.Documents.{AreSpansAt, AreSpansIn, AreSpansOf, ReadsSpans, key_start};

use crate::data::told_syntax;
use std::alloc::{AllocError, Global};
use toml_text::{Source, Span};
use toml_tree::{Blank, Expr, Key, Line, LineReader, Profile};

/// Where the expression of a line stands, with its whitespace and its comment, and its key in it.
#[derive(Clone, Copy)]
pub(crate) struct LineSpans {
    pub whole: Span,
    pub key: Span,
}

/// The place behind whitespace and a comment.
fn blank_end(b: &Blank<'_>) -> usize
    ensures { result ≡ blank_end (blank b.now) }
{
    match b.comment {
        Some(comment) => comment.span().end,
        None => b.ws.span().end,
    }
}

/// Where an expression stands, with its whitespace and its comment.
fn whole_span(e: &Expr<'_>) -> Span
    ensures start { result.start ≡ expr_start (expr e.now) }
    ensures end { result.end ≡ expr_end (expr e.now) }
{
    match e {
        Expr::Blank(tail) => Span {
            start: tail.ws.start,
            end: blank_end(tail),
        },
        Expr::KeyVal { ws, tail, .. } | Expr::Std { ws, tail, .. } | Expr::Array { ws, tail, .. } =>
            {
                Span {
                    start: ws.start,
                    end: blank_end(tail),
                }
            }
    }
}

/// Where a key stands.
fn span_of_key(key: &Key<'_>) -> Span
    ensures { result.start ≡ key.now.first.start }
{
    let end = match key.rest.last() {
        Some(last) => last.part.span().end,
        None => key.first.span().end,
    };
    Span {
        start: key.first.start,
        end,
    }
}

/// Where the key of an expression stands; of a blank line its start.
fn key_span(e: &Expr<'_>) -> Span
    ensures { result.start ≡ key_start (expr e.now) }
{
    match e {
        Expr::Blank(tail) => Span {
            start: tail.ws.start,
            end: tail.ws.start,
        },
        Expr::KeyVal { keyval, .. } => span_of_key(&keyval.assign.key),
        Expr::Std { header, .. } | Expr::Array { header, .. } => span_of_key(&header.key),
    }
}

/// The spans of an expression.
fn expr_spans(e: &Expr<'_>) -> LineSpans
    ensures { AreSpansOf (expr e.now) result }
{
    LineSpans {
        whole: whole_span(e),
        key: key_span(e),
    }
}

/// The spans of no line.
const NOWHERE: LineSpans = LineSpans {
    whole: Span { start: 0, end: 0 },
    key: Span { start: 0, end: 0 },
};

/// The spans of a line.
fn spans_of(line: &Line<'_>) -> LineSpans
    ensures { AreSpansOf (tree_line line.now).expr result }
{
    expr_spans(line.expr())
}

/// The spans of the next line of a reader, and the reader if there is one more; none, where the text has no tree. The line is let go
/// here, so that the loop around has nothing to let go.
fn read_spans<'t>(
    alloc: Global,
    reader: LineReader<'t>,
) -> Result<Option<(LineSpans, Option<LineReader<'t>>)>, AllocError>
    ensures { IfOk result (ReadsSpans reader.entry) }
{
    match reader.next(alloc) {
        Ok((line, more)) => Ok(Some((spans_of(&line), more))),
        Err(fault) => {
            told_syntax(fault)?;
            Ok(None)
        }
    }
}

/// The new spans at the number, and else those that were found before.
fn at_number(count: usize, number: usize, new: LineSpans, found: LineSpans) -> LineSpans
    ensures here { count ≡ number → result ≡ new }
    ensures other { ¬ (count ≡ number) → result ≡ found }
{
    if count == number { new } else { found }
}

/// The spans of the line with a number, from 0, of a text, where that has a tree of the profile. All of the text is read, and no line
/// kept.
fn line_spans(
    alloc: Global,
    source: Source<'_>,
    profile: Profile,
    number: usize,
) -> Result<LineSpans, AllocError>
    ensures { IfOk result (AreSpansIn profile (text_of source.entry) number) }
{
    let mut left = Some(LineReader::new(source, profile));
    let mut found = NOWHERE;
    let mut count = 0usize;
    while let Some(reader) = left {
        let Some((spans, more)) = read_spans(alloc, reader)? else {
            return Ok(NOWHERE);
        };
        found = at_number(count, number, spans, found);
        count += 1;
        left = more;
    }
    Ok(found)
}

/// The spans of the line with a number, from 0, of bytes that have a tree of the profile.
pub(crate) fn spans_at(
    alloc: Global,
    bytes: &[u8],
    profile: Profile,
    number: usize,
) -> Result<LineSpans, AllocError>
    ensures { IfOk result (AreSpansAt profile bytes.now number) }
{
    match Source::new(bytes) {
        Ok(source) => line_spans(alloc, source, profile, number),
        Err(_) => Ok(NOWHERE),
    }
}
