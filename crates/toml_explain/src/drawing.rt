//! A line as it is shown, and the carets below what is meant in it.
ghost use Rattle.std.specs.Prelude.{◌≡◌, ◌≢◌, ◌≤◌, ◌++◌, [], IfOk, OnOk, encode_utf8, encode_utf8_all, length, string_bytes};
ghost use Rattle.toml_explain.specs.Excerpts.{IsDrawn, IsDrawnOf, IsOneLine};
ghost use Rattle.toml_explain.specs.Shown.{column_behind, dots, max_columns, shown_line};

use crate::glyph::{Glyph, columns_of, glyph_of};
use bstr::ByteSlice;
use std::alloc::{AllocError, Global};
use toml_text::Span;

/// How many columns of a line are shown at most.
const MAX_COLUMNS: usize = 160;

/// What stands where a line was cut, and below it.
const CUT: &str = "..";

const BELOW_CUT: &str = "  ";

/// How many columns of a longer line are shown beside what stands where it was cut.
const ROOM: usize = 156;

/// What of a line is shown: from one of its bytes up to another, and the column in which that begins.
#[derive(Clone, Copy)]
struct Run {
    from: usize,
    to: usize,
    column: usize,
}

/// All of a line, or what stands in the columns around the place.
fn run_of(line: &[u8], at: usize) -> Run
    ensures order { result.from ≤ result.to }
    ensures within { result.to ≤ length line.now }
    ensures whole { column_behind 0 (shown_line line.now) ≤ max_columns → (result.from ≡ 0) × (result.to ≡ length line.now) }
{
    let columns = columns_of(line, at);
    if columns.all <= MAX_COLUMNS {
        return Run {
            from: 0,
            to: line.len(),
            column: 0,
        };
    }
    let latest = columns.all.saturating_sub(ROOM);
    let first = columns.place.saturating_sub(ROOM / 2).min(latest);
    run_in(line, first, first.saturating_add(ROOM))
}

/// What of a line stands in its columns from the first up to the last, which is left out.
fn run_in(line: &[u8], first: usize, last: usize) -> Run
    ensures order { result.from ≤ result.to }
    ensures within { result.to ≤ length line.now }
{
    let mut from = 0usize;
    let mut to = 0usize;
    let mut begin = 0usize;
    let mut column = 0usize;
    for (start, end, character) in line.char_indices() {
        let next = column.saturating_add(glyph_of(line, start, end, character, column).columns);
        if column < first {
            from = end;
            begin = next;
        }
        if next <= last {
            to = end;
        }
        column = next;
    }
    let to = to.min(line.len());
    Run {
        from: from.min(to),
        to,
        column: begin,
    }
}

/// A line as it is shown, and what stands below it.
#[derive(Drop)]
pub(crate) struct Drawing {
    pub text: String,
    pub below: String,
    // whether a caret stands below
    marked: bool,
}

impl Drawing {
    /// A line of which nothing is drawn yet.
    fn new(alloc: Global) -> Drawing
        ensures drawn { IsDrawn result }
        ensures text { string_bytes result.text ≡ [] }
    {
        Drawing {
            text: String::new(alloc),
            below: String::new(alloc),
            marked: false,
        }
    }

    /// Adds a character that is not meant: a tab stands below a tab, and nothing behind the last caret.
    fn push_plain(&mut self, glyph: Glyph) -> Result<(), AllocError>
        ensures drawn { OnOk result (glyph.shown ≢ 0x0A → IsDrawn self.old → IsDrawn self.new) }
        ensures text { OnOk result (string_bytes self.new.text ≡ string_bytes self.old.text ++ encode_utf8 glyph.shown) }
    {
        self.text.push(glyph.shown)?;
        if self.marked {
            return Ok(());
        }
        if glyph.shown == '\t' {
            self.below.push('\t')?;
            return Ok(());
        }
        push_times(&mut self.below, ' ', glyph.columns)?;
        Ok(())
    }

    /// Adds a character that is meant: carets stand below it, below the first one at least one.
    fn push_meant(&mut self, glyph: Glyph) -> Result<(), AllocError>
        ensures drawn { OnOk result (glyph.shown ≢ 0x0A → IsDrawn self.old → IsDrawn self.new) }
        ensures text { OnOk result (string_bytes self.new.text ≡ string_bytes self.old.text ++ encode_utf8 glyph.shown) }
    {
        self.text.push(glyph.shown)?;
        let is_first = !self.marked;
        self.marked = true;
        if glyph.shown == '\t' {
            self.below.push(if is_first { '^' } else { '\t' })?;
            return Ok(());
        }
        let carets = glyph.columns.max(usize::from(is_first));
        push_times(&mut self.below, '^', carets)?;
        Ok(())
    }

    /// Adds a character.
    fn push(&mut self, glyph: Glyph, is_meant: bool) -> Result<(), AllocError>
        ensures drawn { OnOk result (glyph.shown ≢ 0x0A → IsDrawn self.old → IsDrawn self.new) }
        ensures text { OnOk result (string_bytes self.new.text ≡ string_bytes self.old.text ++ encode_utf8 glyph.shown) }
    {
        if is_meant {
            self.push_meant(glyph)
        } else {
            self.push_plain(glyph)
        }
    }

    /// Adds the characters of some bytes of a line, which begin in the column, and of which those of the span are meant.
    fn push_run(&mut self, run: &[u8], meant: Span, column: usize) -> Result<(), AllocError>
        ensures drawn { OnOk result (IsDrawn self.old → IsDrawn self.new) }
        ensures text { OnOk result (string_bytes self.new.text ≡ string_bytes self.old.text ++ encode_utf8_all (shown_line run.now)) }
    {
        let mut column = column;
        for (start, end, character) in run.char_indices() {
            let glyph = glyph_of(run, start, end, character, column);
            self.push(glyph, meant.start <= start && start < meant.end)?;
            column = column.saturating_add(glyph.columns);
        }
        Ok(())
    }

    /// Adds what stands where the front of the line was cut, if it was.
    fn push_cut(&mut self, is_cut: bool) -> Result<(), AllocError>
        ensures drawn { OnOk result (IsDrawn self.old → IsDrawn self.new) }
        ensures text { OnOk result (string_bytes self.new.text ≡ string_bytes self.old.text ++ dots is_cut) }
    {
        if !is_cut {
            return Ok(());
        }
        self.text.push_str(CUT)?;
        self.below.push_str(BELOW_CUT)?;
        Ok(())
    }

    /// Adds what stands where the end of the line was cut, if it was.
    fn cut(&mut self, is_cut: bool) -> Result<(), AllocError>
        ensures drawn { OnOk result (IsDrawn self.old → IsDrawn self.new) }
        ensures text { OnOk result (string_bytes self.new.text ≡ string_bytes self.old.text ++ dots is_cut) }
    {
        if !is_cut {
            return Ok(());
        }
        self.text.push_str(CUT)?;
        Ok(())
    }

    /// Adds a caret behind the line, where nothing in it is meant.
    fn close(&mut self) -> Result<(), AllocError>
        ensures drawn { OnOk result (IsDrawn self.old → IsDrawn self.new) }
        ensures text { OnOk result (string_bytes self.new.text ≡ string_bytes self.old.text) }
    {
        if self.marked {
            return Ok(());
        }
        self.below.push('^')?;
        Ok(())
    }
}

/// Adds a character so many times.
fn push_times(text: &mut String, character: char, times: usize) -> Result<(), AllocError>
    ensures { OnOk result (character ≢ 0x0A → IsOneLine (string_bytes text.old) → IsOneLine (string_bytes text.new)) }
{
    for i in 0..times {
        text.push(character)?;
    }
    Ok(())
}

/// Draws a line of which the bytes of a span are meant, or one place where the span has none. What stands behind the line is
/// meant by one caret.
pub(crate) fn draw(alloc: Global, line: &[u8], meant: Span) -> Result<Drawing, AllocError>
    ensures { IfOk result (IsDrawnOf line.now) }
{
    let run = run_of(line, meant.start);
    let inside = Span {
        start: meant.start.saturating_sub(run.from),
        end: meant.end.saturating_sub(run.from),
    };
    let mut drawing = Drawing::new(alloc);
    drawing.push_cut(0 < run.from)?;
    drawing.push_run(&line[run.from..run.to], inside, run.column)?;
    drawing.close()?;
    drawing.cut(run.to < line.len())?;
    Ok(drawing)
}
