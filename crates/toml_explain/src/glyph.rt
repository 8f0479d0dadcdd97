//! What the characters of a line are shown as, and how many columns they take.
ghost use Rattle.std.specs.Prelude.{◌≡◌, ◌≢◌, ◌-◌, ◌^◌, min};
ghost use Rattle.toml_explain.specs.Shown.{column_behind, columns_at, is_genuine, shown_line, shown_span};

use bstr::ByteSlice;
use unicode_width::UnicodeWidthChar;

/// How far apart the stops of tabs are.
const TAB: usize = 8;

/// The mark, which is shown nowhere.
const MARK: char = '\u{FEFF}';

/// What a character is shown as.
#[derive(Clone, Copy)]
pub(crate) struct Glyph {
    pub shown: char,
    pub columns: usize,
}

/// What can't be shown as it is.
const UNKNOWN: Glyph = Glyph {
    shown: '?',
    columns: 1,
};

/// Whether the character is one of the text, and does not stand for bytes that are no UTF-8. Of such a piece that begins as U+FFFD
/// does the last byte is missing.
fn is_genuine(bytes: &[u8], start: usize, end: usize, character: char) -> bool
    ensures { result ≡ is_genuine bytes.now start end character }
{
    character != '\u{FFFD}' || (bytes.get(start) == Some(&0xEF) && end.saturating_sub(start) == 3)
}

/// What a character of a line is shown as that begins in the column, from 0: a tab goes on to the next stop; other control
/// characters, U+FEFF and bytes that are no UTF-8 are shown as `?`.
pub(crate) fn glyph_of(
    line: &[u8],
    start: usize,
    end: usize,
    character: char,
    column: usize,
) -> Glyph
    ensures shown { result.shown ≡ shown_span line.now (start, end, character) }
    ensures columns { result.columns ≡ columns_at column result.shown }
    ensures other { result.shown ≢ 0x0A }
{
    if character == '\t' {
        return Glyph {
            shown: character,
            columns: TAB - column % TAB,
        };
    }
    if character == MARK {
        return UNKNOWN;
    }
    if !is_genuine(line, start, end, character) {
        return UNKNOWN;
    }
    match character.width() {
        Some(columns) => Glyph {
            shown: character,
            columns,
        },
        None => UNKNOWN,
    }
}

/// How many columns a line takes, and the one in which the character at a place begins, from 0; behind the line the next one.
#[derive(Clone, Copy)]
pub(crate) struct Columns {
    pub all: usize,
    pub place: usize,
}

/// The columns of a line, and of the place in it.
pub(crate) fn columns_of(line: &[u8], at: usize) -> Columns
    ensures { result.all ≡ min (column_behind 0 (shown_line line.now)) (2 ^ 64 - 1) }
{
    let mut all = 0usize;
    let mut place = 0;
    for (start, end, character) in line.char_indices() {
        if start <= at {
            place = all;
        }
        all = all.saturating_add(glyph_of(line, start, end, character, all).columns);
    }
    if line.len() <= at {
        place = all;
    }
    Columns { all, place }
}
