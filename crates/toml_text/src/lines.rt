//! Where a place in a text stands, as people count: its line, and the column in that.
ghost use Rattle.std.specs.Prelude.{◌≡◌, ◌<◌, ◌≤◌, count_by, drop, length};
ghost use Rattle.toml_text.specs.Positions.{BeginsLine, EndsLine, IsPosition, begins_character, is_lf, line_start, mark_len, newline_begin};

use crate::span::{Position, Span};
use memchr::{memchr, memchr_iter, memrchr};

/// Where the place stands, which may be the end. One at a newline belongs to the line that it ends. Of bytes that are no UTF-8 each
/// counts as a character that can begin one.
pub fn position(bytes: &[u8], at: usize) -> Position
    requires { at ≤ length bytes.now }
    ensures { IsPosition bytes.now at result }
{
    let front = &bytes[..at];
    let start = line_start(bytes, line_begin(front));
    Position {
        line: newlines(front) + 1,
        column: characters_from(front, start) + 1,
        line_span: Span {
            start,
            end: line_end(bytes, at),
        },
    }
}

/// How many LF there are.
fn newlines(bytes: &[u8]) -> usize
    ensures count { result ≡ count_by is_lf bytes.now }
    ensures few { result ≤ length bytes.now }
{
    memchr_iter(b'\n', bytes).count()
}

/// Where the last line begins.
fn line_begin(front: &[u8]) -> usize
    ensures { BeginsLine front.now result }
{
    match memrchr(b'\n', front) {
        Some(last) => last + 1,
        None => 0,
    }
}

/// Where the line is shown from that begins there: the first one from behind the mark.
fn line_start(bytes: &[u8], begin: usize) -> usize
    ensures { result ≡ line_start bytes.now begin }
{
    if begin == 0 { mark_len(bytes) } else { begin }
}

/// The length of the mark U+FEFF at the front, or 0.
fn mark_len(bytes: &[u8]) -> usize
    ensures { result ≡ mark_len bytes.now }
{
    match bytes {
        [0xEF, 0xBB, 0xBF, ..] => 3,
        _ => 0,
    }
}

/// How many characters begin at the place or behind it.
fn characters_from(front: &[u8], start: usize) -> usize
    ensures count { result ≡ count_by begins_character (drop start front.now) }
    ensures few { result ≤ length front.now }
{
    if start < front.len() {
        characters(&front[start..])
    } else {
        0
    }
}

/// How many characters begin.
fn characters(bytes: &[u8]) -> usize
    ensures count { result ≡ count_by begins_character bytes.now }
    ensures few { result ≤ length bytes.now }
{
    let mut count = 0;
    for (i, byte) in bytes.iter().enumerate() {
        if *byte < 0x80 || 0xC0 <= *byte {
            count += 1;
        }
    }
    count
}

/// Where the line ends in which the place stands, its newline left out.
fn line_end(bytes: &[u8], at: usize) -> usize
    requires { at ≤ length bytes.now }
    ensures { EndsLine bytes.now at result }
{
    match memchr(b'\n', &bytes[at..]) {
        Some(len) => newline_begin(bytes, at + len),
        None => bytes.len(),
    }
}

/// Where the newline begins that ends in the LF at the place.
fn newline_begin(bytes: &[u8], lf: usize) -> usize
    requires { lf < length bytes.now }
    ensures { result ≡ newline_begin bytes.now lf }
{
    if 0 < lf && bytes[lf - 1] == b'\r' {
        lf - 1
    } else {
        lf
    }
}
