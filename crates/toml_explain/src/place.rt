//! Places of a command line that are none.
ghost use Rattle.std.specs.Prelude.{◌≡◌, ◌≤◌, count_by, length, IfOk, string_bytes};
ghost use Rattle.toml_text.specs.Positions.{begins_character};
ghost use Rattle.toml_explain.specs.Openings.{OpensPlace, shown_character, shown_text};

use crate::excerpt::{Excerpt, at_place};
use crate::opening::place_opened;
use std::alloc::{AllocError, Global};

/// How many characters begin; each byte that is no UTF-8 counts as `toml_text::position` counts it.
fn characters(bytes: &[u8]) -> usize
    ensures count { result ≡ count_by begins_character bytes.now }
    ensures few { result ≤ length bytes.now }
{
    let mut count = 0;
    for (i, byte) in bytes.iter().enumerate() {
        if *byte < 0x80 || 0xC0 <= *byte {
            count += 1;
        }
    }
    count
}

/// What a character is shown as in front of a line.
fn shown_character(character: char) -> char
    ensures { result ≡ shown_character character }
{
    match character {
        '\t' => character,
        '\0'..='\u{1F}' | '\u{7F}'..='\u{9F}' | '\u{FEFF}' => '?',
        _ => character,
    }
}

/// What a place is shown as in front of a line: its characters, `?` for one that can't be shown.
pub(crate) fn shown_place(alloc: Global, place: &str) -> Result<String, AllocError>
    ensures { IfOk result (λ text. string_bytes text ≡ shown_text place.now) }
{
    let mut text = String::new(alloc);
    for character in place.chars() {
        text.push(shown_character(character))?;
    }
    Ok(text)
}

/// The last byte of what stands before a byte and the one before it, 0 where there is none.
fn last_two(front: &[u8]) -> (u8, u8) {
    match front.split_last() {
        Some((last, rest)) => (*last, rest.last().copied().unwrap_or(0)),
        None => (0, 0),
    }
}

/// What is wrong with an index at its byte, where one was begun before it.
fn index_sentence(front: &[u8], first: u8) -> Option<&'static str> {
    match (last_two(front), first) {
        ((b'0', b'['), b'0'..=b'9') => Some("an index has no 0 in front"),
        ((b'-', b'['), b'0') => Some("an index from the end counts from 1, the last element"),
        ((b'-', b'['), b'1'..=b'9') | ((b'[', _), b'0'..=b'9') => {
            Some("an index is at most 18446744073709551615")
        }
        ((b'-', b'['), _) => Some("a number stands behind the hyphen of an index"),
        ((b'[', _), b'a'..=b'z' | b'A'..=b'Z' | b'_' | b'"' | b'\'') => {
            Some("an index stands in brackets, a name behind a dot")
        }
        ((b'[', _), _) => Some("a number, one behind a hyphen, or + stands in brackets"),
        _ => None,
    }
}

/// Whether a name may begin behind this: at the start, or behind a dot and whitespace.
fn may_begin_name(front: &[u8]) -> bool {
    matches!(front.trim_ascii().last(), None | Some(b'.'))
}

/// What is wrong with a place at a byte.
fn place_sentence(place: &[u8], at: usize) -> &'static str {
    let (Some(front), Some([first, ..])) = (place.get(..at), place.get(at..)) else {
        return "the place ends where something more is expected";
    };
    if let Some(sentence) = index_sentence(front, *first) {
        return sentence;
    }
    match *first {
        b'"' | b'\'' if may_begin_name(front) => {
            "a string that is a name is not closed, or has what none may have"
        }
        0x80..=0xFF if front.last() != Some(&b']') => {
            "a name with other characters than A-Z, a-z, 0-9, - and _ stands in quotation marks"
        }
        0..=0x1F | 0x7F => "a control character may not stand in a place",
        _ => "something else is expected in a place",
    }
}

/// Why a text is refused as a place (code 340) at a byte of it, counted from 0, or at its end: the place and the column, counted from 1
/// in characters, and below it the place with a caret. A byte behind the end is the end. It fails for want of memory alone.
pub fn explain_place(alloc: Global, place: &str, at: usize) -> Result<String, AllocError>
    ensures { IfOk result (λ text. OpensPlace place.now at (string_bytes text)) }
{
    let at = at.min(place.len());
    let bytes = place.as_bytes();
    let mut excerpt = Excerpt::unnumbered(alloc);
    excerpt.push_text(bytes, at_place(at))?;
    let mut rest = String::from_str(alloc, place_sentence(bytes, at))?;
    rest.push('\n')?;
    rest.push_str(excerpt.into_text().as_str())?;
    let column = characters(&bytes[..at]) + 1;
    place_opened(
        alloc,
        shown_place(alloc, place)?.as_str(),
        column,
        rest.as_str(),
    )
}
