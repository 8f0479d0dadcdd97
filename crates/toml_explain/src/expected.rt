//! What is wrong where a text may not go on so (104).
use crate::data::told_syntax;
use crate::front::Front;
use crate::phrases::{
    Newer, at_beginning, behind_key, behind_line, in_header, in_value as value_phrase, is_end,
};
use crate::value::code_of;
use std::alloc::{AllocError, Global};
use toml_text::Source;
use toml_tree::{LineReader, Profile, SyntaxFault, parse_in, parse_value_in};

/// The mark that may stand before the text.
const MARK: &[u8] = b"\xEF\xBB\xBF";

/// Whether some bytes are lines of a document.
fn are_lines(alloc: Global, bytes: &[u8]) -> Result<bool, AllocError> {
    let Ok(source) = Source::new(bytes) else {
        return Ok(false);
    };
    match parse_in(alloc, source, Profile::Two) {
        Ok(_) => Ok(true),
        Err(fault) => {
            told_syntax(fault)?;
            Ok(false)
        }
    }
}

/// Whether some bytes are a key.
fn is_key(alloc: Global, bytes: &[u8]) -> Result<bool, AllocError> {
    let mut line = Vec::new(alloc);
    line.extend_from_slice(bytes)?;
    line.extend_from_slice(b" = 1")?;
    are_lines(alloc, &line)
}

/// Whether the third of three marks stands at a place, with which a string over several lines would begin.
fn is_third_mark(bytes: &[u8], at: usize) -> bool {
    let Some(first) = at.checked_sub(2) else {
        return false;
    };
    matches!(
        bytes.get(first..),
        Some([b'"', b'"', b'"', ..] | [b'\'', b'\'', b'\'', ..])
    )
}

/// The line of a text that has a place on it: where it begins, and what profile 2 makes of it.
#[derive(Clone, Copy)]
struct LineAt {
    start: usize,
    newer: Newer,
}

/// What profile 2 makes of a place, where it has this fault.
fn newer(fault: SyntaxFault, at: usize) -> Result<Newer, AllocError> {
    let (_, place) = code_of(fault)?;
    if at < place {
        Ok(Newer::Passes)
    } else {
        Ok(Newer::Refuses)
    }
}

/// The line that has the place on it, which may go on over several. What profile 1 takes before the place is taken by profile 2.
fn line_at(alloc: Global, bytes: &[u8], at: usize) -> Result<LineAt, AllocError> {
    let mut line = LineAt {
        start: if bytes.starts_with(MARK) {
            MARK.len()
        } else {
            0
        },
        newer: Newer::Takes,
    };
    let Ok(source) = Source::new(bytes) else {
        return Ok(line);
    };
    let mut reader = LineReader::new(source, Profile::Two);
    for _ in 0..bytes.len() {
        let (read, more) = match reader.next(alloc) {
            Ok(next) => next,
            Err(fault) => {
                line.newer = newer(fault, at)?;
                return Ok(line);
            }
        };
        let end = read.newline().span().end;
        match more {
            Some(rest) if end <= at => reader = rest,
            _ => return Ok(line),
        }
        line.start = end;
    }
    Ok(line)
}

/// Whether a text ends in a key of an inline table, behind which a place is.
fn ends_in_key(alloc: Global, front: &Front, text: &[u8]) -> Result<bool, AllocError> {
    match front.innermost() {
        Some(open) if open.mark == b'{' => match text.get(open.item..) {
            Some(item) => is_key(alloc, item),
            None => Ok(false),
        },
        _ => Ok(false),
    }
}

/// What is wrong where a value may not go on so, or begin, by what stands before the place and behind it.
fn in_value(
    alloc: Global,
    text: &[u8],
    rest: &[u8],
    newer: Newer,
    is_third_mark: bool,
) -> Result<&'static str, AllocError> {
    let front = Front::of(alloc, text)?;
    if !is_end(rest) && ends_in_key(alloc, &front, text)? {
        return Ok(behind_key(rest, is_third_mark));
    }
    let open = match front.innermost() {
        Some(open) => Some(open.mark),
        None => None,
    };
    Ok(value_phrase(open, front.last, rest, newer))
}

/// What is wrong at a place of a document.
pub(crate) fn unexpected(
    alloc: Global,
    bytes: &[u8],
    at: usize,
) -> Result<&'static str, AllocError> {
    let line = line_at(alloc, bytes, at)?;
    let (Some(text), Some(rest)) = (bytes.get(line.start..at), bytes.get(at..)) else {
        return Ok("the text may not go on so");
    };
    let text = text.trim_ascii();
    if text.is_empty() {
        return Ok(at_beginning(rest));
    }
    if are_lines(alloc, text)? {
        return Ok(behind_line(rest));
    }
    let is_third = is_third_mark(bytes, at);
    if text.starts_with(b"[") {
        let last = Front::of(alloc, text)?.last;
        return Ok(in_header(text, last, rest, is_third));
    }
    if is_key(alloc, text)? {
        return Ok(behind_key(rest, is_third));
    }
    in_value(alloc, text, rest, line.newer, is_third)
}

/// What profile 2 makes of a place of a value.
fn newer_in_value(alloc: Global, value: &[u8], at: usize) -> Result<Newer, AllocError> {
    let Ok(source) = Source::new(value) else {
        return Ok(Newer::Refuses);
    };
    match parse_value_in(alloc, source, Profile::Two) {
        Ok(_) => Ok(Newer::Takes),
        Err(fault) => newer(fault, at),
    }
}

/// What is wrong at a place of a value that stands alone, behind its first byte.
pub(crate) fn unexpected_in_value(
    alloc: Global,
    value: &[u8],
    at: usize,
) -> Result<&'static str, AllocError> {
    let (Some(text), Some(rest)) = (value.get(..at), value.get(at..)) else {
        return Ok("the value may not go on so");
    };
    let mut line = Vec::new(alloc);
    line.extend_from_slice(b"v = ")?;
    line.extend_from_slice(text)?;
    if are_lines(alloc, &line)? {
        return Ok("nothing may stand behind the value");
    }
    let newer = newer_in_value(alloc, value, at)?;
    in_value(alloc, text, rest, newer, is_third_mark(value, at))
}
