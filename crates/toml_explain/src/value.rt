//! Values of edits that are none (306).
ghost use Rattle.std.specs.Prelude.{IfOk, OnOk, string_bytes};
ghost use Rattle.toml_explain.specs.Documents.{ShowsMoreInFile};
ghost use Rattle.toml_explain.specs.Excerpts.{GainsMore, HasLineOf};
ghost use Rattle.toml_explain.specs.Openings.{OpensAt, OpensBare};

use crate::excerpt::{Excerpt, line_number};
use crate::expected::unexpected_in_value;
use crate::input::Input;
use crate::opening::{bare_opened, opened};
use crate::phrases::begins_none;
use crate::place::shown_place;
use crate::sentence::{byte_sentence, meant_at};
use crate::standing::quoted;
use crate::strays::stray;
use crate::words::with_lines;
use std::alloc::{AllocError, Global};
use toml_mentions::find_redefined;
use toml_text::{Source, Span};
use toml_tree::{Profile, SyntaxFault, parse_value_in};

/// What is wrong in a value, and what is meant of it; nothing, where it is too long to be shown.
#[derive(Drop)]
struct Flaw {
    pub sentence: String,
    pub meant: Option<Span>,
}

/// What stands before a value that is read as the value of a key, and its length.
const FRONT: &str = "v = ";

const FRONT_LEN: usize = 4;

/// How many bytes a value has at most that is shown as a string.
const MAX_SHOWN: usize = 60;

/// The code and the place of a fault.
pub(crate) fn code_of(fault: SyntaxFault) -> Result<(u16, usize), AllocError> {
    match fault {
        SyntaxFault::BadCharacter { at } => Ok((103, at)),
        SyntaxFault::Expected { at } => Ok((104, at)),
        SyntaxFault::BadString { at } => Ok((105, at)),
        SyntaxFault::BadNumber { at } => Ok((106, at)),
        SyntaxFault::IntegerRange { at } => Ok((107, at)),
        SyntaxFault::BadDate { at } => Ok((108, at)),
        SyntaxFault::TooDeep { at } => Ok((109, at)),
        SyntaxFault::NoMemory => Err(AllocError),
    }
}

/// How the text of a value would be given as a string; nothing, where it begins as a string, an array or an inline table does.
fn as_string(alloc: Global, value: &str) -> Result<String, AllocError> {
    let is_hidden = shown_place(alloc, value)?.as_str() != value;
    match value.as_bytes() {
        [b'"' | b'\'' | b'[' | b'{', ..] => Ok(String::new(alloc)),
        bytes if is_hidden || bytes.len() > MAX_SHOWN => {
            String::from_str(
                alloc,
                "; `set` and `insert` take it as a string by --string",
            )
        }
        _ => {
            let word = quoted(alloc, value)?;
            format!(in alloc;
                "; as a string it is {}, and `set` and `insert` take it so by --string",
                word.as_str()
            )
        }
    }
}

/// What is wrong where a value may not go on so, or begin.
fn unexpected_sentence(alloc: Global, value: &[u8], at: usize) -> Result<String, AllocError> {
    if let Some(sentence) = stray(alloc, value, at)? {
        return Ok(sentence);
    }
    let fixed = if at == 0 {
        begins_none(value)
    } else {
        unexpected_in_value(alloc, value, at)?
    };
    String::from_str(alloc, fixed)
}

/// The flaw of a value that the grammar refuses.
fn bad_syntax(alloc: Global, value: &str, fault: SyntaxFault) -> Result<Flaw, AllocError> {
    let (code, at) = code_of(fault)?;
    let mut sentence = match (code, at) {
        (104, _) => unexpected_sentence(alloc, value.as_bytes(), at)?,
        _ => byte_sentence(alloc, value.as_bytes(), code, at)?,
    };
    sentence.push_str(as_string(alloc, value)?.as_str())?;
    Ok(Flaw {
        sentence,
        meant: Some(meant_at(value.as_bytes(), code, at)),
    })
}

/// The part of a value that a span is of a text which begins with `FRONT`.
fn shifted(span: Span) -> Span {
    Span {
        start: span.start.saturating_sub(FRONT_LEN),
        end: span.end.saturating_sub(FRONT_LEN),
    }
}

/// The flaw of a value in which a name is defined twice.
fn bad_names(alloc: Global, value: &str, profile: Profile) -> Result<Flaw, AllocError> {
    let mut text = String::from_str(alloc, FRONT)?;
    text.push_str(value)?;
    let meant = match find_redefined(alloc, text.as_str().as_bytes(), profile)? {
        Some(twice) => match twice.clash {
            Some(clash) => Some(shifted(clash.again.span)),
            None => None,
        },
        None => None,
    };
    Ok(Flaw {
        sentence: String::from_str(alloc, "a key in it is defined already")?,
        meant,
    })
}

/// What is wrong in the value of an edit.
fn flaw_of(alloc: Global, value: &str, profile: Profile) -> Result<Flaw, AllocError> {
    let Ok(source) = Source::new(value.as_bytes()) else {
        return Ok(Flaw {
            sentence: String::from_str(alloc, "a text has at most 16777216 bytes")?,
            meant: None,
        });
    };
    match parse_value_in(alloc, source, profile) {
        Ok(_) => bad_names(alloc, value, profile),
        Err(fault) => bad_syntax(alloc, value, fault),
    }
}

/// Why the value of an edit is none (306): the line of its place in the file, and the value.
pub(crate) fn explain_value(
    alloc: Global,
    file: Input<'_>,
    sentence: String,
    spot: Option<Span>,
    value: &str,
    profile: Profile,
) -> Result<String, AllocError>
    ensures { IfOk result (λ text. ShowsMoreInFile file.entry.word.now file.entry.bytes.now (string_bytes text)) }
{
    let flaw = flaw_of(alloc, value, profile)?;
    let mut text = sentence;
    text.push_str(": ")?;
    text.push_str(flaw.sentence.as_str())?;
    match spot {
        Some(span) => value_below(alloc, file, span, text, value, flaw.meant),
        None => value_alone(alloc, file.word, text, value, flaw.meant),
    }
}

/// A sentence, below it the line of a span of a file, and below that a value.
fn value_below(
    alloc: Global,
    file: Input<'_>,
    span: Span,
    sentence: String,
    value: &str,
    meant: Option<Span>,
) -> Result<String, AllocError>
    ensures opens { IfOk result (λ text. OpensAt file.entry.word.now file.entry.bytes.now span.start (string_bytes text)) }
    ensures line { IfOk result (λ text. HasLineOf file.entry.bytes.now span.start (string_bytes text)) }
{
    let mut excerpt = Excerpt::new(alloc, line_number(file.bytes, span.start));
    excerpt.push_line(file.bytes, span, "")?;
    push_value(&mut excerpt, value, meant)?;
    let lines = with_lines(sentence, excerpt)?;
    opened(alloc, file, span.start, lines.as_str())
}

/// A sentence, and a value below it.
fn value_alone(
    alloc: Global,
    word: &str,
    sentence: String,
    value: &str,
    meant: Option<Span>,
) -> Result<String, AllocError>
    ensures { IfOk result (λ text. OpensBare word.now (string_bytes text)) }
{
    let mut excerpt = Excerpt::unnumbered(alloc);
    push_value(&mut excerpt, value, meant)?;
    let lines = with_lines(sentence, excerpt)?;
    bare_opened(alloc, word, lines.as_str())
}

/// Adds the line of a value that has what is meant of it, where something is.
fn push_value(excerpt: &mut Excerpt, value: &str, meant: Option<Span>) -> Result<(), AllocError>
    ensures { OnOk result (GainsMore excerpt.old excerpt.new) }
{
    match meant {
        Some(span) => excerpt.push_unnumbered(value.as_bytes(), span),
        None => Ok(()),
    }
}
