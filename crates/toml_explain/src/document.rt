//! Why bytes are no document.
ghost use Rattle.std.specs.Prelude.{IfOk, string_bytes};
ghost use Rattle.toml_explain.specs.Documents.{OpensAs};
ghost use Rattle.toml_explain.specs.Excerpts.{EndsInLine};
ghost use Rattle.toml_explain.specs.Openings.{OpensAt, OpensBare, OpensInFile};

use crate::input::Input;
use crate::opening::{bare_opened, opened};
use crate::redefined::{explain_long, explain_redefined};
use crate::sentence::{byte_sentence, meant_at};
use crate::words::with_line;
use std::alloc::{AllocError, Global};
use toml_text::MAX_LEN;
use toml_tree::Profile;

/// The sentence of a refusal whose place is a byte, and the line.
fn byte_lines(alloc: Global, bytes: &[u8], code: u16, at: usize) -> Result<String, AllocError>
    ensures { IfOk result (λ text. EndsInLine bytes.now at (string_bytes text)) }
{
    let sentence = byte_sentence(alloc, bytes, code, at)?;
    with_line(alloc, sentence, bytes, meant_at(bytes, code, at))
}

/// Why bytes are refused at a byte.
fn explain_byte(
    alloc: Global,
    file: Input<'_>,
    code: u16,
    place: usize,
) -> Result<String, AllocError>
    ensures file { IfOk result (λ text. OpensInFile file.entry.word.now file.entry.bytes.now (string_bytes text)) }
    ensures byte { IfOk result (λ text. OpensAt file.entry.word.now file.entry.bytes.now place (string_bytes text)) }
    ensures below { IfOk result (λ text. EndsInLine file.entry.bytes.now place (string_bytes text)) }
{
    let at = place.min(file.bytes.len());
    let lines = byte_lines(alloc, file.bytes, code, at)?;
    opened(alloc, file, place, lines.as_str())
}

/// Why a text is too long: the file itself, or what edits make of one that is not.
fn explain_length(alloc: Global, file: Input<'_>) -> Result<String, AllocError>
    ensures file { IfOk result (λ text. OpensInFile file.entry.word.now file.entry.bytes.now (string_bytes text)) }
    ensures length { IfOk result (λ text. OpensBare file.entry.word.now (string_bytes text)) }
{
    let sentence = if file.bytes.len() <= MAX_LEN {
        "a text has at most 16777216 bytes, and the edits make a longer one\n"
    } else {
        "a text has at most 16777216 bytes\n"
    };
    bare_opened(alloc, file.word, sentence)
}

/// Why bytes are no document of the profile, by the code and the place of their refusal, as people read it: the word of the file,
/// the line and the column, and what is wrong; below it the line, with carets.
///
/// | Code | The position |
/// |---|---|
/// | 101, 103 to 109 | that of the byte `place`, from 0; one behind the end is the end |
/// | 102 | none: the word alone. Of bytes that are not too long it is told as one of what edits make of them |
/// | 201 | in the line `place`, from 1: that of the key part whose mention breaks the table rules |
/// | 203 | in the line `place`, from 1: that of its key |
///
/// Any other code is told as one of a byte. It fails for want of memory alone.
pub fn explain_document(
    alloc: Global,
    file: Input<'_>,
    profile: Profile,
    code: u16,
    place: usize,
) -> Result<String, AllocError>
    ensures { IfOk result (λ text. OpensAs profile file.entry.word.now file.entry.bytes.now code place (string_bytes text)) }
{
    match code {
        102 => explain_length(alloc, file),
        201 => explain_redefined(alloc, file, profile, place),
        203 => explain_long(alloc, file, profile, place),
        _ => explain_byte(alloc, file, code, place),
    }
}
