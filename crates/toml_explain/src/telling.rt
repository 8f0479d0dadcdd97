//! A sentence at a place of a file, or at none.
ghost use Rattle.std.specs.Prelude.{IfOk, string_bytes};
ghost use Rattle.toml_explain.specs.Documents.{ShowsInFile};

use crate::excerpt::Excerpt;
use crate::input::Input;
use crate::opening::{bare_opened, opened};
use crate::words::{with_line, with_lines};
use std::alloc::{AllocError, Global};
use toml_text::Span;

/// A sentence, and the line of a span of a file below it, where there is one.
pub(crate) fn told_at(
    alloc: Global,
    file: Input<'_>,
    spot: Option<Span>,
    sentence: String,
) -> Result<String, AllocError>
    ensures { IfOk result (λ text. ShowsInFile file.entry.word.now file.entry.bytes.now (string_bytes text)) }
{
    match spot {
        Some(span) => {
            let lines = with_line(alloc, sentence, file.bytes, span)?;
            opened(alloc, file, span.start, lines.as_str())
        }
        None => {
            let lines = with_lines(sentence, Excerpt::unnumbered(alloc))?;
            bare_opened(alloc, file.word, lines.as_str())
        }
    }
}
