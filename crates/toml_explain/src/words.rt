//! Sentences with lines below them.
ghost use Rattle.std.specs.Prelude.{◌≡◌, ◌++◌, ◌∷◌, IfOk, string_bytes};
ghost use Rattle.toml_explain.specs.Excerpts.{EndsInLine};

use crate::excerpt::{Excerpt, line_number};
use std::alloc::{AllocError, Global};
use toml_text::Span;

/// A sentence, and lines below it.
pub(crate) fn with_lines(sentence: String, excerpt: Excerpt) -> Result<String, AllocError>
    ensures { IfOk result (λ text. string_bytes text ≡ string_bytes sentence ++ 0x0A ∷ string_bytes excerpt.text) }
{
    let mut text = sentence;
    text.push_str("\n")?;
    text.push_str(excerpt.into_text().as_str())?;
    Ok(text)
}

/// A sentence, and below it the line in which a span of the bytes begins.
pub(crate) fn with_line(
    alloc: Global,
    sentence: String,
    bytes: &[u8],
    meant: Span,
) -> Result<String, AllocError>
    ensures { IfOk result (λ text. EndsInLine bytes.now meant.start (string_bytes text)) }
{
    let mut excerpt = Excerpt::new(alloc, line_number(bytes, meant.start));
    excerpt.push_line(bytes, meant, "")?;
    with_lines(sentence, excerpt)
}
