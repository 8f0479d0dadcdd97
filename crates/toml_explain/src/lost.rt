//! Units that no edit names and that are lost (406).
ghost use Rattle.std.specs.Prelude.{IfOk, string_bytes};
ghost use Rattle.toml_explain.specs.Documents.{ShowsInFile};

use crate::pairs::{bytes_of, pair_units};
use crate::reason::{Judged, plain};
use crate::telling::told_at;
use std::alloc::{AllocError, Global};
use toml_text::Span;
use toml_units::UnitKind;

/// What a unit with these bytes is called.
pub(crate) fn unit_words(kind: UnitKind, bytes: &[u8]) -> &'static str {
    match kind {
        UnitKind::Line if bytes.trim_ascii_start().is_empty() => "blank line",
        UnitKind::Line => "line",
        UnitKind::TailComment | UnitKind::InnerComment => "comment",
        UnitKind::Element => "element",
        UnitKind::Pair => "pair",
    }
}

/// What the first unit is called that is lost, and where it stands.
fn first_lost(
    alloc: Global,
    judged: Judged<'_>,
) -> Result<Option<(&'static str, Span)>, AllocError> {
    let Some((before, _, pairing)) = pair_units(alloc, judged)? else {
        return Ok(None);
    };
    let Some(index) = pairing.lost else {
        return Ok(None);
    };
    match before.units.get(index) {
        Some(unit) => {
            let words = unit_words(unit.kind, bytes_of(before.bytes, unit));
            Ok(Some((words, unit.span)))
        }
        None => Ok(None),
    }
}

/// What is said of a unit that is lost: it may still stand somewhere in the text after.
fn lost_sentence(alloc: Global, judged: Judged<'_>, unit: &str) -> Result<String, AllocError> {
    if judged.certificate.is_some() {
        return format!(in alloc;
            "no edit names this {unit}, and no pair of the certificate keeps it"
        );
    }
    let after = judged.after.word;
    format!(in alloc; "no edit names this {unit}, and it is not in its place in {after}")
}

/// The first unit of the text before that no edit names, and that is not kept in the text after.
pub(crate) fn explain_lost(alloc: Global, judged: Judged<'_>) -> Result<String, AllocError>
    ensures { IfOk result (λ text. ShowsInFile judged.entry.before.word.now judged.entry.before.bytes.now (string_bytes text)) }
{
    let Some((unit, span)) = first_lost(alloc, judged)? else {
        return plain(alloc, judged.before, "what no edit names is not kept");
    };
    let sentence = lost_sentence(alloc, judged, unit)?;
    told_at(alloc, judged.before, Some(span), sentence)
}
