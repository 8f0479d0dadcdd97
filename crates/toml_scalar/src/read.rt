//! The value of a scalar's token.
ghost use Rattle.std.specs.Prelude.{◌≡◌, ◌==◌, option_map, IfErr};
ghost use Rattle.toml_text.specs.Source.{text_of, IsHeld};
ghost use Rattle.toml_scalar.specs.Faults.{value_fault};
ghost use Rattle.toml_scalar.specs.Values.{scalar_of, scalar_value, moment_number};
ghost use Rattle.toml_scalar.specs.Reads.{ReadsScalar, Reads, TakesMemory};
ghost use Rattle.toml_scalar.specs.declared.fault.SyntaxFault.TheVariants.{NoMemory};
ghost use Rattle.toml_scalar.specs.declared.kind.ScalarKind.TheVariants as kinds;

use crate::boolean::read_bool;
use crate::fault::SyntaxFault;
use crate::float::{float_text, is_float};
use crate::integer::{is_integer_form, read_integer};
use crate::kind::{MomentKind, ScalarKind};
use crate::moment::{moment_kind, moment_text};
use crate::scalar::{FloatText, Moment, Scalar};
use crate::strings::read_string;
use std::alloc::{AllocError, Global};
use toml_text::{Source, Span};

/// The value of the scalar of a kind that the span holds.
///
/// A text that is no token of the kind is refused at the span's start. An integer or a boolean takes no memory.
pub fn read_scalar(
    alloc: Global,
    source: Source<'_>,
    span: Span,
    kind: ScalarKind,
) -> Result<Scalar, SyntaxFault>
    requires { IsHeld (text_of source) span }
    ensures value { ReadsScalar (text_of source.entry) span kind result }
    ensures memory { IfErr result (λ fault. fault ≡ NoMemory → TakesMemory kind) }
{
    let run = source.slice(span);
    match scalar_of(alloc, kind, run)? {
        Some(scalar) => Ok(scalar),
        None => Err(value_fault(kind, run.as_bytes(), span.start)),
    }
}

/// The value of a text, if it is a token of the kind. An integer or a boolean takes no memory.
pub fn scalar_of(alloc: Global, kind: ScalarKind, run: &str) -> Result<Option<Scalar>, AllocError>
    ensures value { Reads (scalar_of kind run.now) result }
    ensures memory { IfErr result (λ _. TakesMemory kind) }
{
    match kind {
        ScalarKind::Text => read_text(alloc, run),
        ScalarKind::Integer => Ok(read_number(run.as_bytes())),
        ScalarKind::Float => read_float(alloc, run),
        ScalarKind::Bool => Ok(read_truth(run.as_bytes())),
        ScalarKind::Moment(kind) => read_moment(alloc, run, kind),
    }
}

/// The value of a text, if it is a string.
#[tactic(auto, unfolding(crate::specs::Values::scalar_of))]
fn read_text(alloc: Global, run: &str) -> Result<Option<Scalar>, AllocError>
    ensures { Reads (scalar_of kinds.Text run.now) result }
{
    Ok(read_string(alloc, run)?.map(Scalar::Text))
}

/// The value of a text, if it is an integer in range.
#[tactic(auto, using(crate::proofs::Integers::fits_sound, crate::proofs::Integers::fits_complete), unfolding(crate::specs::Values::scalar_of))]
fn read_number(run: &[u8]) -> Option<Scalar>
    ensures { option_map scalar_value result ≡ scalar_of kinds.Integer run.now }
{
    if !is_integer_form(run) {
        return None;
    }
    Some(Scalar::Integer(read_integer(run)?))
}

/// The value of a text, if it is a float.
#[tactic(auto, unfolding(crate::specs::Values::scalar_of))]
fn read_float(alloc: Global, run: &str) -> Result<Option<Scalar>, AllocError>
    ensures { Reads (scalar_of kinds.Float run.now) result }
{
    if !is_float(run.as_bytes()) {
        return Ok(None);
    }
    let text = float_text(alloc, run)?;
    Ok(Some(Scalar::Float(FloatText { text })))
}

/// The value of a text, if it is a boolean.
#[tactic(auto, unfolding(crate::specs::Values::scalar_of))]
fn read_truth(run: &[u8]) -> Option<Scalar>
    ensures { option_map scalar_value result ≡ scalar_of kinds.Bool run.now }
{
    Some(Scalar::Bool(read_bool(run)?))
}

/// The value of a text, if it is a date or a time of the kind.
#[tactic(auto, unfolding(crate::specs::Values::scalar_of))]
fn read_moment(alloc: Global, run: &str, kind: MomentKind) -> Result<Option<Scalar>, AllocError>
    ensures { Reads (scalar_of (kinds.Moment kind) run.now) result }
{
    match moment_kind(run.as_bytes()) {
        Some(found) if is_kind(found, kind) => {
            let text = moment_text(alloc, run)?;
            Ok(Some(Scalar::Moment(Moment { kind, text })))
        }
        _ => Ok(None),
    }
}

/// Whether two kinds are one.
fn is_kind(found: MomentKind, kind: MomentKind) -> bool
    ensures { result ≡ (moment_number found == moment_number kind) }
{
    found == kind
}

/// The fault of a text that is no token of a kind.
fn value_fault(kind: ScalarKind, run: &[u8], at: usize) -> SyntaxFault
    ensures { result ≡ value_fault kind run.now at }
{
    match kind {
        ScalarKind::Text => SyntaxFault::BadString { at },
        ScalarKind::Integer if is_integer_form(run) => SyntaxFault::IntegerRange { at },
        ScalarKind::Integer | ScalarKind::Float => SyntaxFault::BadNumber { at },
        ScalarKind::Bool => SyntaxFault::Expected { at },
        ScalarKind::Moment(_) => SyntaxFault::BadDate { at },
    }
}
