//! Where the scalar or the key part at a place ends.
ghost use Rattle.std.specs.Prelude.{◌≡◌, ◌⊎◌, ◌≤◌, drop, length, option_map};
ghost use Rattle.std.specs.Str.{IsCharBoundary};
ghost use Rattle.toml_text.specs.Source.{text_of};
ghost use Rattle.toml_text.specs.Runs.{begins};
ghost use Rattle.toml_scalar.specs.Scanning.{scan_at, key_part_len, is_key_start, is_scalar_start, value_len, goes_on, kind_of};
ghost use Rattle.toml_scalar.specs.StringRuns.{token_of, token_len};
ghost use Rattle.toml_scalar.specs.Faults.{begins_moment, run_fault, scalar_fault, key_fault};
ghost use Rattle.toml_scalar.specs.Scans.{ScansScalar, ScansKey, Finds};
ghost use Rattle.toml_scalar.specs.declared.strings.kind.StringKind.TheVariants.{Basic, Literal};

use crate::boolean::is_bool;
use crate::class::{bare_len, is_bare, is_value_byte, value_run_len};
use crate::fault::SyntaxFault;
use crate::float::is_float;
use crate::integer::{fits_integer, is_integer_form};
use crate::kind::ScalarKind;
use crate::moment::{is_date_shape, moment_kind};
use crate::strings::{StringKind, body_len, string_len};
use toml_text::{Source, Span};

/// The key part at a place: a bare key, or a one-line string.
///
/// `simple-key = quoted-key / unquoted-key`
pub fn scan_key(source: Source<'_>, at: usize) -> Result<Span, SyntaxFault>
    requires { IsCharBoundary (text_of source) at }
    ensures { ScansKey (text_of source.entry) at result }
{
    let len = key_part(rest(source, at), at)?;
    Ok(Span {
        start: at,
        end: at + len,
    })
}

/// The scalar at a place, and its kind: the longest that begins there.
///
/// `val = string / boolean / date-time / float / integer`, arrays and inline tables left out
pub fn scan_scalar(source: Source<'_>, at: usize) -> Result<(Span, ScalarKind), SyntaxFault>
    requires { IsCharBoundary (text_of source) at }
    ensures { ScansScalar (text_of source.entry) at result }
{
    let (len, kind) = token(rest(source, at), at)?;
    let span = Span {
        start: at,
        end: at + len,
    };
    Ok((span, kind))
}

/// What stands from a place on.
fn rest(source: Source<'_>, at: usize) -> &[u8]
    requires { IsCharBoundary (text_of source) at }
    ensures { result.now ≡ drop at (text_of source.entry) }
{
    let end = source.len();
    source.slice(Span { start: at, end }).as_bytes()
}

/// The length of the key part at the front; `at` is the place of its first byte.
#[tactic(auto, unfolding(crate::specs::Scanning::key_part_len, crate::specs::Faults::key_fault))]
fn key_part(rest: &[u8], at: usize) -> Result<usize, SyntaxFault>
    ensures { Finds (key_fault rest.now at) (λ len. len) (key_part_len rest.now) result }
{
    let quoted = match rest {
        [b'"', behind @ ..] => one_line_len(StringKind::Basic, behind),
        [b'\'', behind @ ..] => one_line_len(StringKind::Literal, behind),
        _ => {
            return match bare_len(rest) {
                0 => Err(SyntaxFault::of_byte(rest, at)),
                len => Ok(len),
            };
        }
    };
    quoted.ok_or(SyntaxFault::BadString { at })
}

/// The length of a one-line string, of which this stands behind the first mark.
#[tactic(auto, using(crate::proofs::OneLine::one_line))]
fn one_line_len(kind: StringKind, behind: &[u8]) -> Option<usize>
    requires { (kind ≡ Basic) ⊎ (kind ≡ Literal) }
    ensures { result ≡ option_map token_len (token_of kind behind.now) }
{
    Some(1 + body_len(kind, behind)?)
}

/// The length and the kind of the scalar at the front; `at` is the place of its first byte.
#[tactic(auto, unfolding(crate::specs::Scanning::scan_at, crate::specs::Faults::scalar_fault))]
fn token(rest: &[u8], at: usize) -> Result<(usize, ScalarKind), SyntaxFault>
    ensures { Finds (scalar_fault rest.now at) (λ r. (r.0, r.1)) (scan_at rest.now) result }
{
    if let [b'"' | b'\'', ..] = rest {
        return match string_len(rest) {
            Some(len) => Ok((len, ScalarKind::Text)),
            None => Err(SyntaxFault::BadString { at }),
        };
    }
    let len = value_len(rest);
    let run = &rest[..len];
    match kind_of(run) {
        Some(kind) => Ok((len, kind)),
        None => Err(match len {
            0 => SyntaxFault::of_byte(rest, at),
            _ => run_fault(run, at),
        }),
    }
}

/// The length of the run at the front in which a number, a boolean, a date or a time stands.
///
/// A date goes on behind one space, if a digit follows: `time-delim = "T" / %x20`.
fn value_len(rest: &[u8]) -> usize
    ensures run { result ≡ value_len rest.now }
    ensures within { result ≤ length rest.now }
{
    let len = value_run_len(rest);
    if is_date_shape(&rest[..len]) && goes_on(&rest[len..]) {
        return len + 1 + value_run_len(&rest[len + 1..]);
    }
    len
}

/// Whether one space and a digit stand at the front.
fn goes_on(bytes: &[u8]) -> bool
    ensures { result ≡ goes_on bytes.now }
{
    matches!(bytes, [b' ', b'0'..=b'9', ..])
}

/// The kind of a whole run, if it is a value.
#[tactic(auto, unfolding(crate::specs::Scanning::kind_of))]
fn kind_of(run: &[u8]) -> Option<ScalarKind>
    ensures { result ≡ kind_of run.now }
{
    if is_bool(run) {
        return Some(ScalarKind::Bool);
    }
    if is_integer_form(run) && fits_integer(run) {
        return Some(ScalarKind::Integer);
    }
    if is_float(run) {
        return Some(ScalarKind::Float);
    }
    Some(ScalarKind::Moment(moment_kind(run)?))
}

/// The fault of a run, which is not empty, that is no value.
fn run_fault(run: &[u8], at: usize) -> SyntaxFault
    ensures { result ≡ run_fault run.now at }
{
    if begins_moment(run) {
        return SyntaxFault::BadDate { at };
    }
    match run {
        [b'0'..=b'9' | b'+' | b'-', ..] if is_integer_form(run) => SyntaxFault::IntegerRange { at },
        [b'0'..=b'9' | b'+' | b'-', ..] => SyntaxFault::BadNumber { at },
        _ => SyntaxFault::Expected { at },
    }
}

/// Whether four digits and `-`, or two digits and `:`, stand at the front.
fn begins_moment(run: &[u8]) -> bool
    ensures { result ≡ begins_moment run.now }
{
    match run {
        [b'0'..=b'9', b'0'..=b'9', b':', ..] => true,
        [b'0'..=b'9', b'0'..=b'9', b'0'..=b'9', b'0'..=b'9', b'-', ..] => true,
        _ => false,
    }
}

/// Whether a scalar may begin with the first byte: a string's mark, or a byte of a number, a boolean, a date
/// or a time.
pub fn begins_scalar(rest: &[u8]) -> bool
    ensures { result ≡ begins is_scalar_start rest.now }
{
    match rest {
        [b'"' | b'\'', ..] => true,
        [first, ..] => is_value_byte(*first),
        [] => false,
    }
}

/// Whether a key part may begin with the first byte.
pub fn begins_key(rest: &[u8]) -> bool
    ensures { result ≡ begins is_key_start rest.now }
{
    match rest {
        [b'"' | b'\'', ..] => true,
        [first, ..] => is_bare(*first),
        [] => false,
    }
}
