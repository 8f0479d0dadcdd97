//! The steps of the scan of a string, in each kind, from behind the opening marks.
ghost use Rattle.std.specs.Prelude.{◌≡◌, ◌==◌, nat_le, min, if◌then◌else◌, Some, None};
ghost use Rattle.toml_scalar.specs.StringScan.{Advances};
ghost use Rattle.toml_scalar.specs.declared.strings.advance.Advance.TheVariants.{More, End};
ghost use Rattle.toml_scalar.specs.declared.strings.kind.StringKind.TheVariants.{Basic, MultiLineBasic, Literal, MultiLineLiteral};

use crate::strings::advance::Advance;
use crate::strings::escapes::{escape, multi_line_escape_len};
use crate::strings::kind::StringKind;
use crate::strings::runs::{basic_len, literal_len, mark_len};
use toml_text::newline_len;

/// On over a run, if it has a byte.
fn more(len: usize) -> Option<Advance>
    ensures { result ≡ (if len == 0 then None else Some (More len)) }
{
    if len == 0 {
        return None;
    }
    Some(Advance::More(len))
}

/// On over a run of marks in a multi-line string. Of three or more, up to five end it.
///
/// `mlb-quotes = 1*2quotation-mark`, `mll-quotes = 1*2apostrophe`
fn marks(len: usize) -> Advance
    ensures { result ≡ (if nat_le len 2 then More len else End (min len 5)) }
{
    if len <= 2 {
        Advance::More(len)
    } else {
        Advance::End(len.min(5))
    }
}

/// `basic-string = quotation-mark *basic-char quotation-mark`
fn basic(bytes: &[u8]) -> Option<Advance>
    ensures { Advances Basic bytes.now result }
{
    let [first, rest @ ..] = bytes else {
        return None;
    };
    match *first {
        b'"' => Some(Advance::End(1)),
        b'\\' => Some(Advance::More(1 + escape(rest)?.len)),
        _ => more(basic_len(bytes)),
    }
}

/// `ml-basic-body = *mlb-content *( mlb-quotes 1*mlb-content ) [ mlb-quotes ]`
fn multi_line_basic(bytes: &[u8]) -> Option<Advance>
    ensures { Advances MultiLineBasic bytes.now result }
{
    let [first, rest @ ..] = bytes else {
        return None;
    };
    match *first {
        b'"' => Some(marks(mark_len(b'"', bytes))),
        b'\\' => Some(Advance::More(1 + multi_line_escape_len(rest)?)),
        b'\n' => Some(Advance::More(1)),
        // A bare CR is no newline, so no string goes on over it.
        b'\r' => more(newline_len(bytes)),
        _ => more(basic_len(bytes)),
    }
}

/// `literal-string = apostrophe *literal-char apostrophe`
fn literal(bytes: &[u8]) -> Option<Advance>
    ensures { Advances Literal bytes.now result }
{
    let [first, ..] = bytes else {
        return None;
    };
    match *first {
        b'\'' => Some(Advance::End(1)),
        _ => more(literal_len(bytes)),
    }
}

/// `ml-literal-body = *mll-content *( mll-quotes 1*mll-content ) [ mll-quotes ]`
fn multi_line_literal(bytes: &[u8]) -> Option<Advance>
    ensures { Advances MultiLineLiteral bytes.now result }
{
    let [first, ..] = bytes else {
        return None;
    };
    match *first {
        b'\'' => Some(marks(mark_len(b'\'', bytes))),
        b'\n' => Some(Advance::More(1)),
        // A bare CR is no newline, so no string goes on over it.
        b'\r' => more(newline_len(bytes)),
        _ => more(literal_len(bytes)),
    }
}

/// On over what stands at the front, in a string of the kind.
pub(crate) fn step(kind: StringKind, bytes: &[u8]) -> Option<Advance>
    ensures { Advances kind bytes.now result }
{
    match kind {
        StringKind::Basic => basic(bytes),
        StringKind::MultiLineBasic => multi_line_basic(bytes),
        StringKind::Literal => literal(bytes),
        StringKind::MultiLineLiteral => multi_line_literal(bytes),
    }
}
