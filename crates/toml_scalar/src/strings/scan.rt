//! The length of the string at the front of some bytes.
ghost use Rattle.std.specs.Prelude.{◌≡◌, ◌≤◌, length, IfSome};
ghost use Rattle.toml_scalar.specs.StringRuns.{begins_three, kind_at, marks_len, first_len, body_len, string_len};

use crate::strings::advance::Advance;
use crate::strings::kind::StringKind;
use crate::strings::runs::mark_len;
use crate::strings::steps::step;
use toml_text::newline_len;

/// Whether three marks stand at the front.
fn begins_three(mark: u8, bytes: &[u8]) -> bool
    ensures { result ≡ begins_three mark bytes.now }
{
    mark_len(mark, bytes) >= 3
}

/// The kind of the string that the marks at the front open.
pub(crate) fn kind_at(bytes: &[u8]) -> Option<StringKind>
    ensures { result ≡ kind_at bytes.now }
{
    let [mark, ..] = bytes else {
        return None;
    };
    match *mark {
        b'"' if begins_three(b'"', bytes) => Some(StringKind::MultiLineBasic),
        b'"' => Some(StringKind::Basic),
        b'\'' if begins_three(b'\'', bytes) => Some(StringKind::MultiLineLiteral),
        b'\'' => Some(StringKind::Literal),
        _ => None,
    }
}

/// How many marks open a string of the kind, and close it.
pub(crate) fn marks_len(kind: StringKind) -> usize
    ensures { result ≡ marks_len kind }
{
    match kind {
        StringKind::Basic | StringKind::Literal => 1,
        StringKind::MultiLineBasic | StringKind::MultiLineLiteral => 3,
    }
}

/// The length of the first newline, which is none of the value, or 0.
pub(crate) fn first_len(kind: StringKind, bytes: &[u8]) -> usize
    ensures value { result ≡ first_len kind bytes.now }
    ensures within { result ≤ length bytes.now }
{
    match kind {
        StringKind::Basic | StringKind::Literal => 0,
        StringKind::MultiLineBasic | StringKind::MultiLineLiteral => newline_len(bytes),
    }
}

/// The length of the rest of a string, of which this stands behind the opening marks and the first newline.
pub(crate) fn body_len(kind: StringKind, bytes: &[u8]) -> Option<usize>
    ensures value { result ≡ body_len kind bytes.now }
    ensures within { IfSome result (λ n. n ≤ length bytes.now) }
{
    let mut at = 0;
    loop {
        match step(kind, &bytes[at..])? {
            Advance::More(len) => at += len,
            Advance::End(len) => return Some(at + len),
        }
    }
}

/// The length of the longest string at the front, where one stands there.
///
/// `string = ml-basic-string / basic-string / ml-literal-string / literal-string`
pub(crate) fn string_len(bytes: &[u8]) -> Option<usize>
    ensures value { result ≡ string_len bytes.now }
    ensures within { IfSome result (λ n. n ≤ length bytes.now) }
{
    let kind = kind_at(bytes)?;
    let marks = marks_len(kind);
    let rest = &bytes[marks..];
    let first = first_len(kind, rest);
    let body = body_len(kind, &rest[first..])?;
    Some(marks + first + body)
}
