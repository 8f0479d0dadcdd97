//! How long a run of one class is at the front of some bytes.
ghost use Rattle.std.specs.Prelude.{◌≡◌, ◌≤◌, length};
ghost use Rattle.toml_text.specs.Bytes.{is_basic, is_literal};
ghost use Rattle.toml_text.specs.Runs.{run_len, is_byte};
ghost use Rattle.toml_scalar.specs.StringRuns.{spaces_len, dropped_len};

use toml_text::{newline_len, unmarked_len, ws_len};

/// How many bytes at the front stand for themselves in a basic string.
///
/// `basic-unescaped = wschar / %x21 / %x23-5B / %x5D-7E / non-ascii`
pub(crate) fn basic_len(bytes: &[u8]) -> usize
    ensures run { result ≡ run_len is_basic bytes.now }
    ensures within { result ≤ length bytes.now }
{
    unmarked_len(bytes, b'"', b'\\')
}

/// How many bytes at the front stand for themselves in a literal string.
///
/// `literal-char = %x09 / %x20-26 / %x28-7E / non-ascii`
pub(crate) fn literal_len(bytes: &[u8]) -> usize
    ensures run { result ≡ run_len is_literal bytes.now }
    ensures within { result ≤ length bytes.now }
{
    unmarked_len(bytes, b'\'', b'\'')
}

/// How many bytes at the front are the mark.
pub(crate) fn mark_len(mark: u8, bytes: &[u8]) -> usize
    ensures run { result ≡ run_len (is_byte mark) bytes.now }
    ensures within { result ≤ length bytes.now }
{
    for (i, byte) in bytes.iter().enumerate() {
        if *byte != mark {
            return i;
        }
    }
    bytes.len()
}

/// How many bytes of whitespace and newlines stand at the front.
///
/// `*( wschar / newline )`
fn spaces_len(bytes: &[u8]) -> usize
    ensures value { result ≡ spaces_len bytes.now }
    ensures within { result ≤ length bytes.now }
{
    let mut at = 0;
    loop {
        match &bytes[at..] {
            [b' ' | b'\t' | b'\n', ..] => at += 1,
            [b'\r', b'\n', ..] => at += 2,
            _ => return at,
        }
    }
}

/// The length of the whitespace, the newline and the spaces at the front, or 0 if there is no such newline.
pub(crate) fn dropped_len(bytes: &[u8]) -> usize
    ensures value { result ≡ dropped_len bytes.now }
    ensures within { result ≤ length bytes.now }
{
    let ws = ws_len(bytes);
    let line = newline_len(&bytes[ws..]);
    if line == 0 {
        return 0;
    }
    ws + line + spaces_len(&bytes[ws + line..])
}
