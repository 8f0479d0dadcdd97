//! How long the whitespace, newline or comment at the front is.
ghost use Rattle.std.specs.Prelude.{◌≡◌, ◌≤◌, length};
ghost use Rattle.toml_text.specs.Bytes.{is_ws};
ghost use Rattle.toml_text.specs.Runs.{run_len, newline_len, comment_len};

use crate::unmarked::unmarked_len;

/// How many tabs and spaces the bytes begin with.
pub fn ws_len(bytes: &[u8]) -> usize
    ensures run { result ≡ run_len is_ws bytes.now }
    ensures within { result ≤ length bytes.now }
{
    for (i, byte) in bytes.iter().enumerate() {
        if *byte != b' ' && *byte != b'\t' {
            return i;
        }
    }
    bytes.len()
}

/// The length of the newline at the front, or 0: LF or CR LF. A bare CR is none. As a control character it may not stand
/// in a comment or a string either, so it is refused wherever it stands (TOML, section Spec; `newline`).
pub fn newline_len(bytes: &[u8]) -> usize
    ensures value { result ≡ newline_len bytes.now }
    ensures within { result ≤ length bytes.now }
{
    match bytes {
        [b'\n', ..] => 1,
        [b'\r', b'\n', ..] => 2,
        _ => 0,
    }
}

/// The length of the comment at the front, or 0.
#[tactic(auto, using(crate::proofs::Marks::comment_unmarked))]
pub(crate) fn comment_len(bytes: &[u8]) -> usize
    ensures { result ≡ comment_len bytes.now }
{
    match bytes {
        // A comment has no LF, so the mark only says that it ends there.
        [b'#', rest @ ..] => 1 + unmarked_len(rest, b'\n', b'\n'),
        _ => 0,
    }
}
