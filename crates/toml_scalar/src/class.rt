//! How long a run of one class is at the front of some bytes.
ghost use Rattle.std.specs.Prelude.{◌≡◌, ◌≤◌, length};
ghost use Rattle.toml_text.specs.Bytes.{is_bare};
ghost use Rattle.toml_text.specs.Runs.{run_len};
ghost use Rattle.toml_scalar.specs.Runs.{is_value_byte};

/// Whether a bare key may have the byte. Most are lower-case letters, so these are asked first.
#[inline]
pub(crate) fn is_bare(byte: u8) -> bool
    ensures { result ≡ is_bare byte }
{
    byte.is_ascii_lowercase()
        || byte.is_ascii_digit()
        || byte == b'_'
        || byte == b'-'
        || byte.is_ascii_uppercase()
}

/// Whether a value that is no string, array or inline table may have the byte. Most are digits, so these are asked first.
#[inline]
pub(crate) fn is_value_byte(byte: u8) -> bool
    ensures { result ≡ is_value_byte byte }
{
    byte.is_ascii_digit()
        || byte.is_ascii_lowercase()
        || byte.is_ascii_uppercase()
        || matches!(byte, b'+' | b'-' | b'.' | b'_' | b':')
}

/// How many bytes at the front a bare key may have.
pub(crate) fn bare_len(bytes: &[u8]) -> usize
    ensures { result ≡ run_len is_bare bytes.now }
{
    for (i, byte) in bytes.iter().enumerate() {
        if !is_bare(*byte) {
            return i;
        }
    }
    bytes.len()
}

/// How many bytes at the front a value that is no string, array or inline table may have.
pub(crate) fn value_run_len(bytes: &[u8]) -> usize
    ensures run { result ≡ run_len is_value_byte bytes.now }
    ensures within { result ≤ length bytes.now }
{
    for (i, byte) in bytes.iter().enumerate() {
        if !is_value_byte(*byte) {
            return i;
        }
    }
    bytes.len()
}
