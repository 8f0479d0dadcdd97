//! Numbers in brackets.
ghost use Rattle.std.specs.Prelude.{◌≡◌, ◌≤◌, length};
ghost use Rattle.toml_text.specs.Bytes.{is_digit};
ghost use Rattle.toml_text.specs.Runs.{run_len};
ghost use Rattle.toml_places.specs.Reading.{numeral_len};

/// How many digits stand at the front.
fn digits_len(bytes: &[u8]) -> usize
    ensures run { result ≡ run_len is_digit bytes.now }
    ensures within { result ≤ length bytes.now }
{
    for (i, byte) in bytes.iter().enumerate() {
        if !byte.is_ascii_digit() {
            return i;
        }
    }
    bytes.len()
}

/// The length of the numeral at the front, of `0` alone or of all digits, or 0.
pub(crate) fn numeral_len(bytes: &[u8]) -> usize
    ensures run { result ≡ numeral_len bytes.now }
    ensures within { result ≤ length bytes.now }
{
    match bytes {
        [b'0', ..] => 1,
        _ => digits_len(bytes),
    }
}
