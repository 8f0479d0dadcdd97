//! How many plain bytes stand at the front, up to one of two marks, sixteen bytes at a time.
ghost use Rattle.std.specs.Prelude.{◌≡◌, ◌≤◌, length, map};
ghost use Rattle.std.specs.Simd.Lanes.{mask_l};
ghost use Rattle.toml_text.specs.Bytes.{is_unmarked, is_stop};
ghost use Rattle.toml_text.specs.Runs.{run_len};

use std::simd::prelude::*;

/// How many bytes are looked at together.
const LANES: usize = 16;

/// How many bytes at the front are a tab, printable ASCII or past ASCII, and neither of the marks. One mark is given
/// twice.
///
/// `non-eol`, without U+007F and the marks
pub fn unmarked_len(bytes: &[u8], mark: u8, other: u8) -> usize
    ensures run { result ≡ run_len (is_unmarked mark other) bytes.now }
    ensures within { result ≤ length bytes.now }
{
    let mut at = 0;
    while bytes.len() - at >= LANES {
        let found = stops(u8x16::from_slice(&bytes[at..]), mark, other);
        if found != 0 {
            return at + found.trailing_zeros() as usize;
        }
        at += LANES;
    }
    at + few_len(&bytes[at..], mark, other)
}

/// A bit for each byte that ends the run, the lowest for the first byte.
#[inline]
fn stops(bytes: u8x16, mark: u8, other: u8) -> u64
    ensures { result ≡ mask_l (map (is_stop mark other) bytes) }
{
    let control = bytes.simd_lt(u8x16::splat(0x20)) & bytes.simd_ne(u8x16::splat(b'\t'));
    let marks = bytes.simd_eq(u8x16::splat(mark)) | bytes.simd_eq(u8x16::splat(other));
    (control | bytes.simd_eq(u8x16::splat(0x7F)) | marks).to_bitmask()
}

/// The length of the run in bytes too few for a block.
fn few_len(bytes: &[u8], mark: u8, other: u8) -> usize
    ensures run { result ≡ run_len (is_unmarked mark other) bytes.now }
    ensures within { result ≤ length bytes.now }
{
    for (i, byte) in bytes.iter().enumerate() {
        let control = *byte != b'\t' && (*byte < 0x20 || *byte == 0x7F);
        if control || *byte == mark || *byte == other {
            return i;
        }
    }
    bytes.len()
}
