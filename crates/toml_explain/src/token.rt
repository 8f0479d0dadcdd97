//! Where a number, a date or a time that is none ends.

ghost use Rattle.std.specs.Prelude.{◌≡◌, ◌≤◌, length};

use toml_text::Span;

/// The length of a date.
const DATE_LEN: usize = 10;

/// Whether a value that is no string, array or inline table may have the byte.
fn is_value_byte(byte: u8) -> bool {
    byte.is_ascii_alphanumeric() || matches!(byte, b'+' | b'-' | b'.' | b'_' | b':')
}

/// How many such bytes stand at the front.
fn run_len(bytes: &[u8]) -> usize
    ensures { result ≤ length bytes.now }
{
    for (i, byte) in bytes.iter().enumerate() {
        if !is_value_byte(*byte) {
            return i;
        }
    }
    bytes.len()
}

/// Whether the run is `DDDD-DD-DD` in digits.
pub(crate) fn is_date_shape(run: &[u8]) -> bool {
    run.len() == DATE_LEN
        && run.iter().enumerate().all(|(i, byte)| {
            if i == 4 || i == 7 {
                *byte == b'-'
            } else {
                byte.is_ascii_digit()
            }
        })
}

/// The length of the run at the front in which a number, a date or a time stands: a date goes on behind one space, if a digit
/// follows.
fn token_len(bytes: &[u8]) -> usize {
    let len = run_len(bytes);
    let (run, rest) = bytes.split_at(len);
    match rest {
        [b' ', time @ ..] if is_date_shape(run) && matches!(time, [b'0'..=b'9', ..]) => {
            len.saturating_add(1).saturating_add(run_len(time))
        }
        _ => len,
    }
}

/// The span of the token that begins at the place, of one byte at least.
pub(crate) fn token_span(bytes: &[u8], at: usize) -> Span
    ensures { result.start ≡ at }
{
    let len = match bytes.get(at..) {
        Some(rest) => token_len(rest),
        None => 0,
    };
    Span {
        start: at,
        end: at.saturating_add(len.max(1)),
    }
}

/// The run at the front.
pub(crate) fn token_run(bytes: &[u8]) -> &[u8] {
    let (run, _) = bytes.split_at(run_len(bytes));
    run
}
