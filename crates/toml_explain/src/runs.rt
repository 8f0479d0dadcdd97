//! What is wrong with a run of bytes that is no number, no date and no time.

use crate::token::is_date_shape;

const NO_NUMBER: &str = "this is no number, and a string stands between quotation marks";

/// Whether a digit stands there, of a number to base 16 one of that.
fn is_digit(byte: Option<&u8>, is_hexadecimal: bool) -> bool {
    match byte {
        Some(byte) if is_hexadecimal => byte.is_ascii_hexdigit(),
        Some(byte) => byte.is_ascii_digit(),
        None => false,
    }
}

/// Whether a mark stands in a number anywhere but between two digits.
fn stands_apart(run: &[u8], mark: u8, is_hexadecimal: bool) -> bool {
    for (at, byte) in run.iter().enumerate() {
        let before = match at.checked_sub(1) {
            Some(place) => run.get(place),
            None => None,
        };
        let behind = run.get(at.saturating_add(1));
        if *byte == mark
            && !(is_digit(before, is_hexadecimal) && is_digit(behind, is_hexadecimal))
        {
            return true;
        }
    }
    false
}

/// How many points a run has.
fn points(run: &[u8]) -> usize {
    let mut points = 0usize;
    for byte in run {
        if *byte == b'.' {
            points = points.saturating_add(1);
        }
    }
    points
}

/// Whether a run has digits, underscores and one point at most, as a number without a prefix and an exponent.
fn is_plain(run: &[u8]) -> bool {
    points(run) <= 1 && run.iter().all(|byte| byte.is_ascii_digit() || matches!(byte, b'_' | b'.'))
}

/// What is wrong with a run that is no number.
pub(crate) fn bad_number(run: &[u8]) -> &'static str {
    let unsigned = match run {
        [b'+' | b'-', rest @ ..] => rest,
        _ => run,
    };
    let has_prefix = matches!(unsigned, [b'0', b'x' | b'o' | b'b', ..]);
    match unsigned {
        [b'0', b'0'..=b'9' | b'_', ..] if is_plain(unsigned) => "a number may not begin with 0",
        [b'0', b'0'..=b'9' | b'_', ..] => NO_NUMBER,
        _ if has_prefix && unsigned.len() != run.len() => "a number with a prefix has no sign",
        _ if stands_apart(unsigned, b'_', unsigned.starts_with(b"0x")) => {
            "this is no number: an underscore stands between two digits"
        }
        _ if !has_prefix && points(unsigned) == 1 && stands_apart(unsigned, b'.', false) => {
            "this is no number: digits stand on both sides of a point"
        }
        _ => NO_NUMBER,
    }
}

/// The length of a date.
const DATE_LEN: usize = 10;

/// The length of a time without a fraction.
const TIME_LEN: usize = 8;

/// Whether two digits and `:` stand at the front.
fn begins_time(run: &[u8]) -> bool {
    matches!(run, [b'0'..=b'9', b'0'..=b'9', b':', ..])
}

/// Whether the run is `DD:DD:DD` in digits.
fn is_time_shape(run: &[u8]) -> bool {
    run.len() == TIME_LEN
        && run.iter().enumerate().all(|(i, byte)| {
            if i == 2 || i == 5 {
                *byte == b':'
            } else {
                byte.is_ascii_digit()
            }
        })
}

/// Whether an offset stands behind a time, with its fraction or without.
fn has_offset(run: &[u8]) -> bool {
    let is_timed = match run.get(..TIME_LEN) {
        Some(front) => is_time_shape(front),
        None => false,
    };
    is_timed
        && run
            .iter()
            .any(|byte| matches!(byte, b'Z' | b'z' | b'+' | b'-'))
}

/// What is wrong with a run that is no time and begins as one.
fn bad_time(run: &[u8]) -> &'static str {
    if has_offset(run) {
        return "a time without a date has no offset";
    }
    "a time is written as 07:32:00 or 07:32:00.5, a string between quotation marks"
}

/// What is wrong with a run that begins in the shape of a date, by what stands behind that.
fn behind_date(rest: &[u8]) -> &'static str {
    match rest {
        [] => "this is no date, or a day that the calendar does not have",
        [b' ', time @ ..] if !begins_time(time) => {
            "only a time follows a date behind a space, and a comma stands between two values"
        }
        [b' ' | b'T' | b't', ..] => {
            "a date with a time is written as 1979-05-27T07:32:00, an offset as Z or +01:00; or the day or the hour does not exist"
        }
        _ => "this is no date, and a string stands between quotation marks",
    }
}

/// What is wrong with a run that is no date and no time.
pub(crate) fn bad_date(run: &[u8]) -> &'static str {
    if begins_time(run) {
        return bad_time(run);
    }
    match (run.get(..DATE_LEN), run.get(DATE_LEN..)) {
        (Some(front), Some(rest)) if is_date_shape(front) => behind_date(rest),
        _ => "a date is written as 1979-05-27, and a string stands between quotation marks",
    }
}
