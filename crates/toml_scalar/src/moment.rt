//! Whether a run of bytes is a date or a time, and the text that is its datum. In the rules a quoted
//! letter stands for both its cases.
ghost use Rattle.std.specs.Prelude.{◌≡◌, ◌≤◌, ◌<◌, true, length, IfOk, IsSome, MatchOption, None, Some};
ghost use Rattle.std.specs.String.{string_bytes};
ghost use Rattle.toml_text.specs.Bytes.{is_digit};
ghost use Rattle.toml_text.specs.Runs.{run_len};
ghost use Rattle.toml_scalar.specs.Moments.{two_digits, moment_byte, moment_text};
ghost use Rattle.toml_scalar.specs.MomentRuns.{are_digits, are_digits_to, is_date_shape, is_date, is_hour_minute, after_fraction, after_time, is_time, is_offset, is_delimiter, kind_behind_date, moment_kind};

use crate::calendar::is_day;
use crate::kind::MomentKind;
use std::alloc::{AllocError, Global};

/// The length of a date.
const DATE_LEN: usize = 10;

/// The kind of a date or a time, where the run is one.
///
/// `date-time = offset-date-time / local-date-time / local-date / local-time`
pub(crate) fn moment_kind(run: &[u8]) -> Option<MomentKind>
    ensures { result ≡ moment_kind run.now }
{
    let (date, rest) = run.split_at(run.len().min(DATE_LEN));
    if is_date(date) {
        kind_behind_date(rest)
    } else {
        is_time(run).then_some(MomentKind::Time)
    }
}

/// The kind, by what follows a date.
///
/// `offset-date-time = full-date time-delim full-time` and
/// `local-date-time = full-date time-delim partial-time`
fn kind_behind_date(rest: &[u8]) -> Option<MomentKind>
    ensures { result ≡ kind_behind_date rest.now }
{
    match rest {
        [] => Some(MomentKind::Date),
        [delimiter, time @ ..] => {
            if !is_delimiter(*delimiter) {
                return None;
            }
            match after_time(time)? {
                [] => Some(MomentKind::Local),
                offset => is_offset(offset).then_some(MomentKind::Offset),
            }
        }
    }
}

/// Whether the run is ten bytes `DDDD-DD-DD` in digits, of whatever numbers.
pub(crate) fn is_date_shape(run: &[u8]) -> bool
    ensures { result ≡ is_date_shape run.now }
{
    match run {
        [y1, y2, y3, y4, dash, m1, m2, hyphen, d1, d2] => {
            are_digits(*y1, *y2)
                && are_digits(*y3, *y4)
                && *dash == b'-'
                && are_digits(*m1, *m2)
                && *hyphen == b'-'
                && are_digits(*d1, *d2)
        }
        _ => false,
    }
}

/// `full-date = date-fullyear "-" date-month "-" date-mday`
fn is_date(run: &[u8]) -> bool
    ensures { result ≡ is_date run.now }
{
    match run {
        [y1, y2, y3, y4, _, m1, m2, _, d1, d2] => {
            is_date_shape(run)
                && is_day(
                    u16::from(two_digits(*y1, *y2)) * 100 + u16::from(two_digits(*y3, *y4)),
                    two_digits(*m1, *m2),
                    two_digits(*d1, *d2),
                )
        }
        _ => false,
    }
}

/// The number that two digits spell.
fn two_digits(tens: u8, ones: u8) -> u8
    requires tens { is_digit tens ≡ true }
    requires ones { is_digit ones ≡ true }
    ensures value { result ≡ two_digits tens ones }
    ensures small { result < 100 }
{
    (tens - b'0') * 10 + (ones - b'0')
}

/// `2DIGIT`
fn are_digits(tens: u8, ones: u8) -> bool
    ensures { result ≡ are_digits tens ones }
{
    tens.is_ascii_digit() && ones.is_ascii_digit()
}

/// Whether two bytes are digits and spell a number up to the highest.
///
/// `time-hour = 2DIGIT`, `time-minute = 2DIGIT` and `time-second = 2DIGIT`
fn are_digits_to(highest: u8, tens: u8, ones: u8) -> bool
    ensures { result ≡ are_digits_to highest tens ones }
{
    are_digits(tens, ones) && two_digits(tens, ones) <= highest
}

/// `time-numoffset = ( "+" / "-" ) time-hour ":" time-minute`, without its sign
fn is_hour_minute(h1: u8, h2: u8, colon: u8, m1: u8, m2: u8) -> bool
    ensures { result ≡ is_hour_minute h1 h2 colon m1 m2 }
{
    are_digits_to(23, h1, h2) && colon == b':' && are_digits_to(59, m1, m2)
}

/// `local-time = partial-time`
fn is_time(run: &[u8]) -> bool
    ensures { result ≡ is_time run.now }
{
    match after_time(run) {
        Some(rest) => rest.is_empty(),
        None => false,
    }
}

/// What follows the longest time at the front, where there is one. Second 60 may stand at any minute.
///
/// `partial-time = time-hour ":" time-minute ":" time-second [ time-secfrac ]`
fn after_time(bytes: &[u8]) -> Option<&[u8]>
    ensures { MatchOption result (after_time bytes.now ≡ None) (λ rest. after_time bytes.now ≡ Some rest.now) }
{
    match bytes {
        [h1, h2, colon, m1, m2, colon2, s1, s2, rest @ ..] => {
            if is_hour_minute(*h1, *h2, *colon, *m1, *m2)
                && *colon2 == b':'
                && are_digits_to(60, *s1, *s2)
            {
                Some(after_fraction(rest))
            } else {
                None
            }
        }
        _ => None,
    }
}

/// What follows the fraction of a second at the front, or all where there is none.
///
/// `time-secfrac = "." 1*DIGIT`
fn after_fraction(bytes: &[u8]) -> &[u8]
    ensures { result.now ≡ after_fraction bytes.now }
{
    match bytes {
        [b'.', digits @ ..] => {
            let len = digits_len(digits);
            if len == 0 { bytes } else { &digits[len..] }
        }
        _ => bytes,
    }
}

/// How many digits the bytes begin with.
fn digits_len(bytes: &[u8]) -> usize
    ensures run { result ≡ run_len is_digit bytes.now }
    ensures within { result ≤ length bytes.now }
{
    for (i, byte) in bytes.iter().enumerate() {
        if !byte.is_ascii_digit() {
            return i;
        }
    }
    bytes.len()
}

/// `time-offset = "Z" / time-numoffset`
fn is_offset(bytes: &[u8]) -> bool
    ensures { result ≡ is_offset bytes.now }
{
    match bytes {
        [z] => *z == b'Z' || *z == b'z',
        [sign, h1, h2, colon, m1, m2] => (*sign == b'+' || *sign == b'-')
            && is_hour_minute(*h1, *h2, *colon, *m1, *m2),
        _ => false,
    }
}

/// `time-delim = "T" / %x20`
fn is_delimiter(byte: u8) -> bool
    ensures { result ≡ is_delimiter byte }
{
    byte == b'T' || byte == b't' || byte == b' '
}

/// The spelling with the delimiter written `T`, and `z` written `Z`.
pub(crate) fn moment_text(alloc: Global, run: &str) -> Result<String, AllocError>
    requires { IsSome (moment_kind run.now) }
    ensures { IfOk result (λ s. string_bytes s ≡ moment_text run.now) }
{
    let mut text = String::with_capacity(alloc, run.len())?;
    for byte in run.as_bytes() {
        text.push(char::from(moment_byte(*byte)))?;
    }
    Ok(text)
}

/// How a byte of a date or a time is written in its datum.
fn moment_byte(byte: u8) -> u8
    ensures { result ≡ moment_byte byte }
{
    match byte {
        b't' | b' ' => b'T',
        b'z' => b'Z',
        _ => byte,
    }
}
