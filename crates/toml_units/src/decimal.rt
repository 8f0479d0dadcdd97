//! Numbers in decimal, read from bytes.
ghost use Rattle.std.specs.Prelude.{◌≡◌, ◌↔◌, ◌<◌, ◌≤◌, ◌+◌, ◌*◌, ◌^◌, length, IsTrue, MatchOption, SomeIff};
ghost use Rattle.std.specs.Char.{is_ascii_digit, digit_value};
ghost use Rattle.std.specs.List.{prefix_len};
ghost use Rattle.std.specs.Str.Parse.{digits_value};
ghost use Rattle.toml_units.specs.Decimals.{AreDigits, IsPlain, BeginsWithNoNumber, BeginsWithNumber};

/// How many digits stand at the front.
fn digits_len(bytes: &[u8]) -> usize
    ensures run { result ≡ prefix_len is_ascii_digit bytes.now }
    ensures within { result ≤ length bytes.now }
{
    for (index, byte) in bytes.iter().enumerate() {
        if !byte.is_ascii_digit() {
            return index;
        }
    }
    bytes.len()
}

/// The value of a digit.
fn digit_value(byte: u8) -> u64
    ensures { result ≡ digit_value byte }
{
    if byte.is_ascii_digit() {
        return u64::from(byte - b'0');
    }
    (byte as char).to_digit(36).map_or(36, u64::from)
}

/// The number that `digit` behind the digits of `value` makes, unless it is 2^64 or more.
fn with_digit(value: u64, digit: u8) -> Option<u64>
    ensures { SomeIff result (value * 10 + digit_value digit < 2 ^ 64) (value * 10 + digit_value digit) }
{
    value.checked_mul(10)?.checked_add(digit_value(digit))
}

/// The number of digits, unless it is 2^64 or more.
#[tactic(auto, using(crate::proofs::DigitValues::values))]
fn value_of(digits: &[u8]) -> Option<u64>
    ensures { SomeIff result (digits_value 10 digits.now < 2 ^ 64) (digits_value 10 digits.now) }
{
    let mut value = 0;
    for digit in digits {
        value = with_digit(value, *digit)?;
    }
    Some(value)
}

/// The number that the digits write, which is below 2^64.
#[tactic(auto, using(crate::proofs::DigitValues::values))]
fn short_value(digits: &[u8]) -> u64
    requires { digits_value 10 digits.now < 2 ^ 64 }
    ensures { result ≡ digits_value 10 digits.now }
{
    let mut value = 0;
    for digit in digits {
        value = value * 10 + digit_value(*digit);
    }
    value
}

/// What `value_of` answers of digits alone: of few of them, as most numbers have, it is not asked at each whether the number gets too
/// large.
fn number_of(digits: &[u8]) -> Option<u64>
    requires { AreDigits digits.now }
    ensures { SomeIff result (digits_value 10 digits.now < 2 ^ 64) (digits_value 10 digits.now) }
{
    // 10^19 is below 2^64
    if digits.len() < 20 {
        return Some(short_value(digits));
    }
    value_of(digits)
}

/// Whether there is a digit, and no leading zero.
fn is_plain(digits: &[u8]) -> bool
    ensures { IsTrue result ↔ IsPlain digits.now }
{
    digits.len() == 1 || (digits.len() > 1 && digits[0] != b'0')
}

/// The number at the front, if it has no leading zero and is below 2^64, and what stands behind its digits.
pub(crate) fn read_number(bytes: &[u8]) -> Option<(u64, &[u8])>
    ensures { MatchOption result (BeginsWithNoNumber bytes.now) (λ r. BeginsWithNumber bytes.now r.0 r.1.now) }
{
    let (digits, behind) = bytes.split_at(digits_len(bytes));
    if !is_plain(digits) {
        return None;
    }
    let number = number_of(digits)?;
    Some((number, behind))
}
