//! Whether a run of bytes is an integer, and its number.
ghost use Rattle.std.specs.Prelude.{◌≡◌, ◌+◌, ◌*◌, ◌^◌, ◌<◌, ◌≤◌, SomeIff};
ghost use Rattle.std.specs.Char.{digit_value};
ghost use Rattle.toml_scalar.specs.Integers.{number, unsigned_value, integer_value, FitsInteger};
ghost use Rattle.toml_scalar.specs.IntegerRuns.{are_digits, is_unsigned, is_decimal, is_based, is_integer_form, fits_integer};

/// Whether the run is an integer of whatever size.
///
/// `integer = dec-int / hex-int / oct-int / bin-int`
pub(crate) fn is_integer_form(run: &[u8]) -> bool
    ensures { result ≡ is_integer_form run.now }
{
    is_decimal(run) || is_based(run)
}

/// `dec-int = [ minus / plus ] unsigned-dec-int`
pub(crate) fn is_decimal(run: &[u8]) -> bool
    ensures { result ≡ is_decimal run.now }
{
    match run {
        [b'+' | b'-', digits @ ..] => is_unsigned(digits),
        _ => is_unsigned(run),
    }
}

/// `unsigned-dec-int = DIGIT / digit1-9 1*( DIGIT / underscore DIGIT )`
fn is_unsigned(bytes: &[u8]) -> bool
    ensures { result ≡ is_unsigned bytes.now }
{
    match bytes {
        [digit] => digit.is_ascii_digit(),
        [b'1'..=b'9', ..] => are_digits(10, bytes),
        _ => false,
    }
}

/// `hex-int / oct-int / bin-int`, each a prefix and digits of its base, such as
/// `hex-int = hex-prefix HEXDIG *( HEXDIG / underscore HEXDIG )`
fn is_based(run: &[u8]) -> bool
    ensures { result ≡ is_based run.now }
{
    match run {
        [b'0', b'x', digits @ ..] => are_digits(16, digits),
        [b'0', b'o', digits @ ..] => are_digits(8, digits),
        [b'0', b'b', digits @ ..] => are_digits(2, digits),
        _ => false,
    }
}

/// Digits of a base, and each underscore between two of them; in base 10
/// `zero-prefixable-int = DIGIT *( DIGIT / underscore DIGIT )`
pub(crate) fn are_digits(base: u64, bytes: &[u8]) -> bool
    ensures { result ≡ are_digits base bytes.now }
{
    let mut was_digit = false;
    for byte in bytes {
        if digit_value(*byte) < base {
            was_digit = true;
        } else if *byte == b'_' && was_digit {
            was_digit = false;
        } else {
            return false;
        }
    }
    was_digit
}

/// Whether the number of an integer lies in -2^63 to 2^63 - 1.
pub(crate) fn fits_integer(run: &[u8]) -> bool
    ensures { result ≡ fits_integer run.now }
{
    let (unsigned, largest) = match run {
        [b'-', unsigned @ ..] => (unsigned, i64::MIN.unsigned_abs()),
        [b'+', unsigned @ ..] => (unsigned, i64::MAX.unsigned_abs()),
        _ => (run, i64::MAX.unsigned_abs()),
    };
    unsigned_value(unsigned).is_some_and(|value| value <= largest)
}

/// The number of an integer, unless it lies outside -2^63 to 2^63 - 1.
pub(crate) fn read_integer(run: &[u8]) -> Option<i64>
    ensures { SomeIff result (FitsInteger run.now) (integer_value run.now) }
{
    match run {
        [b'-', unsigned @ ..] => 0i64.checked_sub_unsigned(unsigned_value(unsigned)?),
        [b'+', unsigned @ ..] => 0i64.checked_add_unsigned(unsigned_value(unsigned)?),
        _ => 0i64.checked_add_unsigned(unsigned_value(run)?),
    }
}

/// The number of a spelling without its sign, unless it is 2^64 or more.
fn unsigned_value(unsigned: &[u8]) -> Option<u64>
    ensures { SomeIff result (unsigned_value unsigned.now < 2 ^ 64) (unsigned_value unsigned.now) }
{
    match unsigned {
        [b'0', b'x', digits @ ..] => magnitude(16, digits),
        [b'0', b'o', digits @ ..] => magnitude(8, digits),
        [b'0', b'b', digits @ ..] => magnitude(2, digits),
        _ => magnitude(10, unsigned),
    }
}

/// The number that digits of a base spell, with underscores among them, unless it is 2^64 or more.
#[tactic(auto, using(crate::proofs::Numbers::behind))]
fn magnitude(base: u64, digits: &[u8]) -> Option<u64>
    requires { 2 ≤ base }
    ensures { SomeIff result (number base digits.now < 2 ^ 64) (number base digits.now) }
{
    let mut value = 0;
    for byte in digits {
        if *byte != b'_' {
            value = with_digit(base, value, *byte)?;
        }
    }
    Some(value)
}

/// The number that `digit` behind the digits of `value` makes, unless it is 2^64 or more. A run may have
/// any number of digits, so each step is checked.
fn with_digit(base: u64, value: u64, digit: u8) -> Option<u64>
    ensures { SomeIff result (value * base + digit_value digit < 2 ^ 64) (value * base + digit_value digit) }
{
    value.checked_mul(base)?.checked_add(digit_value(digit))
}

/// The value of a digit or a letter, from 0 for `0` to 35 for `Z` and `z`, and 36 for any other byte.
fn digit_value(byte: u8) -> u64
    ensures { result ≡ digit_value byte }
{
    (byte as char).to_digit(36).map_or(36, u64::from)
}
