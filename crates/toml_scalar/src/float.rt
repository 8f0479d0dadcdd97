//! Whether a run of bytes is a float, and the text that stands for it.
ghost use Rattle.std.specs.Prelude.{◌≡◌, ◌≤◌, true, length, map, IfOk};
ghost use Rattle.std.specs.Str.{IsAscii};
ghost use Rattle.std.specs.String.{string_bytes};
ghost use Rattle.toml_scalar.specs.Integers.{without_underscores};
ghost use Rattle.toml_scalar.specs.IntegerRuns.{signed, are_digits};
ghost use Rattle.toml_scalar.specs.Floats.{without_sign, text_byte, float_text};
ghost use Rattle.toml_scalar.specs.FloatRuns.{is_named_float, whole_len, is_exponent, is_behind_point, is_float_tail, is_number_float, is_float};

use crate::integer::{are_digits, is_decimal};
use std::alloc::{AllocError, Global};

/// `float = float-int-part ( exp / frac [ exp ] ) / special-float`
pub(crate) fn is_float(run: &[u8]) -> bool
    ensures { result ≡ is_float run.now }
{
    is_special_float(run) || is_number_float(run)
}

/// `special-float = [ minus / plus ] ( inf / nan )`
fn is_special_float(run: &[u8]) -> bool
    ensures { result ≡ signed is_named_float run.now }
{
    match run {
        [b'+' | b'-', name @ ..] => is_named_float(name),
        _ => is_named_float(run),
    }
}

/// `inf / nan`
fn is_named_float(bytes: &[u8]) -> bool
    ensures { result ≡ is_named_float bytes.now }
{
    matches!(bytes, b"inf" | b"nan")
}

/// `float-int-part ( exp / frac [ exp ] )`
fn is_number_float(run: &[u8]) -> bool
    ensures { result ≡ is_number_float run.now }
{
    let (whole, tail) = run.split_at(whole_len(run));
    is_decimal(whole) && is_float_tail(tail)
}

/// How many bytes stand before the first fraction or exponent.
fn whole_len(bytes: &[u8]) -> usize
    ensures len { result ≡ whole_len bytes.now }
    ensures within { result ≤ length bytes.now }
{
    for (i, byte) in bytes.iter().enumerate() {
        if *byte == b'.' || *byte == b'e' || *byte == b'E' {
            return i;
        }
    }
    bytes.len()
}

/// `exp / frac [ exp ]`
fn is_float_tail(bytes: &[u8]) -> bool
    ensures { result ≡ is_float_tail bytes.now }
{
    match bytes {
        [b'.', behind @ ..] => is_behind_point(behind),
        _ => is_exponent(bytes),
    }
}

/// `zero-prefixable-int [ exp ]`
fn is_behind_point(bytes: &[u8]) -> bool
    ensures { result ≡ is_behind_point bytes.now }
{
    let (digits, exponent) = bytes.split_at(whole_len(bytes));
    are_digits(10, digits) && (exponent.is_empty() || is_exponent(exponent))
}

/// `exp = "e" float-exp-part`; the rules' letters stand for both cases.
fn is_exponent(bytes: &[u8]) -> bool
    ensures { result ≡ is_exponent bytes.now }
{
    match bytes {
        [b'e' | b'E', power @ ..] => is_power(power),
        _ => false,
    }
}

/// `float-exp-part = [ minus / plus ] zero-prefixable-int`
fn is_power(bytes: &[u8]) -> bool
    ensures { result ≡ signed (are_digits 10) bytes.now }
{
    match bytes {
        [b'+' | b'-', digits @ ..] => are_digits(10, digits),
        _ => are_digits(10, bytes),
    }
}

/// What a float stands for: its spelling without underscores and without a leading `+`, with `E` as `e`,
/// and `-nan` as `nan`.
pub(crate) fn float_text(alloc: Global, run: &str) -> Result<String, AllocError>
    requires { is_float run.now ≡ true }
    ensures { IfOk result (λ text. string_bytes text ≡ float_text run.now) }
{
    plain_text(alloc, without_sign(run.as_bytes()))
}

/// The spelling without a leading `+`, and of `-nan` without its sign.
fn without_sign(run: &[u8]) -> &[u8]
    ensures { result.now ≡ without_sign run.now }
{
    match run {
        [b'+', _, ..] | [b'-', b'n', ..] => &run[1..],
        _ => run,
    }
}

/// The spelling without underscores, and with `E` as `e`.
fn plain_text(alloc: Global, spelling: &[u8]) -> Result<String, AllocError>
    requires { IsAscii spelling.now }
    ensures { IfOk result (λ text. string_bytes text ≡ map text_byte (without_underscores spelling.now)) }
{
    let mut text = String::with_capacity(alloc, spelling.len())?;
    for byte in spelling {
        if *byte != b'_' {
            text.push(char::from(text_byte(*byte)))?;
        }
    }
    Ok(text)
}

/// `E` as `e`, and any other byte as it is.
fn text_byte(byte: u8) -> u8
    ensures { result ≡ text_byte byte }
{
    if byte == b'E' { b'e' } else { byte }
}
