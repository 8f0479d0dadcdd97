//! Certificates: which unit of a text is kept as which unit of another.
ghost use Rattle.std.specs.Prelude.{◌≡◌, ◌∷◌, ◌++◌, List, ℕ, string_bytes, IfOk, IfErr, IfSome, MatchOption, OnOk};
ghost use Rattle.toml_units.specs.Certificates.{pair_text, certificate_of, BeginsWithNoPair, IsCertificate, IsSmall, RefusesCertificate};

use crate::decimal::read_number;
use crate::fault::CertificateFault;
use itoa::Buffer;
use std::alloc::{AllocError, Global};

/// Which units are kept: each pair has the place of a unit among those of the one text, and the place of its partner among
/// those of the other. Units are counted from 0.
#[derive(Drop)]
pub struct Certificate {
    pub pairs: Vec<(u64, u64)>,
}

/// What stands behind the byte, if the bytes begin with it.
fn after(byte: u8, bytes: &[u8]) -> Option<&[u8]>
    ensures { MatchOption result ((rest : List ℕ) → ¬ (bytes.now ≡ byte ∷ rest)) (λ rest. bytes.now ≡ byte ∷ rest.now) }
{
    let (first, rest) = bytes.split_first()?;
    if *first == byte { Some(rest) } else { None }
}

/// The pair of the first line, and what stands behind the line.
fn read_pair(bytes: &[u8]) -> Option<((u64, u64), &[u8])>
    ensures read { MatchOption result (BeginsWithNoPair bytes.now) (λ r. bytes.now ≡ pair_text r.0 ++ r.1.now) }
    ensures small { IfSome result (λ r. IsSmall r.0) }
{
    let (first, spaced) = read_number(bytes)?;
    let numbered = after(b' ', spaced)?;
    let (second, ended) = read_number(numbered)?;
    let behind = after(b'\n', ended)?;
    Some(((first, second), behind))
}

/// The certificate whose text the bytes are. It is `kept 1` in the first line; then each pair in its line, its two numbers
/// in decimal, without leading zeros and with one space between them. Each line ends in LF, the last one too; nothing
/// else is accepted.
pub fn read_certificate(alloc: Global, bytes: &[u8]) -> Result<Certificate, CertificateFault>
    ensures read { IfOk result (λ c. IsCertificate bytes.now c.pairs.items) }
    ensures refused { IfErr result (RefusesCertificate bytes.now) }
{
    let Some(mut left) = bytes.strip_prefix(b"kept 1\n") else {
        return Err(CertificateFault::BadCertificate);
    };
    let mut pairs = Vec::new(alloc);
    while !left.is_empty() {
        let Some((pair, behind)) = read_pair(left) else {
            return Err(CertificateFault::BadCertificate);
        };
        pairs.push(pair)?;
        left = behind;
    }
    Ok(Certificate { pairs })
}

/// Adds the line of a pair.
fn push_pair(text: &mut String, first: u64, second: u64) -> Result<(), AllocError>
    ensures { OnOk result (string_bytes text.new ≡ string_bytes text.old ++ pair_text (first, second)) }
{
    let mut digits = Buffer::new();
    text.push_str(digits.format(first))?;
    text.push_str(" ")?;
    text.push_str(digits.format(second))?;
    text.push_str("\n")?;
    Ok(())
}

/// The one text of a certificate.
pub fn certificate_text(alloc: Global, certificate: &Certificate) -> Result<String, AllocError>
    ensures { IfOk result (λ text. string_bytes text ≡ certificate_of certificate.now.pairs.items) }
{
    let mut text = String::from_str(alloc, "kept 1\n")?;
    for (first, second) in &certificate.pairs {
        push_pair(&mut text, *first, *second)?;
    }
    Ok(text)
}
