//! `verify`: whether a text is what edits make of another, and keeps all else.
ghost use Rattle.std.specs.Prelude.{◌≡◌, ◌≢◌, codes, IfErr, IfOk, MatchOption};
ghost use Rattle.toml_tree.specs.declared.profile.Profile.TheVariants.{One};
ghost use Rattle.toml_checker.specs.declared.verdict.Reason.{Reason};
ghost use Rattle.toml_units.specs.Certificates.{IsCertificate};
ghost use Rattle.toml_delivery.specs.Outcomes.{Ends};
ghost use Rattle.toml_commands.specs.Verify.{HasHeadline, IsCertificateRefusal, IsReasonRefusal, IsVerified, IsUnverified, VerifiedMeans, Verifies, reason_code};

use crate::edit_list::edit_list;
use std::alloc::{AllocError, Global};
use toml_checker::{Reason, Verdict, check_at_exit};
use toml_delivery::{Ending, Outcome, Refusal};
use toml_tree::Profile;
use toml_units::{Certificate, CertificateFault, read_certificate};

/// What `verify` prints in profile 1: `run_verify_in` with `Profile::One`.
pub fn run_verify(
    alloc: Global,
    before: &[u8],
    edits: &[u8],
    after: &[u8],
    cert: &[u8],
) -> Result<Outcome, AllocError>
    ensures verifies { IfOk result (Verifies One before.now edits.now after.now cert.now) }
    ensures headline { IfOk result (VerifiedMeans One before.now edits.now after.now cert.now) }
{
    run_verify_in(alloc, before, edits, after, cert, Profile::One)
}

/// Prints `yes` where the certificate shows that the text after is what the edits make of the one before, with all that
/// no edit names; else the refusal. The edit list is judged first, then the certificate, and then both texts,
/// which are read in the profile, as are the values of the edits. What it read stays in memory, for a program that ends.
pub fn run_verify_in(
    alloc: Global,
    before: &[u8],
    edits: &[u8],
    after: &[u8],
    cert: &[u8],
    profile: Profile,
) -> Result<Outcome, AllocError>
    ensures verifies { IfOk result (Verifies profile before.now edits.now after.now cert.now) }
    ensures headline { IfOk result (VerifiedMeans profile before.now edits.now after.now cert.now) }
{
    Outcome::of_text(alloc, verified(alloc, before, edits, after, cert, profile))
}

/// `yes` and LF, where all demands hold.
fn verified(
    alloc: Global,
    before: &[u8],
    edits: &[u8],
    after: &[u8],
    cert: &[u8],
    profile: Profile,
) -> Result<Vec<u8>, Ending>
    ensures yes { IfOk result (λ text. IsVerified profile before.now edits.now after.now cert.now × (text.items ≡ codes "yes\n")) }
    ensures no { IfErr result (Ends (IsUnverified profile before.now edits.now after.now cert.now)) }
    ensures headline { IfOk result (λ text. HasHeadline profile before.now edits.now after.now (IsCertificate cert.now)) }
{
    let edits = edit_list(alloc, edits)?;
    let certificate = certificate(alloc, cert)?;
    match check_at_exit(alloc, before, &edits, after, &certificate, profile)? {
        Verdict::Yes => Ok("yes\n".to_string(alloc)?.into_bytes()),
        Verdict::No(reason) => Err(Ending::Refused(reason_refusal(reason))),
    }
}

/// The certificate, or why the bytes are none.
fn certificate(alloc: Global, bytes: &[u8]) -> Result<Certificate, Ending>
    ensures read { IfOk result (λ certificate. IsCertificate bytes.now certificate.pairs.items) }
    ensures refused { IfErr result (Ends (IsCertificateRefusal bytes.now)) }
{
    match read_certificate(alloc, bytes) {
        Ok(certificate) => Ok(certificate),
        Err(CertificateFault::BadCertificate) => Err(Ending::Refused(Refusal {
            code: 330,
            place: 0,
        })),
        Err(CertificateFault::NoMemory) => Err(Ending::NoMemory),
    }
}

/// The refusal of a reason of the checker; it has no place.
pub fn reason_refusal(reason: Reason) -> Refusal
    ensures { IsReasonRefusal reason result }
{
    Refusal {
        code: reason_code(reason),
        place: 0,
    }
}

/// The code of a reason of the checker, 401 to 409.
pub fn reason_code(reason: Reason) -> u16
    ensures { result ≡ reason_code reason }
{
    match reason {
        Reason::BeforeRefused => 401,
        Reason::AfterRefused => 402,
        Reason::EditsRefused => 403,
        Reason::OtherData => 404,
        Reason::BadPair => 405,
        Reason::Lost => 406,
        Reason::Unasked => 407,
        Reason::NewComment => 408,
        Reason::NotTheSame => 409,
    }
}

/// The reason that has the code, if one has.
pub fn reason_of(code: u16) -> Option<Reason>
    ensures { MatchOption result ((reason : Reason) → reason_code reason ≢ code) (λ reason. reason_code reason ≡ code) }
{
    match code {
        401 => Some(Reason::BeforeRefused),
        402 => Some(Reason::AfterRefused),
        403 => Some(Reason::EditsRefused),
        404 => Some(Reason::OtherData),
        405 => Some(Reason::BadPair),
        406 => Some(Reason::Lost),
        407 => Some(Reason::Unasked),
        408 => Some(Reason::NewComment),
        409 => Some(Reason::NotTheSame),
        _ => None,
    }
}
