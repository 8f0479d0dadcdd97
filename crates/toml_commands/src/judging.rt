//! What is said of a text that is judged.
ghost use Rattle.std.specs.Prelude.{◌≡◌, ◌≢◌, IfOk, string_bytes};
ghost use Rattle.toml_checker.specs.declared.verdict.Reason.TheVariants.{BeforeRefused, AfterRefused};
ghost use Rattle.toml_commands.specs.Explaining.{IsSaidOfEnding, IsSaidOfJudged, IsSaidOfReason, IsSaidOfText, list_word};

use crate::document::judge;
use crate::edit_list::edits_listed;
use crate::explaining::{input, of_document};
use crate::verify::reason_of;
use std::alloc::{AllocError, Global};
use toml_checker::Reason;
use toml_delivery::{Ending, Refusal};
use toml_explain::{Input, Judged, explain_list, explain_reason};
use toml_tree::Profile;
use toml_units::{Certificate, CertificateFault, read_certificate};

/// The words of what is judged.
#[derive(Clone, Copy)]
pub struct JudgedWords<'a> {
    pub before: &'a str,
    pub edits: &'a str,
    pub after: &'a str,
    /// That of the certificate, where one is read.
    pub cert: Option<&'a str>,
}

/// The word of a list, or of the certificate, that is none.
fn list_word<'a>(words: JudgedWords<'a>, code: u16) -> &'a str
    ensures { result.now ≡ list_word words.entry code }
{
    if code == 330 {
        words.cert.unwrap_or(words.edits)
    } else {
        words.edits
    }
}

/// Of a text that is judged.
pub fn of_judged(
    alloc: Global,
    words: JudgedWords<'_>,
    inputs: &[Vec<u8>],
    profile: Profile,
    refusal: Refusal,
) -> Result<String, AllocError>
    ensures { IfOk result (λ text. IsSaidOfJudged profile words.entry inputs.now refusal (string_bytes text)) }
{
    match reason_of(refusal.code) {
        Some(reason) => of_reason(alloc, words, inputs, profile, reason),
        None => {
            let word = list_word(words, refusal.code);
            explain_list(alloc, word, refusal.code, refusal.place)
        }
    }
}

/// Of a text that the judge refuses, by its reason.
fn of_reason(
    alloc: Global,
    words: JudgedWords<'_>,
    inputs: &[Vec<u8>],
    profile: Profile,
    reason: Reason,
) -> Result<String, AllocError>
    ensures { IfOk result (λ text. IsSaidOfReason profile words.entry inputs.now reason (string_bytes text)) }
{
    match reason {
        Reason::BeforeRefused => of_text(alloc, input(words.before, inputs, 0), profile),
        Reason::AfterRefused => of_text(alloc, input(words.after, inputs, 2), profile),
        _ => of_texts(alloc, words, inputs, profile, reason),
    }
}

/// Of two documents, by the judge's reason.
fn of_texts(
    alloc: Global,
    words: JudgedWords<'_>,
    inputs: &[Vec<u8>],
    profile: Profile,
    reason: Reason,
) -> Result<String, AllocError>
    ensures { reason ≢ BeforeRefused → reason ≢ AfterRefused
        → IfOk result (λ text. IsSaidOfReason profile words.entry inputs.now reason (string_bytes text)) }
{
    let before = input(words.before, inputs, 0);
    let after = input(words.after, inputs, 2);
    let edits = edits_listed(alloc, input(words.edits, inputs, 1).bytes)?;
    let certificate = match words.cert {
        Some(cert) => certificate_given(alloc, input(cert, inputs, 3).bytes)?,
        None => None,
    };
    let judged = Judged {
        before,
        edits: &edits,
        after,
        certificate: certificate.as_ref(),
        profile,
    };
    explain_reason(alloc, judged, reason)
}

/// Of a text that is to be a document.
fn of_text(alloc: Global, file: Input<'_>, profile: Profile) -> Result<String, AllocError>
    ensures { IfOk result (λ text. IsSaidOfText profile file.entry.word.now file.entry.bytes.now (string_bytes text)) }
{
    match judge(alloc, file.bytes, profile) {
        Ok(()) => explain_list(alloc, file.word, 0, 0),
        Err(ending) => of_ending(alloc, file, profile, ending),
    }
}

/// Of why it is none.
fn of_ending(
    alloc: Global,
    file: Input<'_>,
    profile: Profile,
    ending: Ending,
) -> Result<String, AllocError>
    ensures { IfOk result (λ text. IsSaidOfEnding profile file.entry.word.now file.entry.bytes.now ending (string_bytes text)) }
{
    match ending {
        Ending::Refused(refusal) => of_document(alloc, file, profile, refusal),
        Ending::NoMemory => Err(AllocError),
    }
}

/// The certificate that the bytes are, if they are one.
fn certificate_given(alloc: Global, bytes: &[u8]) -> Result<Option<Certificate>, AllocError> {
    match read_certificate(alloc, bytes) {
        Ok(certificate) => Ok(Some(certificate)),
        Err(CertificateFault::BadCertificate) => Ok(None),
        Err(CertificateFault::NoMemory) => Err(AllocError),
    }
}
