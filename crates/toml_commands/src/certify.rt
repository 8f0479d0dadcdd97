//! `certify`: whether a text is what edits make of another, and keeps all else, whoever wrote it.
ghost use Rattle.std.specs.Prelude.{◌≡◌, [], ◌∷◌, codes, IfErr, IfOk};
ghost use Rattle.toml_tree.specs.declared.profile.Profile.TheVariants.{One};
ghost use Rattle.toml_units.specs.Certificates.{certificate_of};
ghost use Rattle.toml_commands.specs.Certify.{CertifiedMeans, Certifies, FoundMeans, IsCertifying, IsUncertified};
ghost use Rattle.toml_delivery.specs.Outcomes.{Ends, texts_of};

use crate::edit_list::edit_list;
use crate::verify::reason_refusal;
use std::alloc::{AllocError, Global};
use toml_checker::{Finding, find_at_exit};
use toml_delivery::{Answer, Ending, Outcome};
use toml_tree::Profile;
use toml_units::{Certificate, certificate_text};

/// What `certify` comes to in profile 1: `run_certify_in` with `Profile::One`.
pub fn run_certify(
    alloc: Global,
    before: &[u8],
    edits: &[u8],
    after: &[u8],
) -> Result<Outcome, AllocError>
    ensures certifies { IfOk result (Certifies One before.now edits.now after.now) }
    ensures headline { IfOk result (CertifiedMeans One before.now edits.now after.now) }
{
    run_certify_in(alloc, before, edits, after, Profile::One)
}

/// Prints `yes` where the text after is what the edits make of the one before, with all that no edit names, and has the
/// certificate which shows it written; else the refusal, and no file. The edit list is judged first, and then both texts, which
/// are read in the profile, as are the values of the edits. What it read stays in memory, for a program that ends.
pub fn run_certify_in(
    alloc: Global,
    before: &[u8],
    edits: &[u8],
    after: &[u8],
    profile: Profile,
) -> Result<Outcome, AllocError>
    ensures certifies { IfOk result (Certifies profile before.now edits.now after.now) }
    ensures headline { IfOk result (CertifiedMeans profile before.now edits.now after.now) }
{
    Outcome::of(alloc, certified(alloc, before, edits, after, profile))
}

/// `yes` and LF, and the certificate that there is.
fn certified(
    alloc: Global,
    before: &[u8],
    edits: &[u8],
    after: &[u8],
    profile: Profile,
) -> Result<Answer, Ending>
    ensures yes { IfOk result (IsCertifying profile before.now edits.now after.now) }
    ensures no { IfErr result (Ends (IsUncertified profile before.now edits.now after.now)) }
    ensures headline { IfOk result (FoundMeans profile before.now edits.now after.now) }
{
    let edits = edit_list(alloc, edits)?;
    match find_at_exit(alloc, before, &edits, after, profile)? {
        Finding::Found(certificate) => Ok(yes(alloc, &certificate)?),
        Finding::No(reason) => Err(Ending::Refused(reason_refusal(reason))),
    }
}

/// `yes` and LF, and as the one file the certificate's text.
fn yes(alloc: Global, certificate: &Certificate) -> Result<Answer, AllocError>
    ensures printed { IfOk result (λ answer. answer.out.items ≡ codes "yes\n") }
    ensures files { IfOk result (λ answer. texts_of answer.files.items ≡ certificate_of certificate.now.pairs.items ∷ []) }
{
    let certificate = certificate_text(alloc, certificate)?;
    Ok(Answer {
        out: "yes\n".to_string(alloc)?.into_bytes(),
        files: vec![in alloc; certificate.into_bytes()]?,
    })
}
