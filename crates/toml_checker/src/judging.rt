//! The judge: the demands, one after the other.
ghost use Rattle.std.specs.Prelude.{◌≡◌, [], ℕ, IfOk, List, map};
ghost use Rattle.toml_text.specs.Limit.{IsText};
ghost use Rattle.toml_text.specs.Source.{text_of};
ghost use Rattle.toml_tree.specs.declared.profile.Profile.TheVariants.{One};
ghost use Rattle.toml_edits.specs.Edits.{change};
ghost use Rattle.toml_units.specs.Cursors.{Walks};
ghost use Rattle.toml_checker.specs.Demands.{IsVerdict};
ghost use Rattle.toml_checker.specs.Headline.{YesMeans};
ghost use Rattle.toml_checker.specs.Judging.{IsRefusal, JudgesFound, JudgesUnits};
ghost use Rattle.toml_checker.specs.Walking.{IsFound};

use crate::facts::{Afterwards, are_made, make};
use crate::frame::keeps_frame;
use crate::verdict::{Reason, Verdict};
use crate::walk::{Found, Said, walk_through};
use std::alloc::{AllocError, Global};
use toml_edits::Edit;
use toml_names::judge_text;
use toml_text::Source;
use toml_tree::Profile;
use toml_units::{Certificate, UnitCursor};

/// What the demands on the pairs, the units and the texts say, where those on the documents and their data hold.
fn judge_units(said: Said, before: &[u8], edits: &[Edit], after: &[u8]) -> Verdict
    ensures { JudgesUnits before.now (map change edits.now) after.now said result }
{
    if !said.fits {
        return Verdict::No(Reason::BadPair);
    }
    if !said.kept {
        return Verdict::No(Reason::Lost);
    }
    if !said.lines {
        return Verdict::No(Reason::Unasked);
    }
    if !said.comments {
        return Verdict::No(Reason::NewComment);
    }
    if !keeps_frame(before, edits, after) {
        return Verdict::No(Reason::NotTheSame);
    }
    Verdict::Yes
}

/// What all demands say of two texts of which this was found.
pub(crate) fn judge(
    alloc: Global,
    found: Found,
    before: &[u8],
    edits: &[Edit],
    after: &[u8],
    profile: Profile,
    afterwards: Afterwards,
) -> Result<Verdict, AllocError>
    requires { (pairs : List (ℕ × ℕ)) × IsFound profile before.now (map change edits.now) after.now pairs found }
    ensures { JudgesFound profile before.now (map change edits.now) after.now found.entry result }
{
    let Found {
        names,
        others,
        said,
    } = found;
    let Some(names) = names else {
        return Ok(Verdict::No(Reason::BeforeRefused));
    };
    let Some(others) = others else {
        return Ok(Verdict::No(Reason::AfterRefused));
    };
    let Some(made) = make(alloc, names, edits, profile)? else {
        return Ok(Verdict::No(Reason::EditsRefused));
    };
    if !are_made(others, made, afterwards)? {
        return Ok(Verdict::No(Reason::OtherData));
    }
    Ok(judge_units(said, before, edits, after))
}

/// Why two texts are refused, where the second is not UTF-8 or too long: for the first one, if that is no document.
pub(crate) fn refuse(alloc: Global, source: Source, profile: Profile) -> Result<Reason, AllocError>
    ensures { IfOk result (IsRefusal profile (text_of source.entry)) }
{
    match judge_text(alloc, source, profile) {
        Ok(()) => Ok(Reason::AfterRefused),
        Err(fault) => {
            fault.told()?;
            Ok(Reason::BeforeRefused)
        }
    }
}

/// What all demands say of two texts, the cursor standing before the first unit of the first one.
fn judge_from<'s, 't>(
    alloc: Global,
    before: &'s [u8],
    cursor: UnitCursor<'s>,
    edits: &[Edit],
    after: &'t [u8],
    other: Source<'t>,
    pairs: &[(u64, u64)],
    profile: Profile,
    afterwards: Afterwards,
) -> Result<Verdict, AllocError>
    requires walks { Walks profile before.now cursor [] }
    requires fits { IsText before.now }
    requires after { text_of other ≡ after.now }
    ensures verdict { IfOk result (IsVerdict profile before.now (map change edits.now) after.now pairs.now) }
    ensures headline { IfOk result (YesMeans profile before.now (map change edits.now) after.now pairs.now) }
{
    // each takes some bytes of memory
    prove!(edits.len() <= isize::MAX as usize);
    let found = walk_through(alloc, before, cursor, edits, after, other, pairs, profile)?;
    judge(alloc, found, before, edits, after, profile, afterwards)
}

/// Whether the pairs of the certificate certify, in profile 1, that the second text is what the edits make of the first:
/// `check_in` with `Profile::One`.
pub fn check(
    alloc: Global,
    before: &[u8],
    edits: &[Edit],
    after: &[u8],
    certificate: &Certificate,
) -> Result<Verdict, AllocError>
    ensures verdict { IfOk result (IsVerdict One before.now (map change edits.now) after.now certificate.now.pairs.items) }
    ensures headline { IfOk result (YesMeans One before.now (map change edits.now) after.now certificate.now.pairs.items) }
{
    check_in(alloc, before, edits, after, certificate, Profile::One)
}

/// Whether the pairs of the certificate certify that the second text is what the edits make of the first, with all that
/// no edit names in it as it was, the texts and the values of the edits read in the profile. Each text is read once, both
/// side by side, and no line is kept for longer than the walk stands in it.
///
/// The demands are asked in the order of the reasons, and the first that fails is told:
///
/// | Reason | What is demanded |
/// |---|---|
/// | `BeforeRefused`, `AfterRefused` | both texts are documents of the profile |
/// | `EditsRefused` | each edit in turn is defined on the data so far |
/// | `OtherData` | the data of the second text are the last ones |
/// | `BadPair` | the numbers of the pairs rise, and each names two units that are the same at the carried address |
/// | `Lost` | each protected unit is paired, or lies inside a paired one that is protected |
/// | `Unasked` | each line is paired, or owed by an edit, or the last one, of no bytes, and there is an edit |
/// | `NewComment` | each comment is paired, inside a paired unit, or written by an edit, and no more often than edits write it |
/// | `NotTheSame` | the mark is in both texts or in neither, and without edits the texts are equal |
///
/// Two units are the same where their kinds and bytes are, and of two lines the newlines, unless one of them is the last of its
/// text. A comment that an edit writes stands in an array or an inline table.
pub fn check_in(
    alloc: Global,
    before: &[u8],
    edits: &[Edit],
    after: &[u8],
    certificate: &Certificate,
    profile: Profile,
) -> Result<Verdict, AllocError>
    ensures verdict { IfOk result (IsVerdict profile before.now (map change edits.now) after.now certificate.now.pairs.items) }
    ensures headline { IfOk result (YesMeans profile before.now (map change edits.now) after.now certificate.now.pairs.items) }
{
    let let_go = Afterwards::LetGo;
    check_texts(alloc, before, edits, after, certificate, profile, let_go)
}

/// What `check_in` answers, for a program that ends with it: once the data were compared, what both texts name stays in memory,
/// and goes with the program.
pub fn check_at_exit(
    alloc: Global,
    before: &[u8],
    edits: &[Edit],
    after: &[u8],
    certificate: &Certificate,
    profile: Profile,
) -> Result<Verdict, AllocError>
    ensures verdict { IfOk result (IsVerdict profile before.now (map change edits.now) after.now certificate.now.pairs.items) }
    ensures headline { IfOk result (YesMeans profile before.now (map change edits.now) after.now certificate.now.pairs.items) }
{
    let stay = Afterwards::Stay;
    check_texts(alloc, before, edits, after, certificate, profile, stay)
}

/// Judges the texts; what they name is let go at the end, or left to the end of the program.
fn check_texts(
    alloc: Global,
    before: &[u8],
    edits: &[Edit],
    after: &[u8],
    certificate: &Certificate,
    profile: Profile,
    afterwards: Afterwards,
) -> Result<Verdict, AllocError>
    ensures verdict { IfOk result (IsVerdict profile before.now (map change edits.now) after.now certificate.now.pairs.items) }
    ensures headline { IfOk result (YesMeans profile before.now (map change edits.now) after.now certificate.now.pairs.items) }
{
    let Ok(source) = Source::new(before) else {
        return Ok(Verdict::No(Reason::BeforeRefused));
    };
    let Ok(other) = Source::new(after) else {
        return Ok(Verdict::No(refuse(alloc, source, profile)?));
    };
    let cursor = UnitCursor::new(alloc, source, profile)?;
    let pairs = &certificate.pairs;
    judge_from(
        alloc, before, cursor, edits, after, other, pairs, profile, afterwards,
    )
}
