//! The search for a certificate.
ghost use Rattle.std.specs.Prelude.{◌≡◌, [], IfOk, map};
ghost use Rattle.toml_text.specs.Limit.{IsText};
ghost use Rattle.toml_text.specs.Source.{text_of};
ghost use Rattle.toml_tree.specs.declared.profile.Profile.TheVariants.{One};
ghost use Rattle.toml_names.specs.model.Documents.{IsDocumentIn};
ghost use Rattle.toml_edits.specs.Edits.{change};
ghost use Rattle.toml_units.specs.Cursors.{Walks};
ghost use Rattle.toml_checker.specs.Answers.{FoundMeans, IsAnswer};

use crate::facts::Afterwards;
use crate::judging::{judge, refuse};
use crate::search::{Ended, search_through};
use crate::verdict::{Reason, Verdict};
use std::alloc::{AllocError, Global};
use toml_edits::Edit;
use toml_text::Source;
use toml_tree::Profile;
use toml_units::{Certificate, UnitCursor};

/// What the search for a certificate answers.
#[derive(Drop)]
pub enum Finding {
    /// The one certificate whose first numbers are those of the outermost protected units: those that no edit takes away or
    /// changes, and that lie in no other such unit.
    Found(Certificate),
    /// No pairs of protected units certify: the first demand, in the order of the reasons, that none meet together with those
    /// before it. It is never `BadPair`. A certificate that also pairs what the edits name may still be accepted by `check_in`:
    /// the search looks for none.
    No(Reason),
}

/// What is found of two texts, the cursor standing before the first unit of the first one.
fn find_from<'s, 't>(
    alloc: Global,
    before: &'s [u8],
    cursor: UnitCursor<'s>,
    edits: &[Edit],
    after: &'t [u8],
    other: Source<'t>,
    profile: Profile,
    afterwards: Afterwards,
) -> Result<Finding, AllocError>
    requires walks { Walks profile before.now cursor [] }
    requires fits { IsText before.now }
    requires after { text_of other ≡ after.now }
    ensures answer { IfOk result (IsAnswer profile before.now (map change edits.now) after.now) }
    ensures headline { IfOk result (FoundMeans profile before.now (map change edits.now) after.now) }
{
    // each takes some bytes of memory
    prove!(edits.len() <= isize::MAX as usize);
    let Ended { found, pairs } = search_through(
        alloc, before, cursor, edits, after, other, profile,
    )?;
    match judge(alloc, found, before, edits, after, profile, afterwards)? {
        Verdict::Yes => Ok(Finding::Found(Certificate { pairs })),
        Verdict::No(reason) => Ok(Finding::No(reason)),
    }
}

/// The certificate of two texts in profile 1, or why there is none: `find_in` with `Profile::One`.
pub fn find(
    alloc: Global,
    before: &[u8],
    edits: &[Edit],
    after: &[u8],
) -> Result<Finding, AllocError>
    ensures answer { IfOk result (IsAnswer One before.now (map change edits.now) after.now) }
    ensures headline { IfOk result (FoundMeans One before.now (map change edits.now) after.now) }
{
    find_in(alloc, before, edits, after, Profile::One)
}

/// The certificate that the second text is what the edits make of the first, whoever wrote it, the texts and the values of the
/// edits read in the profile. It is `Found` exactly where some pairs of protected units certify, those that no edit takes away
/// or changes. Else the answer is the first demand that no such pairs meet together with those before it. The pairs are found
/// on the walk of `check_in`: each protected unit that lies in no other one goes with the next unit of the second text that is
/// the same.
pub fn find_in(
    alloc: Global,
    before: &[u8],
    edits: &[Edit],
    after: &[u8],
    profile: Profile,
) -> Result<Finding, AllocError>
    ensures answer { IfOk result (IsAnswer profile before.now (map change edits.now) after.now) }
    ensures headline { IfOk result (FoundMeans profile before.now (map change edits.now) after.now) }
{
    let let_go = Afterwards::LetGo;
    find_texts(alloc, before, edits, after, profile, let_go)
}

/// What `find_in` answers, for a program that ends with it: once the data were compared, what both texts name stays in memory,
/// and goes with the program.
pub fn find_at_exit(
    alloc: Global,
    before: &[u8],
    edits: &[Edit],
    after: &[u8],
    profile: Profile,
) -> Result<Finding, AllocError>
    ensures answer { IfOk result (IsAnswer profile before.now (map change edits.now) after.now) }
    ensures headline { IfOk result (FoundMeans profile before.now (map change edits.now) after.now) }
{
    let stay = Afterwards::Stay;
    find_texts(alloc, before, edits, after, profile, stay)
}

/// Looks for the certificate; what the texts name is let go at the end, or left to the end of the program.
fn find_texts(
    alloc: Global,
    before: &[u8],
    edits: &[Edit],
    after: &[u8],
    profile: Profile,
    afterwards: Afterwards,
) -> Result<Finding, AllocError>
    ensures answer { IfOk result (IsAnswer profile before.now (map change edits.now) after.now) }
    ensures headline { IfOk result (FoundMeans profile before.now (map change edits.now) after.now) }
{
    let Ok(source) = Source::new(before) else {
        return Ok(Finding::No(Reason::BeforeRefused));
    };
    let Ok(other) = Source::new(after) else {
        return Ok(Finding::No(refuse(alloc, source, profile)?));
    };
    let cursor = UnitCursor::new(alloc, source, profile)?;
    find_from(
        alloc, before, cursor, edits, after, other, profile, afterwards,
    )
}

/// What `find_in` answers of a document over which a walk has begun, the cursor standing before its first unit: the same
/// answer, by the same code, with the same meaning. Where the cursor holds the units of a text that was read already
/// (`UnitCursor::held`), the second text alone is read. What both texts name is let go, or stays in memory, as is asked.
pub fn find_walked<'s, 't>(
    alloc: Global,
    before: &'s [u8],
    cursor: UnitCursor<'s>,
    edits: &[Edit],
    after: &'t [u8],
    profile: Profile,
    afterwards: Afterwards,
) -> Result<Finding, AllocError>
    requires walks { Walks profile before.now cursor [] }
    requires document { IsDocumentIn profile before.now }
    ensures answer { IfOk result (IsAnswer profile before.now (map change edits.now) after.now) }
    ensures headline { IfOk result (FoundMeans profile before.now (map change edits.now) after.now) }
{
    let Ok(second) = Source::new(after) else {
        return Ok(Finding::No(Reason::AfterRefused));
    };
    find_from(
        alloc, before, cursor, edits, after, second, profile, afterwards,
    )
}
