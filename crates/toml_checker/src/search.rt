//! The search for a certificate: both texts walked through together, each outermost protected unit of the first one with the
//! next unit of the second one that is the same.
ghost use Rattle.std.specs.Prelude.{◌≡◌, [], List, IfOk, IsSome, map};
ghost use Rattle.toml_text.specs.Limit.{IsText};
ghost use Rattle.toml_text.specs.Source.{text_of};
ghost use Rattle.toml_tree.specs.declared.profile.Profile.{Profile as InProfile};
ghost use Rattle.toml_edits.specs.Edits.{Change, change};
ghost use Rattle.toml_units.specs.Cursors.{Goes, Walks, current};
ghost use Rattle.toml_checker.specs.SearchWalking.{IsEndedOf, IsSearchGoing, MovesSecond, SearchesAll, Seeks, StepsOn};
ghost use Rattle.toml_checker.specs.Walking.{IsOn, SeesNext};

use crate::walk::{Found, Walk, is_pair};
use std::alloc::{AllocError, Global};
use toml_edits::{Edit, Sight};
use toml_text::Source;
use toml_tree::Profile;
use toml_units::UnitCursor;

impl<'e, 's, 't> Walk<'e, 's, 't> {
    /// Walks on in the second text, to the first unit that is the same as the one before which the first text stands, which has
    /// this sight. Whether there is one.
    fn seek(&mut self, alloc: Global, sight: Sight) -> Result<bool, AllocError>
        requires goes { Goes self.old.other.cursor }
        requires sees { SeesNext self.old.list self.old.one sight }
        ensures moves { MovesSecond self.old self.new }
        ensures seeks { Seeks self.old self.new result }
    {
        while self.other.cursor.unit().is_some() {
            let place = (self.one.passed, self.other.passed);
            if is_pair(alloc, &self.list, sight, &self.one, &self.other, place)? {
                return Ok(true);
            }
            self.other.pass(alloc, &self.asked, false)?;
        }
        Ok(false)
    }

    /// Walks on by one unit of the first text. If it need not be paired, walks past it. Else walks on in the second text to the
    /// next unit that is the same, and past both: their numbers are a new pair. False where there is none; the first text then
    /// still stands before the unit.
    fn next(&mut self, alloc: Global, pairs: &mut Vec<(u64, u64)>) -> Result<bool, AllocError>
        requires going { IsSearchGoing self.old pairs.old.items }
        requires some { IsSome (current self.old.one.cursor) }
        ensures { StepsOn self.old pairs.old.items self.new pairs.new.items result }
    {
        let sight = self.one.look(&self.list);
        let fate = self.one.fate(alloc, &self.list, sight)?;
        if !self.one.must_pair(fate) {
            self.one.pass(alloc, fate, false)?;
            return Ok(true);
        }
        if !self.seek(alloc, sight)? {
            return Ok(false);
        }
        pairs.push((self.one.passed, self.other.passed))?;
        let paired = true;
        self.one.pass(alloc, fate, paired)?;
        self.other.pass(alloc, &self.asked, paired)?;
        Ok(true)
    }

    /// Walks on to the end of the first text, or to a unit that must be paired and for which there is none. The pairs on the way.
    fn search(&mut self, alloc: Global) -> Result<Vec<(u64, u64)>, AllocError>
        requires { (profile : InProfile) × (cs : List Change) × IsOn profile cs self.old [] [] }
        ensures { SearchesAll self.old self.new result }
    {
        let mut pairs = Vec::new(alloc);
        while self.one.cursor.unit().is_some() {
            if !self.next(alloc, &mut pairs)? {
                return Ok(pairs);
            }
        }
        Ok(pairs)
    }
}

/// What was found of two texts, and the pairs with which the search ended.
#[derive(Drop)]
pub(crate) struct Ended<'s, 't> {
    pub(crate) found: Found<'s, 't>,
    pub(crate) pairs: Vec<(u64, u64)>,
}

/// What is found of two texts and the pairs that the search makes of their units, the values of the edits read in the profile.
/// The cursor stands before the first unit of the first text.
pub(crate) fn search_through<'s, 't>(
    alloc: Global,
    before: &'s [u8],
    cursor: UnitCursor<'s>,
    edits: &[Edit],
    after: &'t [u8],
    other: Source<'t>,
    profile: Profile,
) -> Result<Ended<'s, 't>, AllocError>
    requires before { Walks profile before.now cursor [] }
    requires fits { IsText before.now }
    requires after { text_of other ≡ after.now }
    ensures { IfOk result (IsEndedOf profile before.now (map change edits.now) after.now) }
{
    let mut walk = Walk::new(alloc, before, cursor, edits, after, other, profile)?;
    let pairs = walk.search(alloc)?;
    let found = walk.finish(alloc, true)?;
    Ok(Ended { found, pairs })
}
