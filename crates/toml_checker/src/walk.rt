//! Two texts walked through together, unit by unit. Of a text that is read on the way no more than a line is kept at a time,
//! and what the lines name.
ghost use Rattle.std.specs.Prelude.{◌≡◌, [], List, IfOk, OnOk, map};
ghost use Rattle.toml_text.specs.Limit.{IsText};
ghost use Rattle.toml_text.specs.Source.{text_of};
ghost use Rattle.toml_tree.specs.declared.profile.Profile.{Profile as InProfile};
ghost use Rattle.toml_edits.specs.Edits.{Change, change};
ghost use Rattle.toml_units.specs.Cursors.{Goes, Walks};
ghost use Rattle.toml_checker.specs.EditLists.{changes};
ghost use Rattle.toml_checker.specs.Traces.{must_pair};
ghost use Rattle.toml_checker.specs.Walking.{AddsNext, CanPass, FinishesOff, GoesOn, HasPassed, HasReached, IsBegun, IsFound, IsGoing, IsFate};
ghost use Rattle.toml_checker.specs.Walking.{IsOn, PassesWith, PassingTo, Reaching, ReachingTo, SeesNext, TellsAll, TellsNext, TellsPair, lies_ahead};

use crate::added::{Added, Asked};
use crate::asking::asked_by;
use crate::edit_list::EditList;
use crate::kept::{Fate, Kept};
use crate::pairs::{Spot, are_alike};
use std::alloc::{AllocError, Global};
use toml_edits::{Edit, Sight};
use toml_names::LineNames;
use toml_text::Source;
use toml_tree::Profile;
use toml_units::UnitCursor;

/// The first text on the way, and what was found of the units that were walked past.
#[derive(Drop)]
pub(crate) struct FirstText<'t> {
    text: &'t [u8],
    pub(crate) cursor: UnitCursor<'t>,
    kept: Kept,
    /// How many units were walked past.
    pub(crate) passed: u64,
}

/// The second text on the way, and what was found of the units that were walked past.
#[derive(Drop)]
pub(crate) struct SecondText<'t> {
    text: &'t [u8],
    pub(crate) cursor: UnitCursor<'t>,
    added: Added<'t>,
    pub(crate) passed: u64,
}

/// Whether there is more to walk past, behind so many units, before the one with the number; without a number there always is.
fn lies_ahead(number: Option<u64>, passed: u64) -> bool
    ensures { result ≡ lies_ahead number passed }
{
    match number {
        Some(number) => passed < number,
        None => true,
    }
}

impl<'t> FirstText<'t> {
    /// Before the first unit, as the cursor stands.
    pub(crate) fn new(text: &'t [u8], cursor: UnitCursor<'t>) -> FirstText<'t>
        ensures text { result.text ≡ text.entry }
        ensures passed { (profile : InProfile) (cs : List Change) → Walks profile text.now cursor.entry [] → HasPassed profile cs result [] }
    {
        FirstText {
            text,
            cursor,
            kept: Kept::none(),
            passed: 0,
        }
    }

    /// The sight of the unit before which it stands. Behind the last one there is nothing to be seen.
    pub(crate) fn look(&self, list: &EditList) -> Sight
        ensures { SeesNext list.now self.now result }
    {
        match self.cursor.unit() {
            Some(unit) => list.come_to(unit),
            None => Sight::Unknown,
        }
    }

    /// What becomes of the unit before which it stands, which has this sight. Behind the last one nothing is protected.
    pub(crate) fn fate(
        &self,
        alloc: Global,
        list: &EditList,
        sight: Sight,
    ) -> Result<Fate, AllocError>
        requires { SeesNext list.now self.now sight }
        ensures { IfOk result (IsFate (changes list.now) self.now) }
    {
        let Some(unit) = self.cursor.unit() else {
            return Ok(Fate {
                protected: false,
                home: self.kept.home,
                end: 0,
            });
        };
        self.kept.fate(alloc, list, sight, unit)
    }

    /// Whether the unit before which it stands, which has this fate, would be lost if it were not paired.
    pub(crate) fn must_pair(&self, fate: Fate) -> bool
        ensures { result ≡ must_pair self.now.kept fate }
    {
        self.kept.must_pair(fate)
    }

    /// Walks past one unit, which has this fate, and is paired or not.
    pub(crate) fn pass(&mut self, alloc: Global, fate: Fate, paired: bool) -> Result<(), AllocError>
        requires { CanPass self.old.cursor }
        ensures text { self.new.text ≡ self.old.text }
        ensures on { OnOk result (GoesOn self.old.cursor self.old.passed self.new.cursor self.new.passed) }
        ensures passes { PassesWith self.old fate paired self.new result }
    {
        self.kept = self.kept.past(fate, paired);
        self.passed = self.passed.saturating_add(1);
        self.cursor.step(alloc)
    }

    /// Walks on past units that are not paired, up to the one with the number, or to the end.
    fn pass_to(
        &mut self,
        alloc: Global,
        list: &EditList,
        number: Option<u64>,
    ) -> Result<(), AllocError>
        requires { Goes self.old.cursor }
        ensures text { self.new.text ≡ self.old.text }
        ensures passes { PassingTo (changes list.now) self.old number self.new result }
    {
        while lies_ahead(number, self.passed) && self.cursor.unit().is_some() {
            let sight = self.look(list);
            let fate = self.fate(alloc, list, sight)?;
            self.pass(alloc, fate, false)?;
        }
        Ok(())
    }
}

impl<'t> SecondText<'t> {
    /// Before the first unit.
    pub(crate) fn new(
        alloc: Global,
        text: &'t [u8],
        source: Source<'t>,
        profile: Profile,
    ) -> Result<SecondText<'t>, AllocError>
        requires { text_of source ≡ text.now }
        ensures { IfOk result (λ other. (other.text ≡ text.entry) × ((asked : Asked) → HasReached profile asked other [])) }
    {
        Ok(SecondText {
            text,
            cursor: UnitCursor::new(alloc, source, profile)?,
            added: Added::none(alloc),
            passed: 0,
        })
    }

    /// Walks past one unit, which is paired or not.
    pub(crate) fn pass(
        &mut self,
        alloc: Global,
        asked: &Asked,
        paired: bool,
    ) -> Result<(), AllocError>
        requires { CanPass self.old.cursor }
        ensures text { self.new.text ≡ self.old.text }
        ensures on { OnOk result (GoesOn self.old.cursor self.old.passed self.new.cursor self.new.passed) }
        ensures passes { Reaching asked.now self.old paired self.new result }
    {
        self.add(asked, paired)?;
        self.passed = self.passed.saturating_add(1);
        self.cursor.step(alloc)
    }

    /// Finds what is to be found of the unit before which it stands.
    fn add(&mut self, asked: &Asked, paired: bool) -> Result<(), AllocError>
        ensures text { self.new.text ≡ self.old.text }
        ensures cursor { self.new.cursor ≡ self.old.cursor }
        ensures passed { self.new.passed ≡ self.old.passed }
        ensures added { AddsNext asked.now self.old paired self.new result }
    {
        let Some(unit) = self.cursor.unit() else {
            return Ok(());
        };
        let newline = self.cursor.newline();
        self.added.add(asked, self.text, unit, newline, paired)
    }

    /// Walks on past units that are not paired, up to the one with the number, or to the end.
    fn pass_to(
        &mut self,
        alloc: Global,
        asked: &Asked,
        number: Option<u64>,
    ) -> Result<(), AllocError>
        requires { Goes self.old.cursor }
        ensures text { self.new.text ≡ self.old.text }
        ensures passes { ReachingTo asked.now self.old number self.new result }
    {
        while lies_ahead(number, self.passed) && self.cursor.unit().is_some() {
            self.pass(alloc, asked, false)?;
        }
        Ok(())
    }
}

/// Whether the units before which the texts stand are those of the pair, and the same. The first has this sight.
pub(crate) fn is_pair(
    alloc: Global,
    list: &EditList,
    sight: Sight,
    one: &FirstText,
    other: &SecondText,
    pair: (u64, u64),
) -> Result<bool, AllocError>
    requires { SeesNext list.now one.now sight }
    ensures { IfOk result (TellsPair (changes list.now) one.now other.now pair) }
{
    if one.passed != pair.0 || other.passed != pair.1 {
        return Ok(false);
    }
    let Some(unit) = one.cursor.unit() else {
        return Ok(false);
    };
    let Some(partner) = other.cursor.unit() else {
        return Ok(false);
    };
    let first = Spot {
        text: one.text,
        unit,
        newline: one.cursor.newline(),
    };
    let second = Spot {
        text: other.text,
        unit: partner,
        newline: other.cursor.newline(),
    };
    are_alike(alloc, list, sight, first, second)
}

/// Both texts on the way, the edits, and what they ask for.
#[derive(Drop)]
pub(crate) struct Walk<'e, 's, 't> {
    pub(crate) list: EditList<'e>,
    pub(crate) asked: Asked<'e>,
    pub(crate) one: FirstText<'s>,
    pub(crate) other: SecondText<'t>,
}

/// What is said of the units of two documents: whether the pairs fit; and where they do, whether nothing protected is lost, and
/// no line and no comment is added unasked.
#[derive(Clone, Copy)]
pub(crate) struct Said {
    pub(crate) fits: bool,
    pub(crate) kept: bool,
    pub(crate) lines: bool,
    pub(crate) comments: bool,
}

/// What was found of two texts: the names of each, unless it is no document, and what is said of their units.
#[derive(Drop)]
pub(crate) struct Found<'s, 't> {
    pub(crate) names: Option<LineNames<'s>>,
    pub(crate) others: Option<LineNames<'t>>,
    pub(crate) said: Said,
}

impl<'e, 's, 't> Walk<'e, 's, 't> {
    /// Before the first units of both texts, the values of the edits read in the profile. The cursor stands before that of the
    /// first one.
    pub(crate) fn new(
        alloc: Global,
        before: &'s [u8],
        cursor: UnitCursor<'s>,
        edits: &'e [Edit],
        after: &'t [u8],
        other: Source<'t>,
        profile: Profile,
    ) -> Result<Walk<'e, 's, 't>, AllocError>
        requires before { Walks profile before.now cursor [] }
        requires after { text_of other ≡ after.now }
        ensures { IfOk result (IsBegun profile before.now (map change edits.now) after.now) }
    {
        let (list, asked) = asked_by(alloc, edits, profile)?;
        Ok(Walk {
            list,
            asked,
            one: FirstText::new(before, cursor),
            other: SecondText::new(alloc, after, other, profile)?,
        })
    }

    /// Walks on to the units of a pair and, if they are the same, past them. Whether they are.
    fn pair(&mut self, alloc: Global, pair: (u64, u64)) -> Result<bool, AllocError>
        requires { IsGoing self.old }
        ensures { TellsNext self.old pair self.new result }
    {
        self.one.pass_to(alloc, &self.list, Some(pair.0))?;
        self.other.pass_to(alloc, &self.asked, Some(pair.1))?;
        let sight = self.one.look(&self.list);
        if !is_pair(alloc, &self.list, sight, &self.one, &self.other, pair)? {
            return Ok(false);
        }
        let fate = self.one.fate(alloc, &self.list, sight)?;
        self.one.pass(alloc, fate, true)?;
        self.other.pass(alloc, &self.asked, true)?;
        Ok(true)
    }

    /// Walks on from pair to pair, as far as they rise and their units are the same. Whether all do.
    fn pair_all(&mut self, alloc: Global, pairs: &[(u64, u64)]) -> Result<bool, AllocError>
        requires { (profile : InProfile) × (cs : List Change) × IsOn profile cs self.old [] [] }
        ensures { TellsAll self.old pairs.now self.new result }
    {
        for pair in pairs {
            if !self.pair(alloc, *pair)? {
                return Ok(false);
            }
        }
        Ok(true)
    }

    /// Walks on to the end of both texts.
    pub(crate) fn finish(self, alloc: Global, fits: bool) -> Result<Found<'s, 't>, AllocError>
        requires { IsGoing self }
        ensures { FinishesOff self.entry fits result }
    {
        let Walk {
            list,
            asked,
            mut one,
            mut other,
        } = self;
        one.pass_to(alloc, &list, None)?;
        other.pass_to(alloc, &asked, None)?;
        let FirstText { cursor, kept, .. } = one;
        let SecondText {
            cursor: other_cursor,
            added,
            ..
        } = other;
        Ok(Found {
            names: cursor.into_names(),
            others: other_cursor.into_names(),
            said: Said {
                fits,
                kept: kept.all,
                lines: added.lines,
                comments: added.adds_no_comments(alloc, &asked)?,
            },
        })
    }
}

/// What is found of two texts, the values of the edits read in the profile. The cursor stands before the first unit of the
/// first one.
pub(crate) fn walk_through<'s, 't>(
    alloc: Global,
    before: &'s [u8],
    cursor: UnitCursor<'s>,
    edits: &[Edit],
    after: &'t [u8],
    other: Source<'t>,
    pairs: &[(u64, u64)],
    profile: Profile,
) -> Result<Found<'s, 't>, AllocError>
    requires before { Walks profile before.now cursor [] }
    requires fits { IsText before.now }
    requires after { text_of other ≡ after.now }
    ensures { IfOk result (IsFound profile before.now (map change edits.now) after.now pairs.now) }
{
    let mut walk = Walk::new(alloc, before, cursor, edits, after, other, profile)?;
    let fits = walk.pair_all(alloc, pairs)?;
    walk.finish(alloc, fits)
}
