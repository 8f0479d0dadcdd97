//! That nothing protected is lost.
ghost use Rattle.std.specs.Prelude.{◌≡◌, IfOk};
ghost use Rattle.toml_units.specs.View.{unit as span_of};
ghost use Rattle.toml_checker.specs.EditLists.{changes};
ghost use Rattle.toml_checker.specs.Sights.{HasSight};
ghost use Rattle.toml_checker.specs.Traces.{kept_past, must_pair, nothing_kept, fate_of};

use crate::edit_list::EditList;
use crate::marks::{reach_with, reaches};
use crate::protection::{home_with, is_kept};
use std::alloc::{AllocError, Global};
use toml_edits::Sight;
use toml_units::Unit;

/// What was found of the units of the first text that were walked past.
#[derive(Clone, Copy)]
pub(crate) struct Kept {
    /// Whether the line that was walked past last is still there: comments of it may follow.
    pub(crate) home: bool,
    /// The furthest end of protected units that are paired.
    pub(crate) reach: Option<usize>,
    /// Whether each protected one is paired, or ends no further than a paired one before it that is protected: in a document,
    /// where the starts do not fall, it lies inside that.
    pub(crate) all: bool,
}

/// What becomes of the next unit of the first text under the edits, whether it is paired or not.
#[derive(Clone, Copy)]
pub(crate) struct Fate {
    /// Whether it is protected.
    pub(crate) protected: bool,
    /// Whether its line, or the last one before it, is still there.
    pub(crate) home: bool,
    /// Where it ends.
    pub(crate) end: usize,
}

impl Kept {
    /// Nothing was walked past.
    pub(crate) fn none() -> Kept
        ensures { result ≡ nothing_kept }
    {
        Kept {
            home: true,
            reach: None,
            all: true,
        }
    }

    /// What becomes of the next unit.
    pub(crate) fn fate(
        self,
        alloc: Global,
        list: &EditList,
        sight: Sight,
        unit: &Unit,
    ) -> Result<Fate, AllocError>
        requires { HasSight list.now unit.now.address sight }
        ensures { IfOk result (λ fate. fate ≡ fate_of (changes list.now) self (span_of unit.now)) }
    {
        let protected = is_kept(alloc, list, sight, self.home, unit)?;
        let home = home_with(alloc, list, sight, self.home, unit, protected)?;
        Ok(Fate {
            protected,
            home,
            end: unit.span.end,
        })
    }

    /// Whether the next unit, which has this fate, would be lost if it were not paired.
    pub(crate) fn must_pair(self, fate: Fate) -> bool
        ensures { result ≡ must_pair self fate }
    {
        fate.protected && !reaches(self.reach, fate.end)
    }

    /// What is kept of the units up to the next one, which has this fate, and which is paired or not.
    pub(crate) fn past(self, fate: Fate, paired: bool) -> Kept
        ensures { result ≡ kept_past self fate paired }
    {
        let reach = reach_with(self.reach, fate.protected && paired, fate.end);
        Kept {
            home: fate.home,
            reach,
            all: self.all && (!fate.protected || reaches(reach, fate.end)),
        }
    }
}
