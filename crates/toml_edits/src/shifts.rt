//! Where the elements of an array stand behind edits.
ghost use Rattle.std.specs.Bool.{nat_lt};
ghost use Rattle.std.specs.Prelude.{◌≡◌, ◌+◌, [], true, IfOk, IfSome, OnOk};
ghost use Rattle.toml_edits.specs.Runs.{AreApart, IsWithinFirst, LeavesRest, PushesLost, StartsFall, further, index_in, without, with_lost};

use std::alloc::{AllocError, Global};
use std::marker::Model;

/// From an index on: where the element there stands in the end, those behind it following one by one; or that they stand
/// nowhere. It goes on up to where the next run begins.
#[derive(Clone, Copy)]
pub struct Run {
    pub(crate) start: u64,
    pub(crate) to: Option<u64>,
}

/// Where the elements of an array stand in the end: no two at one index. The last run comes first, so their starts fall.
#[derive(Drop)]
pub struct Runs {
    runs: Vec<Run>,
}

impl Model for Runs {
    ghost use Rattle.std.specs.Prelude.{List};
    ghost use Rattle.toml_edits.specs.Runs.{AreRuns};
    ghost use Rattle.toml_edits.specs.declared.shifts.Run.{Run};

    ghost Value = { List Run };

    ghost view = { λ r. r.runs.items };

    ghost invariant = { λ r. AreRuns r.runs.items };
}

impl Runs {
    /// Each where it is.
    pub(crate) fn new(alloc: Global) -> Runs
        ensures { result ≡ [] }
    {
        Runs {
            runs: Vec::new(alloc),
        }
    }

    /// Where the element stands in the end, if anywhere.
    pub(crate) fn at(&self, index: u64) -> Option<u64>
        ensures value { result ≡ index_in self.now index }
        ensures apart { AreApart self.now }
    {
        index_in(&self.runs, index)
    }

    /// One insertion more, in front.
    pub(crate) fn drop_at(&mut self, alloc: Global, index: u64) -> Result<(), AllocError>
        ensures { OnOk result (self.new ≡ without index self.old) }
    {
        self.runs = without(alloc, &self.runs, index)?;
        Ok(())
    }

    /// One removal more, in front. It is not told where an index would pass 64 bits.
    pub(crate) fn lose_at(&mut self, alloc: Global, index: u64) -> Result<bool, AllocError>
        ensures { IfOk result (λ told. told ≡ true → self.new ≡ with_lost index self.old) }
    {
        let Some(runs) = with_lost(alloc, &self.runs, index)? else {
            return Ok(false);
        };
        self.runs = runs;
        Ok(true)
    }
}

/// So many places further, if that is a number of 64 bits.
fn further(to: Option<u64>, count: u64) -> Option<u64>
    ensures { result ≡ further to count }
{
    match to {
        Some(first) => first.checked_add(count),
        None => None,
    }
}

/// Where the element stands in the end, if anywhere: the run in which it is is the first one that does not begin behind it.
fn index_in(runs: &[Run], index: u64) -> Option<u64>
    requires { StartsFall runs.now }
    ensures { result ≡ index_in runs.now index }
{
    let place = runs.partition_point(
        |run: &Run| -> bool
            ensures { result ≡ nat_lt index run.now.start }
        { index < run.start },
    );
    match runs.get(place) {
        Some(run) => further(run.to, index.saturating_sub(run.start)),
        None => Some(index),
    }
}

/// The runs without the first one, where that begins at the index: another that begins there covers it.
fn rest_of(runs: &[Run], index: u64) -> &[Run]
    ensures { LeavesRest index runs.now result.now }
{
    match runs.split_first() {
        Some((run, rest)) if run.start == index => rest,
        _ => runs,
    }
}

/// The runs of one insertion more, in front.
fn without(alloc: Global, runs: &[Run], index: u64) -> Result<Vec<Run>, AllocError>
    ensures { IfOk result (λ new. new.items ≡ without index runs.now) }
{
    let mut new = Vec::with_capacity(alloc, runs.len().saturating_add(1))?;
    for (place, run) in runs.iter().enumerate() {
        if index < run.start {
            new.push(Run {
                start: run.start - 1,
                to: run.to,
            })?;
        } else {
            let behind = further(run.to, index - run.start);
            new.push(Run {
                start: index,
                to: further(behind, 1),
            })?;
            new.extend_from_slice(rest_of(&runs[place..], index))?;
            return Ok(new);
        }
    }
    new.push(Run {
        start: index,
        to: index.checked_add(1),
    })?;
    Ok(new)
}

/// Puts in the runs of one removal more at an index in the first of these runs, and behind it.
fn push_lost(new: &mut Vec<Run>, runs: &[Run], index: u64, next: u64) -> Result<(), AllocError>
    requires next { next ≡ index + 1 }
    requires within { IsWithinFirst index runs.now }
    ensures { OnOk result (PushesLost index runs.now new.old.items new.new.items) }
{
    if let Some(run) = runs.first() {
        if run.to.is_some() {
            new.push(Run {
                start: next,
                to: further(run.to, index - run.start),
            })?;
            new.push(Run {
                start: index,
                to: None,
            })?;
            return new.extend_from_slice(rest_of(runs, index));
        }
    }
    new.extend_from_slice(runs)
}

/// The runs of one removal more, in front. None where an index would pass 64 bits.
fn with_lost(alloc: Global, runs: &[Run], index: u64) -> Result<Option<Vec<Run>>, AllocError>
    ensures { IfOk result (λ o. IfSome o (λ new. new.items ≡ with_lost index runs.now)) }
{
    let Some(next) = index.checked_add(1) else {
        return Ok(None);
    };
    let mut new = Vec::with_capacity(alloc, runs.len().saturating_add(2))?;
    for (place, run) in runs.iter().enumerate() {
        if index < run.start {
            let Some(start) = run.start.checked_add(1) else {
                return Ok(None);
            };
            new.push(Run { start, to: run.to })?;
        } else {
            push_lost(&mut new, &runs[place..], index, next)?;
            return Ok(Some(new));
        }
    }
    new.push(Run {
        start: next,
        to: Some(index),
    })?;
    new.push(Run {
        start: index,
        to: None,
    })?;
    Ok(Some(new))
}
