//! Walks down a tree of moves, by the steps that a thing has before the edits.
ghost use Rattle.std.specs.BTreeMap.{get_by_text};
ghost use Rattle.std.specs.Prelude.{◌≡◌, ◌<◌, ◌-◌, ◌^◌, ◌++◌, List, Some, IfOk, IfSome, OnOk, false, true, length, option_copied};
ghost use Rattle.toml_names.specs.declared.model.address.Step.TheVariants.{Name as ByName, Index as ByIndex};
ghost use Rattle.toml_names.specs.model.Indices.{IsLow, IsLowStep};
ghost use Rattle.toml_edits.specs.Edits.{Change};
ghost use Rattle.toml_edits.specs.Lists.{carried};
ghost use Rattle.toml_edits.specs.Moves.{branch_of, element_in, down_of, moves};
ghost use Rattle.toml_edits.specs.Runs.{index_in};
ghost use Rattle.toml_edits.specs.Told.{HasSight, IsWhere, TellsOf};
ghost use Rattle.toml_edits.specs.Trees.{walk};
ghost use Rattle.toml_edits.specs.Walks.{IsDeeper, IsHere, IsShown, IsWithin, Leads, next_by, step_by};
ghost use Rattle.toml_edits.specs.declared.moves.Moves.TheViews.{out-Moves};

use crate::moves::{Moves, Stand};
use std::alloc::{AllocError, Global};
use toml_names::{Address, Name, Step};

/// What edits do to a thing that stands somewhere in the end.
#[derive(Clone, Copy)]
pub struct Trace {
    /// One sets it.
    pub set: bool,
    /// One has its place strictly below it.
    pub below: bool,
    /// How many steps the deepest place has, at it or above it, that one renames.
    pub renamed: Option<usize>,
    /// Whether they may move it: where not, it stands in the end where it stood.
    pub moved: bool,
}

/// What edits do to a thing.
#[derive(Clone, Copy)]
pub enum Sight {
    /// The tree does not tell.
    Unknown,
    /// In the end it stands nowhere.
    Nowhere,
    Somewhere(Trace),
}

/// Where edits carry a thing.
#[derive(Drop)]
pub enum Carried {
    /// The tree does not tell.
    Unknown,
    Nowhere,
    To(Address),
}

/// The step of a thing in the end: the one that it had, or another.
#[derive(Clone, Copy)]
pub enum To<'a> {
    Same,
    Name(&'a Name),
    Index(u64),
}

/// What is one step down, and the tree that is kept of it.
#[derive(Clone, Copy)]
pub enum Next<'a> {
    Unknown,
    Nowhere,
    On(To<'a>, Option<&'a Moves>),
}

impl<'a> To<'a> {
    /// Whether it may be another than the step.
    fn moves(self, step: &Step) -> bool
        ensures { result ≡ false → step_by self.entry step.now ≡ step.now }
    {
        match (self, step) {
            (To::Same, _) => false,
            (To::Name(one), Step::Name(two)) => one.as_str() != two.as_str(),
            (To::Index(one), Step::Index(two)) => one != *two,
            _ => true,
        }
    }

    /// The step in the end, by the one before.
    fn step(self, step: &Step) -> Result<Step, AllocError>
        ensures { IfOk result (λ s. s ≡ step_by self.entry step.now) }
    {
        match self {
            To::Same => step.copy(),
            To::Name(name) => Ok(Step::Name(name.copy()?)),
            To::Index(index) => Ok(Step::Index(index)),
        }
    }
}

impl Trace {
    /// Of what no edit touches.
    fn none() -> Trace
        ensures { (result.set ≡ false) × (result.below ≡ false) × (result.renamed ≡ None) × (result.moved ≡ false) }
    {
        Trace {
            set: false,
            below: false,
            renamed: None,
            moved: false,
        }
    }

    /// The trace from one step further up, where an edit renames the thing or not, and may move it or not.
    fn deeper(self, renamed: bool, moved: bool) -> Trace
        requires { IfSome self.renamed (λ n. n < 2 ^ 64 - 1) }
        ensures { IsDeeper renamed moved self result }
    {
        Trace {
            renamed: match self.renamed {
                Some(steps) => Some(steps + 1),
                None => { if renamed { Some(0) } else { None } }
            },
            moved: moved || self.moved,
            ..self
        }
    }
}

/// Whether an index at the step has room to rise with each edit.
fn has_room(step: &Step) -> bool
    ensures { result ≡ true → IsLowStep (2 ^ 63) step.now }
{
    match step {
        Step::Name(_) => true,
        Step::Index(index) => *index < 1 << 63,
    }
}

/// Whether each index among the steps has room to rise with each edit.
fn have_room(steps: &[Step]) -> bool
    ensures { result ≡ true → IsLow (2 ^ 63) steps.now }
{
    for step in steps {
        if !has_room(step) {
            return false;
        }
    }
    true
}

/// Puts copies of the steps behind others.
pub(crate) fn push_copies(to: &mut Vec<Step>, steps: &[Step]) -> Result<(), AllocError>
    ensures { OnOk result (to.new.items ≡ to.old.items ++ steps.now) }
{
    for step in steps {
        to.push(step.copy()?)?;
    }
    Ok(())
}

impl Moves {
    /// Of the thing itself.
    fn here(&self) -> Trace
        ensures { IsHere self.now result }
    {
        Trace {
            set: self.set,
            below: self.below,
            renamed: if self.renamed { Some(0) } else { None },
            moved: false,
        }
    }

    /// One step down, by a name.
    fn by_name(&self, name: &Name) -> Next<'_>
        ensures { next_by (ByName name.now) result ≡ branch_of name.now (get_by_text (out-Moves self.now).names name.now) }
    {
        match self.names.get(name.as_str()) {
            None => Next::On(To::Same, None),
            Some(child) => match &child.to {
                Stand::Unknown => Next::Unknown,
                Stand::Nowhere => Next::Nowhere,
                Stand::Under(to) => Next::On(To::Name(to), Some(child)),
            },
        }
    }

    /// One step down, by an index.
    fn by_index(&self, index: u64) -> Next<'_>
        ensures { next_by (ByIndex index) result ≡ element_in (out-Moves self.now).elements (index_in (out-Moves self.now).runs index) }
    {
        match self.runs.at(index) {
            Some(to) => Next::On(To::Index(to), self.elements.get(&to)),
            None => Next::Nowhere,
        }
    }

    /// One step down.
    fn next(&self, step: &Step) -> Next<'_>
        ensures { next_by step.now result ≡ down_of self.now step.now }
    {
        if self.cleared {
            return Next::Nowhere;
        }
        match step {
            Step::Name(name) => self.by_name(name),
            Step::Index(index) => self.by_index(*index),
        }
    }

    /// What the edits of the list do to a thing, by its address before them. It takes no memory.
    pub fn look(&self, at: &Address) -> Sight
        ensures { (cs : List Change) → TellsOf cs self.now → length cs < 2 ^ 63 → HasSight cs at.now result }
    {
        if !have_room(at.steps()) {
            return Sight::Unknown;
        }
        trace_on(Some(self), at.steps())
    }

    /// Where they carry it.
    pub fn find(&self, alloc: Global, at: &Address) -> Result<Carried, AllocError>
        ensures { (cs : List Change) → TellsOf cs self.now → length cs < 2 ^ 63 → IfOk result (IsWhere (carried cs at.now)) }
    {
        match self.look(at) {
            Sight::Unknown => Ok(Carried::Unknown),
            Sight::Nowhere => Ok(Carried::Nowhere),
            Sight::Somewhere(_) => self.follow(alloc, at),
        }
    }

    /// Where they carry it, if it stands somewhere.
    fn follow(&self, alloc: Global, at: &Address) -> Result<Carried, AllocError>
        ensures { (cs : List Change) → TellsOf cs self.now → length cs < 2 ^ 63 → IfOk result (IsWhere (carried cs at.now)) }
    {
        if !have_room(at.steps()) {
            return Ok(Carried::Unknown);
        }
        let mut to = Vec::with_capacity(alloc, at.steps().len())?;
        if !follow_on(Some(self), at.steps(), &mut to)? {
            return Ok(Carried::Unknown);
        }
        Ok(Carried::To(Address::of(to)))
    }
}

/// What edits do to a thing, by its steps below a place of which this tree is kept. It goes no deeper than the tree.
fn trace_on(tree: Option<&Moves>, way: &[Step]) -> Sight
    ensures shown { IsShown (walk moves (option_copied tree.entry) way.now) way.now result }
    ensures within { IsWithin (length way.now) result }
{
    let Some(tree) = tree else {
        return Sight::Somewhere(Trace::none());
    };
    let Some((step, rest)) = way.split_first() else {
        return Sight::Somewhere(tree.here());
    };
    match tree.next(step) {
        Next::Unknown => Sight::Unknown,
        Next::Nowhere => Sight::Nowhere,
        Next::On(to, below) => match trace_on(below, rest) {
            Sight::Unknown => Sight::Unknown,
            Sight::Nowhere => Sight::Nowhere,
            Sight::Somewhere(trace) => {
                Sight::Somewhere(trace.deeper(tree.renamed, to.moves(step)))
            }
        },
    }
}

/// Puts the steps of where the thing stands in the end behind others. Whether they are told.
fn follow_on(tree: Option<&Moves>, way: &[Step], to: &mut Vec<Step>) -> Result<bool, AllocError>
    ensures { IfOk result (λ told. told ≡ true → Leads (walk moves (option_copied tree.entry) way.now) to.old.items to.new.items) }
{
    let Some(tree) = tree else {
        push_copies(to, way)?;
        return Ok(true);
    };
    let Some((step, rest)) = way.split_first() else {
        return Ok(true);
    };
    match tree.next(step) {
        Next::Unknown | Next::Nowhere => Ok(false),
        Next::On(next, below) => {
            to.push(next.step(step)?)?;
            follow_on(below, rest, to)
        }
    }
}
