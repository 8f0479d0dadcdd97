//! Addresses: where a thing stands in the data, as a list of steps.
ghost use Rattle.std.specs.Prelude.{◌≡◌, ◌≤◌, ◌<◌, ◌+◌, ◌∷◌, ◌++◌, [], IfOk, IsTrue, List, OnOk, length, take};
ghost use Rattle.toml_names.specs.model.Addresses.{same_step};

use crate::model::name::Name;
use std::alloc::{AllocError, Global};
use std::marker::Model;

/// A step of an address: a name in a table, or an index in an array, from 0.
#[derive(Drop)]
pub enum Step {
    Name(Name),
    Index(u64),
}

/// Where something stands in the data: the steps from the root to it. The root's address has none.
#[derive(Drop)]
pub struct Address {
    steps: Vec<Step>,
}

impl Model for Address {
    ghost use Rattle.std.specs.Prelude.{List};
    ghost use Rattle.toml_names.specs.declared.model.address.Step.{Step};

    ghost Value = { List Step };

    ghost view = { λ a. a.steps.items };
}

impl Step {
    /// A copy of the step. It takes no memory.
    pub fn copy(&self) -> Result<Step, AllocError>
        ensures { IfOk result (λ s. s ≡ self.now) }
    {
        match self {
            Step::Name(name) => Ok(Step::Name(name.copy()?)),
            Step::Index(index) => Ok(Step::Index(*index)),
        }
    }

    /// Whether it is the other step.
    pub fn is_same(&self, other: &Step) -> bool
        ensures { result ≡ same_step self.now other.now }
    {
        match (self, other) {
            (Step::Name(one), Step::Name(two)) => one.as_str() == two.as_str(),
            (Step::Index(one), Step::Index(two)) => *one == *two,
            _ => false,
        }
    }
}

impl Step {
    ghost use Rattle.toml_names.specs.declared.model.address.Step.TheVariants.{Name as ByName};

    /// Makes it a name, in place if it was one.
    fn set_to_name(&mut self, alloc: Global, text: &str) -> Result<(), AllocError>
        ensures { OnOk result (self.new ≡ ByName text.now) }
    {
        if let Step::Name(name) = self {
            return name.set_to(alloc, text);
        }
        *self = Step::Name(Name::spelled(alloc, text)?);
        Ok(())
    }
}

/// Adds copies of the steps.
fn push_copies(steps: &mut Vec<Step>, more: &[Step]) -> Result<(), AllocError>
    ensures { OnOk result (steps.new.items ≡ steps.old.items ++ more.now) }
{
    for step in more {
        steps.push(step.copy()?)?;
    }
    Ok(())
}

/// A number of steps with which both begin. The greater it is, the fewer are copied.
fn shared_len(one: &[Step], other: &[Step]) -> usize
    ensures one { result ≤ length one.now }
    ensures other { result ≤ length other.now }
    ensures same { take result one.now ≡ take result other.now }
{
    for (index, step) in one.iter().enumerate() {
        match other.get(index) {
            Some(next) if step.is_same(next) => {}
            _ => return index,
        }
    }
    one.len()
}

impl Address {
    ghost use Rattle.toml_names.specs.declared.model.address.Step.{Step as AnyStep};
    ghost use Rattle.toml_names.specs.model.Addresses.{child, element, is_above, same_address};

    /// The steps from the root.
    pub fn steps(&self) -> &[Step]
        ensures { result.now ≡ self.now }
    {
        &self.steps
    }

    /// The address of the root.
    pub fn root(alloc: Global) -> Address
        ensures { result ≡ [] }
    {
        Address {
            steps: Vec::new(alloc),
        }
    }

    /// The address with these steps. It takes no memory.
    pub fn of(steps: Vec<Step>) -> Address
        ensures { result ≡ steps.items }
    {
        Address { steps }
    }

    /// The steps themselves. It takes no memory.
    pub fn into_steps(self) -> Vec<Step>
        ensures { result.items ≡ self }
    {
        self.steps
    }

    /// An address of its own that is the same; the texts of long names are shared.
    pub fn copy(&self, alloc: Global) -> Result<Address, AllocError>
        ensures { IfOk result (λ a. a ≡ self.now) }
    {
        Ok(Address {
            steps: self.copy_steps(alloc, 0)?,
        })
    }

    /// Makes it the same as the other, in its own memory: the steps that both begin with stay. Where memory lacks, nothing is said
    /// of it any more.
    pub fn set_to(&mut self, other: &Address) -> Result<(), AllocError>
        ensures { OnOk result (self.new ≡ other.now) }
    {
        let steps = &mut self.steps;
        let shared = shared_len(steps, &other.steps);
        steps.truncate(shared);
        push_copies(steps, &other.steps[shared..])
    }

    /// Goes up, so that this many steps are left.
    pub(crate) fn truncate(&mut self, depth: usize)
        ensures { self.new ≡ take depth self.old }
    {
        let steps = &mut self.steps;
        steps.truncate(depth);
    }

    /// Makes the step at the depth a name, in place if there is one. Of those behind it nothing is said.
    pub(crate) fn put_name(
        &mut self,
        alloc: Global,
        depth: usize,
        text: &str,
    ) -> Result<(), AllocError>
        requires { depth ≤ length self.old }
        ensures { OnOk result (take (depth + 1) self.new ≡ child (take depth self.old) text.now) }
    {
        if depth < self.steps.len() {
            let steps = &mut self.steps;
            return steps[depth].set_to_name(alloc, text);
        }
        self.push(Step::Name(Name::spelled(alloc, text)?))
    }

    /// Makes the step at the depth an index, in place if there is one. Of those behind it nothing is said.
    pub(crate) fn put_index(&mut self, depth: usize, index: u64) -> Result<(), AllocError>
        requires { depth ≤ length self.old }
        ensures { OnOk result (take (depth + 1) self.new ≡ element (take depth self.old) index) }
    {
        if depth < self.steps.len() {
            let steps = &mut self.steps;
            steps[depth] = Step::Index(index);
            return Ok(());
        }
        self.push(Step::Index(index))
    }

    /// Goes one step down.
    pub(crate) fn push(&mut self, step: Step) -> Result<(), AllocError>
        ensures { OnOk result (self.new ≡ self.old ++ step ∷ []) }
    {
        Ok(self.steps.push(step)?)
    }

    /// The steps copied, with room for so many more.
    pub(crate) fn copy_steps(&self, alloc: Global, more: usize) -> Result<Vec<Step>, AllocError>
        ensures { IfOk result (λ steps. steps.items ≡ self.now) }
    {
        let mut steps = Vec::with_capacity(alloc, self.steps.len().saturating_add(more))?;
        push_copies(&mut steps, &self.steps)?;
        Ok(steps)
    }

    /// The address of an element of the array at this one.
    pub fn element(&self, alloc: Global, index: u64) -> Result<Address, AllocError>
        ensures { IfOk result (λ a. a ≡ element self.now index) }
    {
        let mut steps = self.copy_steps(alloc, 1)?;
        steps.push(Step::Index(index))?;
        Ok(Address { steps })
    }

    /// Makes it the address of an element of the array at the other, in its own memory. Where memory lacks, nothing is said of it
    /// any more.
    pub fn set_to_element(&mut self, array: &Address, index: u64) -> Result<(), AllocError>
        ensures { OnOk result (self.new ≡ element array.now index) }
    {
        self.set_to(array)?;
        self.push(Step::Index(index))
    }

    /// Whether it is seen to be one step below the other.
    fn is_child_of(&self, other: &Address) -> bool
        ensures { IsTrue result → (s : AnyStep) × (self.now ≡ other.now ++ s ∷ []) }
    {
        let fronts = self.steps.len().saturating_sub(1);
        fronts == other.steps.len() && other.is_above(self)
    }

    /// Makes its last step a name.
    fn set_last(&mut self, alloc: Global, text: &str) -> Result<(), AllocError>
        requires { 0 < length self.old }
        ensures { (q : List AnyStep) (s : AnyStep) → self.old ≡ q ++ s ∷ [] → OnOk result (self.new ≡ child q text.now) }
    {
        let steps = &mut self.steps;
        let last = steps.len() - 1;
        steps[last].set_to_name(alloc, text)
    }

    /// Makes it the address of a name in the table at the other, in its own memory. Most keys stand behind another of their table:
    /// then the last step alone is changed.
    pub(crate) fn set_to_child(
        &mut self,
        alloc: Global,
        table: &Address,
        text: &str,
    ) -> Result<(), AllocError>
        ensures { OnOk result (self.new ≡ child table.now text.now) }
    {
        if self.is_child_of(table) {
            return self.set_last(alloc, text);
        }
        self.set_to(table)?;
        self.push(Step::Name(Name::spelled(alloc, text)?))
    }

    /// The address of a name in the table at this one.
    pub fn child(&self, alloc: Global, name: Name) -> Result<Address, AllocError>
        ensures { IfOk result (λ a. a ≡ child self.now name) }
    {
        let mut steps = self.copy_steps(alloc, 1)?;
        steps.push(Step::Name(name))?;
        Ok(Address { steps })
    }

    /// Whether it is the other address.
    pub fn is_same(&self, other: &Address) -> bool
        ensures { result ≡ same_address self.now other.now }
    {
        if self.steps.len() != other.steps.len() {
            return false;
        }
        for (index, step) in self.steps.iter().enumerate() {
            if !step.is_same(&other.steps[index]) {
                return false;
            }
        }
        true
    }

    /// Whether it is strictly above the other: a beginning of it, and shorter.
    pub fn is_above(&self, other: &Address) -> bool
        ensures { result ≡ is_above self.now other.now }
    {
        if self.steps.len() >= other.steps.len() {
            return false;
        }
        for (index, step) in self.steps.iter().enumerate() {
            if !step.is_same(&other.steps[index]) {
                return false;
            }
        }
        true
    }
}
