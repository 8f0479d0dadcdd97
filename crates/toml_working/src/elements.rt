//! Which elements of arrays of tables were taken out.
//!
//! The address of a line counts the elements as if none had been taken out, new ones behind those of the document: else an
//! element that goes would move all lines behind it. Such an address is called *uncut* here.
ghost use Rattle.std.specs.Prelude.{◌≡◌, IfOk, OnOk};
ghost use Rattle.toml_working.specs.Starting.{NoneIsGone};

use crate::removing::parent_of;
use crate::steps::{changed, is_at_or_above, is_same_way};
use std::alloc::{AllocError, Global};
use toml_names::{Address, Name, Step};

/// The elements that were taken out of an array of tables.
#[derive(Drop)]
pub struct Gone {
    /// Where the array stands, uncut.
    pub array: Address,
    /// Their indices, uncut, which rise.
    pub indices: Vec<u64>,
}

/// Those of all arrays of tables.
#[derive(Drop)]
pub struct Elements {
    pub gone: Vec<Gone>,
}

impl Elements {
    /// None was taken out.
    pub(crate) fn all(alloc: Global) -> Elements
        ensures { NoneIsGone result }
    {
        Elements {
            gone: Vec::new(alloc),
        }
    }

    /// The uncut address of what stands at the address, which counts the elements that are left.
    pub fn uncut(&self, alloc: Global, at: &Address) -> Result<Address, AllocError>
        ensures { IfOk result (λ a. NoneIsGone self.now → a ≡ at.now) }
    {
        let mut steps = Vec::with_capacity(alloc, at.steps().len())?;
        for step in at.steps() {
            let own = self.uncut_step(&steps, step)?;
            steps.push(own)?;
        }
        Ok(Address::of(steps))
    }

    /// The uncut step behind these steps, which are uncut. It takes no memory.
    fn uncut_step(&self, above: &[Step], step: &Step) -> Result<Step, AllocError>
        ensures { IfOk result (λ s. NoneIsGone self.now → s ≡ step.now) }
    {
        match step {
            Step::Index(index) => Ok(Step::Index(self.uncut_index(above, *index))),
            Step::Name(_) => step.copy(),
        }
    }

    /// The uncut index of an element of the array that these steps lead to.
    fn uncut_index(&self, array: &[Step], index: u64) -> u64
        ensures { NoneIsGone self.now → result ≡ index }
    {
        for gone in &self.gone {
            if gone.is_of(array) {
                return gone.uncut(index);
            }
        }
        index
    }

    /// What stood at the uncut address goes.
    pub(crate) fn take_out(&mut self, alloc: Global, at: &Address) -> Result<(), AllocError> {
        self.gone.retain(|gone| !is_at_or_above(at, &gone.array));
        match at.steps().split_last() {
            Some((Step::Index(index), array)) => self.take_element(alloc, at, array, *index),
            _ => Ok(()),
        }
    }

    /// The element with the index goes, of the array right above its address.
    fn take_element(
        &mut self,
        alloc: Global,
        at: &Address,
        array: &[Step],
        index: u64,
    ) -> Result<(), AllocError> {
        for gone in &mut self.gone {
            if gone.is_of(array) {
                return gone.put(index);
            }
        }
        let array = parent_of(alloc, at)?;
        let mut indices = Vec::new(alloc);
        indices.push(index)?;
        self.gone.push(Gone { array, indices })?;
        Ok(())
    }

    /// The last step of the uncut address becomes another name, for the arrays at it and below.
    pub(crate) fn rename(
        &mut self,
        alloc: Global,
        at: &Address,
        name: &Name,
    ) -> Result<(), AllocError>
        ensures { OnOk result (NoneIsGone self.old → NoneIsGone self.new) }
    {
        let place = at.steps().len().saturating_sub(1);
        for gone in &mut self.gone {
            if is_at_or_above(at, &gone.array) {
                let array = gone.array.copy(alloc)?;
                gone.array = changed(array, place, Step::Name(name.copy()?));
            }
        }
        Ok(())
    }
}

impl Gone {
    /// Whether the array is the one that the steps lead to.
    fn is_of(&self, array: &[Step]) -> bool {
        is_same_way(self.array.steps(), array)
    }

    /// The uncut index of the element that has the index among those that are left.
    fn uncut(&self, index: u64) -> u64 {
        let mut own = index;
        for gone in &self.indices {
            if *gone > own {
                return own;
            }
            own = own.saturating_add(1);
        }
        own
    }

    /// One element more is gone.
    fn put(&mut self, index: u64) -> Result<(), AllocError> {
        let place = match self.indices.binary_search(&index) {
            Ok(place) | Err(place) => place,
        };
        self.indices.insert(place, index)?;
        Ok(())
    }
}
