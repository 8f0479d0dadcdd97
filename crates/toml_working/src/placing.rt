//! Where to look for what edits have put in or renamed, of which the document's names know nothing. It is a guess, which is tested
//! where it is used: else each edit of such a thing would go through all lines.
ghost use Rattle.toml_names.specs.reader.LineNames.{Stand};

use crate::lines::Line;
use crate::steps::changed;
use std::alloc::{AllocError, Global};
use std::collections::BTreeMap;
use toml_names::{Address, LineNames, Name, Place, Step};

/// The guesses, by the texts of addresses.
#[derive(Drop)]
pub struct Guesses {
    /// Where lines were put in that have an address: the slot, in place of a line of the document.
    put: BTreeMap<String, Place>,
    /// The address that a thing had at first which was renamed to this one.
    first: BTreeMap<String, Address>,
}

impl Guesses {
    /// None.
    pub(crate) fn none(alloc: Global) -> Guesses {
        Guesses {
            put: BTreeMap::new(alloc),
            first: BTreeMap::new(alloc),
        }
    }

    /// Where what stands at the address may stand: where a line was put in for it, or where the names of the document have it, or had it
    /// before it was renamed.
    pub fn named(
        &self,
        alloc: Global,
        names: &LineNames<'_>,
        at: &Address,
    ) -> Result<Option<Place>, AllocError>
        requires { Stand names.now }
    {
        if let Some(place) = self.put_at(alloc, at)? {
            return Ok(Some(place));
        }
        if self.first.is_empty() {
            return Ok(names.place(at));
        }
        let first = self.first_of(alloc, at)?;
        Ok(names.place(&first))
    }

    /// A line is put into the slot.
    pub(crate) fn put(
        &mut self,
        alloc: Global,
        slot: usize,
        line: &Line<'_>,
    ) -> Result<(), AllocError> {
        let Some(at) = &line.address else {
            return Ok(());
        };
        let place = match line.base {
            Some(_) => Place::KeyVal(slot),
            None => Place::Header(slot),
        };
        let key = key_of(alloc, at.steps())?;
        self.put.insert(key, place)?;
        Ok(())
    }

    /// What stands at the address is renamed.
    pub(crate) fn rename(
        &mut self,
        alloc: Global,
        at: &Address,
        name: &Name,
    ) -> Result<(), AllocError> {
        let last = at.steps().len().saturating_sub(1);
        let new = changed(at.copy(alloc)?, last, Step::Name(name.copy()?));
        let key = key_of(alloc, new.steps())?;
        match self.put_at(alloc, at)? {
            Some(place) => {
                self.put.insert(key, place)?;
            }
            None => {
                let first = self.first_of(alloc, at)?;
                self.first.insert(key, first)?;
            }
        }
        Ok(())
    }

    /// Where a line was put in for the address, if one was.
    fn put_at(&self, alloc: Global, at: &Address) -> Result<Option<Place>, AllocError> {
        if self.put.is_empty() {
            return Ok(None);
        }
        let key = key_of(alloc, at.steps())?;
        Ok(self.put.get(key.as_str()).copied())
    }

    /// The address that what stands at this one had at first: that of the innermost thing at it or above it that was renamed, and
    /// the steps behind.
    fn first_of(&self, alloc: Global, at: &Address) -> Result<Address, AllocError> {
        let steps = at.steps();
        for count in (1..=steps.len()).rev() {
            let (front, rest) = steps.split_at(count);
            let key = key_of(alloc, front)?;
            if let Some(first) = self.first.get(key.as_str()) {
                return behind(alloc, first, rest);
            }
        }
        at.copy(alloc)
    }
}

/// The address with these steps behind it.
fn behind(alloc: Global, front: &Address, rest: &[Step]) -> Result<Address, AllocError> {
    let mut steps = front.copy(alloc)?.into_steps();
    for step in rest {
        steps.push(step.copy()?)?;
    }
    Ok(Address::of(steps))
}

/// A text of the steps. It may be that of others too: this costs a walk through the lines.
fn key_of(alloc: Global, steps: &[Step]) -> Result<String, AllocError> {
    let mut key = String::new(alloc);
    for step in steps {
        match step {
            Step::Name(name) => key.push_str(name.as_str())?,
            Step::Index(index) => key.push_str(index.to_string(alloc)?.as_str())?,
        }
        key.push('\n')?;
    }
    Ok(key)
}
