//! A list with a gap: items are put in and taken out there, so changes near one another move few items.
ghost use Rattle.std.specs.List.{insert as inserted, remove as removed};
ghost use Rattle.std.specs.Prelude.{◌≡◌, ◌↔◌, ◌<◌, ◌≤◌, ◌-◌, ◌^◌, ◌++◌, ◌∷◌, [], IfErr, IfOk, IsTrue, MatchOption, OnErr, OnOk, length, option_copied, slice_get, slice_index_or, vec_len};
ghost use Rattle.std.specs.Borrow.{sem};
ghost use Rattle.std.specs.Option.{option_copied_mut};
ghost use Rattle.toml_lists.specs.Gaps.{LiesAt, items};
ghost use Rattle.toml_lists.specs.Lending.{LendsItem};

use std::alloc::{AllocError, Global};

/// A change so near the last one moves the gap. A single change far from it does not: it moves the items behind itself alone.
const NEAR: usize = 4096;

/// A list. Contracts see its items, `items`.
#[derive(Drop)]
pub struct GapList<T> {
    /// The items before the gap.
    pub before: Vec<T>,
    /// Those behind it, the last one first.
    pub behind: Vec<T>,
    /// Where the list was changed last.
    last: usize,
}

/// Where an item lies.
#[derive(Clone, Copy)]
pub enum Side {
    /// Before the gap, with this index there.
    Before(usize),
    /// Behind it, with this index there.
    Behind(usize),
}

impl<T: Drop> GapList<T> {
    /// The list of no items. It takes no memory.
    pub fn none(alloc: Global) -> GapList<T>
        ensures { items result ≡ [] }
    {
        GapList::of(alloc, Vec::new(alloc))
    }

    /// How many items it has, if a number of 64 bits can say it.
    pub fn len(&self) -> usize
        ensures exact { length (items self.now) < 2 ^ 64 → result ≡ length (items self.now) }
        ensures within { result ≤ length (items self.now) }
    {
        self.before.len().saturating_add(self.behind.len())
    }

    /// Where the item with the index lies, if there is one.
    pub fn side(&self, index: usize) -> Option<Side>
        ensures { MatchOption result (length (items self.now) ≤ index) (LiesAt self.now index) }
    {
        let front = self.before.len();
        if index < front {
            return Some(Side::Before(index));
        }
        let rest = self.behind.len();
        let past = index - front;
        if past >= rest {
            return None;
        }
        Some(Side::Behind(rest - 1 - past))
    }

    /// The item with the index, to be changed, if there is one.
    pub fn get_mut(&mut self, index: usize) -> Option<&mut T>
        ensures* writes { sem 𝓛 (LendsItem T.row self.entry index result) }
        ensures item { option_copied_mut result ≡ slice_get (items self.old) index }
    {
        match self.side(index) {
            Some(Side::Before(place)) => self.before.get_mut(place),
            Some(Side::Behind(place)) => self.behind.get_mut(place),
            None => None,
        }
    }

    /// Puts an item in behind the last one.
    pub fn push(&mut self, item: T) -> Result<(), AllocError>
        ensures ok { OnOk result (items self.new ≡ items self.old ++ item ∷ []) }
        ensures err { OnErr result (items self.new ≡ items self.old) }
    {
        if self.behind.is_empty() {
            self.before.push(item)?;
        } else {
            self.behind.insert(0, item)?;
        }
        Ok(())
    }

    /// The list of these items. It takes no memory.
    pub fn of(alloc: Global, list: Vec<T>) -> GapList<T>
        ensures { items result ≡ list.items }
    {
        GapList {
            last: list.len(),
            before: list,
            behind: Vec::new(alloc),
        }
    }

    /// Whether an item has the index.
    pub fn has(&self, index: usize) -> bool
        ensures { IsTrue result ↔ (index < length (items self.now)) }
    {
        let front = self.before.len();
        index < front || index - front < self.behind.len()
    }

    /// Whether an item may be put in at the index: before one that has it, or behind the last one.
    pub fn takes(&self, index: usize) -> bool
        ensures { IsTrue result ↔ (index ≤ length (items self.now)) }
    {
        let front = self.before.len();
        index <= front || index - front <= self.behind.len()
    }

    /// The item with the index, if there is one.
    pub fn get(&self, index: usize) -> Option<&T>
        ensures { option_copied result ≡ slice_get (items self.now) index }
    {
        let front = self.before.len();
        if index < front {
            return Some(&self.before[index]);
        }
        let rest = self.behind.len();
        let past = index - front;
        if past >= rest {
            return None;
        }
        Some(&self.behind[rest - 1 - past])
    }

    /// Puts an item in before the one with the index, or behind the last one.
    pub fn insert(&mut self, index: usize, item: T) -> Result<(), AllocError>
        requires { index ≤ length (items self.old) }
        ensures ok { OnOk result (items self.new ≡ inserted (items self.old) index item) }
        ensures err { OnErr result (items self.new ≡ items self.old) }
    {
        self.come_near(index);
        self.put(index, item)
    }

    /// Takes out the item with the index.
    pub fn remove(&mut self, index: usize) -> T
        requires { index < length (items self.old) }
        ensures item { result ≡ slice_index_or (items self.old) index result }
        ensures left { items self.new ≡ removed (items self.old) index }
    {
        self.come_near(index);
        self.take(index)
    }

    /// The items, in one piece. Where a growth is refused the list comes back.
    pub fn into_vec(self) -> Result<Vec<T>, GapList<T>>
        ensures ok { IfOk result (λ v. v.items ≡ items self) }
        ensures err { IfErr result (λ g. items g ≡ items self) }
    {
        let mut list = self;
        let rest = list.behind.len();
        if list.raise(rest).is_err() {
            return Err(list);
        }
        let GapList {
            before,
            behind: _,
            last: _,
        } = list;
        Ok(before)
    }

    /// Moves the gap to the index, if the last change was near it. Where a growth is refused it stays on the way: a change then
    /// moves more items.
    fn come_near(&mut self, index: usize)
        ensures { items self.new ≡ items self.old }
    {
        if index.abs_diff(self.last) <= NEAR {
            let front = self.before.len();
            let _moved = if index < front {
                self.lower(front - index)
            } else {
                self.raise(index - front)
            };
        }
        self.last = index;
    }

    /// Moves so many items from before the gap behind it, at most all.
    fn lower(&mut self, count: usize) -> Result<(), AllocError>
        ensures { items self.new ≡ items self.old }
    {
        for _ in 0..count {
            self.behind.reserve(1)?;
            let Some(item) = self.before.pop() else {
                return Ok(());
            };
            self.behind.push(item)?;
        }
        Ok(())
    }

    /// Moves so many items from behind the gap before it, at most all.
    fn raise(&mut self, count: usize) -> Result<(), AllocError>
        ensures same { items self.new ≡ items self.old }
        ensures left { OnOk result (vec_len self.new.behind ≡ vec_len self.old.behind - count) }
    {
        for _ in 0..count {
            self.before.reserve(1)?;
            let Some(item) = self.behind.pop() else {
                return Ok(());
            };
            self.before.push(item)?;
        }
        Ok(())
    }

    /// Puts an item in; the gap stays where it is.
    fn put(&mut self, index: usize, item: T) -> Result<(), AllocError>
        requires { index ≤ length (items self.old) }
        ensures ok { OnOk result (items self.new ≡ inserted (items self.old) index item) }
        ensures err { OnErr result (items self.new ≡ items self.old) }
    {
        let front = self.before.len();
        if index <= front {
            self.before.insert(index, item)?;
        } else {
            let place = self.behind.len() - (index - front);
            self.behind.insert(place, item)?;
        }
        Ok(())
    }

    /// Takes an item out; the gap stays where it is.
    fn take(&mut self, index: usize) -> T
        requires { index < length (items self.old) }
        ensures item { result ≡ slice_index_or (items self.old) index result }
        ensures left { items self.new ≡ removed (items self.old) index }
    {
        let front = self.before.len();
        if index < front {
            return self.before.remove(index);
        }
        let place = self.behind.len() - 1 - (index - front);
        self.behind.remove(place)
    }
}
