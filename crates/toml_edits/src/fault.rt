ghost use Rattle.std.specs.Prelude.{◌≡◌};
ghost use Rattle.toml_edits.specs.declared.fault.EditFault.TheVariants as edits;
ghost use Rattle.toml_edits.specs.declared.fault.EditsFault.TheVariants as lists;

use std::alloc::{AllocError, AllocFailed};
use thiserror::Error;

/// Why bytes are no edit list.
#[derive(Debug, Drop, Error)]
pub enum EditsFault {
    /// The bytes are no JSON list.
    #[error("not a JSON list")]
    NotAList,
    /// The first entry that is no edit, counted from 0.
    #[error("entry {index} is no edit")]
    BadEdits { index: usize },
    /// A growth was refused.
    #[error("no memory")]
    NoMemory,
}

/// Why an edit is refused. The first that holds is told.
#[derive(Debug, Drop, Error)]
pub enum EditFault {
    /// The address is that of the root.
    #[error("the root can't be edited")]
    RootNamed,
    /// `element`: the last step is a name, or no name stands directly before it.
    #[error("not the place of an element of an array of tables")]
    NotAnElement,
    /// `set`, `insert`: the text is longer than a text may be, is not one value, or a key in it breaks the table rules.
    #[error("not one TOML value")]
    BadValue,
    /// `set`, `rename`, `remove`: nothing stands at the address; `insert`, `section`: nothing stands at its parent;
    /// `element`: nothing stands at the parent of the array.
    #[error("nothing stands there")]
    NoSuchPlace,
    /// `insert` and `section` of a name: the parent is no table; `element`: the parent of the array is none.
    #[error("the parent is no table")]
    NotATable,
    /// `insert` at an index: the parent is no array, or the index is greater than its length; `element`: the parent is
    /// there and is no array, or the index is not its length, 0 where it is not there.
    #[error("the parent is no array, or has another number of elements")]
    IndexOutside,
    /// `rename`, `section`: the last step is an index.
    #[error("an element has no name")]
    NotAName,
    /// `insert`, `section`: the table has the name; `rename`: it has the new name.
    #[error("the name is there already")]
    AlreadyThere,
    /// An address of the result would have more than 100 steps (`rename` and `remove` make no longer ones).
    #[error("an address would have more than 100 steps")]
    AddressLength,
    /// A growth was refused.
    #[error("no memory")]
    NoMemory,
}

impl From<AllocError> for EditsFault {
    ghost from_gives = { λ _ e. e ≡ lists.NoMemory };

    fn from(_: AllocError) -> EditsFault {
        EditsFault::NoMemory
    }
}

impl<T: Drop> From<AllocFailed<T>> for EditsFault {
    ghost from_gives = { λ _ e. e ≡ lists.NoMemory };

    fn from(_: AllocFailed<T>) -> EditsFault {
        EditsFault::NoMemory
    }
}

impl From<AllocError> for EditFault {
    ghost from_gives = { λ _ e. e ≡ edits.NoMemory };

    fn from(_: AllocError) -> EditFault {
        EditFault::NoMemory
    }
}
