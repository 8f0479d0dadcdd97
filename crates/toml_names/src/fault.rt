//! Why names are refused.
ghost use Rattle.std.specs.Prelude.{◌≡◌};
ghost use Rattle.toml_names.specs.declared.fault.NameFault.TheVariants as names;
ghost use Rattle.toml_names.specs.declared.fault.ReadFault.TheVariants as reads;
ghost use Rattle.toml_names.specs.declared.fault.ValueFault.TheVariants as values;

use crate::model::address::Address;
use std::alloc::{AllocError, AllocFailed};
use toml_tree::SyntaxFault;

/// Why the names of a document are refused. Lines are counted from 0, as the tree has them.
#[derive(Drop)]
pub enum NameFault {
    /// The first line that breaks the table rules, and the address of its first mention that does.
    Redefined { line: usize, address: Address },
    /// The first line that keeps the rules and has an address of more than 100 steps.
    LongAddress { line: usize },
    /// A growth was refused.
    NoMemory,
}

impl From<AllocError> for NameFault {
    ghost from_gives = { λ _ e. e ≡ names.NoMemory };

    fn from(_: AllocError) -> NameFault {
        NameFault::NoMemory
    }
}

impl<T: Drop> From<AllocFailed<T>> for NameFault {
    ghost from_gives = { λ _ e. e ≡ names.NoMemory };

    fn from(_: AllocFailed<T>) -> NameFault {
        NameFault::NoMemory
    }
}

/// Why a text is no document. `NoMemory`, in either, says nothing of the text.
#[derive(Drop)]
pub enum ReadFault {
    /// No tree of the profile spells it.
    Syntax(SyntaxFault),
    /// The names of its tree are refused.
    Names(NameFault),
}

impl ReadFault {
    ghost use Rattle.std.specs.Prelude.{OnErr, OnOk};
    ghost use Rattle.toml_names.specs.reader.Texts.{IsOfMemory};

    /// Ok where it says something of the text: memory did not lack.
    pub fn told(self) -> Result<(), AllocError>
        ensures says { OnOk result (¬ (IsOfMemory self)) }
        ensures lacks { OnErr result (IsOfMemory self) }
    {
        match self {
            ReadFault::Syntax(SyntaxFault::NoMemory) => Err(AllocError),
            ReadFault::Names(NameFault::NoMemory) => Err(AllocError),
            _ => Ok(()),
        }
    }
}

impl From<SyntaxFault> for ReadFault {
    ghost from_gives = { λ fault e. e ≡ reads.Syntax fault };

    fn from(fault: SyntaxFault) -> ReadFault {
        ReadFault::Syntax(fault)
    }
}

impl From<NameFault> for ReadFault {
    ghost from_gives = { λ fault e. e ≡ reads.Names fault };

    fn from(fault: NameFault) -> ReadFault {
        ReadFault::Names(fault)
    }
}

impl From<AllocError> for ReadFault {
    ghost from_gives = { λ _ e. e ≡ reads.Names names.NoMemory };

    fn from(_: AllocError) -> ReadFault {
        ReadFault::Names(NameFault::NoMemory)
    }
}

/// Why the data of a value are refused.
#[derive(Debug, Clone, Copy, PartialEq, Eq)]
pub enum ValueFault {
    /// The mentions inside it break the table rules.
    Rules,
    /// They keep the rules, and an address counted from the value has more than 100 steps.
    Long,
    /// A growth was refused.
    NoMemory,
}

impl From<AllocError> for ValueFault {
    ghost from_gives = { λ _ e. e ≡ values.NoMemory };

    fn from(_: AllocError) -> ValueFault {
        ValueFault::NoMemory
    }
}
