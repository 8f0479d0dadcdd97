//! Why an edit is not made.
ghost use Rattle.std.specs.Prelude.{◌≡◌};

use std::alloc::{AllocError, AllocFailed};
use std::fmt;
use thiserror::Error;
use toml_checker::Reason;
use toml_edits::EditFault;
use toml_names::NameFault;
use toml_text::TextFault;
use toml_tree::SyntaxFault;

/// Why no edited text is handed out: the first cause in this order, of the edits the first one's. The numbers of edits are
/// counted from 0.
#[derive(Drop, Error)]
pub enum EditorFault {
    /// The bytes are no text.
    #[error("not UTF-8, or too long")]
    Text(TextFault),
    /// The text is no TOML document by its syntax.
    #[error("not a TOML document")]
    Syntax(SyntaxFault),
    /// The names of the document break the table rules, or reach too deep.
    #[error("a name of the document breaks the table rules")]
    Names(NameFault),
    /// The edit is not defined on the data so far.
    #[error("edit {index}: {fault}")]
    Edit { index: usize, fault: EditFault },
    /// `set`: what stands at the address is no single value; `insert`: the parent is an array of tables;
    /// `section`: the parent is a value, or stands in one; `element`: the array or its parent is one, or stands in one.
    #[error("edit {index}: its place is spread over several expressions")]
    Spread { index: usize },
    /// `remove`: the only element of an array of tables.
    #[error("edit {index}: the only element of an array of tables")]
    LastElement { index: usize },
    /// The edited text would be longer than a text may be.
    #[error("the edited text is too long")]
    TooLong,
    /// The judge found no certificate of the edited text: the first demand that none meets.
    #[error("the edited text is not certified")]
    Unverified(Reason),
    /// A growth was refused.
    #[error("no memory")]
    NoMemory,
}

impl fmt::Debug for EditorFault {
    fn fmt<W: fmt::Write>(&self, f: &mut fmt::Formatter<W>) -> fmt::Result {
        write!(f, "{self}")
    }
}

impl From<AllocError> for EditorFault {
    ghost use Rattle.toml_editor.specs.declared.fault.EditorFault.TheVariants.{NoMemory};

    ghost from_gives = { λ _ fault. fault ≡ NoMemory };

    fn from(_error: AllocError) -> EditorFault {
        EditorFault::NoMemory
    }
}

impl<T: Drop> From<AllocFailed<T>> for EditorFault {
    ghost use Rattle.toml_editor.specs.declared.fault.EditorFault.TheVariants.{NoMemory};

    ghost from_gives = { λ _ fault. fault ≡ NoMemory };

    fn from(_error: AllocFailed<T>) -> EditorFault {
        EditorFault::NoMemory
    }
}

impl From<TextFault> for EditorFault {
    ghost use Rattle.toml_editor.specs.declared.fault.EditorFault.TheVariants.{Text};

    ghost from_gives = { λ given fault. fault ≡ Text given };

    fn from(given: TextFault) -> EditorFault {
        EditorFault::Text(given)
    }
}

impl From<SyntaxFault> for EditorFault {
    ghost use Rattle.toml_editor.specs.Faults.{of_syntax};

    ghost from_gives = { λ given fault. fault ≡ of_syntax given };

    fn from(given: SyntaxFault) -> EditorFault {
        match given {
            SyntaxFault::NoMemory => EditorFault::NoMemory,
            other => EditorFault::Syntax(other),
        }
    }
}

impl From<NameFault> for EditorFault {
    ghost use Rattle.toml_editor.specs.Faults.{of_names};

    ghost from_gives = { λ given fault. fault ≡ of_names given };

    fn from(given: NameFault) -> EditorFault {
        match given {
            NameFault::NoMemory => EditorFault::NoMemory,
            other => EditorFault::Names(other),
        }
    }
}
