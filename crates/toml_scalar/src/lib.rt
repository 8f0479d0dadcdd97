//! The scalars of TOML and its key parts: where a token ends, and what it means.
#![tactic(auto)]

mod boolean;
mod calendar;
mod class;
mod fault;
mod float;
mod integer;
mod kind;
pub mod laws;
mod moment;
mod names;
mod read;
mod scalar;
mod scan;
mod spelling;
mod strings;

pub use fault::SyntaxFault;
pub use kind::{MomentKind, ScalarKind};
pub use names::{name_of, read_key};
pub use read::{read_scalar, scalar_of};
pub use scalar::{FloatText, Moment, Scalar, is_same};
pub use scan::{begins_key, begins_scalar, scan_key, scan_scalar};
pub use spelling::{spell_key, spell_string};
