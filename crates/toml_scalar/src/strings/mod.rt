//! Strings: their tokens at the front of some bytes, and their values.

mod advance;
mod escapes;
mod kind;
pub mod laws;
mod runs;
mod scan;
mod steps;
mod value;

pub use kind::StringKind;
pub(crate) use scan::{body_len, kind_at, string_len};
pub(crate) use value::read_string;
