//! What a key part and a value mean by themselves.

pub mod keys;
pub mod scalars;
pub mod values;
