//! The edits that one line of words stands for: an edit at a place, and what is made above it.
#![tactic(auto)]

pub mod laws;
mod parents;
mod steps;
mod wish;

pub use wish::{Wish, edits_at};
