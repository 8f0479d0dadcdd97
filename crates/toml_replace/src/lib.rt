//! A file gets another text, whole or not at all: the text is written to a new file beside it, which is renamed over it.
#![tactic(auto)]

mod beside;
mod disk;
mod fault;
mod real;
mod replacing;
#[cfg(test)]
mod tests;

pub use disk::Disk;
pub use fault::ReplaceFault;
pub use real::RealDisk;
pub use replacing::{refuse_same, replace};
