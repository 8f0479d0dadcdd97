//! A list that is changed mostly where it was changed last.
#![tactic(auto)]

mod gap_list;

pub use gap_list::{GapList, Side};
