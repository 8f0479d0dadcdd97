//! The judge of edited texts: whether a text is what edits make of another, with all that no edit names in it as it was.
#![tactic(auto)]

mod above;
mod added;
mod arriving;
mod asking;
mod carrying;
mod counting;
mod debts;
mod edit_list;
mod facts;
mod finding;
mod frame;
mod judging;
mod kept;
pub mod laws;
mod marks;
mod outer;
mod pairs;
mod protection;
mod search;
mod sight;
mod tables;
mod unmarked;
mod verdict;
mod walk;
mod written;

pub use facts::Afterwards;
pub use finding::{Finding, find, find_at_exit, find_in, find_walked};
pub use judging::{check, check_at_exit, check_in};
pub use outer::outermost;
pub use protection::protected;
pub use verdict::{Reason, Verdict};
