//! Where a text mentions an address: which part of which key names it, in which role, and which mention of it breaks the table rules.
#![tactic(auto)]

pub mod laws;
mod redefined;
mod role;
mod seeker;
mod seeking;
mod way;

pub use redefined::{Redefined, find_redefined};
pub use role::Role;
pub use seeker::{Clash, Mention};
pub use seeking::find_spot;
