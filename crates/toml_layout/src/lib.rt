//! What stands on a line, in pieces that are kept or new, and how what is put in or taken out in a value is laid out. Nothing is
//! known here of the other lines, of units and of edits.
#![tactic(auto)]

mod changing;
mod closing;
mod emptying;
mod entries;
mod gaps;
mod known;
pub mod laws;
mod layout;
mod leaving;
mod looks;
mod members;
mod opening;
mod parts;
mod texts;
mod tree;
mod values;

pub use changing::Inside;
pub use known::KnownLine;
pub use layout::Layout;
pub use looks::{Equals, Look};
pub use opening::open_value;
pub use texts::Texts;
pub use tree::{
    Assign, Blank, Brackets, Dotted, Entries, Entry, Expr, Gap, GapPart, Header, Key, KeyVal, Leaf,
    OpenLine, Value,
};
pub use values::behind;
