//! Refusals as people read them: behind a code and a number, what is wrong and where, with the line and carets below it.
#![tactic(auto)]

mod absent;
mod added;
mod carrying;
mod data;
mod differing;
mod document;
mod drawing;
mod edit;
mod excerpt;
mod expected;
mod front;
mod glyph;
mod input;
mod list;
mod lost;
mod nowhere;
mod opening;
mod origin;
mod pairs;
mod phrases;
mod place;
mod reason;
mod redefined;
mod rule;
mod runs;
mod sentence;
mod spans;
mod standing;
mod strays;
mod telling;
mod token;
mod value;
mod words;

pub use absent::explain_absent;
pub use document::explain_document;
pub use edit::explain_edit;
pub use input::Input;
pub use list::explain_list;
pub use nowhere::explain_nowhere;
pub use place::explain_place;
pub use reason::{Judged, explain_reason, explain_unverified};
