//! The working tree: the lines of a document, opened where an edit changes something on them, the changes of the six edits,
//! and the pieces of the text that then stands there. No judge is known here.
#![tactic(auto)]

mod comments;
mod elements;
mod emptying;
mod flat;
mod guessing;
mod headers;
mod implied;
mod inserting;
mod inside;
pub mod laws;
mod lines;
mod looks;
mod neighbours;
mod pieces;
mod placing;
mod reading;
mod removing;
mod renaming;
mod sections;
mod seen;
mod setting;
mod starting;
mod steps;
mod taking;
mod working;
mod writing;

pub use elements::Elements;
pub use flat::is_flat;
pub use pieces::Pieces;
pub use placing::Guesses;
pub use reading::{LineFacts, ReadDocument, let_go, read_document};
pub use removing::parent_of;
pub use sections::{Above, NewHeader, innermost_element};
pub use working::{Before, Tree};
