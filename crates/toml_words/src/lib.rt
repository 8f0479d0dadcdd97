//! The words of the command line, and what they ask.
#![tactic(auto)]

mod arguments;
mod asking;
mod command_line;
mod commands;
mod marking;
mod request;
mod told;
mod values;

pub use asking::{WordsFault, read_words};
pub use marking::marked_words;
pub use request::{Destination, Form, Layout, NewValue, OneEdit, Request, STANDARD_INPUT};
pub use told::{ParserText, parser_text};
pub use values::is_input;
