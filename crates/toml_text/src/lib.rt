//! The text of a document: its bytes as UTF-8 of bounded length, its parts by byte offsets, and the
//! whitespace, newlines and comments in it.
#![tactic(auto)]

mod fault;
pub mod laws;
mod lines;
mod scan;
mod source;
mod span;
mod unmarked;

pub use fault::TextFault;
pub use lines::position;
pub use scan::{newline_len, ws_len};
pub use source::{MAX_LEN, Source};
pub use span::{Position, Span};
pub use unmarked::unmarked_len;
