//! The lossless tree of a TOML text: each piece of it is a slice of the text.
#![tactic(auto)]

mod document;
mod gaps;
mod growing;
mod headers;
mod keys;
pub mod laws;
mod line;
mod line_reader;
mod lines;
mod parsing;
mod piece;
mod profile;
mod reader;
mod reading;
mod step;
mod text;
mod tree;
mod values;

pub use document::Doc;
pub use line::Line;
pub use line_reader::{LineReader, mark};
pub use parsing::{parse, parse_in, parse_value, parse_value_in};
pub use piece::{Blank, Gap, GapLine, LineGap, LinesGap, Piece};
pub use profile::Profile;
pub use toml_scalar::{MomentKind, ScalarKind, SyntaxFault};
pub use tree::{Array, Assign, Dotted, Expr, Header, InlineTable, Item, Key, KeyVal, Pair, Value};
