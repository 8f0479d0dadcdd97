//! The names and the data of a document: what its lines mention, the table rules that the mentions keep, and what stands
//! at each address.
#![tactic(auto)]

mod fault;
pub mod laws;
mod line_names;
mod meaning;
mod mentions;
mod model;
mod names;
mod near;
mod parts_of_text;
mod reader;
mod texts;
mod tree;

pub use fault::{NameFault, ReadFault, ValueFault};
pub use line_names::LineNames;
pub use meaning::keys::{key_address, set_to_key};
pub use meaning::values::read_value;
pub use mentions::rules::MAX_STEPS;
pub use model::address::{Address, Step};
pub use model::address_set::AddressSet;
pub use model::datum::{Data, Datum, same};
pub use model::name::Name;
pub use model::place::Place;
pub use names::{Names, read_lines, read_names};
pub use parts_of_text::{NamedText, mentions_of_text, names_of_text};
pub use reader::NameReader;
pub use texts::{judge_text, refuse_names};
pub use tree::parts::Shape;
