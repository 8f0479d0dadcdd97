//! What stands at a place of a document, as bytes for a person or a script.
#![tactic(auto)]

mod form;
mod json_text;
pub mod laws;
mod printing;
mod scalars;
mod style;
mod tagged_json;
mod value_at;
mod values;

pub use form::Form;
pub use json_text::write_tagged;
pub use printing::print_at;
pub use tagged_json::tagged;
pub use value_at::{ValueText, value_text};
