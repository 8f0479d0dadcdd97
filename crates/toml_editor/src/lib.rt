//! The editor: it writes what edits make of a document, keeps all else byte for byte, and hands out nothing that the judge
//! has not said yes to.
#![tactic(auto)]

mod editing;
mod fault;
pub mod laws;
mod making;
mod spelled;

pub use editing::{
    edit, edit_at_exit, edit_in, edit_pieces, edit_pieces_in, edit_with, edit_with_at_exit,
};
pub use fault::EditorFault;
pub use toml_layout::Layout;
