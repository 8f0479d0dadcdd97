//! The commands: what each comes to, by the bytes of what it reads.
#![tactic(auto)]

mod answering;
mod apply;
mod certify;
mod check;
mod document;
mod edit;
mod edit_list;
mod explaining;
mod get;
mod judging;
pub mod laws;
mod list;
mod one;
mod show;
mod verify;

pub use answering::{MOST, Source, answer, sources};
pub use apply::run_apply_in;
pub use certify::{run_certify, run_certify_in};
pub use check::{run_check, run_check_in};
pub use edit::{run_edit, run_edit_in};
pub use explaining::{explained, explained_check, explains};
pub use get::{GetForm, run_get, run_get_in};
pub use list::{run_list, run_list_in};
pub use one::run_one_in;
pub use show::{run_show, run_show_in};
pub use verify::{run_verify, run_verify_in};
