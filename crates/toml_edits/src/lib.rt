//! Edits on data: what an edit is, what it makes of the data, and where every other thing then stands.
#![tactic(auto)]

mod applying;
mod carrying;
mod change;
mod course;
mod draft;
mod edit;
mod exchange;
mod fault;
pub mod laws;
mod list;
mod making;
mod moves;
mod near;
mod open_array;
mod reach;
mod shifts;
mod side;
mod value;
mod walking;

pub use applying::{apply, apply_in};
pub use carrying::carry;
pub use course::{Course, course_of};
pub use draft::Draft;
pub use edit::{Edit, place};
pub use fault::{EditFault, EditsFault};
pub use list::read_edits;
pub use moves::{Moves, moves_of};
pub use near::near_addresses;
pub use side::{Side, side_of};
pub use walking::{Carried, Sight, Trace};
