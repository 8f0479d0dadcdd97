//! Places: texts of a command line that name an address of a document, as `users[0].name` or `x[-1][+]`.
#![tactic(auto)]

mod fault;
pub mod laws;
mod leading;
mod number;
mod place;
mod reader;
mod reading;
mod spelling;

pub use fault::PlaceFault;
pub use leading::{part_at, part_in, step_in};
pub use place::{Place, PlaceStep, read_place};
pub use spelling::spell_place;
