//! What a run of the program comes to, and how its bytes are read and written: whole, with each failure counted.
#![tactic(auto)]

mod counting;
mod delivery;
#[cfg(test)]
mod delivery_tests;
#[cfg(test)]
mod devices;
mod ending;
mod fault;
mod input;
mod outcome;
mod output;
mod refusal;

pub use counting::Counting;
pub use delivery::{deliver, tell};
pub use ending::Ending;
pub use fault::RunFault;
pub use input::{TakeFault, take};
pub use outcome::{Answer, Outcome};
pub use output::{EmitFault, emit};
pub use refusal::Refusal;
