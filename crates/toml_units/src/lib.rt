//! Units: the lines, comments, elements and pairs of a document, each of which an edit keeps, changes or takes away as a
//! whole.
#![tactic(auto)]

mod certificate;
mod cursor;
mod decimal;
mod fault;
pub mod laws;
mod lines;
mod opened;
mod piece;
mod reading;
mod taken;
mod unit;
mod walk;

pub use certificate::{Certificate, certificate_text, read_certificate};
pub use cursor::UnitCursor;
pub use fault::CertificateFault;
pub use lines::{units, units_at};
pub use piece::{Piece, join};
pub use taken::TakenLines;
pub use unit::{Unit, UnitKind};
pub use walk::units_inside;
