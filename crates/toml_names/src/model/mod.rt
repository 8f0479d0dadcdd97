//! The data of a document: names, addresses, what stands at each of them, and where in the text; parts of data that
//! change places.

pub mod address;
pub mod address_set;
pub mod datum;
pub mod name;
pub mod parts;
pub mod place;
