//! What lines mention: the roles in which a name is mentioned, and the table rules, which say what may follow what.

pub mod mention;
pub mod rules;
