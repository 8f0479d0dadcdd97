//! The tree of names, which takes one line after another: its nodes, the names in a table, what a key, a header and
//! a line enter, and what the finished tree tells.

pub mod across;
pub mod addressing;
pub mod alike;
pub mod beside;
pub mod entering;
pub mod hash_key;
pub mod hashing;
pub mod headers;
pub mod holding;
pub mod long_keys;
pub mod name_map;
pub mod name_tree;
pub mod near;
pub mod node;
pub mod parts;
pub mod places;
pub mod results;
pub mod shown;
