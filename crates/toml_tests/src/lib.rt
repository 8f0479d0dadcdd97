//! Worked rows of the libraries, for what no command of `tomled` shows, and calls that no command makes. They stand in a crate
//! of their own, since a crate is proved once more with its tests.
#![tactic(auto)]

#[cfg(test)]
mod ample;
#[cfg(test)]
mod checker;
#[cfg(test)]
mod commands;
#[cfg(test)]
mod editor;
#[cfg(test)]
mod edits;
#[cfg(test)]
mod explain;
#[cfg(test)]
mod memory;
#[cfg(test)]
mod names;
#[cfg(test)]
mod one;
#[cfg(test)]
mod places;
#[cfg(test)]
mod reader;
#[cfg(test)]
mod rows;
#[cfg(test)]
mod scalars;
#[cfg(test)]
mod text;
#[cfg(test)]
mod tree;
#[cfg(test)]
mod units;
#[cfg(test)]
mod words;
#[cfg(test)]
mod worked;
#[cfg(test)]
mod written;
