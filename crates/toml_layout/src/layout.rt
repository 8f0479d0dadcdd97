//! How new text is laid out.

/// How an edit writes what is new, and what it leaves where it takes something out.
#[derive(Clone, Copy)]
pub enum Layout {
    /// Always in the same way, whatever stands beside it.
    Plain,
    /// As its neighbours are written: an item on a line of its own where they stand so, a line as far in as they are. Where no
    /// neighbour says how, as `Plain`.
    Follow,
}
