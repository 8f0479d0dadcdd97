/// How the scalars in JSON are written.
#[derive(Clone, Copy)]
pub(crate) enum Style {
    /// As JSON has them.
    Plain,
    /// Each with its type.
    Tagged,
}
