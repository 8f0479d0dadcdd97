/// The four kinds of a date or a time (TOML v1.0.0, Offset Date-Time to Local Time).
#[derive(Clone, Copy, Debug, PartialEq, Eq)]
pub enum MomentKind {
    Offset,
    Local,
    Date,
    Time,
}

/// The kind of a scalar's token.
#[derive(Clone, Copy, Debug, PartialEq, Eq)]
pub enum ScalarKind {
    Text,
    Integer,
    Float,
    Bool,
    Moment(MomentKind),
}
