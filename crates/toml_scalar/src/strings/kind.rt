/// The four kinds of string (TOML v1.0.0, String).
#[derive(Clone, Copy, Debug, PartialEq, Eq)]
pub enum StringKind {
    Basic,
    MultiLineBasic,
    Literal,
    MultiLineLiteral,
}
