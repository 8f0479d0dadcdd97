/// In which form something is printed.
#[derive(Clone, Copy, Debug, Drop, PartialEq, Eq)]
pub enum Form {
    /// A scalar by its text alone, a string's characters as they are; an array and a table as JSON.
    Plain,
    /// JSON. A string, a date or a time is a string there, an integer a number, a float a number by its text; `inf`, `-inf` and
    /// `nan` are strings. An array is a list, a table an object with its members in the order of their names' bytes.
    Json,
    /// Tagged JSON, toml-test's convention.
    Tagged,
    /// The name of its type.
    TypeName,
}
