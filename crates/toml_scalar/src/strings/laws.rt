//! Laws over the definitions: each function's contract is one or more, and nothing is run.
ghost use Rattle.toml_scalar.specs.StringLaws.{StringIsSound, StringIsFound, StringIsLongest, StringHasValue, ValueIsMeant, OneStringKind, OneStringValue, StringBegins};

/// The length that is found at the front is that of the longest string there.
pub fn string_lengths()
    ensures sound { StringIsSound }
    ensures found { StringIsFound }
    ensures longest { StringIsLongest }
{}

/// A text is a string of at most one kind and value, and its value is the one that is computed.
pub fn string_values()
    ensures found { StringHasValue }
    ensures meant { ValueIsMeant }
    ensures one_kind { OneStringKind }
    ensures one_value { OneStringValue }
{}

/// A string begins with the mark of its kind.
pub fn string_marks()
    ensures { StringBegins }
{}
