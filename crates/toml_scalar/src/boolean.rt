//! Whether a run of bytes is a boolean, and its value.
ghost use Rattle.std.specs.Prelude.{◌≡◌, SomeIff};
ghost use Rattle.toml_scalar.specs.Booleans.{IsBool, is_bool, bool_value};

/// `boolean = true / false`
pub(crate) fn is_bool(run: &[u8]) -> bool
    ensures { result ≡ is_bool run.now }
{
    matches!(run, b"true" | b"false")
}

/// The value of a boolean, and `None` for any other run.
pub(crate) fn read_bool(run: &[u8]) -> Option<bool>
    ensures { SomeIff result (IsBool run.now) (bool_value run.now) }
{
    match run {
        b"true" => Some(true),
        b"false" => Some(false),
        _ => None,
    }
}
