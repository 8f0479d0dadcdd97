//! What the token of a scalar means.
ghost use Rattle.std.specs.Prelude.{◌≡◌, IfOk};
ghost use Rattle.toml_scalar.specs.Values.{scalar_value};
ghost use Rattle.toml_names.specs.mentions.Mentions.{token_value};

use std::alloc::{AllocError, Global};
use toml_scalar::{Scalar, ScalarKind, scalar_of};

/// The value that a token of the kind spells; a token that spells none, which no tree has, counts as the empty text.
pub(crate) fn value_spelled(
    alloc: Global,
    kind: ScalarKind,
    token: &str,
) -> Result<Scalar, AllocError>
    ensures { IfOk result (λ s. scalar_value s ≡ token_value kind token.now) }
{
    match scalar_of(alloc, kind, token)? {
        Some(scalar) => Ok(scalar),
        None => Ok(Scalar::Text(String::new(alloc))),
    }
}
