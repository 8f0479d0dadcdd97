ghost use Rattle.std.specs.Prelude.{◌≡◌, ◌↔◌, IsTrue};
ghost use Rattle.toml_scalar.specs.Values.{scalar_value};

use crate::kind::MomentKind;

/// What a float stands for: its spelling without underscores and without a leading `+`, with `E` as `e`,
/// and `-nan` as `nan`.
#[derive(Debug, Drop, PartialEq, Eq)]
pub struct FloatText {
    pub text: String,
}

/// What a date or a time stands for: its kind, and its spelling with `T` between date and time and with `Z`.
#[derive(Debug, Drop, PartialEq, Eq)]
pub struct Moment {
    pub kind: MomentKind,
    pub text: String,
}

/// The value of a scalar.
///
/// Two are equal where they are of one variant and hold the same: `1.0` and `1.00` differ.
#[derive(Debug, Drop, PartialEq, Eq)]
pub enum Scalar {
    Text(String),
    Integer(i64),
    Float(FloatText),
    Bool(bool),
    Moment(Moment),
}

/// Whether two scalars are of one variant and hold the same. It is what `==` answers.
pub fn is_same(one: &Scalar, other: &Scalar) -> bool
    ensures { IsTrue result ↔ (scalar_value one.now ≡ scalar_value other.now) }
{
    one == other
}
