/// Which texts are TOML: profile 1 is TOML v1.0.0. Profile 2 differs from it in inline tables alone: newlines and comments
/// may stand before and behind each pair, and behind the last a comma, with newlines and comments behind that too, as in an
/// array. In an inline table without a pair newlines and comments may stand too, and no comma.
#[derive(Clone, Copy, Debug, PartialEq, Eq)]
pub enum Profile {
    One,
    Two,
}
