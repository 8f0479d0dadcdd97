//! Refusal lines.
ghost use Rattle.std.specs.Prelude.{◌≡◌, IfOk, string_bytes};
ghost use Rattle.toml_delivery.specs.Refusals.{refusal_line};

use std::alloc::{AllocError, Global};

/// Why a text is refused: a code, and a place that is a byte from 0, or a line's or an edit's number.
/// A value over several lines of the file counts as one line.
#[derive(Clone, Copy, Debug, PartialEq, Eq)]
pub struct Refusal {
    pub code: u16,
    pub place: usize,
}

impl Refusal {
    /// The line `refused CODE PLACE`, with LF.
    pub fn line(self, alloc: Global) -> Result<String, AllocError>
        ensures { IfOk result (λ line. string_bytes line ≡ refusal_line self) }
    {
        format!(in alloc; "refused {} {}\n", self.code, self.place)
    }
}
