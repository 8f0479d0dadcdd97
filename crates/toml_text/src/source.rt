ghost use Rattle.std.specs.Prelude.{◌≡◌, ◌≤◌, ◌↔◌, ◌+◌, length, drop, slice_range, IsTrue, IfSome};
ghost use Rattle.std.specs.Str.{IsCharBoundary};
ghost use Rattle.toml_text.specs.Limit.{IsText};

use crate::fault::TextFault;
use crate::scan::{comment_len, newline_len, ws_len};
use crate::span::Span;

/// The greatest number of bytes of a text: 16 MiB.
pub const MAX_LEN: usize = 16_777_216;

/// A text: UTF-8 of at most `MAX_LEN` bytes. Places in it are byte offsets, from 0.
#[derive(Clone, Copy)]
pub struct Source<'t> {
    text: &'t str,
    // UTF-8 within the limit
    pub ghost is_text: { IsText text.now },
}

impl<'t> Source<'t> {
    ghost use Rattle.toml_text.specs.Bytes.{is_ws};
    ghost use Rattle.toml_text.specs.Forms.{IsWs, IsNewline, IsComment};
    ghost use Rattle.toml_text.specs.Longest.{IsLongest, IsLongestIfAny};
    ghost use Rattle.toml_text.specs.Runs.{run_len, newline_len, comment_len, EndsAfter};
    ghost use Rattle.toml_text.specs.Source.{text_of, IsNewSource, IsHeld};

    /// The bytes as a text. `NotUtf8` is told before `TooLong`.
    pub fn new(bytes: &'t [u8]) -> Result<Self, TextFault>
        ensures { IsNewSource bytes.now result }
    {
        match simdutf8::compat::from_utf8(bytes) {
            Err(error) => Err(TextFault::NotUtf8 {
                at: error.valid_up_to(),
            }),
            Ok(text) => {
                if text.len() > MAX_LEN {
                    return Err(TextFault::TooLong);
                }
                Ok(Source { text })
            }
        }
    }

    /// The number of its bytes.
    pub fn len(self) -> usize
        ensures { result ≡ length (text_of self.entry) }
    {
        self.text.len()
    }

    /// Whether the span lies in the text and cuts no character.
    pub fn holds(self, span: Span) -> bool
        ensures { IsTrue result ↔ IsHeld (text_of self.entry) span }
    {
        span.start <= span.end
            && self.text.is_char_boundary(span.start)
            && self.text.is_char_boundary(span.end)
    }

    /// The text of a span.
    pub fn slice(self, span: Span) -> &'t str
        requires { IsHeld (text_of self) span }
        ensures { result.now ≡ slice_range (text_of self.entry) span.start span.end }
    {
        &self.text[span.start..span.end]
    }

    /// Where the longest run of tabs and spaces that begins at `at` ends.
    pub fn ws_end(self, at: usize) -> usize
        requires { IsCharBoundary (text_of self) at }
        ensures longest { IsLongest IsWs (text_of self.entry) at result }
        ensures exact { result ≡ at + run_len is_ws (drop at (text_of self.entry)) }
        ensures bound { IsCharBoundary (text_of self.entry) result }
    {
        at + ws_len(self.bytes_from(at))
    }

    /// Where the newline at `at` ends, if one stands there.
    pub fn newline_end(self, at: usize) -> Option<usize>
        requires { IsCharBoundary (text_of self) at }
        ensures longest { IsLongestIfAny IsNewline (text_of self.entry) at result }
        ensures exact { EndsAfter at (newline_len (drop at (text_of self.entry))) result }
        ensures bound { IfSome result (IsCharBoundary (text_of self.entry)) }
    {
        match newline_len(self.bytes_from(at)) {
            0 => None,
            len => Some(at + len),
        }
    }

    /// Where the longest comment at `at` ends, if a `#` stands there.
    pub fn comment_end(self, at: usize) -> Option<usize>
        requires { IsCharBoundary (text_of self) at }
        ensures longest { IsLongestIfAny IsComment (text_of self.entry) at result }
        ensures exact { EndsAfter at (comment_len (drop at (text_of self.entry))) result }
        ensures bound { IfSome result (IsCharBoundary (text_of self.entry)) }
    {
        match comment_len(self.bytes_from(at)) {
            0 => None,
            len => Some(at + len),
        }
    }

    /// The bytes from `at` on.
    fn bytes_from(self, at: usize) -> &'t [u8]
        requires { at ≤ length (text_of self) }
        ensures { result.now ≡ drop at (text_of self.entry) }
    {
        &self.text.as_bytes()[at..]
    }
}
