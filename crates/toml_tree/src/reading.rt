//! The reader's smallest steps: each method reads one piece at its place and moves behind it.
ghost use Rattle.std.specs.Prelude.{◌≡◌, ◌+◌, ◌-◌, ◌<◌, ◌≤◌, if◌then◌else◌, option_map};
ghost use Rattle.std.specs.Str.{IsCharBoundary};
ghost use Rattle.toml_scalar.specs.Faults.{IsAt};
ghost use Rattle.toml_text.specs.Bytes.{is_ws};
ghost use Rattle.toml_text.specs.Runs.{begins, is_byte, newline_len};
ghost use Rattle.toml_text.specs.Source.{text_of};
ghost use Rattle.toml_tree.specs.Reading.{here, ahead, up_to, run_at, comment_at, blank_at};
ghost use Rattle.toml_tree.specs.Reads.{cursor, Onward};
ghost use Rattle.toml_tree.specs.Stands.{IsAhead};
ghost use Rattle.toml_tree.specs.View.{piece, blank};

use crate::piece::{Blank, Piece};
use crate::reader::Reader;
use toml_scalar::SyntaxFault;
use toml_text::Span;

impl<'t> Reader<'t> {
    /// What stands from here on.
    #[inline]
    pub(crate) fn rest(&self) -> &'t [u8]
        ensures { result.now ≡ (cursor self.now).rest }
    {
        let end = self.source.len();
        let span = Span {
            start: self.at,
            end,
        };
        self.source.slice(span).as_bytes()
    }

    /// Takes what stands up to `end`.
    pub(crate) fn take_to(&mut self, end: usize) -> Piece<'t>
        requires order { self.old.at ≤ end }
        requires bound { IsCharBoundary (text_of self.old.source) end }
        ensures piece { piece result ≡ here (end - self.old.at) (cursor self.old) }
        ensures after { cursor self.new ≡ ahead (end - self.old.at) (cursor self.old) }
        ensures onward { Onward (cursor self.old) (cursor self.new) }
    {
        let start = self.at;
        let text = self.source.slice(Span { start, end });
        self.at = end;
        Piece { text, start }
    }

    /// The piece from here up to where the other reader stands.
    pub(crate) fn up_to(mut self, last: &Reader<'t>) -> Piece<'t>
        requires { IsAhead (cursor self) (cursor last.now) }
        ensures { piece result ≡ up_to (cursor last.now) (cursor self.entry) }
    {
        self.take_to(last.at)
    }

    /// Whether this byte stands here.
    #[inline]
    pub(crate) fn begins(&self, byte: u8) -> bool
        ensures { result ≡ begins (is_byte byte) (cursor self.now).rest }
    {
        match self.rest() {
            [first, ..] => *first == byte,
            [] => false,
        }
    }

    /// Takes the byte if it stands here.
    pub(crate) fn eat(&mut self, byte: u8) -> bool
        requires { byte < 128 }
        ensures value { result ≡ begins (is_byte byte) (cursor self.old).rest }
        ensures after { cursor self.new ≡ (if begins (is_byte byte) (cursor self.old).rest then ahead 1 (cursor self.old) else cursor self.old) }
        ensures onward { Onward (cursor self.old) (cursor self.new) }
    {
        if self.begins(byte) {
            let _ = self.take_to(self.at + 1);
            true
        } else {
            false
        }
    }

    /// The refusal for what stands here: `BadCharacter` for a control character, else `Expected`.
    pub(crate) fn refuse(&self) -> SyntaxFault
        ensures { IsAt self.now.at result }
    {
        SyntaxFault::of_byte(self.rest(), self.at)
    }

    /// `ws`
    pub(crate) fn ws(&mut self) -> Piece<'t>
        ensures piece { piece result ≡ (run_at is_ws (cursor self.old)).0 }
        ensures after { cursor self.new ≡ (run_at is_ws (cursor self.old)).1 }
        ensures onward { Onward (cursor self.old) (cursor self.new) }
    {
        let end = self.source.ws_end(self.at);
        self.take_to(end)
    }

    /// The newline, or an empty piece.
    pub(crate) fn newline(&mut self) -> Piece<'t>
        ensures piece { piece result ≡ here (newline_len (cursor self.old).rest) (cursor self.old) }
        ensures after { cursor self.new ≡ ahead (newline_len (cursor self.old).rest) (cursor self.old) }
        ensures onward { Onward (cursor self.old) (cursor self.new) }
    {
        match self.source.newline_end(self.at) {
            Some(end) => self.take_to(end),
            None => self.take_to(self.at),
        }
    }

    /// `comment`, if one stands here.
    pub(crate) fn comment(&mut self) -> Option<Piece<'t>>
        ensures piece { option_map piece result ≡ (comment_at (cursor self.old)).0 }
        ensures after { cursor self.new ≡ (comment_at (cursor self.old)).1 }
        ensures onward { Onward (cursor self.old) (cursor self.new) }
    {
        match self.source.comment_end(self.at) {
            Some(end) => Some(self.take_to(end)),
            None => None,
        }
    }

    /// `ws [ comment ]`
    #[tactic(auto, unfolding(crate::specs::Reading::blank_at))]
    pub(crate) fn blank(&mut self) -> Blank<'t>
        ensures value { blank result ≡ (blank_at (cursor self.old)).0 }
        ensures after { cursor self.new ≡ (blank_at (cursor self.old)).1 }
        ensures onward { Onward (cursor self.old) (cursor self.new) }
    {
        let ws = self.ws();
        let comment = self.comment();
        Blank { ws, comment }
    }
}
