//! Reads a place from its front: each method reads one piece and moves behind it.
ghost use Rattle.std.specs.Prelude.{◌≡◌, ◌==◌, ◌<◌, if◌then◌else◌};
ghost use Rattle.toml_text.specs.Runs.{begins, is_byte};
ghost use Rattle.toml_text.specs.Source.{text_of};
ghost use Rattle.toml_places.specs.Reading.{ahead, behind_ws, bracketed_at, byte_at, dotted_at, from_end_at, index_at, number_at, part_at, place_at, step_at, named_at};
ghost use Rattle.toml_places.specs.Reads.{cursor, Reads, Tells};
ghost use Rattle.toml_places.specs.declared.fault.PlaceFault.TheVariants.{BadPlace};

use crate::fault::PlaceFault;
use crate::number::numeral_len;
use crate::place::PlaceStep;
use crate::reader::Reader;
use std::alloc::Global;
use toml_names::Name;
use toml_scalar::{name_of, scan_key};
use toml_text::{Source, Span};

impl<'t> Reader<'t> {
    ghost use Rattle.std.specs.Prelude.{length};
    ghost use Rattle.toml_places.specs.Reading.{Cursor};

    /// Stands before the whole text.
    pub(crate) fn new(source: Source<'t>) -> Reader<'t>
        ensures { cursor result ≡ record { at = 0; rest = text_of source.entry } }
    {
        Reader { source, at: 0 }
    }

    /// What stands from here on.
    fn rest(&self) -> &'t [u8]
        ensures { result.now ≡ (cursor self.now).rest }
    {
        let end = self.source.len();
        let span = Span {
            start: self.at,
            end,
        };
        self.source.slice(span).as_bytes()
    }

    /// The refusal of what stands here.
    fn refuse(&self) -> PlaceFault
        ensures { result ≡ BadPlace (cursor self.now).at }
    {
        PlaceFault::BadPlace { at: self.at }
    }

    /// Whether this byte stands here.
    fn begins(&self, byte: u8) -> bool
        ensures { result ≡ begins (is_byte byte) (cursor self.now).rest }
    {
        match self.rest() {
            [first, ..] => *first == byte,
            [] => false,
        }
    }

    /// Takes the byte if it stands here.
    fn eat(&mut self, byte: u8) -> bool
        requires { byte < 128 }
        ensures value { result ≡ begins (is_byte byte) (cursor self.old).rest }
        ensures after { cursor self.new ≡ (if begins (is_byte byte) (cursor self.old).rest then ahead 1 (cursor self.old) else cursor self.old) }
    {
        if self.begins(byte) {
            self.at += 1;
            true
        } else {
            false
        }
    }

    /// Takes the byte, which has to stand here.
    #[tactic(auto, unfolding(crate::specs::Reading::byte_at))]
    fn byte(&mut self, byte: u8) -> Result<(), PlaceFault>
        requires { byte < 128 }
        ensures { Reads (λ u. u) (cursor self.new) result (byte_at byte (cursor self.old)) }
    {
        if self.eat(byte) {
            Ok(())
        } else {
            Err(self.refuse())
        }
    }

    /// `ws`
    #[tactic(auto, unfolding(crate::specs::Reading::behind_ws))]
    fn ws(&mut self)
        ensures { cursor self.new ≡ behind_ws (cursor self.old) }
    {
        self.at = self.source.ws_end(self.at);
    }

    /// `part`: a key part, by its name.
    fn part(&mut self, alloc: Global) -> Result<Name, PlaceFault>
        ensures { Reads (λ name. name) (cursor self.new) result (part_at (cursor self.old)) }
    {
        let Ok(span) = scan_key(self.source, self.at) else {
            return Err(self.refuse());
        };
        match name_of(alloc, self.source.slice(span))? {
            Some(name) => {
                self.at = span.end;
                Ok(Name::spelled(alloc, name.as_str())?)
            }
            None => Err(self.refuse()),
        }
    }

    /// `number`
    fn number(&mut self) -> Result<u64, PlaceFault>
        ensures { Reads (λ n. n) (cursor self.new) result (number_at (cursor self.old)) }
    {
        let end = self.at + numeral_len(self.rest());
        let span = Span {
            start: self.at,
            end,
        };
        match self.source.slice(span).parse::<u64>() {
            Ok(number) => {
                self.at = end;
                Ok(number)
            }
            Err(_) => Err(self.refuse()),
        }
    }

    /// `number` behind `[-`, which is not 0.
    #[tactic(auto, unfolding(crate::specs::Reading::from_end_at))]
    fn from_end(&mut self) -> Result<PlaceStep, PlaceFault>
        ensures { Reads (λ s. s) (cursor self.new) result (from_end_at (cursor self.old)) }
    {
        let digit = self.refuse();
        match self.number()? {
            0 => Err(digit),
            number => Ok(PlaceStep::FromEnd(number)),
        }
    }

    /// What stands between the brackets of an index.
    #[tactic(auto, unfolding(crate::specs::Reading::index_at))]
    fn index(&mut self) -> Result<PlaceStep, PlaceFault>
        ensures { Reads (λ s. s) (cursor self.new) result (index_at (cursor self.old)) }
    {
        if self.eat(b'+') {
            return Ok(PlaceStep::Behind);
        }
        if self.eat(b'-') {
            return self.from_end();
        }
        Ok(PlaceStep::Index(self.number()?))
    }

    /// `index`, behind its first bracket.
    #[tactic(auto, unfolding(crate::specs::Reading::bracketed_at))]
    fn bracketed(&mut self) -> Result<PlaceStep, PlaceFault>
        ensures { Reads (λ s. s) (cursor self.new) result (bracketed_at (cursor self.old)) }
    {
        let step = self.index()?;
        self.byte(b']')?;
        Ok(step)
    }

    /// `dot part`
    #[tactic(auto, unfolding(crate::specs::Reading::dotted_at))]
    fn dotted(&mut self, alloc: Global) -> Result<PlaceStep, PlaceFault>
        ensures { Reads (λ s. s) (cursor self.new) result (dotted_at (cursor self.old)) }
    {
        self.ws();
        self.byte(b'.')?;
        self.ws();
        Ok(PlaceStep::Name(self.part(alloc)?))
    }

    /// `dot part / index`
    #[tactic(auto, unfolding(crate::specs::Reading::step_at))]
    fn step(&mut self, alloc: Global) -> Result<PlaceStep, PlaceFault>
        ensures { Reads (λ s. s) (cursor self.new) result (step_at (cursor self.old)) }
    {
        if self.eat(b'[') {
            return self.bracketed();
        }
        self.dotted(alloc)
    }

    /// Whether the text ends here.
    fn is_at_end(&self) -> bool
        ensures { result ≡ (length (cursor self.now).rest == 0) }
    {
        self.rest().is_empty()
    }

    /// `part *( dot part / index )`, up to the end.
    fn named(mut self, alloc: Global) -> Result<Vec<PlaceStep>, PlaceFault>
        ensures { Tells (λ v. v.items) result (named_at (cursor self.entry)) }
    {
        let mut steps = Vec::new(alloc);
        steps.push(PlaceStep::Name(self.part(alloc)?))?;
        while !self.is_at_end() {
            steps.push(self.step(alloc)?)?;
        }
        Ok(steps)
    }

    /// `place`, up to the end.
    #[tactic(auto, unfolding(crate::specs::Reading::place_at, crate::specs::Reading::end_at))]
    pub(crate) fn place(mut self, alloc: Global) -> Result<Vec<PlaceStep>, PlaceFault>
        ensures { Tells (λ v. v.items) result (place_at (cursor self.entry)) }
    {
        if !self.eat(b'.') {
            return self.named(alloc);
        }
        if self.is_at_end() {
            Ok(Vec::new(alloc))
        } else {
            Err(self.refuse())
        }
    }
}
