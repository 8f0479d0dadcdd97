//! Places and their steps.
ghost use Rattle.std.specs.Prelude.{◌≡◌, IfOk, IfErr, MatchResult};
ghost use Rattle.toml_text.specs.Limit.{IsText};
ghost use Rattle.toml_text.specs.Source.{text_of};
ghost use Rattle.toml_places.specs.Reads.{IsPlace, RefusesPlace};

use crate::fault::PlaceFault;
use crate::reader::Reader;
use std::alloc::Global;
use std::marker::Model;
use toml_names::Name;
use toml_text::{MAX_LEN, Source, TextFault};

/// A step of a place.
#[derive(Drop)]
pub enum PlaceStep {
    /// The name of a key part.
    Name(Name),
    /// `[n]`: an index, from 0.
    Index(u64),
    /// `[-n]`: the n-th element from the end, from 1, of the array that stands at the place so far.
    FromEnd(u64),
    /// `[+]`: behind the last element of the array that stands at the place so far.
    Behind,
}

/// A place: the steps that a text spells. The root's has none. Contracts see it as the list of its steps.
#[derive(Drop)]
pub struct Place {
    steps: Vec<PlaceStep>,
}

impl Model for Place {
    ghost use Rattle.std.specs.Prelude.{List};
    ghost use Rattle.toml_places.specs.declared.place.PlaceStep.{PlaceStep};

    ghost Value = { List PlaceStep };

    ghost view = { λ p. p.steps.items };
}

impl Place {
    /// The steps from the root.
    pub fn steps(&self) -> &[PlaceStep]
        ensures { result.now ≡ self.now }
    {
        &self.steps
    }
}

/// The place that a text is:
///
/// ```text
/// place  = "." / part *( dot part / index )
/// part   = a key part of TOML: bare, a basic string or a literal string
/// dot    = ws "." ws
/// index  = "[" number "]" / "[-" number "]" / "[+]"
/// number = "0" / digit1-9 *DIGIT
/// ```
///
/// A number is at most 18446744073709551615, behind `[-` at least 1. A text that is no place is refused at a byte.
pub fn read_place(alloc: Global, text: &[u8]) -> Result<Place, PlaceFault>
    ensures place { IfOk result (IsPlace text.now) }
    ensures refused { IfErr result (RefusesPlace text.now) }
{
    match Source::new(text) {
        Err(TextFault::NotUtf8 { at }) => Err(PlaceFault::BadPlace { at }),
        Err(TextFault::TooLong) => Err(PlaceFault::BadPlace { at: MAX_LEN }),
        Ok(source) => {
            let steps = Reader::new(source).place(alloc)?;
            Ok(Place { steps })
        }
    }
}
