//! A walk over the units of a text, which is read line by line, or was read already.
ghost use Rattle.std.specs.Prelude.{◌≡◌, [], None, IsSome, IfOk, OnOk, option_map, slice_get};
ghost use Rattle.toml_text.specs.Source.{text_of};
ghost use Rattle.toml_units.specs.Cursors.{ComesOn, EndsAll, Goes, HasLetGo, HasNextNewline, Stand, StandsBefore, StepsOn, Walks, current};
ghost use Rattle.toml_units.specs.Places.{is_line};
ghost use Rattle.toml_units.specs.Reading.{HandsMore};

use crate::reading::{Left, Reading};
use crate::taken::{Newline, TakenLines};
use crate::unit::{Unit, UnitKind};
use std::alloc::{AllocError, Global};
use std::vec::IntoIter;
use toml_names::{Address, LineNames};
use toml_text::Source;
use toml_tree::Profile;

/// A place among the units of a text, in text order: before one of them, or behind the last. Either it reads the text, and holds
/// the units of the line in which it stands, where that has an array those of one item, and what this line and those before
/// name; or the text was read already, and it holds the units of all lines, and what they name.
#[derive(Drop)]
pub struct UnitCursor<'t> {
    reading: Reading<'t>,
    units: Vec<Unit>,
    // how many of these were walked past
    place: usize,
    newline: &'t str,
    // those of the lines that come behind it in `units`
    newlines: IntoIter<Newline>,
}

/// How many units are walked past before the units themselves are let go.
const MANY_UNITS: usize = 4096;

/// Whether a unit is a line.
fn is_line(unit: &Unit) -> bool
    ensures { result ≡ is_line unit.now.kind }
{
    matches!(unit.kind, UnitKind::Line)
}

/// Lets units go, but for the address of the first one, in whose memory the next one is made.
fn take_spare(alloc: Global, units: &mut Vec<Unit>) -> Address
    ensures { units.new.items ≡ [] }
{
    let spare = match units.first_mut() {
        Some(first) => first.address.take(),
        None => None,
    };
    units.clear();
    match spare {
        Some(at) => at,
        None => Address::root(alloc),
    }
}

impl<'t> UnitCursor<'t> {
    /// Stands before the first unit of a text.
    pub fn new(
        alloc: Global,
        source: Source<'t>,
        profile: Profile,
    ) -> Result<UnitCursor<'t>, AllocError>
        ensures { IfOk result (λ cursor. Walks profile (text_of source.entry) cursor []) }
    {
        let mut cursor = UnitCursor {
            reading: Reading::new(alloc, source, profile)?,
            units: Vec::new(alloc),
            place: 0,
            newline: "",
            newlines: Vec::new(alloc).into_iter(),
        };
        cursor.hold_next(alloc)?;
        Ok(cursor)
    }

    /// Stands before the first unit of a text of which all lines were taken already.
    pub fn held(taken: TakenLines<'t>) -> UnitCursor<'t>
        ensures { StandsBefore taken.entry result }
    {
        let TakenLines {
            reading,
            units,
            newlines,
        } = taken;
        let mut cursor = UnitCursor {
            reading,
            units,
            place: 0,
            newline: "",
            newlines: newlines.into_iter(),
        };
        cursor.take_newline();
        cursor
    }

    /// The unit before which it stands. There is none behind the last one, and where the text was found to be no document.
    pub fn unit(&self) -> Option<&Unit>
        ensures { option_map (λ u. u.now) result ≡ slice_get self.now.units.items self.now.place }
    {
        self.units.get(self.place)
    }

    /// The newline of the line of that unit, the empty text where it has none; behind the last unit that of the last line.
    pub fn newline(&self) -> &'t str
        ensures { result ≡ self.now.newline }
    {
        self.newline
    }

    /// Goes past the unit before which it stands. What was walked past is let go on the way, so the memory of many units goes as
    /// the walk comes to its end. After want of memory nothing is said of the cursor any more.
    pub fn step(&mut self, alloc: Global) -> Result<(), AllocError>
        requires goes { Goes self.old }
        requires some { IsSome (current self.old) }
        ensures { StepsOn self.old self.new result }
    {
        self.let_go()?;
        self.go_past(alloc)
    }

    /// Lets the address of the unit go that was walked past last, while it is still in the cache; that of the first one stays, in
    /// whose memory that of the next line or item is made. Of many units those walked past are let go as a whole once they are three
    /// quarters, so that few are moved.
    fn let_go(&mut self) -> Result<(), AllocError>
        ensures { OnOk result (HasLetGo self.old self.new) }
    {
        if self.place < 2 || self.place >= self.units.len() {
            return Ok(());
        }
        if self.place >= MANY_UNITS.max(self.units.len() / 4 * 3) {
            self.units = self.units.split_off(self.place)?;
            self.place = 0;
            return Ok(());
        }
        self.units[self.place - 1].address = None;
        Ok(())
    }

    /// Goes past the unit before which it stands, and nothing else.
    fn go_past(&mut self, alloc: Global) -> Result<(), AllocError>
        requires goes { Goes self.old }
        requires some { IsSome (current self.old) }
        ensures { StepsOn self.old self.new result }
    {
        self.place += 1;
        let Some(unit) = self.unit() else {
            return self.hold_next(alloc);
        };
        if is_line(unit) {
            self.take_newline();
        }
        Ok(())
    }

    /// Takes the newline of the line before which it stands, where that is held.
    fn take_newline(&mut self)
        ensures { HasNextNewline self.old self.new }
    {
        if let Some(next) = self.newlines.next() {
            self.newline = next.text();
        }
    }

    /// Holds the units that come next, where all that it holds were walked past: those of the next item of the line that is
    /// opened, else those of the next line.
    fn hold_next(&mut self, alloc: Global) -> Result<(), AllocError>
        requires { Stand self.old }
        ensures { ComesOn self.old self.new result }
    {
        self.place = 0;
        if self.reading.opened.is_some() {
            return self.hold_item(alloc);
        }
        match self.reading.next(alloc, &mut self.units)? {
            Some(newline) => self.newline = newline,
            None => self.units.clear(),
        }
        Ok(())
    }

    /// Holds the units of the next item of the line that is opened.
    fn hold_item(&mut self, alloc: Global) -> Result<(), AllocError>
        requires { IsSome self.old.reading.opened }
        ensures newline { self.new.newline ≡ self.old.newline }
        ensures newlines { self.new.newlines ≡ self.old.newlines }
        ensures place { self.new.place ≡ self.old.place }
        ensures more { OnOk result (HandsMore self.old.reading [] self.new.reading self.new.units.items) }
    {
        let spare = take_spare(alloc, &mut self.units);
        self.reading.next_item(alloc, &mut self.units, spare)
    }

    /// The names of all lines, where all units were walked past; none where the text is no document of the profile.
    pub fn into_names(self) -> Option<LineNames<'t>>
        requires { current self ≡ None }
        ensures { EndsAll self.entry result }
    {
        match self.reading.left {
            Left::Refused => None,
            Left::Lines(_) | Left::Nothing => Some(self.reading.names),
        }
    }
}
