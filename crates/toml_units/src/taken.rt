//! Lines of a document taken one after another: what they name, all their units, and their newlines.
ghost use Rattle.std.specs.Prelude.{◌≡◌, IfOk, List, []};
ghost use Rattle.toml_tree.specs.Lines.{line as tree_line};
ghost use Rattle.toml_tree.specs.Tree.{Line as Lined};
ghost use Rattle.toml_units.specs.Taken.{HasTaken, TakesLine, newline_text};

use crate::lines::push_line_at;
use crate::reading::Reading;
use crate::unit::Unit;
use std::alloc::{AllocError, Global};
use toml_names::{Address, LineNames, NameFault};
use toml_text::Source;
use toml_tree::Line;

/// The newline of a line (`toml.abnf`, `newline`), which the last one lacks.
#[derive(Clone, Copy, Drop)]
pub(crate) enum Newline {
    Lacking,
    Lf,
    CrLf,
}

impl Newline {
    /// That of a line.
    fn of(line: &Line) -> Newline
        ensures { newline_text result ≡ (tree_line line.now).newline.text }
    {
        let text = line.newline().text;
        if text.is_empty() {
            return Newline::Lacking;
        }
        if text.len() == 1 {
            Newline::Lf
        } else {
            Newline::CrLf
        }
    }

    /// Its text, empty where it lacks.
    pub(crate) fn text(self) -> &'static str
        ensures { result.now ≡ newline_text self }
    {
        match self {
            Newline::Lacking => "",
            Newline::Lf => "\n",
            Newline::CrLf => "\r\n",
        }
    }
}

/// The lines of a document that were taken, one after another. The lines themselves are let go.
#[derive(Drop)]
pub struct TakenLines<'t> {
    // what they name, and the table of the last header; nothing is left to read
    pub(crate) reading: Reading<'t>,
    pub(crate) units: Vec<Unit>,
    pub(crate) newlines: Vec<Newline>,
}

impl<'t> TakenLines<'t> {
    /// No line of a text. Names are hashed by a key that is made of all its bytes.
    pub fn new(alloc: Global, source: Source<'t>) -> Result<TakenLines<'t>, AllocError>
        ensures { IfOk result (λ taken. HasTaken taken []) }
    {
        Ok(TakenLines {
            reading: Reading::over(alloc, LineNames::new(alloc, source)?),
            units: Vec::new(alloc),
            newlines: Vec::new(alloc),
        })
    }

    /// Takes one line more, or tells why the names of the lines with it are refused. Then nothing is said any more of what was
    /// taken.
    pub fn take(&mut self, alloc: Global, line: &Line<'t>) -> Result<(), NameFault>
        requires { (lines : List Lined) × HasTaken self.old lines }
        ensures { (lines : List Lined) → HasTaken self.old lines → TakesLine lines (tree_line line.now) self.new result }
    {
        let room = Vec::with_capacity(alloc, self.reading.steps_of(line.expr()))?;
        let mut own = Some(Address::of(room));
        self.reading.enter(alloc, line, &mut own)?;
        push_line_at(alloc, &mut self.units, own, line.expr())?;
        self.newlines.push(Newline::of(line))?;
        Ok(())
    }

    /// The units of the lines, as `units` answers them.
    pub fn units(&self) -> &[Unit]
        ensures { result.now ≡ self.now.units.items }
    {
        &self.units
    }

    /// What the lines name.
    pub fn names(&self) -> &LineNames<'t>
        ensures { result.now ≡ self.now.reading.names }
    {
        &self.reading.names
    }
}
