//! A text read line by line: what its lines name, and the units of one line after another. No line is kept but one whose
//! units are handed out item by item.
ghost use Rattle.std.specs.Prelude.{◌≡◌, IfOk, IsSome, None, OnOk, List, Some, []};
ghost use Rattle.toml_text.specs.Source.{text_of};
ghost use Rattle.toml_tree.specs.Lines.{line as tree_line};
ghost use Rattle.toml_tree.specs.View.{key as tree_key};
ghost use Rattle.toml_names.specs.mentions.Keys.{key_names};
ghost use Rattle.toml_names.specs.model.Addresses.{below};
ghost use Rattle.toml_tree.specs.Tree.{Line as Lined};
ghost use Rattle.toml_units.specs.declared.reading.Left.TheVariants.{Nothing, Refused};
ghost use Rattle.toml_units.specs.Reading.{Enters, EntersFirst, Goes, HandsMore, HandsOne, HasEntered, HasRead, HoldsRead, IsArrayRead, IsOpened, IsRead, left_of};

use crate::lines::{hold_one, parts, push_behind, set_line};
use crate::opened::Opened;
use crate::unit::Unit;
use std::alloc::{AllocError, Global};
use toml_names::{Address, LineNames, NameFault, ReadFault, key_address, refuse_names, set_to_key};
use toml_text::Source;
use toml_tree::{Expr, Key, Line, LineReader, Profile, SyntaxFault};

/// What of a text is not read yet: lines, or nothing; or the text was found to be no document.
#[derive(Clone, Copy)]
pub(crate) enum Left<'t> {
    Lines(LineReader<'t>),
    Nothing,
    Refused,
}

/// What a reader of lines hands out: a line, and the reader if there is one more, or a fault of the text.
type Handed<'t> = Result<(Line<'t>, Option<LineReader<'t>>), SyntaxFault>;

/// What the lines so far name, the address of the last header's table or element, whose names the addresses of keys share,
/// what is left to read, and the last line, where its units are handed out item by item and there are more.
#[derive(Drop)]
pub(crate) struct Reading<'t> {
    pub(crate) names: LineNames<'t>,
    pub(crate) section: Address,
    pub(crate) left: Left<'t>,
    pub(crate) opened: Option<Opened<'t>>,
}

/// What is left where it may be that a reader has lines left.
fn left_of<'t>(more: Option<LineReader<'t>>) -> Left<'t>
    ensures { result ≡ left_of more.entry }
{
    match more {
        Some(reader) => Left::Lines(reader),
        None => Left::Nothing,
    }
}

/// Makes an address the same as another, in its own memory, where it has one.
fn go_to(alloc: Global, at: &mut Option<Address>, other: &Address) -> Result<(), AllocError>
    ensures { OnOk result (at.new ≡ Some other.now) }
{
    match at {
        Some(here) => here.set_to(other)?,
        None => *at = Some(other.copy(alloc)?),
    }
    Ok(())
}

/// Makes an address that of a whole key in the table at the other, in its own memory, where it has one.
fn go_to_key(
    alloc: Global,
    at: &mut Option<Address>,
    table: &Address,
    key: &Key,
) -> Result<(), AllocError>
    ensures { OnOk result (at.new ≡ Some (below table.now (key_names (tree_key key.now)))) }
{
    match at {
        Some(here) => set_to_key(alloc, here, table, key)?,
        None => *at = Some(key_address(alloc, table, key)?),
    }
    Ok(())
}

impl<'t> Reading<'t> {
    /// Nothing is read yet.
    pub(crate) fn new(
        alloc: Global,
        source: Source<'t>,
        profile: Profile,
    ) -> Result<Reading<'t>, AllocError>
        ensures { IfOk result (λ read. HasRead profile (text_of source.entry) read [] × (read.opened ≡ None)) }
    {
        Ok(Reading {
            names: LineNames::new(alloc, source)?,
            section: Address::root(alloc),
            left: Left::Lines(LineReader::new(source, profile)),
            opened: None,
        })
    }

    /// Nothing is left to read, and these are the names.
    pub(crate) fn over(alloc: Global, names: LineNames<'t>) -> Reading<'t>
        ensures names { result.names ≡ names.entry }
        ensures section { result.section ≡ [] }
        ensures left { result.left ≡ Nothing }
        ensures opened { result.opened ≡ None }
    {
        Reading {
            names,
            section: Address::root(alloc),
            left: Left::Nothing,
            opened: None,
        }
    }

    /// Takes what a line names, and makes an address that of its value, table or element, in its own memory; a blank line has
    /// none.
    pub(crate) fn enter(
        &mut self,
        alloc: Global,
        line: &Line<'t>,
        at: &mut Option<Address>,
    ) -> Result<(), NameFault>
        requires { (lines : List Lined) × HasEntered self.old lines }
        ensures names { (lines : List Lined) → HasEntered self.old lines → Enters lines (tree_line line.now) self.new at.new result }
        ensures left { self.new.left ≡ self.old.left }
        ensures opened { self.new.opened ≡ self.old.opened }
    {
        match line.expr() {
            Expr::Blank(_) => {
                self.names.take(line)?;
                *at = None;
                Ok(())
            }
            Expr::KeyVal { keyval, .. } => {
                // a key that is too long is refused before it has an address
                self.names.take(line)?;
                go_to_key(alloc, at, &self.section, &keyval.assign.key)?;
                Ok(())
            }
            Expr::Std { .. } | Expr::Array { .. } => {
                // a header always has an address of its own
                let _ = self.names.take_at(line, &mut self.section)?;
                go_to(alloc, at, &self.section)?;
                Ok(())
            }
        }
    }

    /// How many steps the address of a line has, where no part of a header's key leads into an array: then it has more.
    pub(crate) fn steps_of(&self, e: &Expr) -> usize {
        match e {
            Expr::Blank(_) => 0,
            Expr::KeyVal { keyval, .. } => {
                let above = self.section.steps().len();
                above.saturating_add(parts(&keyval.assign.key))
            }
            Expr::Std { header, .. } => parts(&header.key),
            Expr::Array { header, .. } => parts(&header.key).saturating_add(1),
        }
    }

    /// Takes what a line names, and holds its own unit alone, made in the memory of the first one that was held.
    fn enter_first(
        &mut self,
        alloc: Global,
        line: &Line<'t>,
        units: &mut Vec<Unit>,
    ) -> Result<(), NameFault>
        requires { (lines : List Lined) × HasEntered self.old lines }
        ensures names { (lines : List Lined) → HasEntered self.old lines → EntersFirst lines (tree_line line.now) self.new units.new.items result }
        ensures left { self.new.left ≡ self.old.left }
        ensures opened { self.new.opened ≡ self.old.opened }
    {
        hold_one(units)?;
        let first = &mut units[0];
        self.enter(alloc, line, &mut first.address)?;
        set_line(first, line.expr());
        Ok(())
    }

    /// Reads one line more, and holds its units instead of those that were held, or its own alone where that is opened; tells its
    /// newline, the empty text where it has none. There is nothing where all lines were read, or the text is no document of the
    /// profile: then nothing is said of the units that are held. The line's own unit is made in the memory of the first one.
    pub(crate) fn next(
        &mut self,
        alloc: Global,
        units: &mut Vec<Unit>,
    ) -> Result<Option<&'t str>, AllocError>
        requires goes { Goes self.old }
        requires closed { self.old.opened ≡ None }
        ensures { HandsOne self.old self.new units.new.items result }
    {
        let Left::Lines(reader) = self.left else {
            return Ok(None);
        };
        // till it is known that the line is good
        self.left = Left::Refused;
        self.hold_read(alloc, units, reader.next(alloc))
    }

    /// Holds the units of a line that was handed out. It is read where it stands: to move a line costs more than to read some of
    /// it.
    fn hold_read(
        &mut self,
        alloc: Global,
        units: &mut Vec<Unit>,
        handed: Handed<'t>,
    ) -> Result<Option<&'t str>, AllocError>
        requires goes { IsRead self.old handed }
        requires closed { self.old.opened ≡ None }
        requires refused { self.old.left ≡ Refused }
        ensures { HoldsRead self.old handed.entry self.new units.new.items result }
    {
        let (array, newline) = match &handed {
            Ok(read) => match self.enter_first(alloc, &read.0, units) {
                Ok(()) => {
                    let array = push_behind(alloc, units, read.0.expr())?;
                    self.left = left_of(read.1);
                    (array, read.0.newline().text)
                }
                Err(fault) => {
                    refuse_names(alloc, read.1, fault).told()?;
                    return Ok(None);
                }
            },
            Err(fault) => {
                ReadFault::Syntax(*fault).told()?;
                return Ok(None);
            }
        };
        let Some(at) = array else {
            return Ok(Some(newline));
        };
        self.open(handed, at);
        Ok(Some(newline))
    }

    /// Opens the line that was handed out, whose value is an array with an item, at the address.
    fn open(&mut self, handed: Handed<'t>, at: Address)
        requires { IsArrayRead handed }
        ensures names { self.new.names ≡ self.old.names }
        ensures section { self.new.section ≡ self.old.section }
        ensures left { self.new.left ≡ self.old.left }
        ensures opened { IsOpened handed.entry at self.new.opened }
    {
        if let Ok((line, _)) = handed {
            self.opened = Some(Opened::of(line, at));
        }
    }

    /// Adds the units of the next item of the line that is opened; behind its last item it is closed. Its address is made
    /// in the memory of the spare one.
    pub(crate) fn next_item(
        &mut self,
        alloc: Global,
        units: &mut Vec<Unit>,
        spare: Address,
    ) -> Result<(), AllocError>
        requires { IsSome self.old.opened }
        ensures { OnOk result (HandsMore self.old units.old.items self.new units.new.items) }
    {
        if let Some(opened) = &mut self.opened {
            if !opened.next(alloc, units, spare)? {
                self.opened = None;
            }
        }
        Ok(())
    }
}
