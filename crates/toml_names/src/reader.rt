//! The reader of names, one line after another (TOML v1.0.0, Keys, Table, Inline Table, Array of Tables). What it tells of the
//! lines that it took stands in `names.rt`.
ghost use Rattle.std.specs.Prelude.{◌≡◌, ◌++◌, ◌∷◌, [], OnOk, OnErr, IfOk, IfErr, map};
ghost use Rattle.toml_tree.specs.Lines.{line as tree_line};
ghost use Rattle.toml_names.specs.mentions.KeyParts.{expr_key_parts};
ghost use Rattle.toml_names.specs.reader.LineNames.{StandFor};
ghost use Rattle.toml_names.specs.reader.Names.{AreGood};
ghost use Rattle.toml_names.specs.reader.Reading.{lines_of, EntersShort, RefusesLine, RefusesEntry, TakesEntry};
ghost use Rattle.toml_names.specs.tree.Steps.{GoesOn, IsNode, RisesBy};

use crate::fault::NameFault;
use crate::line_names::LineNames;
use crate::mentions::mention::{Kind, Role};
use crate::tree::hash_key::HashKey;
use crate::tree::hashing::NameHashing;
use crate::tree::headers::Entered;
use crate::tree::name_tree::{EnterFault, NameTree};
use std::alloc::{AllocError, Global};
use std::marker::Model;
use toml_tree::Line;

/// Reads lines one after another. It stands for the lines that it took; a line that is refused leaves no trace but in
/// the count of look-ups.
#[derive(Drop)]
pub struct NameReader<'d, 't> {
    pub(crate) names: LineNames<'t>,
    pub(crate) taken: Vec<&'d Line<'t>>,
    // for each line the node of its value, table or element
    pub(crate) own: Vec<Option<usize>>,
}

impl<'d, 't> Model for NameReader<'d, 't> {
    ghost use Rattle.std.specs.Prelude.{◌≡◌, [], map};
    ghost use Rattle.toml_tree.specs.Lines.{line as tree_line};
    ghost use Rattle.toml_names.specs.reader.LineNames.{Keeps};
    ghost use Rattle.toml_names.specs.reader.Reading.{ReaderState, reader_code};

    ghost Value = { ReaderState };

    ghost coded = { reader_code };

    ghost view = { λ r. record { taken = map (λ l. l.now) r.taken.items; lookups = r.names.tree.lookups } };

    ghost invariant = { λ r. Keeps r.names (map tree_line (map (λ l. l.now) r.taken.items)) r.own.items };
}

impl<'t> NameTree<'t> {
    /// Enters a line, if what it names keeps the rules and has no address of more than 100 steps. After a fault part of it
    /// may be entered, until the changes are undone.
    fn try_line(&mut self, at: usize, number: usize, line: &Line<'t>) -> Result<Entered, NameFault>
        requires there { IsNode self.old.nodes.items at }
        ensures entered { IfOk result (EntersShort self.old.nodes.items self.new.nodes.items at number (tree_line line.now).expr) }
        ensures refused { IfErr result (RefusesEntry self.old.nodes.items at number (tree_line line.now).expr) }
        ensures goes_on { GoesOn (expr_key_parts (tree_line line.now).expr) self.old self.new }
    {
        let start = self.nodes.len();
        match self.enter_line(at, number, line) {
            Ok(Some(entered)) => {
                if self.are_short_from(start) {
                    Ok(entered)
                } else {
                    Err(NameFault::LongAddress { line: number })
                }
            }
            Ok(None) => Err(NameFault::LongAddress { line: number }),
            Err(EnterFault::Clash(address)) => Err(NameFault::Redefined {
                line: number,
                address,
            }),
            Err(EnterFault::NoMemory) => Err(NameFault::NoMemory),
        }
    }

    /// Takes a line whole or leaves the nodes as they were.
    pub(crate) fn take_line(
        &mut self,
        at: usize,
        number: usize,
        line: &Line<'t>,
    ) -> Result<Entered, NameFault>
        requires there { IsNode self.old.nodes.items at }
        requires settled { self.old.changes.items ≡ [] }
        ensures taken { TakesEntry self.old.nodes.items self.new.nodes.items at number (tree_line line.now).expr result }
        ensures settled { self.new.changes.items ≡ [] }
        ensures lookups { RisesBy (expr_key_parts (tree_line line.now).expr) self.old.lookups self.new.lookups }
    {
        match self.try_line(at, number, line) {
            Ok(entered) => {
                self.changes.clear();
                Ok(entered)
            }
            Err(fault) => {
                self.undo();
                Err(fault)
            }
        }
    }
}

impl<'d, 't> NameReader<'d, 't> {
    /// A reader that has taken no line. Names are hashed by a key of its own that every such reader has.
    pub fn new(alloc: Global) -> Result<NameReader<'d, 't>, AllocError>
        ensures taken { IfOk result (λ r. r.taken ≡ []) }
        ensures lookups { IfOk result (λ r. r.lookups ≡ 0) }
    {
        NameReader::keyed(alloc, 0)
    }

    /// A reader that has taken no line, whose hashes of names have this key.
    pub(crate) fn keyed(alloc: Global, key: u64) -> Result<NameReader<'d, 't>, AllocError>
        ensures taken { IfOk result (λ r. r.taken ≡ []) }
        ensures lookups { IfOk result (λ r. r.lookups ≡ 0) }
    {
        Ok(NameReader {
            names: LineNames::keyed(alloc, HashKey::known(key))?,
            taken: Vec::new(alloc),
            own: Vec::new(alloc),
        })
    }

    /// Takes a line: Ok exactly where what the lines taken and this one name keeps the table rules and has no address of
    /// more than 100 steps.
    ///
    /// Else `Redefined` or `LongAddress`, as `read_names` tells them, with the count of lines taken; and `NoMemory`.
    /// After any fault the reader stands for the same lines. The count of look-ups does not fall, and rises by at most
    /// one for each key part of the line.
    pub fn line(&mut self, line: &'d Line<'t>) -> Result<(), NameFault>
        ensures good { OnOk result (AreGood (lines_of self.new)) }
        ensures taken { OnOk result (self.new.taken ≡ self.old.taken ++ line.now ∷ []) }
        ensures refused { IfErr result (RefusesLine (lines_of self.old) (tree_line line.now)) }
        ensures kept { OnErr result (self.new.taken ≡ self.old.taken) }
        ensures lookups { RisesBy (expr_key_parts (tree_line line.now).expr) self.old.lookups self.new.lookups }
    {
        self.taken.reserve(1)?;
        self.own.reserve(1)?;
        let number = self.taken.len();
        let section = self.names.section;
        let entered = self.names.tree.take_line(section, number, line)?;
        self.own.push(entered.own)?;
        self.taken.push(line)?;
        self.names.section = entered.section;
        self.names.count = self.taken.len();
        Ok(())
    }

    /// What the lines taken name.
    pub fn names(&self) -> &LineNames<'t>
        ensures { StandFor result.now (lines_of self.now) }
    {
        &self.names
    }

    /// The lines taken, which are good together.
    pub fn taken(&self) -> &Vec<&'d Line<'t>>
        ensures good { AreGood (lines_of self.now) }
        ensures taken { map (λ l. l.now) result.now.items ≡ self.now.taken }
    {
        &self.taken
    }

    /// How many look-ups of names were made; it stops at the greatest `u64`.
    pub fn lookups(&self) -> u64
        ensures { result ≡ self.now.lookups }
    {
        self.names.tree.lookups
    }
}
