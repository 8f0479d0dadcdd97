//! The tree of names of lines that are let go once they are entered.
ghost use Rattle.std.specs.Prelude.{◌≡◌, ◌<◌, List, [], IfOk};
ghost use Rattle.toml_tree.specs.Lines.{line as tree_line};
ghost use Rattle.toml_tree.specs.Tree as spelled;
ghost use Rattle.toml_names.specs.mentions.Mentions.{named};
ghost use Rattle.toml_names.specs.model.Places.{place};
ghost use Rattle.toml_names.specs.reader.LineNames.{Enters, Stand, StandFor, Takes, TakesAt};

use crate::fault::NameFault;
use crate::mentions::mention::{Kind, Role};
use crate::model::address::Address;
use crate::model::place::Place;
use crate::tree::hash_key::HashKey;
use crate::tree::name_tree::NameTree;
use std::alloc::{AllocError, Global};
use toml_text::Source;
use toml_tree::Line;

/// What the lines so far name. A name is lent by the text, so no line is kept.
#[derive(Drop)]
pub struct LineNames<'t> {
    pub(crate) tree: NameTree<'t>,
    // the node of the last header's table
    pub(crate) section: usize,
    pub(crate) count: usize,
}

impl<'t> LineNames<'t> {
    /// The names of no line of a text. They are hashed by a key that is made of all its bytes.
    pub fn new(alloc: Global, source: Source<'t>) -> Result<LineNames<'t>, AllocError>
        ensures { IfOk result (λ names. StandFor names []) }
    {
        LineNames::keyed(alloc, HashKey::of_text(source))
    }

    /// The names of no line, which are hashed by this key.
    pub(crate) fn keyed(alloc: Global, key: HashKey<'t>) -> Result<LineNames<'t>, AllocError>
        ensures stand { IfOk result (λ names. StandFor names []) }
        ensures lookups { IfOk result (λ names. names.tree.lookups ≡ 0) }
    {
        Ok(LineNames {
            tree: NameTree::new(alloc, key, Role::Bare, Kind::Table)?,
            section: 0,
            count: 0,
        })
    }

    /// Takes one line more, and tells the node of its value, table or element, which a blank line has none of.
    fn enter(&mut self, line: &Line<'t>) -> Result<Option<usize>, NameFault>
        requires stand { Stand self.old }
        requires room { self.old.count < 18446744073709551615 }
        ensures { (lines : List spelled.Line) → StandFor self.old lines → Enters lines (tree_line line.now) self.new result }
    {
        let entered = self.tree.take_line(self.section, self.count, line)?;
        self.section = entered.section;
        self.count += 1;
        Ok(entered.own)
    }

    /// Takes one line more, or tells why the lines with it are refused. Then nothing is said of the names any more.
    pub fn take(&mut self, line: &Line<'t>) -> Result<(), NameFault>
        requires stand { Stand self.old }
        requires room { self.old.count < 18446744073709551615 }
        ensures { (lines : List spelled.Line) → StandFor self.old lines → Takes lines (tree_line line.now) self.new result }
    {
        let _ = self.enter(line)?;
        Ok(())
    }

    /// Where what stands at the address stands in the text; none where the data of the lines taken have nothing there.
    pub fn place(&self, at: &Address) -> Option<Place>
        requires stand { Stand self.now }
        ensures { (lines : List spelled.Line) → StandFor self.now lines → result ≡ place (named lines) at.now }
    {
        self.tree.place(at)
    }

    /// Takes one line more as `take` does, makes an address that of the line's value, table or element, in its own memory, and
    /// tells whether the line has one: a blank line has none, and then the address stays. Where the line is refused, nothing is said of the
    /// address any more.
    pub fn take_at(&mut self, line: &Line<'t>, here: &mut Address) -> Result<bool, NameFault>
        requires stand { Stand self.old }
        requires room { self.old.count < 18446744073709551615 }
        ensures { (lines : List spelled.Line) → StandFor self.old lines → TakesAt lines (tree_line line.now) here.old self.new here.new result }
    {
        match self.enter(line)? {
            Some(node) => {
                self.tree.set_to_node(here, node)?;
                Ok(true)
            }
            None => Ok(false),
        }
    }
}
