//! The names of a document: all at once (`read_names`, `read_lines`), and what a reader of its lines then tells: its data, places
//! and addresses.
ghost use Rattle.std.specs.Prelude.{◌≡◌, ◌↔◌, ◌≤◌, IsTrue, option_and_then, slice_get, map, IfOk, IfErr, OnOk};
ghost use Rattle.toml_tree.specs.Document.{document};
ghost use Rattle.toml_tree.specs.Lines.{line as tree_line};
ghost use Rattle.toml_names.specs.model.Data.{IsDataOf, kind_at};
ghost use Rattle.toml_names.specs.mentions.FirstMentions.{first_mentions};
ghost use Rattle.toml_names.specs.mentions.KeyParts.{all_key_parts};
ghost use Rattle.toml_names.specs.mentions.Mentions.{named as named_of};
ghost use Rattle.toml_names.specs.model.Addresses.{lent};
ghost use Rattle.toml_names.specs.reader.Names.{AreGood, AreOwnAddresses, RefusesNames, line_address};
ghost use Rattle.toml_names.specs.model.Places.{place};
ghost use Rattle.toml_names.specs.reader.Reading.{lines_of, rank_in};

use crate::fault::NameFault;
use crate::model::address::Address;
use crate::model::datum::Data;
use crate::model::place::Place;
use crate::reader::NameReader;
use crate::tree::hash_key::key_of;
use crate::tree::name_tree::NameTree;
use std::alloc::{AllocError, Global};
use std::marker::Model;
use toml_tree::{Doc, Line};

/// The names of lines, of which each is good after those before it. Contracts see them as the list of all that the
/// lines name, in text order, and the count of look-ups.
#[derive(Drop)]
pub struct Names<'d, 't> {
    tree: NameTree<'t>,
    lines: Vec<&'d Line<'t>>,
    data: Data,
    // the first mentions
    first: Vec<Address>,
    // for each line where its own address stands among the first mentions
    own: Vec<Option<usize>>,
}

impl<'d, 't> Model for Names<'d, 't> {
    ghost use Rattle.std.specs.Prelude.{map};
    ghost use Rattle.toml_tree.specs.Lines.{line as tree_line};
    ghost use Rattle.toml_names.specs.model.Data.{kind_at};
    ghost use Rattle.toml_names.specs.mentions.Mentions.{named as named_of};
    ghost use Rattle.toml_names.specs.reader.Reading.{Known, AreNames};

    ghost Value = { Known };

    ghost view = { λ n. record { named = named_of (map tree_line (map (λ l. l.now) n.lines.items)); lookups = n.tree.lookups } };

    ghost invariant = { λ n. AreNames n.tree.nodes.items (map tree_line (map (λ l. l.now) n.lines.items)) (kind_at n.«data».root) n.first.items n.own.items };
}

impl Names<'_, '_> {
    /// The data of the lines: what they name, each at its address.
    pub fn data(&self) -> &Data
        ensures { IsDataOf self.now.named (kind_at result.now.root) }
    {
        &self.data
    }

    /// The address of a line's value, table or element; none for a blank line. Lines are counted from 0.
    pub fn address_of(&self, line: usize) -> Option<&Address>
        ensures { lent result ≡ line_address self.now.named line }
    {
        let rank = rank_of_line(&self.own, line)?;
        self.first.get(rank)
    }

    /// Where what stands at the address stands in the text; none where the data have nothing there.
    pub fn place(&self, at: &Address) -> Option<Place>
        ensures { result ≡ place self.now.named at.now }
    {
        self.tree.place(at)
    }

    /// The distinct addresses of the mentions, in the order of their first mentions.
    pub fn first_mentions(&self) -> &[Address]
        ensures { result.now ≡ first_mentions self.now.named }
    {
        &self.first
    }

    /// How many look-ups of names were made; it stops at the greatest `u64`.
    pub fn lookups(&self) -> u64
        ensures { result ≡ self.now.lookups }
    {
        self.tree.lookups
    }
}

impl<'d, 't> NameReader<'d, 't> {
    /// The data of the lines taken: what they name, each at its address.
    pub fn data(&self) -> Result<Data, AllocError>
        ensures { IfOk result (λ d. IsDataOf (named_of (lines_of self.now)) (kind_at d.root)) }
    {
        Ok(Data {
            root: self.names.tree.datum(0)?,
        })
    }

    /// Where what stands at the address stands in the text; none where the data of the lines taken have nothing there.
    pub fn place(&self, at: &Address) -> Option<Place>
        ensures { result ≡ place (named_of (lines_of self.now)) at.now }
    {
        self.names.tree.place(at)
    }

    /// The address of each line's value, table or element, line by line; none for a blank line. They share the text of
    /// long names.
    pub fn own_addresses(&self) -> Result<Vec<Option<Address>>, AllocError>
        ensures { IfOk result (λ list. AreOwnAddresses (lines_of self.now) list.items) }
    {
        self.names.tree.addresses_of(&self.own)
    }

    /// The names of the lines taken. Where a growth is refused nothing is handed back.
    pub fn finish(self) -> Result<Names<'d, 't>, AllocError>
        ensures named { IfOk result (λ names. names.named ≡ named_of (lines_of self.entry)) }
        ensures good { OnOk result (AreGood (lines_of self.entry)) }
        ensures lookups { IfOk result (λ names. names.lookups ≡ self.entry.lookups) }
    {
        let alloc = self.names.tree.alloc;
        let data = self.data()?;
        let first = self.names.tree.first_mentions()?;
        let ranks = self.names.tree.ranks()?;
        let own = ranks_of(alloc, &self.own, &ranks)?;
        Ok(Names {
            tree: self.names.tree,
            lines: self.taken,
            data,
            first,
            own,
        })
    }
}

/// The ranks of nodes.
fn ranks_of(
    alloc: Global,
    nodes: &[Option<usize>],
    ranks: &[usize],
) -> Result<Vec<Option<usize>>, AllocError>
    ensures { IfOk result (λ list. list.items ≡ map (rank_in ranks.now) nodes.now) }
{
    let mut list = Vec::with_capacity(alloc, nodes.len())?;
    for node in nodes {
        list.push(rank_of(ranks, *node))?;
    }
    Ok(list)
}

/// The rank of a node, if there is one.
fn rank_of(ranks: &[usize], node: Option<usize>) -> Option<usize>
    ensures { result ≡ rank_in ranks.now node }
{
    match node {
        Some(id) => ranks.get(id).copied(),
        None => None,
    }
}

/// The rank that a line has, if there is such a line and it is not blank.
fn rank_of_line(own: &[Option<usize>], line: usize) -> Option<usize>
    ensures { result ≡ option_and_then (λ rank. rank) (slice_get own.now line) }
{
    match own.get(line) {
        Some(rank) => *rank,
        None => None,
    }
}

/// A reader that has taken all lines of a document: Ok exactly where `read_names` is, and refused as it is. Nothing is
/// built but the tree of names. Names are hashed by a key that is made of all of them.
pub fn read_lines<'d, 't>(alloc: Global, doc: &'d Doc<'t>) -> Result<NameReader<'d, 't>, NameFault>
    ensures good { IfOk result (λ reader. AreGood (document doc.now).lines) }
    ensures taken { IfOk result (λ reader. lines_of reader ≡ (document doc.now).lines) }
    ensures refused { IfErr result (RefusesNames (document doc.now).lines) }
    ensures lookups { IfOk result (λ reader. reader.lookups ≤ all_key_parts (document doc.now).lines) }
{
    let mut reader = NameReader::keyed(alloc, key_of(doc))?;
    for line in doc.lines() {
        reader.line(line)?;
    }
    Ok(reader)
}

/// The names of a document: Ok exactly where its mentions keep the table rules and no address has more than 100
/// steps.
///
/// Else `Redefined` is told with the first line that breaks the rules, and the address of that line's first mention
/// that does; or `LongAddress` with the first line that keeps them and has a longer address, whichever line comes
/// first. Each key part is looked up at most once.
pub fn read_names<'d, 't>(alloc: Global, doc: &'d Doc<'t>) -> Result<Names<'d, 't>, NameFault>
    ensures good { IfOk result (λ names. AreGood (document doc.now).lines) }
    ensures named { IfOk result (λ names. names.named ≡ named_of (document doc.now).lines) }
    ensures refused { IfErr result (RefusesNames (document doc.now).lines) }
    ensures lookups { IfOk result (λ names. names.lookups ≤ all_key_parts (document doc.now).lines) }
{
    Ok(read_lines(alloc, doc)?.finish()?)
}
