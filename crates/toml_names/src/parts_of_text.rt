//! A text read line by line, whose data are lent part by part and never built.
ghost use Rattle.std.specs.Prelude.{◌≡◌, [], IfErr, IfOk, Some};
ghost use Rattle.toml_text.specs.Source.{text_of};
ghost use Rattle.toml_names.specs.mentions.Mentions.{named};
ghost use Rattle.toml_names.specs.model.Data.{IsDataOf};
ghost use Rattle.toml_names.specs.reader.Parts.{AreItems, AreMembers, IsPart, StandForNames, TellMentions, part_kinds, plain_members, shape_kind};
ghost use Rattle.toml_names.specs.reader.Texts.{GoodText, RefusesText};
ghost use Rattle.toml_names.specs.tree.Placing.{IsPlaceOf};

use crate::fault::ReadFault;
use crate::model::address::Address;
use crate::model::place::Place;
use crate::texts::enter_text;
use crate::tree::name_tree::NameTree;
use crate::tree::parts::Shape;
use std::alloc::{AllocError, Global};
use std::marker::Model;
use toml_text::Source;
use toml_tree::Profile;

/// The data of a text, part by part. Each part has a number, the root's is 0; the parts that lie in a part have greater
/// ones. Contracts see it as the list of its parts, of which `part_kinds` tells what stands at each and below it.
#[derive(Drop)]
pub struct NamedText<'t> {
    tree: NameTree<'t>,
}

impl<'t> Model for NamedText<'t> {
    ghost use Rattle.std.specs.Prelude.{List};
    ghost use Rattle.toml_names.specs.tree.NameTree.{IsTree};
    ghost use Rattle.toml_names.specs.tree.Nodes.{Spot};

    ghost Value = { List Spot };

    ghost view = { λ t. t.tree.nodes.items };

    ghost invariant = { λ t. IsTree t.tree.nodes.items };
}

/// The data of a document of the profile, which are lent part by part; other texts are refused as `judge_text` does.
pub fn names_of_text<'t>(
    alloc: Global,
    source: Source<'t>,
    profile: Profile,
) -> Result<NamedText<'t>, ReadFault>
    ensures good { IfOk result (λ whole. (it : GoodText profile (text_of source.entry)) × IsDataOf (named it.lines) (part_kinds whole 0)) }
    ensures stand { IfOk result (StandForNames profile (text_of source.entry)) }
    ensures refused { IfErr result (RefusesText profile (text_of source.entry)) }
{
    let tree = enter_text(alloc, source, profile)?;
    Ok(NamedText { tree })
}

/// The distinct addresses of the mentions of a document of the profile, in the order of their first mentions, and the names
/// from which they were told; other texts are refused as `judge_text` does. No data are built.
pub fn mentions_of_text<'t>(
    alloc: Global,
    source: Source<'t>,
    profile: Profile,
) -> Result<(Vec<Address>, NamedText<'t>), ReadFault>
    ensures good { IfOk result (λ r. TellMentions profile (text_of source.entry) r.0.items r.1) }
    ensures refused { IfErr result (RefusesText profile (text_of source.entry)) }
{
    let tree = enter_text(alloc, source, profile)?;
    let list = tree.first_mentions()?;
    Ok((list, NamedText { tree }))
}

impl<'t> NamedText<'t> {
    /// The part in which all others lie.
    pub fn root(&self) -> usize
        ensures root { result ≡ 0 }
        ensures part { IsPart self.now result }
    {
        let _ = &self.tree;
        0
    }

    /// Where what stands at the address stands in the text; none where the data have nothing there.
    pub fn place(&self, at: &Address) -> Option<Place>
        ensures { IsPlaceOf self.now at.now result }
    {
        self.tree.place(at)
    }

    /// What stands at a part. The value of a scalar is made here.
    pub fn shape(&self, id: usize) -> Result<Shape, AllocError>
        requires { IsPart self.now id }
        ensures { IfOk result (λ shape. part_kinds self.now id [] ≡ Some (shape_kind shape)) }
    {
        self.tree.shape(id)
    }

    /// The parts at the indices of a part, in order.
    pub fn items(&self, id: usize) -> &[usize]
        requires { IsPart self.now id }
        ensures { AreItems self.now id result.now }
    {
        self.tree.items(id)
    }

    /// The names in a part and the parts at them, in the order of the names' bytes.
    pub fn members(&self, id: usize) -> Result<Vec<(&str, usize)>, AllocError>
        requires { IsPart self.now id }
        ensures { IfOk result (λ members. AreMembers self.now id (plain_members members.items)) }
    {
        self.tree.members(id)
    }
}
