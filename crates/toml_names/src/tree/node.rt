//! The nodes of the tree of names.
ghost use Rattle.std.specs.Cow.{cow_str_bytes};
ghost use Rattle.std.specs.Prelude.{◌≡◌, ◌↔◌, ◌-◌, ◌∷◌, ◌++◌, ℕ, IsTrue, OnOk, OnErr, IfOk, IfSome, IfNone, Some, length, take, []};
ghost use Rattle.std.specs.Map.{lookup};
ghost use Rattle.std.specs.Str.{bytes_eq};
ghost use Rattle.toml_names.specs.tree.Nodes.{elements_of};

use crate::mentions::mention::{Kind, Role};
use crate::tree::hash_key::HashKey;
use crate::tree::name_map::NameMap;
use std::alloc::{AllocError, Global};
use std::borrow::CowStr;
use std::marker::Model;

/// Where a node hangs: under another node, by the text of a key part or by an index.
#[derive(Clone, Copy, Drop)]
pub enum Under<'t> {
    /// Under none: it is the root.
    Root,
    /// A name in the table of that node.
    Name(usize, &'t str),
    /// An element of the array of that node.
    Index(usize, u64),
}

/// What hangs under a node: the names in it and their nodes, in the order of their first mentions, and the nodes of its
/// elements.
#[derive(Drop)]
pub struct Below<'t> {
    names: NameMap<'t>,
    // most are tables, and have none
    elements: Option<Box<Vec<usize>>>,
}

/// A node: where it hangs, what it stands for, and what hangs under it.
#[derive(Drop)]
pub struct Node<'t> {
    under: Under<'t>,
    // how many steps its address has
    depth: usize,
    // the mark: one role for all in which the address was named
    role: Role,
    kind: Kind<'t>,
    // the first line that named it in the mark's role
    line: usize,
    // most nodes are scalars' and have nothing under them
    below: Option<Box<Below<'t>>>,
}

/// A list of one element's node.
fn one_element(alloc: Global, id: usize) -> Result<Box<Vec<usize>>, AllocError>
    ensures { IfOk result (λ list. elements_of (Some list) ≡ id ∷ []) }
{
    let mut elements = Vec::new(alloc);
    elements.push(id)?;
    Ok(Box::new(alloc, elements)?)
}

impl<'t> Below<'t> {
    /// The nodes of its elements.
    fn elements(&self) -> &[usize]
        ensures { result.now ≡ elements_of self.now.elements }
    {
        match &self.elements {
            Some(elements) => elements,
            None => &[],
        }
    }

    /// A new last element.
    fn link_element(&mut self, alloc: Global, id: usize) -> Result<(), AllocError>
        ensures names { self.new.names ≡ self.old.names }
        ensures linked { OnOk result (elements_of self.new.elements ≡ elements_of self.old.elements ++ id ∷ []) }
        ensures unchanged { OnErr result (elements_of self.new.elements ≡ elements_of self.old.elements) }
    {
        if let Some(elements) = &mut self.elements {
            elements.push(id)?;
            return Ok(());
        }
        self.elements = Some(one_element(alloc, id)?);
        Ok(())
    }

    /// The element that was linked last is no more.
    fn unlink_element(&mut self)
        ensures names { self.new.names ≡ self.old.names }
        ensures elements { elements_of self.new.elements ≡ take (length (elements_of self.old.elements) - 1) (elements_of self.old.elements) }
    {
        if let Some(elements) = &mut self.elements {
            let _ = elements.pop();
        }
    }
}

impl<'t> Model for Node<'t> {
    ghost use Rattle.toml_names.specs.tree.Nodes.{Spot, under_of, names_below, elements_below};
    ghost use Rattle.toml_names.specs.mentions.View.{kind as kind_of};

    ghost Value = { Spot };

    ghost view = { λ n. record { under = under_of n.under; depth = n.depth; role = n.role; kind = kind_of n.kind; line = n.line; children = names_below n.below; elements = elements_below n.below } };
}

impl<'t> Node<'t> {
    ghost use Rattle.toml_names.specs.declared.model.address.Step.TheVariants.{Name, Index};
    ghost use Rattle.toml_names.specs.tree.NameMaps.{AreDistinct};
    ghost use Rattle.toml_names.specs.tree.Nodes.{leaf, linked, under_of, remarked, without_name, without_element};
    ghost use Rattle.toml_names.specs.mentions.View.{kind as kind_of};

    /// A node that leads nowhere.
    pub(crate) fn leaf(
        under: Under<'t>,
        depth: usize,
        role: Role,
        what: Kind<'t>,
        line: usize,
    ) -> Node<'t>
        ensures { result ≡ leaf (under_of under.entry) depth role (kind_of what.entry) line }
    {
        Node {
            under,
            depth,
            role,
            kind: what,
            line,
            below: None,
        }
    }

    /// Where it hangs.
    pub(crate) fn under(&self) -> Under<'t>
        ensures { under_of result ≡ self.now.under }
    {
        self.under
    }

    /// How many steps its address has.
    pub(crate) fn depth(&self) -> usize
        ensures { result ≡ self.now.depth }
    {
        self.depth
    }

    /// The mark of its address: one role, which stands for all in which the address was named.
    pub(crate) fn role(&self) -> Role
        ensures { result ≡ self.now.role }
    {
        self.role
    }

    /// What stands at its address.
    pub(crate) fn kind(&self) -> Kind<'t>
        ensures { kind_of result ≡ self.now.kind }
    {
        self.kind
    }

    /// The first line that named it in the mark's role, from 0.
    pub(crate) fn line(&self) -> usize
        ensures { result ≡ self.now.line }
    {
        self.line
    }

    /// Sets the mark and its line.
    pub(crate) fn remark(&mut self, role: Role, line: usize)
        ensures { self.new ≡ remarked self.old role line }
    {
        self.role = role;
        self.line = line;
    }

    /// Whether nothing hangs under it.
    pub(crate) fn is_leaf(&self) -> bool
        ensures { IsTrue result ↔ ((self.now.children ≡ []) × (self.now.elements ≡ [])) }
    {
        self.name_count() == 0 && self.elements().is_empty()
    }

    /// How many names lead on from it. No two are the same.
    pub(crate) fn name_count(&self) -> usize
        ensures count { result ≡ length self.now.children }
        ensures distinct { AreDistinct self.now.children }
    {
        match &self.below {
            Some(below) => below.names.len(),
            None => 0,
        }
    }

    /// The node of a name.
    pub(crate) fn child(&self, name: &str) -> Option<usize>
        ensures { result ≡ lookup (bytes_eq name.now) self.now.children }
    {
        match &self.below {
            Some(below) => below.names.get(name),
            None => None,
        }
    }

    /// The node of a name, which is looked for at the place first.
    pub(crate) fn child_from(&self, place: usize, name: &str) -> Option<usize>
        ensures { result ≡ lookup (bytes_eq name.now) self.now.children }
    {
        match &self.below {
            Some(below) => below.names.get_from(place, name),
            None => None,
        }
    }

    /// The names in it and their nodes, in the order of their first mentions; nothing where it has had none.
    pub(crate) fn names(&self) -> Option<&NameMap<'t>>
        ensures some { IfSome result (λ names. names.now ≡ self.now.children) }
        ensures none { IfNone result (self.now.children ≡ []) }
    {
        match &self.below {
            Some(below) => Some(&below.names),
            None => None,
        }
    }

    /// The nodes of its elements.
    pub(crate) fn elements(&self) -> &[usize]
        ensures { result.now ≡ self.now.elements }
    {
        match &self.below {
            Some(below) => below.elements(),
            None => &[],
        }
    }

    /// The node that a name leads to; a name that leads nowhere is linked to `id`.
    pub(crate) fn find_or_link(
        &mut self,
        alloc: Global,
        key: &mut HashKey<'_>,
        name: CowStr<'t>,
        id: usize,
    ) -> Result<Option<usize>, AllocError>
        ensures found { IfOk result (λ to. to ≡ lookup (bytes_eq (cow_str_bytes name.entry)) self.old.children) }
        ensures known { IfOk result (λ to. IfSome to (λ there. self.new ≡ self.old)) }
        ensures linked { IfOk result (λ to. IfNone to (self.new ≡ linked self.old (Name (cow_str_bytes name.entry)) id)) }
        ensures unchanged { OnErr result (self.new ≡ self.old) }
    {
        match &mut self.below {
            Some(below) => below.names.find_or_insert(alloc, key, name, id),
            None => {
                let mut names = NameMap::new(alloc);
                names.find_or_insert(alloc, key, name, id)?;
                let elements = None;
                self.below = Some(Box::new(alloc, Below { names, elements })?);
                Ok(None)
            }
        }
    }

    /// The name that was linked last leads nowhere again.
    pub(crate) fn unlink_name(&mut self)
        ensures { self.new ≡ without_name self.old }
    {
        if let Some(below) = &mut self.below {
            below.names.drop_last();
        }
    }

    /// A new last element.
    pub(crate) fn link_element(&mut self, alloc: Global, id: usize) -> Result<(), AllocError>
        ensures linked { OnOk result ((index : ℕ) → self.new ≡ linked self.old (Index index) id) }
        ensures unchanged { OnErr result (self.new ≡ self.old) }
    {
        match &mut self.below {
            Some(below) => below.link_element(alloc, id)?,
            None => {
                let elements = Some(one_element(alloc, id)?);
                let names = NameMap::new(alloc);
                self.below = Some(Box::new(alloc, Below { names, elements })?);
            }
        }
        Ok(())
    }

    /// The element that was linked last is no more.
    pub(crate) fn unlink_element(&mut self)
        ensures { self.new ≡ without_element self.old }
    {
        if let Some(below) = &mut self.below {
            below.unlink_element();
        }
    }
}
