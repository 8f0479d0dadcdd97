//! The tree of names, and the changes that a line makes in it.
ghost use Rattle.std.specs.Prelude.{◌∷◌, ◌≡◌, ◌+◌, ◌<◌, ◌≤◌, length, min, true, false, MatchOption, OnOk, OnErr, IfOk, vec_len, []};
ghost use Rattle.toml_tree.specs.View.{piece};
ghost use Rattle.toml_names.specs.declared.mentions.mention.Role.TheVariants.{Bare};
ghost use Rattle.toml_names.specs.model.Addresses.{Address};
ghost use Rattle.toml_names.specs.mentions.Keys.{part_name};
ghost use Rattle.toml_names.specs.mentions.Local.{role_after};
ghost use Rattle.toml_names.specs.mentions.Mentions as mentions;
ghost use Rattle.toml_names.specs.mentions.Mentions.{is_tables};
ghost use Rattle.toml_names.specs.tree.NameTree.{HasNoElements, IsAbsent, IsFound, IsTreeOf, LeadsBy, root_as};
ghost use Rattle.toml_names.specs.tree.Nodes.{IsNotedOnce, reverted, undone};
ghost use Rattle.toml_names.specs.tree.Steps.{GoesOn, Grows, IsBarred, IsNode, IsNoted, Steps};
ghost use Rattle.toml_names.specs.mentions.View.{kind as kind_of};

use crate::meaning::keys::spelled_name;
use crate::mentions::mention::{Kind, Role};
use crate::mentions::rules::may_follow;
use crate::model::address::Address;
use crate::model::place::same_role;
use crate::tree::hash_key::HashKey;
use crate::tree::node::{Node, Under};
use std::alloc::{AllocError, Global};
use toml_tree::Piece;

/// A change of the nodes.
#[derive(Clone, Copy, Drop)]
pub enum Change {
    /// The last node was made, and a name of this node leads to it.
    NameLinked(usize),
    /// The last node was made, as the last element of this node.
    ElementLinked(usize),
    /// This node had that mark, of that line.
    RoleNoted(usize, Role, usize),
}

/// Where a name leads from a node.
#[derive(Clone, Copy, Drop)]
pub enum Found {
    /// To a node that was there.
    Known(usize),
    /// Nowhere before: to a new node.
    New(usize),
}

/// Why a mention was not entered.
#[derive(Drop)]
pub enum EnterFault {
    /// It does not go with an earlier one of this address.
    Clash(Address),
    NoMemory,
}

impl From<AllocError> for EnterFault {
    ghost use Rattle.toml_names.specs.declared.tree.name_tree.EnterFault.TheVariants.{NoMemory};

    ghost from_gives = { λ _ f. f ≡ NoMemory };

    fn from(_: AllocError) -> Self {
        EnterFault::NoMemory
    }
}

/// The tree, with the changes of the line that is being read.
#[derive(Drop)]
pub struct NameTree<'t> {
    pub(crate) alloc: Global,
    // for hashing names
    pub(crate) key: HashKey<'t>,
    pub(crate) nodes: Vec<Node<'t>>,
    pub(crate) changes: Vec<Change>,
    pub(crate) lookups: u64,
}

impl<'t> NameTree<'t> {
    /// A tree of one node, the root: it is of this kind, and named in this role.
    pub(crate) fn new(
        alloc: Global,
        key: HashKey<'t>,
        role: Role,
        kind: Kind<'t>,
    ) -> Result<NameTree<'t>, AllocError>
        requires { is_tables role ≡ false }
        ensures root { IfOk result (λ t. IsTreeOf t.nodes.items (root_as role (kind_of kind.entry) ∷ [])) }
        ensures lone { IfOk result (λ t. (length t.nodes.items ≡ 1) × HasNoElements t.nodes.items 0) }
        ensures changes { IfOk result (λ t. t.changes.items ≡ []) }
        ensures lookups { IfOk result (λ t. t.lookups ≡ 0) }
    {
        let mut nodes = Vec::new(alloc);
        nodes.push(Node::leaf(Under::Root, 0, role, kind, 0))?;
        Ok(NameTree {
            alloc,
            key,
            nodes,
            changes: Vec::new(alloc),
            lookups: 0,
        })
    }

    /// One look-up more, up to the greatest `u64`.
    fn count_lookup(&mut self)
        ensures nodes { self.new.nodes ≡ self.old.nodes }
        ensures changes { self.new.changes ≡ self.old.changes }
        ensures counted { self.new.lookups ≡ min (self.old.lookups + 1) 18446744073709551615 }
        ensures rises { self.old.lookups ≤ self.new.lookups }
    {
        self.lookups = self.lookups.saturating_add(1);
    }

    /// The node that a key part's name leads to from a node: a look-up, which is counted.
    pub(crate) fn find(&mut self, at: usize, part: &Piece<'t>) -> Result<Option<usize>, AllocError>
        requires within { at < vec_len self.old.nodes }
        ensures found { IfOk result (LeadsBy self.old.nodes.items at (part_name (piece part.now))) }
        ensures nodes { self.new.nodes ≡ self.old.nodes }
        ensures counted { OnOk result (self.new.lookups ≡ min (self.old.lookups + 1) 18446744073709551615) }
        ensures goes_on { GoesOn 1 self.old self.new }
    {
        let name = spelled_name(self.alloc, part.text)?;
        self.count_lookup();
        Ok(self.nodes[at].child(name.as_str()))
    }

    /// The node that a key part's name leads to, or else a new one for it: a look-up, which is counted.
    pub(crate) fn find_or_grow(
        &mut self,
        above: usize,
        part: Piece<'t>,
        role: Role,
        kind: Kind<'t>,
        line: usize,
    ) -> Result<Found, AllocError>
        requires there { IsNode self.old.nodes.items above }
        ensures found { let before = self.old.nodes.items in
            let name = part_name (piece part.entry) in
            IfOk result (IsFound before self.new.nodes.items above name role (kind_of kind.entry) line) }
        ensures kept { OnErr result (self.new.nodes.items ≡ self.old.nodes.items) }
        ensures counted { OnOk result (self.new.lookups ≡ min (self.old.lookups + 1) 18446744073709551615) }
        ensures goes_on { GoesOn 1 self.old self.new }
    {
        let name = spelled_name(self.alloc, part.text)?;
        self.count_lookup();
        self.changes.reserve(1)?;
        self.nodes.reserve(1)?;
        let id = self.nodes.len();
        let node = &mut self.nodes[above];
        let depth = node.depth() + 1;
        if let Some(known) = node.find_or_link(self.alloc, &mut self.key, name, id)? {
            return Ok(Found::Known(known));
        }
        let under = Under::Name(above, part.text);
        self.nodes.push(Node::leaf(under, depth, role, kind, line))?;
        self.changes.push(Change::NameLinked(above))?;
        Ok(Found::New(id))
    }

    /// The node that a key part's name leads to, or else a new one for it; none where it leads nowhere and only names that
    /// are there are followed. A look-up, which is counted.
    pub(crate) fn follow(
        &mut self,
        known: bool,
        above: usize,
        part: Piece<'t>,
        role: Role,
        kind: Kind<'t>,
        line: usize,
    ) -> Result<Option<Found>, AllocError>
        requires there { IsNode self.old.nodes.items above }
        ensures found { let before = self.old.nodes.items in
            let name = part_name (piece part.entry) in
            IfOk result (λ r. MatchOption r ((known ≡ true) × IsAbsent before above name)
            (IsFound before self.new.nodes.items above name role (kind_of kind.entry) line)) }
        ensures goes_on { GoesOn 1 self.old self.new }
    {
        if !known {
            return Ok(Some(self.find_or_grow(above, part, role, kind, line)?));
        }
        match self.find(above, &part)? {
            Some(id) => Ok(Some(Found::Known(id))),
            None => Ok(None),
        }
    }

    /// A new node, for the next element of an array.
    pub(crate) fn grow_element(
        &mut self,
        above: usize,
        role: Role,
        kind: Kind<'t>,
        line: usize,
    ) -> Result<usize, AllocError>
        requires there { IsNode self.old.nodes.items above }
        ensures grown { IfOk result (Grows self.old.nodes.items self.new.nodes.items above role (kind_of kind.entry) line) }
        ensures kept { OnErr result (self.new.nodes.items ≡ self.old.nodes.items) }
        ensures goes_on { GoesOn 0 self.old self.new }
    {
        self.changes.reserve(1)?;
        self.nodes.reserve(1)?;
        let id = self.nodes.len();
        let node = &mut self.nodes[above];
        let depth = node.depth() + 1;
        let index = node.elements().len() as u64;
        node.link_element(self.alloc, id)?;
        let under = Under::Index(above, index);
        self.nodes.push(Node::leaf(under, depth, role, kind, line))?;
        self.changes.push(Change::ElementLinked(above))?;
        Ok(id)
    }

    /// A node is named once more.
    pub(crate) fn note(&mut self, at: usize, role: Role, line: usize) -> Result<(), AllocError>
        requires { at < vec_len self.old.nodes }
        ensures noted { OnOk result (IsNotedOnce self.old.nodes.items self.new.nodes.items at role line) }
        ensures kept { OnErr result (self.new.nodes.items ≡ self.old.nodes.items) }
        ensures goes_on { GoesOn 0 self.old self.new }
    {
        let node = &self.nodes[at];
        let before = node.role();
        let of_line = node.line();
        let after = role_after(before, role);
        let line = if same_role(after, before) {
            of_line
        } else {
            line
        };
        self.changes.push(Change::RoleNoted(at, before, of_line))?;
        let node = &mut self.nodes[at];
        node.remark(after, line);
        Ok(())
    }

    /// Names a node once more, if that goes with its mark.
    pub(crate) fn mention(&mut self, id: usize, role: Role, line: usize) -> Result<(), EnterFault>
        requires there { IsNode self.old.nodes.items id }
        ensures { Steps 0 self.old self.new result
            (λ _. IsNoted self.old.nodes.items self.new.nodes.items id role line)
            (IsBarred self.old.nodes.items id role) }
    {
        if !may_follow(self.nodes[id].role(), role) {
            return Err(EnterFault::Clash(self.address(id)?));
        }
        self.note(id, role, line)?;
        Ok(())
    }

    /// The nodes as they were before the changes.
    pub(crate) fn undo(&mut self)
        ensures nodes { self.new.nodes.items ≡ undone self.old.changes.items self.old.nodes.items }
        ensures changes { self.new.changes.items ≡ [] }
        ensures lookups { self.new.lookups ≡ self.old.lookups }
    {
        while let Some(change) = self.changes.pop() {
            self.revert(change);
        }
    }

    /// The nodes as they were before the change. A change of a node that is not there changes nothing; the journal has
    /// none.
    fn revert(&mut self, change: Change)
        ensures nodes { self.new.nodes.items ≡ reverted change self.old.nodes.items }
        ensures changes { self.new.changes ≡ self.old.changes }
        ensures lookups { self.new.lookups ≡ self.old.lookups }
    {
        match change {
            Change::NameLinked(above) => {
                let _ = self.nodes.pop();
                if above < self.nodes.len() {
                    let node = &mut self.nodes[above];
                    node.unlink_name();
                }
            }
            Change::ElementLinked(above) => {
                let _ = self.nodes.pop();
                if above < self.nodes.len() {
                    let node = &mut self.nodes[above];
                    node.unlink_element();
                }
            }
            Change::RoleNoted(at, role, line) => {
                if at < self.nodes.len() {
                    let node = &mut self.nodes[at];
                    node.remark(role, line);
                }
            }
        }
    }
}

/// What is left of two roles of one node.
fn role_after(first: Role, then: Role) -> Role
    ensures { result ≡ role_after first then }
{
    match (first, then) {
        (Role::Bare, _) => then,
        (_, Role::Bare) | (_, Role::Passed) => first,
        _ => then,
    }
}
