//! What is kept of a sought address while the lines of a text go by: who named it first in which role, and which mention of it may not
//! follow which.
ghost use Rattle.std.specs.Prelude.{◌≡◌, ◌↔◌, ◌∷◌, [], IfOk, IsTrue, List, OnOk, map};
ghost use Rattle.std.specs.Option.{option_map_or};
ghost use Rattle.toml_tree.specs.View.{piece};
ghost use Rattle.toml_names.specs.mentions.Mentions.{Named, entered, root};
ghost use Rattle.toml_names.specs.mentions.Rules.{may_follow};
ghost use Rattle.toml_names.specs.model.Addresses.{Address};
ghost use Rattle.toml_mentions.specs.Sought.{Counts, HasRole, IsSeen, Keeps, Sees, Stands, count_at, first_some, forbidden_by, forbidding, part_at, role_of, seen_clash, seen_of, set_at, sights, way_to};

use crate::role::{Role, may_follow};
use crate::way::indexed;
use std::alloc::{AllocError, Global};
use toml_names::Step;
use toml_text::Span;
use toml_tree::Piece;

/// A key part that names the address.
#[derive(Clone, Copy)]
pub struct Mention {
    /// What it says of the address.
    pub role: Role,
    /// Where the key part stands.
    pub span: Span,
}

/// Two mentions of one address that may not stand together: the earliest that forbids the other, and that one.
#[derive(Clone, Copy)]
pub struct Clash {
    /// The earliest mention that forbids the other.
    pub first: Mention,
    /// The mention that may not be.
    pub again: Mention,
}

/// What is kept of an address.
#[derive(Drop)]
pub(crate) struct Seeker<'a> {
    pub(crate) alloc: Global,
    pub(crate) target: &'a [Step],
    // for each number of steps how many tables the array has that stands so far along the target
    pub(crate) tables: Vec<u64>,
    // how many steps of the target the table of the last header is; none, where it is off the way
    pub(crate) section: Option<usize>,
    // the first mention in each role, in text order
    pub(crate) firsts: Vec<Mention>,
    /// The first mention that may not follow an earlier one.
    pub clash: Option<Clash>,
    /// Where it stands first as an element of an array in a value.
    pub stood: Option<Span>,
}

impl<'a> Seeker<'a> {
    /// Nothing of the text went by.
    pub(crate) fn new(alloc: Global, target: &'a [Step]) -> Result<Seeker<'a>, AllocError>
        ensures target { IfOk result (λ s. s.target.now ≡ target.entry.now) }
        ensures stands { IfOk result (λ s. Stands s (root ∷ []) 0) }
        ensures seen { IfOk result (λ s. IsSeen s.firsts.items s.clash []) }
    {
        Ok(Seeker {
            alloc,
            target,
            tables: vec![in alloc; 0; target.len() + 1]?,
            section: Some(0),
            firsts: Vec::new(alloc),
            clash: None,
            stood: None,
        })
    }

    /// How many tables the array of tables has at the way.
    pub(crate) fn tables_at(&self, way: Option<usize>) -> u64
        ensures { result ≡ count_at self.now.tables.items way }
    {
        match way {
            Some(depth) if depth < self.tables.len() => self.tables[depth],
            _ => 0,
        }
    }

    /// Sets how many tables the array of tables has at the way.
    pub(crate) fn set_tables(&mut self, way: Option<usize>, count: u64)
        ensures tables { self.new.tables.items ≡ set_at self.old.tables.items way count }
        ensures rest { self.new ≡ record self.old { tables = self.new.tables } }
    {
        if let Some(depth) = way {
            if depth < self.tables.len() {
                self.tables[depth] = count;
            }
        }
    }

    /// Where a header goes on behind a front: in the last element of an array of tables, or in the table itself.
    pub(crate) fn entered(&self, way: Option<usize>) -> Option<usize>
        ensures { (at : Address) (earlier : List Named) → way ≡ way_to self.now.target.now at → Counts self.now.tables.items self.now.target.now earlier
            → result ≡ way_to self.now.target.now (entered earlier at) }
    {
        match self.tables_at(way).checked_sub(1) {
            Some(last) => indexed(self.target, way, last),
            None => way,
        }
    }

    /// Takes a mention in, where the way has come to the target.
    pub(crate) fn mention(
        &mut self,
        way: Option<usize>,
        role: Role,
        part: Piece<'_>,
    ) -> Result<(), AllocError>
        ensures { (at : Address) → way ≡ way_to self.old.target.now at
            → OnOk result (Sees self.old self.new (sights self.old.target.now (part_at (role_of role) at (piece part.entry) ∷ []))) }
    {
        let Some(depth) = way else {
            return Ok(());
        };
        if depth != self.target.len() {
            return Ok(());
        }
        let span = part.span();
        self.see(Mention { role, span })
    }

    /// Takes a mention of the target in.
    fn see(&mut self, again: Mention) -> Result<(), AllocError>
        ensures { OnOk result (Sees self.old self.new (seen_of again ∷ [])) }
    {
        self.clash = clash_after(self.clash, &self.firsts, again);
        add_first(&mut self.firsts, again)
    }
}

/// The clash that there is, or else that with one mention more.
fn clash_after(clash: Option<Clash>, firsts: &[Mention], again: Mention) -> Option<Clash>
    ensures { seen_clash result ≡ first_some (seen_clash clash) (forbidden_by (forbidding (role_of again.role) (map seen_of firsts.now)) (seen_of again)) }
{
    match clash {
        Some(clash) => Some(clash),
        None => clash_with(firsts, again),
    }
}

/// Adds the mention, where it is the first in its role.
fn add_first(firsts: &mut Vec<Mention>, again: Mention) -> Result<(), AllocError>
    ensures { OnOk result (Keeps (map seen_of firsts.new.items) (map seen_of firsts.old.items) (seen_of again)) }
{
    if has_role(firsts, again.role) {
        return Ok(());
    }
    Ok(firsts.push(again)?)
}

/// Whether one of the mentions is in the role.
fn has_role(firsts: &[Mention], role: Role) -> bool
    ensures { IsTrue result → HasRole (role_of role) (map seen_of firsts.now) }
{
    for first in firsts {
        if first.role == role {
            return true;
        }
    }
    false
}

/// The earliest mention that forbids another one, and that one.
fn clash_with(firsts: &[Mention], again: Mention) -> Option<Clash>
    ensures { seen_clash result ≡ forbidden_by (forbidding (role_of again.role) (map seen_of firsts.now)) (seen_of again) }
{
    for first in firsts {
        if !may_follow(first.role, again.role) {
            return Some(Clash {
                first: *first,
                again,
            });
        }
    }
    None
}
