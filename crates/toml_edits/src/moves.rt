//! What edits do to the things at addresses, as a tree over the steps that they have before the edits.
ghost use Rattle.std.specs.Prelude.{◌≡◌, ◌∷◌, [], List, Some, IfOk, IfSome, OnOk, map};
ghost use Rattle.toml_edits.specs.Carry.{parted};
ghost use Rattle.toml_edits.specs.Edits.{Change, change, place as place_of};
ghost use Rattle.toml_edits.specs.Fronts.{InsertedFront, IsFront, MadeFront, RemovedFront, RenamedFront};
ghost use Rattle.toml_edits.specs.Moves.{Entered, EnteredAt, EnteredElement, IsElementOpened, IsFresh, IsMarkedTree, IsOpened, IsRenamedTree, LostAt, TakenAt, moves, name_of};
ghost use Rattle.toml_edits.specs.Told.{IfTold, TellsOf};

use crate::edit::{Edit, place};
use crate::shifts::Runs;
use std::alloc::{AllocError, Global};
use std::collections::BTreeMap;
use toml_names::{MAX_STEPS, Name, Step};

/// Whether a thing stands somewhere in the end.
#[derive(Drop)]
pub enum Stand {
    /// It is not known: another thing may have taken its name.
    Unknown,
    Nowhere,
    /// Under this name.
    Under(Name),
}

/// What a list of edits does to one thing and to what is below it, kept for the steps that the edits name. It is made from the
/// end of the list, edit by edit (`add_front`), and asked by the steps that things have before the edits: one walk by a thing's own
/// steps tells where it stands in the end (`find`), and which edits touch it (`look`). All edits of the list together take as
/// many look-ups as they have steps, and so does a walk.
#[derive(Drop)]
pub struct Moves {
    alloc: Global,
    // of a thing with a name: where it stands in the end
    pub(crate) to: Stand,
    // an edit sets it
    pub(crate) set: bool,
    // an edit's place is strictly below it
    pub(crate) below: bool,
    // an edit renames it
    pub(crate) renamed: bool,
    // all that is strictly below it stands nowhere in the end
    pub(crate) cleared: bool,
    pub(crate) names: BTreeMap<String, Moves>,
    // where the elements stand in the end, and their trees by that
    pub(crate) runs: Runs,
    pub(crate) elements: BTreeMap<u64, Moves>,
}

/// What an edit does at the end of its way.
#[derive(Clone, Copy)]
pub enum Act<'a> {
    Set,
    Stay,
    Lose(&'a str),
    Take(&'a str, &'a str),
    LoseAt(u64),
    DropAt(u64),
    Mark,
}

impl Moves {
    /// Of a thing that edits leave alone.
    fn of(alloc: Global, to: Stand) -> Moves
        ensures { IsFresh (name_of to) result }
    {
        Moves {
            alloc,
            to,
            set: false,
            below: false,
            renamed: false,
            cleared: false,
            names: BTreeMap::new(alloc),
            runs: Runs::new(alloc),
            elements: BTreeMap::new(alloc),
        }
    }

    /// What no edits do.
    pub fn none(alloc: Global) -> Moves
        ensures { TellsOf [] result }
    {
        Moves::of(alloc, Stand::Nowhere)
    }

    /// Puts an edit in front of those of the list. False where that is not told: where the edit is at the root or deeper than
    /// anything can stand, or an index would pass 64 bits. Then, and where memory lacks, nothing is said of the tree any more.
    pub fn add_front(&mut self, edit: &Edit) -> Result<bool, AllocError>
        ensures { (cs : List Change) → TellsOf cs self.old → IfTold result (TellsOf (change edit.now ∷ cs) self.new) }
    {
        if place(edit).steps().is_empty() {
            return Ok(false);
        }
        front(self, edit)
    }
}

/// One edit more, in front of those that the tree has: whether the tree tells of it. A tree goes no deeper than one step more
/// than the longest address in data.
fn front(tree: &mut Moves, edit: &Edit) -> Result<bool, AllocError>
    ensures { IfTold result (IsFront moves (change edit.now) (Some tree.old) tree.new) }
{
    if place(edit).steps().len() > MAX_STEPS + 1 {
        return Ok(false);
    }
    match edit {
        Edit::Set { at, .. } => enter(tree, at.steps(), Act::Set),
        Edit::Insert { at, .. } => insert(tree, at.steps()),
        Edit::Section { at } | Edit::Element { at } => above(tree, at.steps()),
        Edit::Rename { at, to } => rename(tree, at.steps(), to.as_str()),
        Edit::Remove { at } => remove(tree, at.steps()),
    }
}

/// An edit that moves nothing.
fn above(tree: &mut Moves, at: &[Step]) -> Result<bool, AllocError>
    ensures { IfTold result (MadeFront moves (parted at.now) (Some tree.old) tree.new) }
{
    let Some((_last, parent)) = at.split_last() else {
        return Ok(true);
    };
    enter(tree, parent, Act::Stay)
}

/// An insertion.
fn insert(tree: &mut Moves, at: &[Step]) -> Result<bool, AllocError>
    ensures { IfTold result (InsertedFront moves (parted at.now) (Some tree.old) tree.new) }
{
    let Some((last, parent)) = at.split_last() else {
        return Ok(true);
    };
    match last {
        Step::Name(_) => enter(tree, parent, Act::Stay),
        Step::Index(index) => enter(tree, parent, Act::DropAt(*index)),
    }
}

/// A renaming.
fn rename(tree: &mut Moves, at: &[Step], to: &str) -> Result<bool, AllocError>
    ensures { IfTold result (RenamedFront moves at.now (parted at.now) to.now (Some tree.old) tree.new) }
{
    let Some((last, parent)) = at.split_last() else {
        return Ok(true);
    };
    match last {
        Step::Name(name) => enter(tree, parent, Act::Take(name.as_str(), to)),
        Step::Index(_) => enter(tree, at, Act::Mark),
    }
}

/// A removal.
fn remove(tree: &mut Moves, at: &[Step]) -> Result<bool, AllocError>
    ensures { IfTold result (RemovedFront moves (parted at.now) (Some tree.old) tree.new) }
{
    let Some((last, parent)) = at.split_last() else {
        return Ok(true);
    };
    match last {
        Step::Name(name) => enter(tree, parent, Act::Lose(name.as_str())),
        Step::Index(index) => enter(tree, parent, Act::LoseAt(*index)),
    }
}

/// What the edits do; none where one of them is not told.
pub fn moves_of(alloc: Global, edits: &[Edit]) -> Result<Option<Moves>, AllocError>
    ensures { IfOk result (λ o. IfSome o (TellsOf (map change edits.now))) }
{
    let mut tree = Moves::none(alloc);
    for count in 0..edits.len() {
        let told = tree.add_front(&edits[edits.len() - 1 - count])?;
        if !told {
            return Ok(None);
        }
    }
    Ok(Some(tree))
}

/// One edit more in front: along the way to its place, and there.
#[cycle(enter)]
fn enter(tree: &mut Moves, way: &[Step], act: Act) -> Result<bool, AllocError>
    ensures { IfTold result (Entered act.entry way.now tree.old tree.new) }
{
    let Some((step, rest)) = way.split_first() else {
        return enter_last(tree, act);
    };
    tree.below = true;
    if tree.cleared {
        return Ok(true);
    }
    match step {
        Step::Name(name) => enter_name(tree.alloc, &mut tree.names, name.as_str(), rest, act),
        Step::Index(index) => {
            let Some(to) = tree.runs.at(*index) else {
                return Ok(true);
            };
            enter_element(tree.alloc, &mut tree.elements, to, rest, act)
        }
    }
}

/// Enters the act behind a name, which may be new.
#[cycle(enter)]
fn enter_name(
    alloc: Global,
    names: &mut BTreeMap<String, Moves>,
    name: &str,
    rest: &[Step],
    act: Act,
) -> Result<bool, AllocError>
    ensures { IfTold result (EnteredAt act.entry name.now rest.now names.old names.new) }
{
    open_name(alloc, names, name)?;
    match names.get_mut(name) {
        Some(tree) => enter(tree, rest, act),
        None => Ok(false),
    }
}

/// Enters the act behind an element, which is told by where it stands in the end.
#[cycle(enter)]
fn enter_element(
    alloc: Global,
    elements: &mut BTreeMap<u64, Moves>,
    to: u64,
    rest: &[Step],
    act: Act,
) -> Result<bool, AllocError>
    ensures { IfTold result (EnteredElement act.entry to rest.now elements.old elements.new) }
{
    open_element(alloc, elements, to)?;
    match elements.get_mut(&to) {
        Some(tree) => enter(tree, rest, act),
        None => Ok(false),
    }
}

/// Puts a tree in for a name that has none. It stands apart, since a tree on the stack of `enter` would stand there once for
/// each step of a way.
#[inline(never)]
fn open_name(
    alloc: Global,
    names: &mut BTreeMap<String, Moves>,
    name: &str,
) -> Result<(), AllocError>
    ensures { OnOk result (IsOpened name.now names.old names.new) }
{
    if names.contains_key(name) {
        return Ok(());
    }
    let to = Name::spelled(alloc, name)?;
    let key = String::from_str(alloc, name)?;
    names.insert(key, Moves::of(alloc, Stand::Under(to)))?;
    Ok(())
}

/// Puts a tree in for an element that has none, apart from `enter` too.
#[inline(never)]
fn open_element(
    alloc: Global,
    elements: &mut BTreeMap<u64, Moves>,
    to: u64,
) -> Result<(), AllocError>
    ensures { OnOk result (IsElementOpened to elements.old elements.new) }
{
    if elements.contains_key(&to) {
        return Ok(());
    }
    elements.insert(to, Moves::of(alloc, Stand::Nowhere))?;
    Ok(())
}

/// At the end of the way. It stands apart for the same reason.
#[inline(never)]
fn enter_last(tree: &mut Moves, act: Act) -> Result<bool, AllocError>
    ensures { IfTold result (Entered act.entry [] tree.old tree.new) }
{
    match act {
        Act::Set => {
            tree.set = true;
            tree.cleared = true;
            Ok(true)
        }
        Act::Mark => {
            tree.renamed = true;
            Ok(true)
        }
        Act::Stay => {
            tree.below = true;
            Ok(true)
        }
        Act::Lose(name) => {
            tree.below = true;
            lose(tree.alloc, &mut tree.names, name)?;
            Ok(true)
        }
        Act::Take(name, to) => {
            tree.below = true;
            take(tree.alloc, &mut tree.names, name, to)?;
            Ok(true)
        }
        Act::LoseAt(index) => {
            let told = tree.runs.lose_at(tree.alloc, index)?;
            tree.below = true;
            Ok(told)
        }
        Act::DropAt(index) => {
            tree.runs.drop_at(tree.alloc, index)?;
            tree.below = true;
            Ok(true)
        }
    }
}

/// Nothing that has the name stands anywhere in the end.
fn lose(alloc: Global, names: &mut BTreeMap<String, Moves>, name: &str) -> Result<(), AllocError>
    ensures { OnOk result (LostAt name.now names.old names.new) }
{
    let key = String::from_str(alloc, name)?;
    names.insert(key, Moves::of(alloc, Stand::Nowhere))?;
    Ok(())
}

/// With the mark of a thing that an edit renames.
fn marked(tree: Moves) -> Moves
    ensures { IsMarkedTree tree result }
{
    Moves {
        renamed: true,
        ..tree
    }
}

/// The tree of a thing that an edit renames, by the tree that was kept of it under its new name.
fn renamed(alloc: Global, kept: Option<Moves>, to: &str) -> Result<Moves, AllocError>
    ensures { IfOk result (λ t. IsRenamedTree to.now kept t) }
{
    match kept {
        Some(tree) => Ok(marked(tree)),
        None => {
            let name = Name::spelled(alloc, to)?;
            Ok(marked(Moves::of(alloc, Stand::Under(name))))
        }
    }
}

/// What has the first name gets the second. What had that is not known: no edit without a fault finds anything there.
fn take(
    alloc: Global,
    names: &mut BTreeMap<String, Moves>,
    name: &str,
    to: &str,
) -> Result<(), AllocError>
    ensures { OnOk result (TakenAt name.now to.now names.old names.new) }
{
    let kept = names.remove(to);
    let tree = renamed(alloc, kept, to)?;
    let taken = String::from_str(alloc, to)?;
    names.insert(taken, Moves::of(alloc, Stand::Unknown))?;
    let key = String::from_str(alloc, name)?;
    names.insert(key, tree)?;
    Ok(())
}
