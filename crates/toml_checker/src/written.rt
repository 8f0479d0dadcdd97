//! The comments that edits write.
ghost use Rattle.std.specs.Prelude.{◌≡◌, ◌↔◌, ◌++◌, ℕ, List, IsTrue, IfOk, OnOk, string_bytes};
ghost use Rattle.std.specs.List.{flat_map};
ghost use Rattle.toml_checker.specs.Comments.{AreCommentsOf, AreCommentsIn};
ghost use Rattle.toml_checker.specs.Counts.{plain};
ghost use Rattle.toml_checker.specs.EditLists.{changes};
ghost use Rattle.toml_checker.specs.WrittenComments.{HasValue, IsWrittenBy, LiesBelow, Writes, AnyWrites};
ghost use Rattle.toml_edits.specs.Edits.{change};
ghost use Rattle.toml_edits.specs.ValueTexts.{IsBadValue};
ghost use Rattle.toml_tree.specs.Spells.{SpellsValue};
ghost use Rattle.toml_tree.specs.View.{value as tree_value};

use crate::above::is_at_or_above;
use crate::counting::{counted, has};
use crate::edit_list::EditList;
use crate::marks::no_marks;
use crate::unmarked::{texts_of, unmarked};
use std::alloc::{AllocError, Global};
use std::collections::BTreeMap;
use toml_edits::{Edit, place};
use toml_names::Address;
use toml_text::Source;
use toml_tree::{Profile, SyntaxFault, Value, parse_value_in};
use toml_units::units_inside;

/// The comments that an edit writes.
#[derive(Drop)]
pub(crate) struct Written<'e> {
    /// Where its place stands behind the edits that follow.
    pub(crate) at: Option<Address>,
    /// Those in its value, in order.
    pub(crate) texts: Vec<&'e [u8]>,
    /// How often each is there.
    pub(crate) counts: BTreeMap<&'e [u8], u64>,
}

/// The comments in the tree of a value.
fn comments_inside<'v>(
    alloc: Global,
    text: &'v [u8],
    tree: &Value,
) -> Result<Vec<&'v [u8]>, AllocError>
    requires { SpellsValue (tree_value tree.now) 0 text.now }
    ensures { IfOk result (λ ts. AreCommentsOf text.now (plain ts.items)) }
{
    let units = units_inside(alloc, tree)?;
    let marks = no_marks(alloc, units.len())?;
    let comments = unmarked(alloc, &units, &marks)?;
    let texts = texts_of(alloc, text, &comments)?;
    Ok(texts)
}

/// The comments in the text of a value, where that is one of the profile.
fn comments_of<'v>(
    alloc: Global,
    value: &'v str,
    profile: Profile,
) -> Result<Vec<&'v [u8]>, AllocError>
    ensures { IfOk result (λ ts. ¬ (IsBadValue profile value.now) → AreCommentsOf value.now (plain ts.items)) }
{
    let bytes = value.as_bytes();
    let Ok(source) = Source::new(bytes) else {
        return Ok(Vec::new(alloc));
    };
    match parse_value_in(alloc, source, profile) {
        Ok(tree) => comments_inside(alloc, bytes, &tree),
        Err(SyntaxFault::NoMemory) => Err(AllocError),
        Err(_) => Ok(Vec::new(alloc)),
    }
}

/// The comments in the value of an edit.
fn comments_in<'e>(
    alloc: Global,
    edit: &'e Edit,
    profile: Profile,
) -> Result<Vec<&'e [u8]>, AllocError>
    ensures { IfOk result (λ ts. HasValue profile (change edit.now) → AreCommentsIn (change edit.now) (plain ts.items)) }
{
    match edit {
        Edit::Set { value, .. } => comments_of(alloc, value.as_str(), profile),
        Edit::Insert { value, .. } => comments_of(alloc, value.as_str(), profile),
        Edit::Rename { .. } => Ok(Vec::new(alloc)),
        Edit::Remove { .. } => Ok(Vec::new(alloc)),
        Edit::Section { .. } => Ok(Vec::new(alloc)),
        Edit::Element { .. } => Ok(Vec::new(alloc)),
    }
}

/// What an edit writes, where the others follow it.
pub(crate) fn written_by<'e>(
    alloc: Global,
    edit: &'e Edit,
    later: &EditList,
    profile: Profile,
) -> Result<Written<'e>, AllocError>
    ensures { IfOk result (λ w. HasValue profile (change edit.now) → IsWrittenBy (change edit.now) (changes later.now) w) }
{
    let texts = comments_in(alloc, edit, profile)?;
    let counts = counted(alloc, &texts)?;
    let at = later.carry(alloc, place(edit))?;
    Ok(Written { at, texts, counts })
}

/// Whether the place is at or above the address, if there are both.
fn lies_below(place: &Option<Address>, at: &Option<Address>) -> bool
    ensures { IsTrue result ↔ LiesBelow place.now at.now }
{
    match (place, at) {
        (Some(to), Some(address)) => is_at_or_above(to, address),
        _ => false,
    }
}

impl<'e> Written<'e> {
    /// Whether the text is one of the comments, and the place is at or above the address.
    fn writes(&self, at: &Option<Address>, text: &[u8]) -> bool
        ensures { IsTrue result ↔ Writes self.now at.now text.now }
    {
        has(&self.counts, text) && lies_below(&self.at, at)
    }
}

/// Whether one of the edits writes the text at the address.
pub(crate) fn any_writes(written: &[Written], at: &Option<Address>, text: &[u8]) -> bool
    ensures { IsTrue result ↔ AnyWrites written.now at.now text.now }
{
    for one in written {
        if one.writes(at, text) {
            return true;
        }
    }
    false
}

/// Adds texts at the end.
fn push_all<'e>(all: &mut Vec<&'e [u8]>, texts: &[&'e [u8]]) -> Result<(), AllocError>
    ensures { OnOk result (all.new.items ≡ all.old.items ++ texts.now) }
{
    for text in texts {
        all.push(*text)?;
    }
    Ok(())
}

/// All that the edits write.
pub(crate) fn all_texts<'e>(
    alloc: Global,
    written: &[Written<'e>],
) -> Result<Vec<&'e [u8]>, AllocError>
    ensures { IfOk result (λ ts. plain ts.items ≡ flat_map (λ w. plain w.texts.items) written.now) }
{
    let mut all = Vec::new(alloc);
    for one in written {
        push_all(&mut all, &one.texts)?;
    }
    Ok(all)
}
