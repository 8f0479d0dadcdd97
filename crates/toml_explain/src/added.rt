//! Lines and comments of an edited text that nobody asked for (407, 408).
ghost use Rattle.std.specs.Prelude.{IfOk, string_bytes};
ghost use Rattle.toml_explain.specs.Documents.{ShowsInFile};

use crate::carrying::Carrier;
use crate::lost::unit_words;
use crate::pairs::{Pairing, Side, bytes_of, pair_units};
use crate::reason::{Judged, plain};
use crate::telling::told_at;
use std::alloc::{AllocError, Global};
use std::collections::BTreeMap;
use toml_edits::{Edit, place};
use toml_names::{Address, AddressSet, MAX_STEPS, Name, Step};
use toml_text::{Source, Span};
use toml_tree::{Profile, parse_value_in};
use toml_units::{Unit, UnitKind, units_inside};

/// The address of the steps.
fn address_of(alloc: Global, steps: &[Step]) -> Result<Address, AllocError> {
    let mut all = Vec::new(alloc);
    for step in steps {
        all.push(step.copy()?)?;
    }
    Ok(Address::of(all))
}

/// Where the result of an edit stands right behind it: of a removal its parent, which the root has not.
fn result_of(alloc: Global, edit: &Edit) -> Result<Option<Address>, AllocError> {
    let Some((_, above)) = place(edit).steps().split_last() else {
        return Ok(None);
    };
    match edit {
        Edit::Remove { .. } => Ok(Some(address_of(alloc, above)?)),
        Edit::Rename { to, .. } => {
            let name = Name::spelled(alloc, to.as_str())?;
            Ok(Some(address_of(alloc, above)?.child(alloc, name)?))
        }
        _ => Ok(Some(place(edit).copy(alloc)?)),
    }
}

/// What the edits owe, each result carried through the edits that follow: all at it and above it, and all below it, unless the edit
/// is a removal. Nothing stands deeper than `MAX_STEPS`.
fn debts(alloc: Global, edits: &[Edit]) -> Result<AddressSet, AllocError> {
    let mut debts = AddressSet::new(alloc);
    let mut later = Carrier::none(alloc);
    for index in (0..edits.len()).rev() {
        let Some(left) = edits.get(index..) else {
            return Ok(debts);
        };
        if let Some(edit) = left.first() {
            if let Some(at) = owed_at(alloc, edit, &later)? {
                let is_removal = matches!(edit, Edit::Remove { .. });
                debts.add_place(at.steps(), !is_removal)?;
            }
        }
        later = later.with_front(left)?;
    }
    Ok(debts)
}

/// Where the result of an edit stands in the end, if it does.
fn owed_at(alloc: Global, edit: &Edit, later: &Carrier<'_>) -> Result<Option<Address>, AllocError> {
    let Some(made) = result_of(alloc, edit)? else {
        return Ok(None);
    };
    let at = later.carry(alloc, &made)?;
    Ok(at.filter(|at| at.steps().len() <= MAX_STEPS))
}

/// Whether what edits owe covers an address.
fn is_owed(debts: &AddressSet, at: &Option<Address>) -> bool {
    match at {
        Some(at) => debts.reaches(at.steps()),
        None => false,
    }
}

/// Whether an address is the other, or above it.
fn is_at_or_above(upper: &Address, lower: &Address) -> bool {
    upper.is_same(lower) || upper.is_above(lower)
}

/// The first line that is neither paired nor owed, nor the last one, of no bytes, behind an edit.
fn unasked_line(
    alloc: Global,
    after: &Side<'_>,
    pairing: &Pairing,
    edits: &[Edit],
) -> Result<Option<usize>, AllocError> {
    let debts = debts(alloc, edits)?;
    for (index, unit) in after.units.iter().enumerate() {
        let is_kept = pairing.kept.get(index) == Some(&true);
        let is_end = !edits.is_empty()
            && unit.span.start == after.bytes.len()
            && unit.span.end == after.bytes.len();
        if unit.kind == UnitKind::Line && !is_kept && !is_end && !is_owed(&debts, &unit.address) {
            return Ok(Some(index));
        }
    }
    Ok(None)
}

/// How often comments may stand that edits write.
type Budget<'e> = BTreeMap<&'e [u8], u64>;

/// Adds the comments in the value of an edit.
fn add_comments<'e>(
    alloc: Global,
    budget: &mut Budget<'e>,
    value: &'e str,
    profile: Profile,
) -> Result<(), AllocError> {
    let Ok(source) = Source::new(value.as_bytes()) else {
        return Ok(());
    };
    let Ok(tree) = parse_value_in(alloc, source, profile) else {
        return Ok(());
    };
    for unit in &units_inside(alloc, &tree)? {
        if unit.kind == UnitKind::InnerComment {
            let count = budget.entry(bytes_of(value.as_bytes(), unit))?.or_insert(0);
            *count = count.saturating_add(1);
        }
    }
    Ok(())
}

/// The value that an edit writes.
fn value_of(edit: &Edit) -> Option<&str> {
    match edit {
        Edit::Set { value, .. } | Edit::Insert { value, .. } => Some(value.as_str()),
        _ => None,
    }
}

/// What an edit writes: the comments of its value, and where it then stands.
#[derive(Drop)]
struct Written<'e> {
    at: Address,
    texts: Budget<'e>,
}

/// What each edit writes, and how often each comment may stand.
fn all_written<'e>(
    alloc: Global,
    edits: &'e [Edit],
    profile: Profile,
) -> Result<(Vec<Written<'e>>, Budget<'e>), AllocError> {
    let mut all = Vec::new(alloc);
    let mut budget = BTreeMap::new(alloc);
    let mut later = Carrier::none(alloc);
    for index in (0..edits.len()).rev() {
        let Some(left) = edits.get(index..) else {
            return Ok((all, budget));
        };
        if let Some(edit) = left.first() {
            if let Some(value) = value_of(edit) {
                add_comments(alloc, &mut budget, value, profile)?;
                push_written(alloc, &mut all, value, place(edit), &later, profile)?;
            }
        }
        later = later.with_front(left)?;
    }
    Ok((all, budget))
}

/// Adds the comments of a value that stands at a place behind an edit, and is carried by the edits that follow.
fn push_written<'e>(
    alloc: Global,
    all: &mut Vec<Written<'e>>,
    value: &'e str,
    made: &Address,
    later: &Carrier<'_>,
    profile: Profile,
) -> Result<(), AllocError> {
    let mut texts = BTreeMap::new(alloc);
    add_comments(alloc, &mut texts, value, profile)?;
    if texts.is_empty() {
        return Ok(());
    }
    if let Some(at) = later.carry(alloc, made)? {
        all.push(Written { at, texts })?;
    }
    Ok(())
}

/// Whether an edit writes a comment that stands in an array or an inline table.
fn is_written(written: &[Written<'_>], unit: &Unit, text: &[u8]) -> bool {
    let Some(at) = &unit.address else {
        return false;
    };
    unit.kind == UnitKind::InnerComment
        && written.iter().any(|one| one.texts.contains_key(text) && is_at_or_above(&one.at, at))
}

/// Takes one of a comment out of those that may stand, if one is left.
fn spend(budget: &mut Budget<'_>, text: &[u8]) -> bool {
    match budget.get_mut(text) {
        Some(left) if 0 < *left => {
            *left = left.saturating_sub(1);
            true
        }
        _ => false,
    }
}

/// The first comment that is not paired, lies in no paired unit, and is not written by an edit, or stands more often than edits
/// write it.
fn new_comment(
    alloc: Global,
    after: &Side<'_>,
    pairing: &Pairing,
    edits: &[Edit],
    profile: Profile,
) -> Result<Option<usize>, AllocError> {
    let (written, mut budget) = all_written(alloc, edits, profile)?;
    let mut reach = 0usize;
    for (index, unit) in after.units.iter().enumerate() {
        if pairing.kept.get(index) == Some(&true) {
            reach = reach.max(unit.span.end);
        }
        let is_comment = matches!(unit.kind, UnitKind::TailComment | UnitKind::InnerComment);
        if is_comment && reach < unit.span.end {
            let text = bytes_of(after.bytes, unit);
            if !is_written(&written, unit, text) || !spend(&mut budget, text) {
                return Ok(Some(index));
            }
        }
    }
    Ok(None)
}

/// The first line, or comment, of the text after that nobody asked for.
fn first_added(
    alloc: Global,
    judged: Judged<'_>,
    comments: bool,
) -> Result<Option<(&'static str, Span)>, AllocError> {
    let Some((_, after, pairing)) = pair_units(alloc, judged)? else {
        return Ok(None);
    };
    let place = if comments {
        new_comment(alloc, &after, &pairing, judged.edits, judged.profile)?
    } else {
        unasked_line(alloc, &after, &pairing, judged.edits)?
    };
    let Some(index) = place else {
        return Ok(None);
    };
    match after.units.get(index) {
        Some(unit) => {
            let words = unit_words(unit.kind, bytes_of(after.bytes, unit));
            Ok(Some((words, unit.span)))
        }
        None => Ok(None),
    }
}

/// The first line of the text after that nobody asked for, or the first comment.
pub(crate) fn explain_added(
    alloc: Global,
    judged: Judged<'_>,
    comments: bool,
) -> Result<String, AllocError>
    ensures { IfOk result (λ text. ShowsInFile judged.entry.after.word.now judged.entry.after.bytes.now (string_bytes text)) }
{
    let Some((unit, span)) = first_added(alloc, judged, comments)? else {
        return plain(
            alloc,
            judged.after,
            "something stands here that no edit asks for",
        );
    };
    let sentence = format!(in alloc; "no edit asks for this {unit}")?;
    told_at(alloc, judged.after, Some(span), sentence)
}
