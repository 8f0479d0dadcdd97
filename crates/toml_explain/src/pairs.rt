//! Which unit of one text goes with which of another.
ghost use Rattle.std.specs.Prelude.{◌≡◌, IfOk};

use crate::carrying::Carrier;
use crate::data::{told_names, told_syntax};
use crate::reason::Judged;
use std::alloc::{AllocError, Global};
use toml_checker::outermost;
use toml_edits::Edit;
use toml_names::{Address, read_names};
use toml_text::Source;
use toml_tree::{Profile, parse_in};
use toml_units::{Certificate, Unit, UnitKind, units};

/// The units of a document of the profile; none of other bytes.
pub(crate) fn units_of(
    alloc: Global,
    bytes: &[u8],
    profile: Profile,
) -> Result<Option<Vec<Unit>>, AllocError> {
    let Ok(source) = Source::new(bytes) else {
        return Ok(None);
    };
    let doc = match parse_in(alloc, source, profile) {
        Ok(doc) => doc,
        Err(fault) => {
            told_syntax(fault)?;
            return Ok(None);
        }
    };
    match read_names(alloc, &doc) {
        Ok(names) => Ok(Some(units(alloc, &doc, &names)?)),
        Err(fault) => {
            told_names(fault)?;
            Ok(None)
        }
    }
}

/// The bytes of a unit.
pub(crate) fn bytes_of<'t>(bytes: &'t [u8], unit: &Unit) -> &'t [u8] {
    match bytes.get(unit.span.start..unit.span.end) {
        Some(text) => text,
        None => &[],
    }
}

/// A text and its units.
#[derive(Drop)]
pub(crate) struct Side<'t> {
    pub bytes: &'t [u8],
    pub units: Vec<Unit>,
}

/// The newline behind a unit that is a line, which the last one lacks.
fn newline_of<'t>(bytes: &'t [u8], unit: &Unit) -> &'t [u8] {
    match bytes.get(unit.span.end..) {
        Some([b'\n', ..]) => b"\n",
        Some([b'\r', b'\n', ..]) => b"\r\n",
        _ => b"",
    }
}

/// Whether two units end alike: two lines in the same newline, unless one is the last of its text.
fn ends_alike(before: &[u8], one: &Unit, after: &[u8], other: &Unit) -> bool {
    if one.kind != UnitKind::Line {
        return true;
    }
    let (newline, next) = (newline_of(before, one), newline_of(after, other));
    newline.is_empty() || next.is_empty() || newline == next
}

/// Whether a unit has the address.
fn is_at(unit: &Unit, at: &Option<Address>) -> bool {
    match (&unit.address, at) {
        (Some(here), Some(wanted)) => here.is_same(wanted),
        (None, None) => true,
        _ => false,
    }
}

/// Whether a unit of the text before is the same as one of the text after, at the address to which the edits carry it.
fn is_pair(
    before: &Side<'_>,
    one: &Unit,
    at: &Option<Address>,
    after: &Side<'_>,
    other: &Unit,
) -> bool {
    one.kind == other.kind
        && bytes_of(before.bytes, one) == bytes_of(after.bytes, other)
        && ends_alike(before.bytes, one, after.bytes, other)
        && is_at(other, at)
}

/// The address of a unit behind all edits.
fn carried_unit(
    alloc: Global,
    carrier: &Carrier<'_>,
    unit: &Unit,
) -> Result<Option<Address>, AllocError> {
    match &unit.address {
        Some(at) => carrier.carry(alloc, at),
        None => Ok(None),
    }
}

/// The next unit of the text after, from a place on, with which a unit of the text before goes.
fn next_pair(
    before: &Side<'_>,
    one: &Unit,
    at: &Option<Address>,
    after: &Side<'_>,
    from: usize,
) -> Option<usize> {
    let left = after.units.as_slice().get(from..)?;
    for (offset, other) in left.iter().enumerate() {
        if is_pair(before, one, at, after, other) {
            return Some(from.saturating_add(offset));
        }
    }
    None
}

/// What of two texts was paired: for each unit of the text after whether it is, and the first unit of the text before that should be and
/// is not.
#[derive(Drop)]
pub(crate) struct Pairing {
    pub kept: Vec<bool>,
    pub lost: Option<usize>,
}

/// A list of as many `false` as there are units.
fn no_marks(alloc: Global, units: &[Unit]) -> Result<Vec<bool>, AllocError> {
    let mut marks = Vec::with_capacity(alloc, units.len())?;
    for _ in units {
        marks.push(false)?;
    }
    Ok(marks)
}

/// Marks a place, where there is such.
fn mark(marks: &mut Vec<bool>, place: usize) {
    if let Some(flag) = marks.get_mut(place) {
        *flag = true;
    }
}

/// The pairs of a certificate.
fn certified(
    alloc: Global,
    before: &Side<'_>,
    outer: &[bool],
    after: &Side<'_>,
    certificate: &Certificate,
) -> Result<Pairing, AllocError> {
    let mut kept = no_marks(alloc, &after.units)?;
    let mut paired = no_marks(alloc, &before.units)?;
    for (first, second) in &certificate.pairs {
        mark(&mut paired, *first as usize);
        mark(&mut kept, *second as usize);
    }
    let lost = outer
        .iter()
        .zip(paired.iter())
        .position(|(wanted, has)| *wanted && !*has);
    Ok(Pairing { kept, lost })
}

/// The pairs that a search finds: each unit goes with the next that fits, from the front.
fn searched(
    alloc: Global,
    before: &Side<'_>,
    outer: &[bool],
    after: &Side<'_>,
    edits: &[Edit],
) -> Result<Pairing, AllocError> {
    let carrier = Carrier::of(alloc, edits)?;
    let mut kept = no_marks(alloc, &after.units)?;
    let mut lost = None;
    let mut from = 0usize;
    for (place, unit) in before.units.iter().enumerate() {
        if lost.is_none() && outer.get(place) == Some(&true) {
            let at = carried_unit(alloc, &carrier, unit)?;
            match next_pair(before, unit, &at, after, from) {
                Some(found) => {
                    mark(&mut kept, found);
                    from = found.saturating_add(1);
                }
                None => lost = Some(place),
            }
        }
    }
    Ok(Pairing { kept, lost })
}

/// Both texts with their units, and what of these is paired; none where one of them is no document.
pub(crate) fn pair_units<'a>(
    alloc: Global,
    judged: Judged<'a>,
) -> Result<Option<(Side<'a>, Side<'a>, Pairing)>, AllocError> {
    let Some(old) = units_of(alloc, judged.before.bytes, judged.profile)? else {
        return Ok(None);
    };
    let Some(new) = units_of(alloc, judged.after.bytes, judged.profile)? else {
        return Ok(None);
    };
    let before = Side {
        bytes: judged.before.bytes,
        units: old,
    };
    let after = Side {
        bytes: judged.after.bytes,
        units: new,
    };
    let outer = outermost(alloc, &before.units, judged.edits)?;
    let pairing = match judged.certificate {
        Some(certificate) => certified(alloc, &before, &outer, &after, certificate)?,
        None => searched(alloc, &before, &outer, &after, judged.edits)?,
    };
    Ok(Some((before, after, pairing)))
}
