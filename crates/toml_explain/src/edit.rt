//! Edits that are refused.
ghost use Rattle.std.specs.Prelude.{◌≡◌, ◌≢◌, IfOk, string_bytes};
ghost use Rattle.toml_explain.specs.Documents.{ShowsInFile, ShowsMoreInFile};

use crate::input::Input;
use crate::origin::{begins_with, origin};
use crate::place::shown_place;
use crate::standing::{front_of, meant, question};
use crate::telling::told_at;
use crate::value::explain_value;
use std::alloc::{AllocError, Global};
use toml_edits::{Edit, carry, place};
use toml_mentions::find_spot;
use toml_names::{Address, MAX_STEPS, Name, Shape, Step, names_of_text};
use toml_places::spell_place;
use toml_text::{Source, Span};
use toml_tree::Profile;

/// What an edit does.
fn action(edit: &Edit) -> &'static str {
    match edit {
        Edit::Set { .. } => "set",
        Edit::Insert { .. } => "insertion",
        Edit::Rename { .. } => "rename",
        Edit::Remove { .. } => "removal",
        Edit::Section { .. } => "new section",
        Edit::Element { .. } => "new element",
    }
}

/// An address as a place of the command line.
pub(crate) fn address_text(alloc: Global, at: &Address) -> Result<String, AllocError> {
    match spell_place(alloc, at)? {
        Some(text) => shown_place(alloc, text.as_str()),
        None => String::from_str(alloc, "an index at which nothing can stand"),
    }
}

/// Which edit it is, and what it does at an address that is shown so.
pub(crate) fn edit_text(
    alloc: Global,
    edit: &Edit,
    index: usize,
    address: &str,
) -> Result<String, AllocError> {
    let action = action(edit);
    format!(in alloc; "edit {index}, {action} of {address}: ")
}

/// Nothing stands where the edit looks for something.
fn nothing(edit: &Edit) -> &'static str {
    match edit {
        Edit::Set { .. } | Edit::Rename { .. } | Edit::Remove { .. } => "nothing stands there",
        Edit::Insert { .. } | Edit::Section { .. } => "nothing stands at its parent",
        Edit::Element { .. } => "nothing stands at the parent of the array",
    }
}

/// The index of the edit is not one of the array.
fn outside(edit: &Edit) -> &'static str {
    match edit {
        Edit::Element { .. } => "a new table stands behind the last element of an array of tables",
        _ => "its parent is no array, or the index is greater than its length",
    }
}

/// The text has no one place for the edit.
fn spread(edit: &Edit) -> &'static str {
    match edit {
        Edit::Insert { .. } => "headers make the elements of the array, and no values",
        Edit::Section { .. } | Edit::Element { .. } => "no header can stand in a value",
        _ => "headers or dotted keys make what stands there, and no single value",
    }
}

/// The rule that an edit breaks, by the code.
pub(crate) fn edit_rule(edit: &Edit, code: u16) -> &'static str {
    match code {
        301 => nothing(edit),
        302 => match edit {
            Edit::Rename { .. } => "the table has a member of the new name already",
            _ => "the table has a member of this name already",
        },
        303 => "its parent is no table",
        304 => outside(edit),
        305 => "an element of an array has no name",
        306 => "the value is none of TOML",
        307 => spread(edit),
        308 => "it is the only element of an array of tables, which would vanish",
        310 => "the root itself can't be edited",
        312 => "an address has at most 100 steps, and the result would have a longer one",
        313 => "an element of an array of tables is named by an index behind a name",
        _ => "it is refused",
    }
}

/// What is found in a file about the address of an edit: where that or its parent stands, how many of its steps lead somewhere, whether to
/// a table, and the name that may be meant behind these.
#[derive(Drop)]
pub(crate) struct Found {
    pub spot: Option<Span>,
    pub depth: usize,
    pub in_table: bool,
    pub meant: Option<Name>,
}

impl Found {
    /// Whether of an address of so many steps more than the last one is missing in a table, where tables can be made: an address has at
    /// most 100 steps.
    fn lacks_tables(&self, steps: usize) -> bool {
        self.in_table && self.depth.saturating_add(1) < steps && steps <= MAX_STEPS
    }
}

/// Where an address of a file, or its parent, stands, and which name may be meant where it does not. Of an address of so many steps these
/// are the ones that may stand in the file.
pub(crate) fn look_up(
    alloc: Global,
    bytes: &[u8],
    profile: Profile,
    steps: &[Step],
    all: usize,
) -> Result<Found, AllocError> {
    let nowhere = Found {
        spot: None,
        depth: 0,
        in_table: false,
        meant: None,
    };
    let Ok(source) = Source::new(bytes) else {
        return Ok(nowhere);
    };
    let names = match names_of_text(alloc, source, profile) {
        Ok(names) => names,
        Err(fault) => {
            fault.told()?;
            return Ok(nowhere);
        }
    };
    let reached = front_of(&names, steps)?;
    let meant = meant(alloc, &names, reached, steps)?;
    let in_table = matches!(names.shape(reached.part)?, Shape::Table);
    let spot = if all <= reached.depth.saturating_add(1) {
        find_spot(
            alloc,
            source,
            profile,
            &steps[..reached.depth.min(steps.len())],
        )?
    } else {
        None
    };
    Ok(Found {
        spot,
        depth: reached.depth,
        in_table,
        meant,
    })
}

/// What is found in a file about the address of the edit with the index. The edits in front of it may have moved what stands there, or
/// made it. A name that they took away, or that they moved elsewhere, is not meant.
fn look_up_edit(
    alloc: Global,
    bytes: &[u8],
    profile: Profile,
    edits: &[Edit],
    index: usize,
    edit: &Edit,
) -> Result<Found, AllocError> {
    let steps = place(edit).steps();
    let earlier = &edits[..index.min(edits.len())];
    let old = origin(alloc, earlier, steps)?;
    let mut found = look_up(alloc, bytes, profile, &old, steps.len())?;
    if let Some(name) = &found.meant {
        let front = &old[..found.depth.min(old.len())];
        if !is_still_beside(alloc, earlier, front, name, steps)? {
            found.meant = None;
        }
    }
    Ok(found)
}

/// Whether the member with the name of what stood at the front is, behind the edits, the one with this name beside what the steps lead to.
fn is_still_beside(
    alloc: Global,
    edits: &[Edit],
    front: &[Step],
    name: &Name,
    steps: &[Step],
) -> Result<bool, AllocError> {
    let mut at = member(alloc, front, name)?;
    for edit in edits {
        match carry(alloc, edit, &at)? {
            Some(to) => at = to,
            None => return Ok(false),
        }
    }
    Ok(is_beside(at.steps(), name, steps))
}

/// The address of a name below others.
fn member(alloc: Global, front: &[Step], name: &Name) -> Result<Address, AllocError> {
    let mut steps = Vec::with_capacity(alloc, front.len().saturating_add(1))?;
    for step in front {
        steps.push(step.copy()?)?;
    }
    steps.push(Step::Name(name.copy()?))?;
    Ok(Address::of(steps))
}

/// Whether it is the address of the name, and the steps begin with what is above it.
fn is_beside(at: &[Step], name: &Name, steps: &[Step]) -> bool {
    let Some((Step::Name(last), above)) = at.split_last() else {
        return false;
    };
    last.as_str() == name.as_str() && begins_with(steps, above)
}

/// The value of an edit.
fn value_of(edit: &Edit) -> Option<&str> {
    match edit {
        Edit::Set { value, .. } | Edit::Insert { value, .. } => Some(value.as_str()),
        _ => None,
    }
}

/// Adds what may help where nothing stands: the name that may be meant, else the hint where tables are missing above.
fn push_advice(
    alloc: Global,
    sentence: &mut String,
    found: &Found,
    steps: &[Step],
    hint: &str,
) -> Result<(), AllocError> {
    match &found.meant {
        Some(name) => sentence.push_str(question(alloc, name)?.as_str()),
        None if found.lacks_tables(steps.len()) => sentence.push_str(hint),
        None => Ok(()),
    }
}

/// Why an edit of a list is refused (301 to 308, 310, 312, 313): which edit it is, counted from 0 as in the refusal, what it does, and the
/// rule. The file is one before all edits: below the sentence stands its line in which is named first what then stands at the address, or
/// else at its parent, where that stood in the file already. A name that is missing (301) is told with one that is near. Where tables are
/// missing above it the sentence ends in `hint`, which says how they are made. A value that is none (306) is shown with the place in it.
/// It fails for want of memory alone.
pub fn explain_edit(
    alloc: Global,
    file: Input<'_>,
    edits: &[Edit],
    index: usize,
    code: u16,
    hint: &str,
    profile: Profile,
) -> Result<String, AllocError>
    ensures value { code ≡ 306 → IfOk result (λ text. ShowsMoreInFile file.entry.word.now file.entry.bytes.now (string_bytes text)) }
    ensures below { code ≢ 306 → IfOk result (λ text. ShowsInFile file.entry.word.now file.entry.bytes.now (string_bytes text)) }
{
    let Some(edit) = edits.get(index) else {
        return edit_alone(alloc, file, index);
    };
    let found = look_up_edit(alloc, file.bytes, profile, edits, index, edit)?;
    let address = address_text(alloc, place(edit))?;
    let mut sentence = edit_text(alloc, edit, index, address.as_str())?;
    sentence.push_str(edit_rule(edit, code))?;
    if code == 301 {
        push_advice(alloc, &mut sentence, &found, place(edit).steps(), hint)?;
    }
    with_value(alloc, file, edit, code, sentence, found.spot, profile)
}

/// What is said of an edit that is not in the list.
pub(crate) fn edit_alone(alloc: Global, file: Input<'_>, index: usize) -> Result<String, AllocError>
    ensures value { IfOk result (λ text. ShowsMoreInFile file.entry.word.now file.entry.bytes.now (string_bytes text)) }
    ensures below { IfOk result (λ text. ShowsInFile file.entry.word.now file.entry.bytes.now (string_bytes text)) }
{
    told_at(
        alloc,
        file,
        None,
        format!(in alloc; "edit {index} is refused")?,
    )
}

/// A sentence of an edit, below it the line of a span of the file, where there is one, and below that the value that is none (306).
pub(crate) fn with_value(
    alloc: Global,
    file: Input<'_>,
    edit: &Edit,
    code: u16,
    sentence: String,
    spot: Option<Span>,
    profile: Profile,
) -> Result<String, AllocError>
    ensures value { code ≡ 306 → IfOk result (λ text. ShowsMoreInFile file.entry.word.now file.entry.bytes.now (string_bytes text)) }
    ensures below { code ≢ 306 → IfOk result (λ text. ShowsInFile file.entry.word.now file.entry.bytes.now (string_bytes text)) }
{
    match value_of(edit) {
        Some(value) if code == 306 => explain_value(alloc, file, sentence, spot, value, profile),
        _ => told_at(alloc, file, spot, sentence),
    }
}
