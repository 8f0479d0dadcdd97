//! Data that are not what edits give (404).
ghost use Rattle.std.specs.Prelude.{IfOk, string_bytes};
ghost use Rattle.toml_explain.specs.Documents.{ShowsInFile};

use crate::data::data_of;
use crate::edit::{address_text, look_up};
use crate::reason::{Judged, plain};
use crate::standing::quoted;
use crate::telling::told_at;
use std::alloc::{AllocError, Global};
use std::collections::BTreeMap;
use toml_edits::{Draft, Edit, EditFault};
use toml_names::{Address, Data, Datum, Name, Step};
use toml_scalar::{Scalar, is_same};
use toml_tree::Profile;

/// What stands at one address in two data.
#[derive(Drop)]
struct Difference<'d> {
    // from the last step up
    steps: Vec<Step>,
    made: Option<&'d Datum>,
    found: Option<&'d Datum>,
}

impl<'d> Difference<'d> {
    /// Right here.
    fn here(alloc: Global, made: Option<&'d Datum>, found: Option<&'d Datum>) -> Difference<'d> {
        Difference {
            steps: Vec::new(alloc),
            made,
            found,
        }
    }

    /// This difference, told from one step further up.
    fn below(self, step: Step) -> Result<Difference<'d>, AllocError> {
        let Difference {
            mut steps,
            made,
            found,
        } = self;
        steps.push(step)?;
        Ok(Difference { steps, made, found })
    }
}

/// The first address at which two data differ: tables by the order of the names' bytes, arrays by their indices.
#[cycle(differ)]
fn first_difference<'d>(
    alloc: Global,
    made: &'d Datum,
    found: &'d Datum,
) -> Result<Option<Difference<'d>>, AllocError> {
    match (made, found) {
        (Datum::Scalar(one), Datum::Scalar(other)) if is_same(one, other) => Ok(None),
        (Datum::Array(one), Datum::Array(other)) => item_difference(alloc, one, other),
        (Datum::Table(one), Datum::Table(other)) => member_difference(alloc, one, other),
        _ => Ok(Some(Difference::here(alloc, Some(made), Some(found)))),
    }
}

/// The first index at which two arrays differ.
#[cycle(differ)]
fn item_difference<'d>(
    alloc: Global,
    made: &'d [Datum],
    found: &'d [Datum],
) -> Result<Option<Difference<'d>>, AllocError> {
    for (index, item) in made.iter().enumerate() {
        let differs = match found.get(index) {
            Some(other) => first_difference(alloc, item, other)?,
            None => Some(Difference::here(alloc, Some(item), None)),
        };
        if let Some(below) = differs {
            return Ok(Some(below.below(Step::Index(index as u64))?));
        }
    }
    match found.get(made.len()) {
        Some(more) => {
            let here = Difference::here(alloc, None, Some(more));
            Ok(Some(here.below(Step::Index(made.len() as u64))?))
        }
        None => Ok(None),
    }
}

/// The first name of a table that differs in another.
#[cycle(differ)]
fn own_difference<'d>(
    alloc: Global,
    made: &'d BTreeMap<String, Datum>,
    found: &'d BTreeMap<String, Datum>,
) -> Result<Option<(&'d str, Difference<'d>)>, AllocError> {
    for (name, member) in made {
        let differs = match found.get(name.as_str()) {
            Some(other) => first_difference(alloc, member, other)?,
            None => Some(Difference::here(alloc, Some(member), None)),
        };
        if let Some(below) = differs {
            return Ok(Some((name.as_str(), below)));
        }
    }
    Ok(None)
}

/// The first name of a table that another lacks.
fn first_new<'d>(
    made: &BTreeMap<String, Datum>,
    found: &'d BTreeMap<String, Datum>,
) -> Option<(&'d str, &'d Datum)> {
    for (name, member) in found {
        if !made.contains_key(name.as_str()) {
            return Some((name.as_str(), member));
        }
    }
    None
}

/// The first name at which two tables differ.
#[cycle(differ)]
fn member_difference<'d>(
    alloc: Global,
    made: &'d BTreeMap<String, Datum>,
    found: &'d BTreeMap<String, Datum>,
) -> Result<Option<Difference<'d>>, AllocError> {
    let own = own_difference(alloc, made, found)?;
    match (own, first_new(made, found)) {
        (None, None) => Ok(None),
        (Some((name, below)), None) => at_name(alloc, name, below),
        (None, Some((name, member))) => {
            at_name(alloc, name, Difference::here(alloc, None, Some(member)))
        }
        (Some((name, below)), Some((new, member))) => {
            if new.as_bytes() < name.as_bytes() {
                at_name(alloc, new, Difference::here(alloc, None, Some(member)))
            } else {
                at_name(alloc, name, below)
            }
        }
    }
}

/// A difference below a name.
fn at_name<'d>(
    alloc: Global,
    name: &str,
    below: Difference<'d>,
) -> Result<Option<Difference<'d>>, AllocError> {
    let step = Step::Name(Name::spelled(alloc, name)?);
    Ok(Some(below.below(step)?))
}

/// How many bytes a scalar's text has at most that is told.
const MAX_TOLD: usize = 60;

/// What a scalar is, in words.
fn scalar_words(alloc: Global, scalar: &Scalar) -> Result<String, AllocError> {
    match scalar {
        Scalar::Text(text) if text.len() > MAX_TOLD => String::from_str(alloc, "a longer string"),
        Scalar::Text(text) => quoted(alloc, text.as_str()),
        Scalar::Integer(number) => format!(in alloc; "{number}"),
        Scalar::Float(float) if float.text.len() <= MAX_TOLD => {
            format!(in alloc; "the float {}", float.text.as_str())
        }
        Scalar::Float(_) => String::from_str(alloc, "a longer float"),
        Scalar::Bool(true) => String::from_str(alloc, "true"),
        Scalar::Bool(false) => String::from_str(alloc, "false"),
        Scalar::Moment(moment) if moment.text.len() <= MAX_TOLD => {
            String::from_str(alloc, moment.text.as_str())
        }
        Scalar::Moment(_) => String::from_str(alloc, "a longer date or time"),
    }
}

/// What stands there, in words.
fn words(alloc: Global, there: Option<&Datum>) -> Result<String, AllocError> {
    match there {
        None => String::from_str(alloc, "nothing"),
        Some(Datum::Scalar(scalar)) => scalar_words(alloc, scalar),
        Some(Datum::Array(items)) => {
            let count = items.len();
            format!(in alloc; "an array of {count}")
        }
        Some(Datum::Table(_)) => String::from_str(alloc, "a table"),
    }
}

/// What edits make of data; none where one is not defined.
fn edited(
    alloc: Global,
    old: Data,
    edits: &[Edit],
    profile: Profile,
) -> Result<Option<Data>, AllocError> {
    let mut draft = Draft::of(old);
    for edit in edits {
        match draft.apply(alloc, edit, profile) {
            Ok(()) => {}
            Err(EditFault::NoMemory) => return Err(AllocError),
            Err(_) => return Ok(None),
        }
    }
    Ok(Some(draft.into_data()?))
}

/// The data that the edits give, and those of the text after; none where one of the texts is no document, or an edit is not defined.
fn both_data(alloc: Global, judged: Judged<'_>) -> Result<Option<(Data, Data)>, AllocError> {
    let Some(old) = data_of(alloc, judged.before.bytes, judged.profile)? else {
        return Ok(None);
    };
    let Some(made) = edited(alloc, old, judged.edits, judged.profile)? else {
        return Ok(None);
    };
    match data_of(alloc, judged.after.bytes, judged.profile)? {
        Some(found) => Ok(Some((made, found))),
        None => Ok(None),
    }
}

/// The sentence of a difference, and where it is.
fn difference_sentence(
    alloc: Global,
    difference: Difference<'_>,
) -> Result<(String, Address), AllocError> {
    let Difference {
        mut steps,
        made,
        found,
    } = difference;
    steps.reverse();
    let address = Address::of(steps);
    let at = address_text(alloc, &address)?;
    let (made, found) = (words(alloc, made)?, words(alloc, found)?);
    let (at, made, found) = (at.as_str(), made.as_str(), found.as_str());
    let sentence = format!(in alloc;
        "the data differ at {at}: the edits give {made}, and here is {found}"
    )?;
    Ok((sentence, address))
}

/// Where the data of the text after differ from those that the edits give.
pub(crate) fn explain_difference(alloc: Global, judged: Judged<'_>) -> Result<String, AllocError>
    ensures { IfOk result (λ text. ShowsInFile judged.entry.after.word.now judged.entry.after.bytes.now (string_bytes text)) }
{
    let Some((made, found_data)) = both_data(alloc, judged)? else {
        return plain(
            alloc,
            judged.after,
            "the data are not those that the edits give",
        );
    };
    let Some(difference) = first_difference(alloc, &made.root, &found_data.root)? else {
        return plain(
            alloc,
            judged.after,
            "the data are those that the edits give",
        );
    };
    let (sentence, address) = difference_sentence(alloc, difference)?;
    let steps = address.steps();
    let spot = look_up(
        alloc,
        judged.after.bytes,
        judged.profile,
        steps,
        steps.len(),
    )?
    .spot;
    told_at(alloc, judged.after, spot, sentence)
}
