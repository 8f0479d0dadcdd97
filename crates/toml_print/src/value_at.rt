//! The one value that stands at a place of a text, as it is spelled there.
ghost use Rattle.std.specs.Prelude.{◌<◌, IfOk, List, Some, ℕ};
ghost use Rattle.toml_text.specs.Source.{text_of};
ghost use Rattle.toml_tree.specs.HandedOut.{AreLinesIn};
ghost use Rattle.toml_tree.specs.Lines.{line as tree_line};
ghost use Rattle.toml_tree.specs.Tree.{Line as Lined};
ghost use Rattle.toml_tree.specs.declared.profile.Profile.{Profile as InProfile};
ghost use Rattle.toml_names.specs.model.Data.{IsClosed};
ghost use Rattle.toml_names.specs.reader.Parts.{part_kinds};
ghost use Rattle.toml_names.specs.reader.Texts.{AreTaken};
ghost use Rattle.toml_print.specs.Searching.{FindsInText, FindsOfLine, LooksAt};
ghost use Rattle.toml_print.specs.ValueTexts.{IsValueText};

use crate::printing::part_at;
use crate::values::{behind, find_in};
use std::alloc::{AllocError, Global};
use toml_names::{Address, LineNames, NamedText};
use toml_places::Place;
use toml_text::Source;
use toml_tree::{Expr, Line, LineReader, Profile};

/// The one value that stands at a place of a text.
#[derive(Clone, Copy, Debug, Drop, PartialEq, Eq)]
pub enum ValueText<'t> {
    /// Nothing stands there.
    Nothing,
    /// Something stands there that is no single value: a table that headers or dotted keys make, an array of tables, the root.
    Spread,
    /// The value's bytes, from its first to its last.
    One(&'t str),
}

/// A line that was looked at: the text of the value that was looked for, if it stands there, and what is left to read.
type Looked<'t> = (Option<&'t str>, Option<LineReader<'t>>);

/// The bytes of the one value that stands at a place of a text, in the profile in which its names were read. The lines are read
/// once more up to that value; of a text that has such names no line is refused, so memory alone can lack.
pub fn value_text<'t>(
    alloc: Global,
    source: Source<'t>,
    profile: Profile,
    names: &NamedText<'_>,
    place: &Place,
) -> Result<ValueText<'t>, AllocError>
    ensures { (lines : List Lined) → AreLinesIn profile (text_of source.entry) lines → IsClosed (part_kinds names.now 0)
        → IfOk result (IsValueText lines (part_kinds names.now 0) place.now) }
{
    let Some(at) = place.address(alloc, names)? else {
        return Ok(ValueText::Nothing);
    };
    if part_at(names, &at)?.is_none() {
        return Ok(ValueText::Nothing);
    }
    match find_in_text(alloc, source, profile, &at)? {
        Some(text) => Ok(ValueText::One(text)),
        None => Ok(ValueText::Spread),
    }
}

/// The text of the value that stands at the address in one of the lines of the text.
fn find_in_text<'t>(
    alloc: Global,
    source: Source<'t>,
    profile: Profile,
    at: &Address,
) -> Result<Option<&'t str>, AllocError>
    ensures { (lines : List Lined) → AreLinesIn profile (text_of source.entry) lines → IfOk result (FindsInText lines at.now) }
{
    let mut names = LineNames::new(alloc, source)?;
    let mut own = Address::root(alloc);
    let mut left = Some(LineReader::new(source, profile));
    while let Some(reader) = left {
        let (found, more) = look_at_line(alloc, &mut names, &mut own, reader, at)?;
        if found.is_some() {
            return Ok(found);
        }
        left = more;
    }
    Ok(None)
}

/// Reads a line, takes what it names, and looks for the value that stands at the address in it. The line is let go here, so that the
/// loop around has nothing to let go. `own` is memory for the line's own address.
fn look_at_line<'t>(
    alloc: Global,
    names: &mut LineNames<'t>,
    own: &mut Address,
    reader: LineReader<'t>,
    at: &Address,
) -> Result<Looked<'t>, AllocError>
    requires taken { (profile : InProfile) × (text : List ℕ) × AreTaken profile text names.old (Some reader) }
    requires room { names.old.count < 18446744073709551615 }
    ensures { LooksAt at.now names.old reader.entry names.new result }
{
    let Ok((line, more)) = reader.next(alloc) else {
        return Err(AllocError);
    };
    let Ok(told) = names.take_at(&line, own) else {
        return Err(AllocError);
    };
    if !told {
        return Ok((None, more));
    }
    Ok((find_of_line(alloc, &line, own, at)?, more))
}

/// The text of the value that stands at the address in the line, of which this is the own address.
fn find_of_line<'t>(
    alloc: Global,
    line: &Line<'t>,
    own: &Address,
    at: &Address,
) -> Result<Option<&'t str>, AllocError>
    ensures { IfOk result (FindsOfLine (tree_line line.now).expr own.now at.now) }
{
    let Expr::KeyVal { keyval, .. } = line.expr() else {
        return Ok(None);
    };
    match behind(own.steps(), at.steps()) {
        Some(rest) => find_in(alloc, &keyval.value, rest),
        None => Ok(None),
    }
}
