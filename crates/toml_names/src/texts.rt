//! A text read line by line: what it names is judged and told, and no line is kept.
ghost use Rattle.std.specs.Prelude.{◌≡◌, ◌<◌, ℕ, List, Some, IfErr, IfOk, OnOk};
ghost use Rattle.toml_text.specs.Source.{text_of};
ghost use Rattle.toml_tree.specs.Tree as spelled;
ghost use Rattle.toml_tree.specs.declared.profile.Profile.{Profile as InProfile};
ghost use Rattle.toml_names.specs.reader.Texts.{AreLeft, AreTaken, GoodText, PassesLine, PassesLines, RefusesRest, RefusesText, StandForText, TakesNext};

use crate::fault::{NameFault, ReadFault};
use crate::line_names::LineNames;
use crate::tree::name_tree::NameTree;
use std::alloc::Global;
use toml_text::Source;
use toml_tree::{LineReader, Profile, SyntaxFault};

/// Whether the text is a document of the profile, and else why not. A text that no tree spells is refused for that, whatever
/// its lines before name. Memory is taken for one line at a time, and for what is named.
pub fn judge_text(alloc: Global, source: Source<'_>, profile: Profile) -> Result<(), ReadFault>
    ensures good { OnOk result (GoodText profile (text_of source.entry)) }
    ensures refused { IfErr result (RefusesText profile (text_of source.entry)) }
{
    let _ = enter_text(alloc, source, profile)?;
    Ok(())
}

/// Why a text is refused of which the first lines have names that are refused, and these lines are left, or none: where no tree
/// spells it for its syntax, and else for the names. The lines left are read and let go. Want of memory is told at once.
pub fn refuse_names(alloc: Global, left: Option<LineReader<'_>>, fault: NameFault) -> ReadFault
    requires { (profile : InProfile) × (text : List ℕ) × (front : List spelled.Line) × AreLeft profile text front left }
    ensures { RefusesRest left.entry fault result }
{
    if let NameFault::NoMemory = fault {
        return ReadFault::Names(NameFault::NoMemory);
    }
    match pass_lines(alloc, left) {
        Ok(()) => ReadFault::Names(fault),
        Err(syntax) => ReadFault::Syntax(syntax),
    }
}

/// Reads the lines that are left, and lets them go.
fn pass_lines(alloc: Global, left: Option<LineReader<'_>>) -> Result<(), SyntaxFault>
    requires { (profile : InProfile) × (text : List ℕ) × (front : List spelled.Line) × AreLeft profile text front left }
    ensures { PassesLines left.entry result }
{
    let mut left = left;
    while let Some(reader) = left {
        left = pass_line(alloc, reader)?;
    }
    Ok(())
}

/// Reads a line, and lets it go here, so that the loop around it has nothing to let go.
fn pass_line<'t>(
    alloc: Global,
    reader: LineReader<'t>,
) -> Result<Option<LineReader<'t>>, SyntaxFault>
    ensures { PassesLine reader.entry result }
{
    let (_line, more) = reader.next(alloc)?;
    Ok(more)
}

/// Reads a line, enters what it names, and lets the line go here, so that the loop around has nothing to let go. Behind a line that
/// is refused the rest is read: a text that no tree spells is refused for that first.
fn take_next<'t>(
    alloc: Global,
    names: &mut LineNames<'t>,
    reader: LineReader<'t>,
) -> Result<Option<LineReader<'t>>, ReadFault>
    requires taken { (profile : InProfile) × (text : List ℕ) × AreTaken profile text names.old (Some reader) }
    requires room { names.old.count < 18446744073709551615 }
    ensures { TakesNext names.old reader.entry names.new result }
{
    let (line, more) = reader.next(alloc)?;
    match names.take(&line) {
        Ok(()) => Ok(more),
        Err(fault) => Err(refuse_names(alloc, more, fault)),
    }
}

/// The tree of all that the lines of a text name.
pub(crate) fn enter_text<'t>(
    alloc: Global,
    source: Source<'t>,
    profile: Profile,
) -> Result<NameTree<'t>, ReadFault>
    ensures stand { IfOk result (λ tree. StandForText profile (text_of source.entry) tree.nodes.items) }
    ensures refused { IfErr result (RefusesText profile (text_of source.entry)) }
{
    let mut names = LineNames::new(alloc, source)?;
    let mut left = Some(LineReader::new(source, profile));
    while let Some(reader) = left {
        left = take_next(alloc, &mut names, reader)?;
    }
    Ok(names.tree)
}
