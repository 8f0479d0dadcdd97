//! What worked rows are written in: tables that are one text, addresses as paths, texts that are documents, their names and
//! units, and lists of edits.
//!
//! `rows` says which characters stand for others. An answer is none where there is nothing to be asked, as where a text that
//! should be a document is none.
ghost use Rattle.std.specs.Prelude.{◌≡◌, IfSome};
ghost use Rattle.toml_names.specs.mentions.Mentions.{named as named_of};
ghost use Rattle.toml_tree.specs.Document.{document};

use crate::rows::rows;
use std::alloc::{AllocError, Global};
use std::process::Abort;
use std::test::Fail;
use toml_edits::{Edit, read_edits};
use toml_names::{Address, Data, Datum, Name, Names, Step, read_names};
use toml_text::Source;
use toml_tree::{Doc, Profile, parse, parse_in};
use toml_units::{Unit, units};

/// Asks the rows of a table, of which there are so many.
///
/// The first line of a paragraph is what its rows are asked of, `∅` where they are asked of nothing. Each further line is a
/// row: what stands before the first ` | ` is the answer to what stands behind it.
pub fn assert_answers<F: Fn(Global, &str, &str) -> Option<String>>(
    rt: &impl Abort,
    alloc: Global,
    table: &str,
    count: usize,
    answer: F,
) -> Result<(), Fail>
    requires { F.IsAlwaysCallable answer }
{
    let mut found = 0usize;
    for paragraph in &rows(alloc, table)? {
        let (of, lines) = paragraph.as_slice().split_first().ok_or("no lines")?;
        for line in lines {
            let (wanted, asked) = line.as_str().split_once(" | ").ok_or("no columns")?;
            let said = answer(alloc, of.as_str(), asked);
            let good = matches!(&said, Some(text) if text.as_str() == wanted);
            assert!(rt; good, "{of}: {asked}: {said:?}");
        }
        found = found.saturating_add(lines.len());
    }
    assert_eq!(rt; found, count, "rows of a table");
    Ok(())
}

/// The address of a path, as `/x/#0/y`; `/` is the root's.
pub fn address(alloc: Global, path: &str) -> Option<Address> {
    let mut at = Address::root(alloc);
    for step in path.split('/') {
        if !step.is_empty() {
            at = below(alloc, &at, step)?;
        }
    }
    Some(at)
}

fn below(alloc: Global, at: &Address, step: &str) -> Option<Address> {
    match step.strip_prefix('#') {
        Some(index) => at.element(alloc, index.parse::<u64>().ok()?).ok(),
        None => {
            let name = String::from_str(alloc, step).ok()?;
            at.child(alloc, Name::of(name).ok()?).ok()
        }
    }
}

/// The path of an address; of the root's it is empty.
pub fn path(alloc: Global, at: &Address) -> Option<String> {
    let mut text = String::new(alloc);
    for step in at.steps() {
        text.push_str(step_text(alloc, step).ok()?.as_str()).ok()?;
    }
    Some(text)
}

fn step_text(alloc: Global, step: &Step) -> Result<String, AllocError> {
    match step {
        Step::Name(name) => format!(in alloc; "/{}", name.as_str()),
        Step::Index(index) => format!(in alloc; "/#{index}"),
    }
}

pub fn source<'t>(text: &'t str) -> Option<Source<'t>> {
    Source::new(text.as_bytes()).ok()
}

pub fn doc<'t>(alloc: Global, text: &'t str) -> Option<Doc<'t>> {
    parse(alloc, source(text)?).ok()
}

/// The names of a document.
pub fn names<'d, 't>(alloc: Global, doc: &'d Doc<'t>) -> Option<Names<'d, 't>>
    ensures { IfSome result (λ names. names.named ≡ named_of (document doc.now).lines) }
{
    read_names(alloc, doc).ok()
}

/// The units of a document. What is one of profile 1 is one of profile 2 as well, with the same tree.
pub fn units_of(alloc: Global, text: &str) -> Option<Vec<Unit>> {
    let doc = parse_in(alloc, source(text)?, Profile::Two).ok()?;
    let names = names(alloc, &doc)?;
    units(alloc, &doc, &names).ok()
}

/// The data of a document.
pub fn data(alloc: Global, text: &str) -> Option<Data> {
    let doc = doc(alloc, text)?;
    names(alloc, &doc)?.data().copy(alloc).ok()
}

/// What stands at a path in the data.
pub fn what_stands(alloc: Global, root: &Datum, path: &str) -> Option<String> {
    let word = match root.at(&address(alloc, path)?) {
        None => "nothing",
        Some(Datum::Table(_)) => "table",
        Some(Datum::Array(_)) => "array",
        Some(Datum::Scalar(scalar)) => return format!(in alloc; "{scalar:?}").ok(),
    };
    String::from_str(alloc, word).ok()
}

pub fn edits(alloc: Global, list: &str) -> Option<Vec<Edit>> {
    read_edits(alloc, list.as_bytes()).ok()
}
