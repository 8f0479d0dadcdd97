//! The reader of names, one line after another: lines that it takes, and lines that it refuses.

use crate::names::told;
use crate::worked::{assert_answers, doc, path};
use std::alloc::Global;
use std::test::Fail;
use toml_names::{Address, NameReader, Names};
use toml_tree::Doc;

/// Why lines are refused, each with how many were taken before it; then how many are taken in all, and their addresses. The
/// first line of a paragraph is how many names are searched for at most.
const READ: &str = "
0
taken 1: | ∅

2
taken 1: /x /x/#0/y | x = [{y = 1}]

6
taken 5: /a /a/#0 /a/#0/b /a/#1 /a/#1/b | [[a]]¶[a.b]¶[[a]]¶[a.b]¶

// a refused line leaves no trace
6
1 /a/x/y/z; taken 2: /a /a/x | [a]¶x.y = {z = 1, z = 2}¶x = 1

// eleven names in one table, of which the last is led to, taken back and made anew
16
10 /b; 10 /i; 10 /k/x; taken 12: /a /b /c /d /e /f /g /h /i /j /k | a = 0¶b = 1¶c = 2¶d = 3¶e = 4¶f = 5¶g = 6¶h = 7¶i = 8¶j = 9¶b = 1¶i = 8¶k = {x = 1, x = 2}¶k = 10¶
";

/// The paths, with a space before each.
fn listed(alloc: Global, addresses: &[Address]) -> Option<String> {
    let mut text = String::new(alloc);
    for at in addresses {
        text.push(' ').ok()?;
        text.push_str(path(alloc, at)?.as_str()).ok()?;
    }
    Some(text)
}

/// Hands in the lines of a document one after another, and says why some are refused.
fn hand_in<'d, 't>(
    alloc: Global,
    reader: &mut NameReader<'d, 't>,
    doc: &'d Doc<'t>,
) -> Option<String> {
    let mut said = String::new(alloc);
    for line in doc.lines() {
        if let Err(fault) = reader.line(line) {
            said.push_str(told(alloc, &fault)?.as_str()).ok()?;
            said.push_str("; ").ok()?;
        }
    }
    Some(said)
}

/// How many lines are taken, and their addresses, if no more names were searched for.
fn taken(alloc: Global, names: &Names<'_, '_>, count: usize, most: &str) -> Option<String> {
    if names.lookups() > most.parse::<u64>().ok()? {
        return None;
    }
    let addresses = listed(alloc, names.first_mentions())?;
    format!(in alloc; "taken {count}:{}", addresses.as_str()).ok()
}

fn finished(alloc: Global, reader: NameReader<'_, '_>, most: &str) -> Option<String> {
    let count = reader.taken().len();
    let names = reader.finish().ok()?;
    taken(alloc, &names, count, most)
}

fn read(alloc: Global, most: &str, text: &str) -> Option<String> {
    let doc = doc(alloc, text)?;
    let mut reader = NameReader::new(alloc).ok()?;
    let mut said = hand_in(alloc, &mut reader, &doc)?;
    let taken = finished(alloc, reader, most)?;
    said.push_str(taken.as_str()).ok()?;
    Some(said)
}

#[test]
fn lines_are_read_in_turn(rt: HostRuntime) -> Result<(), Fail> {
    assert_answers(&rt, rt.alloc(), READ, 5, read)
}
