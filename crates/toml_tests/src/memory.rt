//! Memory that is refused: tests/memory.sh runs the test named `or_wants` with each allocation refused.

use crate::rows::rows;
use std::alloc::{AllocError, Global};
use std::process::Abort;
use std::test::Fail;
use toml_edits::{Edit, EditFault, EditsFault, apply, read_edits};
use toml_names::{Data, NameFault, NameReader, read_names, same};
use toml_text::Source;
use toml_tree::{Doc, Line, SyntaxFault, parse};

/// A text and its edits.
const EDITED: &str = r#"
port = 1_000 # keep¶
[{"op":"set","at":["port"],"value":"0x1F"}]

a.b = 1¶
[{"op":"remove","at":["a","b"]}]

x = [1, # one¶ 2]¶
[{"op":"remove","at":["x",0]}]

x = [1, 2, 3]¶
[{"op":"remove","at":["x",0]},{"op":"remove","at":["x",0]}]

[a.b]¶
[{"op":"insert","at":["a","x"],"value":"1"}]

f = +6.626_0E-34¶d = 1979-05-27 07:32:00.50z¶
[{"op":"rename","at":["f"],"to":"z z"}]

a = 1¶x = [1, 2]
[{"op":"rename","at":["a"],"to":"a longer name"}]

[a.b]¶c = [1]¶
[{"op":"insert","at":["a","b","d"],"value":"[{e = 1}, 'x']"}]

x = [[1], [2, 3]]¶
[{"op":"insert","at":["x",1,0],"value":"{k = [1, 2]}"}]

[[a]]¶[a.b]¶[[a]]¶[a.b]¶
[{"op":"insert","at":["a",0,"c"],"value":"2"}]

[[a]]¶[a.b]¶[[a]]¶x = 1
[{"op":"section","at":["a",0,"c"]},{"op":"element","at":["a",2]}]

[a.b]¶
[{"op":"element","at":["a","a longer name",0]}]

port = 1_000 # keep¶x = [1, # one¶ 2]¶[a.b]¶a.b = 1¶"\u0063" = 2¶d = 1979-05-27 07:32:00.50z¶
[{"op":"set","at":["x"],"value":"1"}]
"#;

/// Where a call is not made for want of memory, and for nothing else, the rest of the row is left out.
fn wanting(rt: &impl Abort, wants: bool) -> AllocError {
    assert!(rt; wants);
    AllocError
}

/// How often an edit, and a line, found no memory.
#[derive(Drop)]
struct Wants {
    edits: usize,
    lines: usize,
}

/// The document of a text; without one there was no memory.
fn document<'t>(rt: &impl Abort, alloc: Global, text: &'t str) -> Result<Doc<'t>, AllocError> {
    let source = Source::new(text.as_bytes()).map_err(|_| wanting(rt, false))?;
    parse(alloc, source).map_err(|fault| wanting(rt, matches!(&fault, SyntaxFault::NoMemory)))
}

/// The data of a text; without them there was no memory.
fn data_of(rt: &impl Abort, alloc: Global, text: &str) -> Result<Data, AllocError> {
    let doc = document(rt, alloc, text)?;
    let names = read_names(alloc, &doc).map_err(|fault| wanting(
        rt,
        matches!(&fault, NameFault::NoMemory),
    ))?;
    names.data().copy(alloc)
}

/// An edit that finds no memory leaves the data as they were, and is made once there is some.
fn make(
    rt: &impl Abort,
    alloc: Global,
    data: &mut Data,
    edit: &Edit,
    wants: &mut Wants,
) -> Result<(), AllocError> {
    let before = data.copy(alloc)?;
    if let Err(fault) = apply(alloc, data, edit) {
        assert!(rt; matches!(&fault, EditFault::NoMemory));
        wants.edits = wants.edits.saturating_add(1);
        assert!(rt; same(&data.root, &before.root));
        assert!(rt; apply(alloc, data, edit).is_ok());
    }
    assert!(rt; !same(&data.root, &before.root));
    Ok(())
}

/// The edits are made of the data of the text. What comes before may want memory.
fn apply_all(
    rt: &impl Abort,
    alloc: Global,
    text: &str,
    edits: &str,
    wants: &mut Wants,
) -> Result<(), AllocError> {
    let mut data = data_of(rt, alloc, text)?;
    let edits = read_edits(alloc, edits.as_bytes()).map_err(|fault| wanting(
        rt,
        matches!(&fault, EditsFault::NoMemory),
    ))?;
    for edit in &edits {
        make(rt, alloc, &mut data, edit, wants)?;
    }
    Ok(())
}

/// A line for which there is no memory is not taken, and is taken once there is some.
fn take_line<'d, 't>(
    rt: &impl Abort,
    reader: &mut NameReader<'d, 't>,
    line: &'d Line<'t>,
    wants: &mut Wants,
) {
    let count = reader.taken().len();
    if let Err(fault) = reader.line(line) {
        assert!(rt; matches!(&fault, NameFault::NoMemory));
        wants.lines = wants.lines.saturating_add(1);
        assert_eq!(rt; reader.taken().len(), count);
        assert!(rt; reader.line(line).is_ok());
    }
    assert_eq!(rt; reader.taken().len(), count.saturating_add(1));
}

/// Each line is taken. What comes before may want memory.
fn take_all(
    rt: &impl Abort,
    alloc: Global,
    text: &str,
    wants: &mut Wants,
) -> Result<(), AllocError> {
    let doc = document(rt, alloc, text)?;
    let mut reader = NameReader::new(alloc)?;
    for line in doc.lines() {
        take_line(rt, &mut reader, line, wants);
    }
    Ok(())
}

fn apply_and_take(rt: &impl Abort, alloc: Global, wants: &mut Wants) -> Result<(), AllocError> {
    let rows = rows(alloc, EDITED)?;
    assert_eq!(rt; rows.len(), 13);
    for row in &rows {
        assert_eq!(rt; row.len(), 2);
        apply_all(rt, alloc, &row[0], &row[1], wants)?;
        take_all(rt, alloc, &row[0], wants)?;
    }
    Ok(())
}

#[test]
fn applies_and_takes(rt: HostRuntime) -> Result<(), Fail> {
    let mut wants = Wants { edits: 0, lines: 0 };
    apply_and_take(&rt, rt.alloc(), &mut wants)?;
    assert_eq!(rt; wants.edits, 0);
    assert_eq!(rt; wants.lines, 0);
    Ok(())
}

/// tests/memory.sh looks for what it prints.
#[test]
fn applies_and_takes_or_wants(rt: HostRuntime) {
    let mut wants = Wants { edits: 0, lines: 0 };
    let _ = apply_and_take(&rt, rt.alloc(), &mut wants);
    if wants.edits > 0 {
        let _ = println!(rt; "an edit found no memory");
    }
    if wants.lines > 0 {
        let _ = println!(rt; "a line found no memory");
    }
}
