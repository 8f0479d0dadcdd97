//! Lists of edits: which bytes are one, what an edit makes of data, and where it carries an address.

use crate::rows::profile;
use crate::worked::{address, assert_answers, data, edits, path, what_stands};
use std::alloc::Global;
use std::test::Fail;
use toml_edits::{Edit, apply_in, carry, read_edits};
use toml_names::{Data, same};
use toml_tree::Profile;

/// The edits of a list, or why it is none.
const LISTS: &str = r#"
∅
∅ | []
NotAList | {}
NotAList | [
NotAList | □[]
NotAList | [1e999]
BadEdits { index: 0 } | [{"op":"set","at":["a"]}]
remove  ""; | [{"op":"remove","at":[]}]
BadEdits { index: 0 } | [{"op":"remove","at":[-1]}]
BadEdits { index: 0 } | [{"op":"remove","at":[1.0]}]
BadEdits { index: 0 } | [{"op":"remove","at":[-0]}]
remove /#18446744073709551615 ""; | [{"op":"remove","at":[18446744073709551615]}]
BadEdits { index: 0 } | [{"op":"remove","at":[18446744073709551616]}]
BadEdits { index: 0 } | [{"op":"remove","at":["a"],"to":"b"}]
BadEdits { index: 1 } | [{"op":"remove","at":["a"]},{"op":"move","at":["a"]}]
BadEdits { index: 0 } | [{"op":"rename","at":["a"],"value":"b"}]
BadEdits { index: 0 } | [{"op":"set","at":["a"],"value":1}]
section  "";element /#0 ""; | [{"op":"section","at":[]},{"op":"element","at":[0]}]
BadEdits { index: 0 } | [{"op":"section","at":["a"],"value":"{}"}]
BadEdits { index: 0 } | [{"op":"element","at":[0],"to":"a"}]
BadEdits { index: 0 } | [{"op":"element"}]
set /a/#0 "1";insert /a "[]";rename /a "";remove /a "";section /a/b "";element /a/#0 ""; | [{"op":"set","at":["a",0],"value":"1"},{"value":"[]","op":"insert","at":["a"]},{"op":"rename","at":["a"],"to":""},{"op":"set","op":"remove","at":["a"]},{"op":"section","at":["a","b"]},{"at":["a",0],"op":"element"}]
"#;

fn read(alloc: Global, _: &str, list: &str) -> Option<String> {
    match read_edits(alloc, list.as_bytes()) {
        Ok(edits) => edits_text(alloc, &edits),
        Err(fault) => format!(in alloc; "{fault:?}").ok(),
    }
}

pub fn edits_text(alloc: Global, edits: &[Edit]) -> Option<String> {
    let mut text = String::new(alloc);
    for edit in edits {
        text.push_str(edit_text(alloc, edit)?.as_str()).ok()?;
    }
    Some(text)
}

fn edit_text(alloc: Global, edit: &Edit) -> Option<String> {
    let (word, at, text) = match edit {
        Edit::Set { at, value } => ("set", at, value.as_str()),
        Edit::Insert { at, value } => ("insert", at, value.as_str()),
        Edit::Rename { at, to } => ("rename", at, to.as_str()),
        Edit::Remove { at } => ("remove", at, ""),
        Edit::Section { at } => ("section", at, ""),
        Edit::Element { at } => ("element", at, ""),
    };
    format!(in alloc; "{word} {} {text:?};", path(alloc, at)?.as_str()).ok()
}

#[test]
fn lists_are_read(rt: HostRuntime) -> Result<(), Fail> {
    assert_answers(&rt, rt.alloc(), LISTS, 21, read)
}

/// Of the data of a text, read in a profile: what stands at a path once an edit is made, or why it is refused. Then the data
/// are as they were. Each fault stands here once: the rows of `edit` have the others.
const APPLIED: &str = r#"
1 | a = 1¶x = [1, 2]
NotATable | / | [{"op":"insert","at":["a","k"],"value":"1"}]
NoSuchPlace | / | [{"op":"insert","at":["q","k"],"value":"1"}]
IndexOutside | / | [{"op":"insert","at":["x",3],"value":"1"}]
AlreadyThere | / | [{"op":"insert","at":["a"],"value":"1"}]
NotAName | / | [{"op":"rename","at":["x",0],"to":"b"}]
BadValue | / | [{"op":"set","at":["a"],"value":"1 "}]
RootNamed | / | [{"op":"remove","at":[]}]
NotAnElement | / | [{"op":"element","at":["x"]}]
Integer(2) | /x/#1 | [{"op":"insert","at":["x",2],"value":"3"}]
Integer(3) | /x/#2 | [{"op":"insert","at":["x",2],"value":"3"}]

1 | port = 1_000 # keep¶
Integer(31) | /port | [{"op":"set","at":["port"],"value":"0x1F"}]

1 | a.b = 1¶
table | /a | [{"op":"remove","at":["a","b"]}]
nothing | /a/b | [{"op":"remove","at":["a","b"]}]
table | /a/s | [{"op":"section","at":["a","s"]}]
Integer(1) | /a/b | [{"op":"section","at":["a","s"]}]

1 | x = [1, # one¶ 2]¶
Integer(2) | /x/#0 | [{"op":"remove","at":["x",0]}]
nothing | /x/#1 | [{"op":"remove","at":["x",0]}]

1 | [a.b]¶
Integer(1) | /a/x | [{"op":"insert","at":["a","x"],"value":"1"}]
table | /a/b | [{"op":"insert","at":["a","x"],"value":"1"}]

1 | [a]¶b = 1 # one¶[a.c]¶
nothing | /a | [{"op":"rename","at":["a"],"to":"z z"}]
Integer(1) | /z z/b | [{"op":"rename","at":["a"],"to":"z z"}]
table | /z z/c | [{"op":"rename","at":["a"],"to":"z z"}]

1 | x = [1, 2]
Integer(2) | /x/#1 | [{"op":"element","at":["x",2]}]
table | /x/#2 | [{"op":"element","at":["x",2]}]

1 | a = 1
array | /n | [{"op":"element","at":["n",0]}]
table | /n/#0 | [{"op":"element","at":["n",0]}]
nothing | /n/#1 | [{"op":"element","at":["n",0]}]
BadValue | /a | [{"op":"set","at":["a"],"value":"{\n}"}]
Integer(2) | /a/k | [{"op":"set","at":["a"],"value":"{k = 2}"}]

2 | a = 1
table | /a | [{"op":"set","at":["a"],"value":"{\n}"}]
Integer(2) | /a/k | [{"op":"set","at":["a"],"value":"{k = 2}"}]
BadValue | /a | [{"op":"set","at":["a"],"value":"{,}"}]
BadValue | /a | [{"op":"set","at":["a"],"value":"{k = 1,\nk = 2}"}]
NoSuchPlace | /a | [{"op":"set","at":["b"],"value":"{\n}"}]
nothing | /a | [{"op":"remove","at":["a"]}]

2 | a = [1]
Integer(2) | /a/#0/k | [{"op":"insert","at":["a",0],"value":"{ # c\n k = 2,}"}]

1 | a = [1]
BadValue | /a/#0/k | [{"op":"insert","at":["a",0],"value":"{ # c\n k = 2,}"}]
"#;

fn made(alloc: Global, before: &Data, edit: &Edit, profile: Profile, path: &str) -> Option<String> {
    let mut after = before.copy(alloc).ok()?;
    match apply_in(alloc, &mut after, edit, profile) {
        Ok(()) => what_stands(alloc, &after.root, path),
        Err(fault) if same(&after.root, &before.root) => format!(in alloc; "{fault:?}").ok(),
        Err(_) => None,
    }
}

fn applied(alloc: Global, of: &str, asked: &str) -> Option<String> {
    let (word, text) = of.split_once(" | ")?;
    let (path, list) = asked.split_once(" | ")?;
    let (profile, edits) = (profile(word)?, edits(alloc, list)?);
    made(alloc, &data(alloc, text)?, edits.first()?, profile, path)
}

#[test]
fn edits_are_made_on_data(rt: HostRuntime) -> Result<(), Fail> {
    assert_answers(&rt, rt.alloc(), APPLIED, 37, applied)
}

/// Where an edit carries an address.
const CARRIED: &str = r#"
∅
nowhere | /a/b | [{"op":"set","at":["a"],"value":"1"}]
/a | /a | [{"op":"set","at":["a"],"value":"1"}]
/b | /b | [{"op":"set","at":["a"],"value":"1"}]
/a | /a | [{"op":"set","at":["a",0],"value":"1"}]
/a | /a | [{"op":"set","at":[],"value":"1"}]
/b/c | /a/c | [{"op":"rename","at":["a"],"to":"b"}]
/b | /a | [{"op":"rename","at":["a"],"to":"b"}]
/c | /c | [{"op":"rename","at":["a"],"to":"b"}]
/x | /x | [{"op":"rename","at":["x","a"],"to":"b"}]
/a | /a | [{"op":"rename","at":["x","a"],"to":"b"}]
/x/#0 | /x/#0 | [{"op":"rename","at":["x",0],"to":"b"}]
/a | /a | [{"op":"rename","at":[],"to":"b"}]
/x/#2 | /x/#1 | [{"op":"insert","at":["x",1],"value":"1"}]
/x/#4/k | /x/#3/k | [{"op":"insert","at":["x",1],"value":"1"}]
/x/#0 | /x/#0 | [{"op":"insert","at":["x",1],"value":"1"}]
/x | /x | [{"op":"insert","at":["x",1],"value":"1"}]
nowhere | /x/#18446744073709551615 | [{"op":"insert","at":["x",0],"value":"1"}]
/x/n/#0 | /x/n/#0 | [{"op":"insert","at":["x","n"],"value":"1"}]
/#0 | /#0 | [{"op":"insert","at":[],"value":"1"}]
/x/#0/k | /x/#1/k | [{"op":"remove","at":["x",0]}]
nowhere | /x/#0 | [{"op":"remove","at":["x",0]}]
nowhere | /x/#0/k | [{"op":"remove","at":["x",0]}]
/x/#0 | /x/#0 | [{"op":"remove","at":["x",1]}]
/x | /x | [{"op":"remove","at":["x",1]}]
nowhere | /x/#1 | [{"op":"remove","at":["x"]}]
/y | /y | [{"op":"remove","at":["x"]}]
/x | /x | [{"op":"remove","at":[]}]
/x/s | /x/s | [{"op":"section","at":["x","s"]}]
/x/#0 | /x/#0 | [{"op":"section","at":["x"]}]
/x | /x | [{"op":"section","at":[]}]
/x/#18446744073709551615 | /x/#18446744073709551615 | [{"op":"element","at":["x",0]}]
/x/#1/k | /x/#1/k | [{"op":"element","at":["x",1]}]
/x | /x | [{"op":"element","at":["x",1]}]
"#;

fn carried_by(alloc: Global, edit: &Edit, from: &str) -> Option<String> {
    match carry(alloc, edit, &address(alloc, from)?).ok()? {
        Some(at) => path(alloc, &at),
        None => String::from_str(alloc, "nowhere").ok(),
    }
}

fn carried(alloc: Global, _: &str, asked: &str) -> Option<String> {
    let (from, list) = asked.split_once(" | ")?;
    carried_by(alloc, edits(alloc, list)?.first()?, from)
}

#[test]
fn edits_carry_addresses(rt: HostRuntime) -> Result<(), Fail> {
    assert_answers(&rt, rt.alloc(), CARRIED, 33, carried)
}
