//! Calls that no command and no other test makes, with ample memory: each answers, and what is wanted.

use crate::worked::{doc, edits};
use std::alloc::Global;
use std::test::Fail;
use toml_checker::{Verdict, check, check_in};
use toml_editor::{edit, edit_in};
use toml_edits::Edit;
use toml_names::read_lines;
use toml_tree::Profile;
use toml_units::units_at;

/// How many units the document has, by the addresses that a reader of its lines tells.
fn count_units(alloc: Global) -> Option<usize> {
    let doc = doc(alloc, "port = 1_000 # keep\n")?;
    let own = read_lines(alloc, &doc).ok()?.own_addresses().ok()?;
    Some(units_at(alloc, &doc, own).ok()?.len())
}

#[test]
fn lines_have_units(rt: HostRuntime) {
    assert_eq!(rt; count_units(rt.alloc()), Some(3));
}

/// What the judge says of the text that the edits make.
fn judged(alloc: Global, edits: &[Edit]) -> Option<Verdict> {
    let file = b"port = 1_000 # keep\n";
    let (text, certificate) = edit(alloc, file, edits).ok()?;
    check(alloc, file, edits, text.as_bytes(), &certificate).ok()
}

/// What the judge says in profile 2 of edits of an inline table over several lines.
fn judged_in_2(alloc: Global, edits: &[Edit]) -> Option<Verdict> {
    let (file, two) = (b"port = { # c\n}\n", Profile::Two);
    let (text, certificate) = edit_in(alloc, file, edits, two).ok()?;
    check_in(alloc, file, edits, text.as_bytes(), &certificate, two).ok()
}

#[test]
fn the_judge_says_yes(rt: HostRuntime) -> Result<(), Fail> {
    let list = r#"[{"op":"rename","at":["port"],"to":"ports"}]"#;
    let edits = edits(rt.alloc(), list).ok_or("no edits")?;
    assert_eq!(rt; judged(rt.alloc(), &edits), Some(Verdict::Yes));
    assert_eq!(rt; judged_in_2(rt.alloc(), &edits), Some(Verdict::Yes));
    Ok(())
}
