//! One line of words: which edits it stands for at a place of a document.

use crate::edits::edits_text;
use crate::worked::assert_answers;
use std::alloc::Global;
use std::test::Fail;
use toml_names::names_of_text;
use toml_one::{Wish, edits_at};
use toml_places::read_place;
use toml_text::Source;
use toml_tree::Profile;

/// The edits of a word and a place in a document, the value being `2`; behind `+` what is missing above is made.
const WORDS: &str = r#"
∅
element /u/#0 "";insert /u/#0/k "2"; | +set u[+].k
element /u/#0 "";element /u/#0/v/#0 "";insert /u/#0/v/#0/k "2"; | +insert u[0].v[+].k
section /b "";section /b/c "";insert /b/c/d "2"; | +set b.c.d
insert /#0//k "2"; | +set u[-1].k

a = 1¶t = {}¶x = []
insert /t/a "{}";insert /t/a/b "2"; | +set t.a.b
insert /t/y "[]";insert /t/y/#0 "{}";insert /t/y/#0/k "2"; | +set t.y[+].k
insert /a/b "{}";insert /a/b/c "2"; | +insert a.b.c
insert /#0/ "{}";insert /#0//k "2"; | +set x[-1].k
set /a "2"; | +set a
insert /b "2"; | set b
insert /x/#0 "2"; | set x[+]

[[u]]¶k = 1
element /u/#1 "";insert /u/#1/k "2"; | +set u[+].k
section /u/#0/s "";insert /u/#0/s/k "2"; | +set u[0].s.k
"#;

fn edits(alloc: Global, document: &str, words: &str) -> Option<String> {
    let (word, place) = words.split_once(" ")?;
    let (value, parents) = ("2", word.starts_with("+"));
    let wish = match word.ends_with("set") {
        true => Wish::Set { value, parents },
        false => Wish::Insert { value, parents },
    };
    let place = read_place(alloc, place.as_bytes()).ok()?;
    let names = names_of_text(alloc, Source::new(document.as_bytes()).ok()?, Profile::One).ok()?;
    edits_text(alloc, &edits_at(alloc, &names, &place, wish).ok()?)
}

#[test]
fn words_stand_for_edits(rt: HostRuntime) -> Result<(), Fail> {
    assert_answers(&rt, rt.alloc(), WORDS, 13, edits)
}
