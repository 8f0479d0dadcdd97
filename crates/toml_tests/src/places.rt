//! Places of a command line: which texts are places, where others are refused, and the address of each in a document.

use crate::worked::{assert_answers, path};
use std::alloc::Global;
use std::test::Fail;
use toml_names::names_of_text;
use toml_places::{PlaceFault, read_place, spell_place};
use toml_text::Source;
use toml_tree::Profile;

/// The address of places in the document of a paragraph's first line, and its spelling; or the byte at which a text is
/// refused.
const PLACES: &str = r#"
users = [{ name = 1 }]¶x = [[7], [8, 9]]¶"a b" = { c = 2 }¶[deps]¶[[t]]¶[[t]]
 . | .
/users/#0/name users[0].name | users[0].name
/a b/c "a b".c | "a b".'c'
/deps/serde deps.serde | deps␣.␣serde
/x/#1/#2 x[1][2] | x[-1][+]
/x/#0 x[0] | x[-2]
nowhere | x[-3]
nowhere | x[-2][-1][+]
/t/#2/k t[2].k | t[+].k
nowhere | deps[-1]
nowhere | no[+]
/no/#7/k no[7].k | no[7].k
/x/#18446744073709551615 x[18446744073709551615] | x[18446744073709551615]
at 0 | ∅
at 0 | ␣a
at 2 | a.
at 2 | a..b
at 3 | a[01]
at 3 | a[-0]
at 0 | [0]
at 2 | a b
at 1 | ..
at 2 | a␣
at 2 | a[18446744073709551616]
at 3 | a[-18446744073709551616]
at 2 | a."b\q".c
at 3 | a[+1]
at 4 | a[-1
at 2 | a [0]
at 1 | a"b"
"#;

fn place(alloc: Global, document: &str, text: &str) -> Option<String> {
    let place = match read_place(alloc, text.as_bytes()) {
        Ok(place) => place,
        Err(PlaceFault::BadPlace { at }) => return format!(in alloc; "at {}", at).ok(),
        Err(PlaceFault::NoMemory) => return None,
    };
    let source = Source::new(document.as_bytes()).ok()?;
    let names = names_of_text(alloc, source, Profile::One).ok()?;
    let Some(at) = place.address(alloc, &names).ok()? else {
        return String::from_str(alloc, "nowhere").ok();
    };
    let mut said = path(alloc, &at)?;
    said.push_str(" ").ok()?;
    said.push_str(spell_place(alloc, &at).ok()??.as_str()).ok()?;
    Some(said)
}

#[test]
fn places_of_a_command_line(rt: HostRuntime) -> Result<(), Fail> {
    assert_answers(&rt, rt.alloc(), PLACES, 30, place)
}
