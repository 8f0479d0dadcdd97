//! Refusals as people read them: each call once.

use std::test::Fail;
use toml_checker::Reason;
use toml_edits::read_edits;
use toml_explain::{
    Input, Judged, explain_absent, explain_document, explain_edit, explain_list, explain_nowhere,
    explain_place, explain_reason, explain_unverified,
};
use toml_tree::Profile;

const BAD: &str = "\"日\" = 1\r\n\ta = 08 # c\r\n";

const NUMBER: &str = "a number may not begin with 0\n  2 | \ta = 08 # c\n    | \t    ^^\n";

const TWICE: &str = "[a]\n\n[b]\n[a]\n";

const AGAIN: &str =
    "a is defined already\n  4 | [a]\n    |  ^\n  1 | [a]\n    |  ^ first defined here\n";

const PLACE: &str = "é..b:3: something else is expected in a place\n  | é..b\n  |   ^\n";

const GOOD: &str = "[s]\nport = 8\n";

const ABSENT: &str = "nothing stands at s.prt; did you mean \"port\"?\n  1 | [s]\n    |  ^\n";

fn input(text: &str) -> Input<'_> {
    let bytes = text.as_bytes();
    Input { word: "F", bytes }
}

#[test]
fn refusals_are_explained(rt: HostRuntime) -> Result<(), Fail> {
    let (alloc, one) = (rt.alloc(), Profile::One);
    let number = explain_document(alloc, input(BAD), one, 106, 16)?;
    assert_eq!(rt; number.as_str().strip_prefix("F:2:6: "), Some(NUMBER));
    let again = explain_document(alloc, input(TWICE), one, 201, 4)?;
    assert_eq!(rt; again.as_str().strip_prefix("F:4:2: "), Some(AGAIN));
    let place = explain_place(alloc, "é..b", 3)?;
    assert_eq!(rt; place.as_str(), PLACE);
    let list = explain_list(alloc, "E", 321, 0)?;
    assert_eq!(rt; list.as_str(), "E: this is no JSON list\n");
    let absent = explain_absent(alloc, input(GOOD), "s.prt", 301, one)?;
    assert_eq!(rt; absent.as_str().strip_prefix("F:1:2: "), Some(ABSENT));
    let list = r#"[{"op":"remove","at":["s","port"]}]"#;
    let edits = read_edits(alloc, list.as_bytes()).ok().ok_or("edits")?;
    let edit = explain_edit(alloc, input(GOOD), &edits, 0, 307, "", one)?;
    assert!(rt; edit.as_str().starts_with("F:2:1: edit 0, removal of"));
    let nowhere = explain_nowhere(alloc, input(GOOD), "s[-1]", &edits, 0, 301, one)?;
    assert!(rt; nowhere.as_str().starts_with("F:1:2: edit 0, removal of"));
    let judged = Judged {
        before: input(GOOD),
        edits: &edits,
        after: input(GOOD),
        certificate: None,
        profile: one,
    };
    let unsure = explain_unverified(alloc, input(GOOD), Some(Reason::Lost))?;
    assert!(rt; unsure.as_str().starts_with("F: ") && unsure.as_str().ends_with("is not kept\n"));
    let other = explain_reason(alloc, judged, Reason::OtherData)?;
    assert!(rt; other.as_str().starts_with("F:2:1: the data differ at"));
    Ok(())
}
