//! Which units edits leave as they are.

use crate::worked::{assert_answers, edits, units_of};
use std::alloc::{AllocError, Global};
use std::test::Fail;
use toml_checker::protected;

// The units of the first text: a comment's line and its comment; a header's; a line of a key; two elements, a pair, a comment
// in the array, an element; the line's comment; the last line.
const PROTECTED: &str = r##"
# above¶[t] # head¶a.b = [1, {x = 2}, # inner¶  3] # tail¶
yyyyyyyyyyyy | []
yynnnnnnnnny | [{"op":"set","at":["t"],"value":"1"}]
yyyynnnnnnny | [{"op":"set","at":["t","a"],"value":"1"}]
yyyynnnnnnyy | [{"op":"set","at":["t","a","b"],"value":"1"}]
yyyynynnyyyy | [{"op":"set","at":["t","a","b",1],"value":"1"}]
yyyynynnyyyy | [{"op":"set","at":["t","a","b",1,"x"],"value":"1"}]
yyyynyyyyyyy | [{"op":"insert","at":["t","a","b",1],"value":"1"}]
yyyynynyyyyy | [{"op":"insert","at":["t","a","b",1,"z"],"value":"1"}]
yyyyyyyyyyyy | [{"op":"insert","at":["t","z"],"value":"1"}]
yynyyyyyyyyy | [{"op":"rename","at":["t"],"to":"u"}]
yyyynyyyyyyy | [{"op":"rename","at":["t","a"],"to":"u"}]
yyyynynnyyyy | [{"op":"rename","at":["t","a","b",1,"x"],"to":"u"}]
yynnnnnnnnny | [{"op":"remove","at":["t"]}]
yyyynnnnnnny | [{"op":"remove","at":["t","a","b"]}]
yyyynynnyyyy | [{"op":"remove","at":["t","a","b",1]}]
yyyynnnnyyyy | [{"op":"remove","at":["t","a","b",0]},{"op":"set","at":["t","a","b",0],"value":"1"}]
yyyynyyyyyyy | [{"op":"insert","at":["t","a","b",0],"value":"1"},{"op":"remove","at":["t","a","b",0]}]
yynyyyyyyyyy | [{"op":"rename","at":["t"],"to":"u"},{"op":"remove","at":["t","a","b"]}]
yynynnnnnnny | [{"op":"rename","at":["t"],"to":"u"},{"op":"remove","at":["u","a"]}]

[[p]]¶x = 1¶[[p]] # two¶x = 2
nnyyy | [{"op":"remove","at":["p",0]}]
nnyyn | [{"op":"remove","at":["p",0]},{"op":"set","at":["p",0,"x"],"value":"3"}]
yynnn | [{"op":"remove","at":["p",1]}]
nynyy | [{"op":"rename","at":["p"],"to":"q"}]
"##;

/// `y` for each flag, or `n` where it is not set.
fn marks(alloc: Global, flags: &[bool]) -> Result<String, AllocError> {
    let mut text = String::new(alloc);
    for flag in flags {
        text.push(if *flag { 'y' } else { 'n' })?;
    }
    Ok(text)
}

/// Which of the text's units the edits protect.
fn protected_units(alloc: Global, text: &str, list: &str) -> Option<String> {
    let flags = protected(alloc, &units_of(alloc, text)?, &edits(alloc, list)?).ok()?;
    marks(alloc, &flags).ok()
}

#[test]
fn edits_leave_units_as_they_are(rt: HostRuntime) -> Result<(), Fail> {
    assert_answers(&rt, rt.alloc(), PROTECTED, 23, protected_units)
}
