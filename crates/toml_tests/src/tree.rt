//! The tree: the text that comes back, the lines that are handed out one after another, and values that stand alone. Where a
//! document is refused is a row of `check`.

use crate::rows::profile;
use crate::worked::{assert_answers, source};
use std::alloc::Global;
use std::test::Fail;
use toml_text::Source;
use toml_tree::{LineReader, Profile, SyntaxFault, parse_in, parse_value_in};

/// Where the newlines of the lines stand that are handed out one after another.
fn handed_out(alloc: Global, source: Source, profile: Profile) -> Result<Vec<usize>, SyntaxFault> {
    let mut places = Vec::new(alloc);
    let mut left = Some(LineReader::new(source, profile));
    for _ in 0..=source.len() {
        let Some(reader) = left else {
            break;
        };
        let (line, more) = reader.next(alloc)?;
        places.push(line.newline().start)?;
        left = more;
    }
    Ok(places)
}

/// Where the newlines of a text that comes back stand, or why it is refused.
fn read_whole(
    alloc: Global,
    text: &str,
    profile: Profile,
) -> Option<Result<Vec<usize>, SyntaxFault>> {
    let doc = match parse_in(alloc, source(text)?, profile) {
        Ok(doc) => doc,
        Err(fault) => return Some(Err(fault)),
    };
    let mut places = Vec::new(alloc);
    for line in doc.lines() {
        places.push(line.newline().start).ok()?;
    }
    let comes_back = doc.text(alloc).ok()?.as_str() == text;
    comes_back.then_some(Ok(places))
}

/// As `read_whole`, where the lines that are handed out say the same.
fn lines(alloc: Global, word: &str, text: &str) -> Option<String> {
    let profile = profile(word)?;
    let read = read_whole(alloc, text, profile)?;
    let whole = format!(in alloc; "{read:?}").ok()?;
    let read = handed_out(alloc, source(text)?, profile);
    let handed = format!(in alloc; "{read:?}").ok()?;
    (whole.as_str() == handed.as_str()).then_some(whole)
}

/// Where the newlines of texts stand in a profile, the last one at the end of its text.
const LINES: &str = r#"
1
Ok([0]) | ∅
Ok([5]) | a = 1
Ok([8]) | □a = 1
Ok([8, 13, 14]) | □a = 1␍¶# c¶
Ok([0, 1, 2, 3]) | ¶¶¶
Ok([3, 4, 10, 20, 21]) | [a]¶¶[[b]]¶x = [¶1 ]¶
Ok([5, 9, 12, 30]) | a = 1¶# x¶  ¶b-_9 = +1_000 # y
Ok([5, 7, 16, 18]) | a = 1␍¶␍¶␉b␉=␉2␉␍¶
Ok([13, 22, 29]) | a . "b.c" = 1¶'' = "x"␍¶# end
Ok([20]) | "a".b.'c' = """¶x"""
Ok([28]) | x = 1979-05-27 07:32:00Z # c
Ok([16]) | a = "\U0010FFFF"
Ok([24, 26]) | a = [ # c¶ 1 # d¶ , 2, ]␍¶
Ok([26]) | a = [␍¶␉[], [ ]␍¶,␍¶# c␍¶]
Ok([25]) | a = [[1, [2,],], {}, { }]
Ok([35]) | a = {x = 1 , y.z = [ {w = {}} ]}# c
Ok([15, 22, 23]) | [ a . "b" ] # c¶␉[[a]]¶
Ok([6, 19]) | □[a]␍¶[[ a . b ]]
Ok([18, 19]) | 3.14 = 0xdead_beef¶
Err(Expected { at: 5 }) | t = {¶}¶b = 1
Err(Expected { at: 10 }) | a = 1¶b = ?¶c = 2
Err(Expected { at: 6 }) | a = 1¶□b = 2

2
Ok([0]) | ∅
Ok([5]) | a = 1
Ok([8, 13, 14]) | □a = 1␍¶# c¶
Ok([0, 1, 2, 3]) | ¶¶¶
Ok([3, 4, 10, 20, 21]) | [a]¶¶[[b]]¶x = [¶1 ]¶
Ok([7, 13]) | t = {¶}¶b = 1
Err(Expected { at: 10 }) | a = 1¶b = ?¶c = 2
Err(Expected { at: 6 }) | a = 1¶□b = 2
"#;

#[test]
fn lines_are_the_trees(rt: HostRuntime) -> Result<(), Fail> {
    assert_answers(&rt, rt.alloc(), LINES, 30, lines)
}

/// Why texts are no values of a profile.
const VALUES: &str = "
1
None | [1]
None | \"x\"
None | {a = [¶]}
None | {a = 1}
Some(Expected { at: 1 }) | 1␣
Some(Expected { at: 0 }) | ␣1
Some(Expected { at: 0 }) | ∅
Some(Expected { at: 3 }) | [1]¶
Some(Expected { at: 0 }) | □1
Some(Expected { at: 0 }) | a
Some(Expected { at: 1 }) | {¶a = 1, # c¶}
Some(BadCharacter { at: 1 }) | 1\u{1}

2
None | {¶a = 1, # c¶}
Some(Expected { at: 7 }) | {a = 1}¶
";

fn refused_value(alloc: Global, word: &str, text: &str) -> Option<String> {
    let fault = parse_value_in(alloc, source(text)?, profile(word)?).err();
    format!(in alloc; "{fault:?}").ok()
}

#[test]
fn a_value_stands_alone(rt: HostRuntime) -> Result<(), Fail> {
    assert_answers(&rt, rt.alloc(), VALUES, 14, refused_value)
}
