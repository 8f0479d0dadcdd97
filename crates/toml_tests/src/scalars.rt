//! Scalars and key parts: what a text is as a token of a kind, which names key parts have, and how a name is spelled.

use crate::worked::{assert_answers, source};
use std::alloc::Global;
use std::test::Fail;
use toml_scalar::{read_key, read_scalar, scan_key, scan_scalar, spell_key};
use toml_text::Span;

/// What texts are as tokens of a kind, that of the paragraph's first line. Those that are no token of any kind, and most of
/// those that are one of this kind, are rows of the commands.
const TOKENS: &str = r#"
""
Ok(Text("\"x\"\"")) | """"x"""""
Ok(Text("bc")) | """␍¶b\ ␍¶␍¶  c"""

1
Err(BadNumber { at: 0 }) | ∅
Err(BadNumber { at: 0 }) | _1
Err(BadNumber { at: 0 }) | 1.0
Err(BadNumber { at: 0 }) | ␣1

1.0
Err(BadNumber { at: 0 }) | ∅
Err(BadNumber { at: 0 }) | 1
Err(BadNumber { at: 0 }) | .5
Err(BadNumber { at: 0 }) | 0x1e5
Err(BadNumber { at: 0 }) | Inf
Err(BadNumber { at: 0 }) | nane1

1979-05-27T07:32:00Z
Err(BadDate { at: 0 }) | ∅
Err(BadDate { at: 0 }) | 1979-05-27T07:32:00
Err(BadDate { at: 0 }) | 1979-05-27
Err(BadDate { at: 0 }) | 07:32:00
Err(BadDate { at: 0 }) | 1979-05-27␣
Err(BadDate { at: 0 }) | 1979-05-27 x
Err(BadDate { at: 0 }) | 1979-05-27  07:32:00

1979-05-27T07:32:00
Err(BadDate { at: 0 }) | ∅
Err(BadDate { at: 0 }) | 1979-05-27T07:32:00Z
Err(BadDate { at: 0 }) | 1979-05-27
Err(BadDate { at: 0 }) | 07:32:00
Err(BadDate { at: 0 }) | 1979-05-27␣
Err(BadDate { at: 0 }) | 1979-05-27 x
Err(BadDate { at: 0 }) | 1979-05-27  07:32:00

1979-05-27
Err(BadDate { at: 0 }) | ∅
Err(BadDate { at: 0 }) | 1979-05-27T07:32:00Z
Err(BadDate { at: 0 }) | 1979-05-27T07:32:00
Err(BadDate { at: 0 }) | 07:32:00
Err(BadDate { at: 0 }) | 1979-05-27␣
Err(BadDate { at: 0 }) | 1979-05-27 x
Err(BadDate { at: 0 }) | 1979-05-27  07:32:00

07:32:00
Err(BadDate { at: 0 }) | ∅
Err(BadDate { at: 0 }) | 1979-05-27T07:32:00Z
Err(BadDate { at: 0 }) | 1979-05-27T07:32:00
Err(BadDate { at: 0 }) | 1979-05-27
Err(BadDate { at: 0 }) | 1979-05-27␣
Err(BadDate { at: 0 }) | 1979-05-27 x
Err(BadDate { at: 0 }) | 1979-05-27  07:32:00
"#;

/// What a text is as a token of the kind that another one is of.
fn token(alloc: Global, other: &str, text: &str) -> Option<String> {
    let (other, text) = (source(other)?, source(text)?);
    let whole = Span {
        start: 0,
        end: text.len(),
    };
    if !other.holds(Span { start: 0, end: 0 }) || !text.holds(whole) {
        return None;
    }
    let (_, kind) = scan_scalar(other, 0).ok()?;
    let read = read_scalar(alloc, text, whole, kind);
    format!(in alloc; "{read:?}").ok()
}

/// The names of the key parts at the fronts of texts.
const NAMES: &str = r#"
∅
a-b_9 | a-b_9 = 1
b.c | "b.c" = 1
∅ | ''.x
∅ | """a""" = 1
a | "\u0061"
"#;

fn name(alloc: Global, _: &str, text: &str) -> Option<String> {
    let source = source(text)?;
    if !source.holds(Span { start: 0, end: 0 }) {
        return None;
    }
    let span = scan_key(source, 0).ok()?;
    if !source.holds(span) {
        return None;
    }
    read_key(alloc, source, span).ok()
}

const SPELLINGS: &str = r#"
∅
a-b | a-b
"" | ∅
"a b" | a b
"\u007F" | ␡
"\t" | ␉
"␤" | ␤
"#;

fn spelling(alloc: Global, _: &str, name: &str) -> Option<String> {
    spell_key(alloc, name).ok()
}

#[test]
fn texts_are_tokens_of_their_kind(rt: HostRuntime) -> Result<(), Fail> {
    assert_answers(&rt, rt.alloc(), TOKENS, 40, token)
}

#[test]
fn key_parts_and_names(rt: HostRuntime) -> Result<(), Fail> {
    assert_answers(&rt, rt.alloc(), NAMES, 5, name)?;
    assert_answers(&rt, rt.alloc(), SPELLINGS, 6, spelling)
}
