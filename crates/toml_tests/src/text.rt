//! Texts: which spans they hold, and where whitespace, newlines and comments end.

use crate::worked::{assert_answers, source};
use std::alloc::Global;
use std::test::Fail;
use toml_text::Span;

/// Of a text of seven bytes, what stands between two places.
const SPANS: &str = "
a # é¶
é | 4 6
a # é¶ | 0 7
none | 4 5
none | 5 6
none | 2 1
none | 2 8
";

fn slice(alloc: Global, text: &str, places: &str) -> Option<String> {
    let (start, end) = places.split_once(' ')?;
    let span = Span {
        start: start.parse::<usize>().ok()?,
        end: end.parse::<usize>().ok()?,
    };
    let text = source(text)?;
    let found = if text.holds(span) {
        text.slice(span)
    } else {
        "none"
    };
    String::from_str(alloc, found).ok()
}

/// Where the whitespace, the newline and the comment end that begin at a place.
const ENDS: &str = "
0
3 None None | ␣␉ x
0 None Some(5) | # a␉b␍¶
0 None Some(3) | #␤␡¶
0 None Some(1) | #¶#
0 Some(2) None | ␍¶
0 None None | ␍a
0 Some(1) None | ¶

1
1 None None | ¶
";

fn ends(alloc: Global, at: &str, text: &str) -> Option<String> {
    let at = at.parse::<usize>().ok()?;
    let text = source(text)?;
    if !text.holds(Span { start: at, end: at }) {
        return None;
    }
    let (newline, comment) = (text.newline_end(at), text.comment_end(at));
    format!(in alloc; "{} {newline:?} {comment:?}", text.ws_end(at)).ok()
}

#[test]
fn texts(rt: HostRuntime) -> Result<(), Fail> {
    assert_answers(&rt, rt.alloc(), SPANS, 6, slice)?;
    assert_answers(&rt, rt.alloc(), ENDS, 8, ends)
}
