//! What is said where a text may not go on so, by what stands before the place and behind it.

use crate::token::token_run;

const NO_VALUE: &str = "this is no value of TOML, and a string stands between quotation marks";

const NO_VALUE_BEGINS: &str = "no value of TOML begins so";

const NO_VALUE_BEHIND: &str = "a value is missing behind `=`";

const NO_KEY: &str =
    "a name with more than letters, digits, `_` and `-` stands between quotation marks";

const NO_LINES: &str = "a key is no string over several lines";

const NO_EQUALS: &str = "a key has `=` and a value behind it";

const NO_NAME_BEFORE: &str = "a name is missing before the point";

const NO_NAME_BEHIND: &str = "a name is missing behind the point";

const OPEN_HEADER: &str = "the header is not closed in its line";

const COMMENT: &str = "a comment begins with `#`";

/// What profile 2 makes of a place at which a text is refused.
#[derive(Clone, Copy)]
pub(crate) enum Newer {
    /// It refuses the text there too.
    Refuses,
    /// It goes on, and refuses what stands behind.
    Passes,
    /// It takes all that begins before the place.
    Takes,
}

/// Whether a line ends here but for a comment, or the text does.
pub(crate) fn is_end(rest: &[u8]) -> bool {
    matches!(rest, [] | [b'\n' | b'\r' | b'#', ..])
}

/// Whether a comment of another language begins here.
fn is_foreign_comment(rest: &[u8]) -> bool {
    matches!(rest, [b'/', b'/' | b'*', ..])
}

/// Whether a boolean stands here that is not in lower case.
fn is_boolean(rest: &[u8]) -> bool {
    matches!(
        token_run(rest),
        [b'T' | b't', b'R' | b'r', b'U' | b'u', b'E' | b'e']
            | [
                b'F' | b'f',
                b'A' | b'a',
                b'L' | b'l',
                b'S' | b's',
                b'E' | b'e'
            ]
    )
}

/// What is wrong behind all that a line has.
pub(crate) fn behind_line(rest: &[u8]) -> &'static str {
    if is_foreign_comment(rest) {
        COMMENT
    } else {
        "only a comment may follow on this line"
    }
}

/// What is wrong where a line begins.
pub(crate) fn at_beginning(rest: &[u8]) -> &'static str {
    match rest {
        [b'=', ..] => "a key stands before `=`",
        [b'.', ..] => NO_NAME_BEFORE,
        [b']' | b'}', ..] => "nothing is open here that this closes",
        [0x80..=0xFF, ..] => NO_KEY,
        _ => "neither a key nor a header begins so, and a comment begins with `#`",
    }
}

/// What is wrong behind a key; a third mark begins no string there.
pub(crate) fn behind_key(rest: &[u8], is_third_mark: bool) -> &'static str {
    match rest {
        _ if is_third_mark => NO_LINES,
        _ if is_end(rest) => NO_EQUALS,
        [b':' | b'}' | b']', ..] => NO_EQUALS,
        _ => "`=` is missing behind the key, or quotation marks around it",
    }
}

/// What is wrong behind the point of a key.
fn behind_point(rest: &[u8]) -> &'static str {
    match rest {
        [b'=' | b'.' | b',' | b']' | b'}', ..] => NO_NAME_BEHIND,
        _ if is_end(rest) => NO_NAME_BEHIND,
        _ => NO_KEY,
    }
}

/// What is wrong behind an opening bracket of a header.
fn behind_opening(header: &[u8], rest: &[u8]) -> &'static str {
    match rest {
        [b'.', ..] => NO_NAME_BEFORE,
        [b']', ..] => "a header names a table",
        [b'[', ..] if header.starts_with(b"[[") => "a header begins with one `[` or two",
        [b'[', ..] => "the brackets of `[[` stand together",
        [b'#', ..] => "the header is not closed before this",
        _ if is_end(rest) => OPEN_HEADER,
        _ => NO_KEY,
    }
}

/// What is wrong in a header, of which this stands there already; a third mark begins no string there.
pub(crate) fn in_header(
    header: &[u8],
    last: Option<u8>,
    rest: &[u8],
    is_third_mark: bool,
) -> &'static str {
    let is_double = header.starts_with(b"[[");
    match (last, rest) {
        _ if is_third_mark => NO_LINES,
        (Some(b'.'), _) => behind_point(rest),
        (Some(b'['), _) => behind_opening(header, rest),
        (Some(b']'), _) if is_double => "`]]` closes this header, its brackets together",
        (_, [b'#', ..]) => "the header is not closed before this",
        _ if is_end(rest) => OPEN_HEADER,
        _ if is_double => "`]]` is missing before this, or quotation marks around the name",
        _ => "`]` is missing before this, or quotation marks around the name",
    }
}

/// What is wrong behind an `=`.
fn behind_equals(rest: &[u8]) -> &'static str {
    match rest {
        _ if is_end(rest) => NO_VALUE_BEHIND,
        [b',' | b']' | b'}', ..] => NO_VALUE_BEHIND,
        _ if is_foreign_comment(rest) => NO_VALUE_BEHIND,
        [b'A'..=b'Z' | b'a'..=b'z', ..] if !is_boolean(rest) => NO_VALUE,
        _ => begins_none(rest),
    }
}

/// What is wrong where a value is to begin.
pub(crate) fn begins_none(rest: &[u8]) -> &'static str {
    match rest {
        [] => "a value is missing",
        _ if is_boolean(rest) => "a boolean is in lower case",
        _ if is_foreign_comment(rest) => COMMENT,
        [b'.', b'0'..=b'9', ..] => "digits stand on both sides of a point",
        _ => NO_VALUE_BEGINS,
    }
}

/// What is wrong in an array.
fn in_array(last: Option<u8>, rest: &[u8]) -> &'static str {
    match (last, rest) {
        (_, []) => "an array is not closed",
        (_, [b'}', ..]) => "an array is closed by `]`",
        (Some(b'[' | b','), [b',', ..]) => "a value is missing before this comma",
        (Some(b'[' | b','), [b'A'..=b'Z' | b'a'..=b'z', ..]) if !is_boolean(rest) => {
            "this is no value of TOML: a string stands between quotation marks, and `]` closes an array"
        }
        (Some(b'[' | b','), _) => begins_none(rest),
        _ if is_foreign_comment(rest) => COMMENT,
        _ => "a comma or `]` is missing before this",
    }
}

/// What is wrong where a line ends in an inline table.
fn at_line_end(newer: Newer) -> &'static str {
    match newer {
        Newer::Takes => {
            "in TOML 1.0 an inline table is closed on its line; --profile 2 lets it go on"
        }
        Newer::Passes => "in TOML 1.0 an inline table is closed on its line",
        Newer::Refuses => "a key, `=` and the value's beginning stand on one line",
    }
}

/// What is wrong in an inline table.
fn in_inline_table(last: Option<u8>, rest: &[u8], newer: Newer) -> &'static str {
    match (last, rest) {
        (_, []) => "an inline table is not closed",
        (_, [b']', ..]) => "an inline table is closed by `}`",
        _ if is_end(rest) => at_line_end(newer),
        _ if is_foreign_comment(rest) => COMMENT,
        (Some(b','), [b'}', ..]) if !matches!(newer, Newer::Refuses) => {
            "in TOML 1.0 no comma stands before `}`; --profile 2 lets one stand"
        }
        (Some(b'{' | b','), [b',', ..]) => "a key and its value are missing before this comma",
        (Some(b'{' | b','), [0x80..=0xFF, ..]) => NO_KEY,
        (Some(b'{' | b','), _) => "no key begins so",
        _ => "a comma or `}` is missing before this",
    }
}

/// What is wrong in a value, in which this bracket is open, or where one is to begin.
pub(crate) fn in_value(
    open: Option<u8>,
    last: Option<u8>,
    rest: &[u8],
    newer: Newer,
) -> &'static str {
    match (last, open) {
        (Some(b'.'), _) => behind_point(rest),
        (Some(b'='), _) => behind_equals(rest),
        (_, Some(b'[')) => in_array(last, rest),
        (_, Some(_)) => in_inline_table(last, rest, newer),
        _ => "the text may not go on so",
    }
}
