//! Tables of worked rows. A table is one text, since to prove a literal for each field takes long.
//!
//! A row is a paragraph, and a field one line of it. A line that begins with `//` is a comment. `∅` is no character, so
//! that an empty field has a line, and other characters stand for those that a line cannot show (`meant`).

use std::alloc::{AllocError, Global};
use toml_tree::Profile;

/// The rows of a table.
pub fn rows(alloc: Global, table: &str) -> Result<Vec<Vec<String>>, AllocError> {
    let mut rows = Vec::new(alloc);
    for paragraph in table.trim_matches('\n').split("\n\n") {
        rows.push(fields(alloc, paragraph)?)?;
    }
    Ok(rows)
}

fn fields(alloc: Global, paragraph: &str) -> Result<Vec<String>, AllocError> {
    let mut fields = Vec::new(alloc);
    for line in paragraph.split('\n') {
        if !line.starts_with("//") {
            fields.push(field(alloc, line)?)?;
        }
    }
    Ok(fields)
}

fn field(alloc: Global, line: &str) -> Result<String, AllocError> {
    let mut text = String::new(alloc);
    for character in line.chars() {
        if character != '∅' {
            text.push(meant(character))?;
        }
    }
    Ok(text)
}

/// The character for which one stands.
fn meant(character: char) -> char {
    match character {
        '¶' => '\n',
        '␣' => ' ',
        '␀' => '\u{0}',
        '␉' => '\t',
        '␍' => '\r',
        '␡' => '\u{7F}',
        '␤' => '\u{85}',
        '□' => '\u{FEFF}',
        other => other,
    }
}

/// The profile of a word.
pub fn profile(word: &str) -> Option<Profile> {
    match word {
        "1" => Some(Profile::One),
        "2" => Some(Profile::Two),
        _ => None,
    }
}
