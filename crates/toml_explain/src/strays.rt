//! Characters that look like whitespace or quotation marks, and are none in TOML.

use bstr::decode_utf8;
use std::alloc::{AllocError, Global};

/// Whether a character is seen as a space or not at all, and is no whitespace of TOML.
fn is_unseen(character: char) -> bool {
    matches!(
        character,
        '\u{85}'
            | '\u{A0}'
            | '\u{AD}'
            | '\u{1680}'
            | '\u{2000}'..='\u{200F}'
            | '\u{2028}'..='\u{202F}'
            | '\u{205F}'..='\u{2064}'
            | '\u{3000}'
            | '\u{FEFF}'
    )
}

/// Whether a character is a quotation mark elsewhere.
fn is_foreign_mark(character: char) -> bool {
    matches!(
        character,
        '`' | '\u{AB}' | '\u{BB}' | '\u{2018}'..='\u{201F}' | '\u{2039}' | '\u{203A}'
    )
}

/// What is said of a place where nothing of TOML stands, if it has such a character.
pub(crate) fn stray(alloc: Global, bytes: &[u8], at: usize) -> Result<Option<String>, AllocError> {
    let Some(rest) = bytes.get(at..) else {
        return Ok(None);
    };
    let (Some(character), _) = decode_utf8(rest) else {
        return Ok(None);
    };
    if is_unseen(character) {
        let number = u32::from(character);
        let sentence = format!(in alloc; "the character U+{number:04X} is no whitespace of TOML")?;
        return Ok(Some(sentence));
    }
    if is_foreign_mark(character) {
        let sentence = String::from_str(alloc, "the quotation marks of TOML are \" and '")?;
        return Ok(Some(sentence));
    }
    Ok(None)
}
