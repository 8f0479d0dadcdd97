//! Values that begin with a hyphen, which the parser would take for options.
ghost use Rattle.std.specs.Prelude.{◌≡◌, ◌++◌, IfOk, OnOk, false, map, string_bytes};
ghost use Rattle.toml_words.specs.Marking.{before_equals, begins_with_hyphen, is_at_value, is_common_option, is_edit_option, is_form_option, is_hyphen_value};
ghost use Rattle.toml_words.specs.Marking.{is_marked, is_option_of, is_value_option, marked, marked_behind, marked_words, takes_hyphens, unmarked};

use std::alloc::{AllocError, Global};

/// What stands before a word that is marked. No word of a process has this character.
pub(crate) const MARK: char = '\0';

/// The words of the process, its own name first, with those marked that are values though they begin with a hyphen. So are what
/// stands for VALUE or NAME behind FILE and PLACE, and for TEXT behind `--default`, where it is no option of the command.
pub fn marked_words(alloc: Global, words: &[String]) -> Result<Vec<String>, AllocError>
    ensures { IfOk result (λ list. map string_bytes list.items ≡ marked_words (map string_bytes words.now)) }
{
    let mut list = Vec::with_capacity(alloc, words.len())?;
    match words {
        [_, command, rest @ ..] if takes_hyphens(command.as_str()) => {
            copy(&mut list, &words[..2])?;
            mark(alloc, &mut list, command.as_str(), rest)?;
        }
        _ => copy(&mut list, words)?,
    }
    Ok(list)
}

/// Adds the words as they are.
fn copy(list: &mut Vec<String>, words: &[String]) -> Result<(), AllocError>
    ensures { OnOk result (map string_bytes list.new.items ≡ map string_bytes list.old.items ++ map string_bytes words.now) }
{
    for word in words {
        list.push(word.clone()?)?;
    }
    Ok(())
}

/// Adds the words behind the command, those marked that are values.
fn mark(
    alloc: Global,
    list: &mut Vec<String>,
    command: &str,
    words: &[String],
) -> Result<(), AllocError>
    ensures { OnOk result (map string_bytes list.new.items ≡ map string_bytes list.old.items ++ marked_behind command.now 0 false (map string_bytes words.now)) }
{
    let mut seen = 0;
    let mut behind_default = false;
    for (i, word) in words.iter().enumerate() {
        let word = word.as_str();
        if word == "--" {
            return copy(list, &words[i..]);
        }
        let is_value = is_hyphen_value(command, seen, behind_default, word);
        list.push(marked(alloc, is_value, word)?)?;
        if !begins_with_hyphen(word) {
            seen += 1;
        }
        behind_default = word == "--default";
    }
    Ok(())
}

/// A copy of a word, with the mark or without.
fn marked(alloc: Global, is_value: bool, word: &str) -> Result<String, AllocError>
    ensures { IfOk result (λ copy. string_bytes copy ≡ marked is_value word.now) }
{
    let mut copy = String::with_capacity(alloc, word.len())?;
    if is_value {
        copy.push(MARK)?;
    }
    copy.push_str(word)?;
    Ok(copy)
}

/// Whether a value of the command may begin with a hyphen.
fn takes_hyphens(command: &str) -> bool
    ensures { result ≡ takes_hyphens command.now }
{
    matches!(command, "get" | "set" | "insert" | "rename")
}

/// Whether the word is a value, though it begins with a hyphen. `seen` words without one stand between the command and it.
fn is_hyphen_value(command: &str, seen: usize, behind_default: bool, word: &str) -> bool
    ensures { result ≡ is_hyphen_value command.now seen behind_default word.now }
{
    begins_with_hyphen(word)
        && !is_option_of(command, before_equals(word))
        && is_at_value(command, seen, behind_default)
}

/// Whether it begins with a hyphen, and is more than that.
fn begins_with_hyphen(word: &str) -> bool
    ensures { result ≡ begins_with_hyphen word.now }
{
    match word.as_bytes() {
        [first, _, ..] => *first == b'-',
        _ => false,
    }
}

/// Whether a value may stand there: of `get` directly behind `--default`, else behind FILE and PLACE.
fn is_at_value(command: &str, seen: usize, behind_default: bool) -> bool
    ensures { result ≡ is_at_value command.now seen behind_default }
{
    if command == "get" {
        behind_default
    } else {
        seen >= 2
    }
}

/// The front of a word up to its first `=`.
fn before_equals(word: &str) -> &[u8]
    ensures { result.now ≡ before_equals word.now }
{
    let bytes = word.as_bytes();
    for (i, byte) in bytes.iter().enumerate() {
        if *byte == b'=' {
            return &bytes[..i];
        }
    }
    bytes
}

/// Whether it is an option of the command, without what stands behind its `=`.
fn is_option_of(command: &str, name: &[u8]) -> bool
    ensures { result ≡ is_option_of command.now name.now }
{
    if is_common_option(name) {
        return true;
    }
    if command == "get" {
        return is_form_option(name);
    }
    is_edit_option(name) || (command != "rename" && is_value_option(name))
}

/// An option that each command takes.
fn is_common_option(name: &[u8]) -> bool
    ensures { result ≡ is_common_option name.now }
{
    name == b"-h".as_slice() || name == b"--help".as_slice() || name == b"--profile".as_slice()
}

/// One that `get` takes.
fn is_form_option(name: &[u8]) -> bool
    ensures { result ≡ is_form_option name.now }
{
    name == b"--json".as_slice()
        || name == b"--tagged".as_slice()
        || name == b"--toml".as_slice()
        || name == b"--type".as_slice()
        || name == b"--default".as_slice()
}

/// One that the commands take that edit.
fn is_edit_option(name: &[u8]) -> bool
    ensures { result ≡ is_edit_option name.now }
{
    name == b"-i".as_slice()
        || name == b"--in-place".as_slice()
        || name == b"--certificate".as_slice()
        || name == b"--layout".as_slice()
}

/// One that those take of them that have a value.
fn is_value_option(name: &[u8]) -> bool
    ensures { result ≡ is_value_option name.now }
{
    name == b"--string".as_slice() || name == b"--parents".as_slice()
}

/// Whether the word is marked.
pub(crate) fn is_marked(word: &str) -> bool
    ensures { result ≡ is_marked word.now }
{
    match word.as_bytes() {
        [first, ..] => *first == 0,
        [] => false,
    }
}

/// The word without its mark.
pub(crate) fn unmarked<'a>(word: &'a str) -> &'a str
    ensures { result.now ≡ unmarked word.entry.now }
{
    match word.strip_prefix(MARK) {
        Some(value) => value,
        None => word,
    }
}
