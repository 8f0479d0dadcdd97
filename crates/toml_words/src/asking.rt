//! What the parser's matches ask for.
ghost use Rattle.std.specs.Prelude.{◌≡◌, ◌≤◌, IfErr, IfOk, count_by, length, map, option_and_then, option_map, true};
ghost use Rattle.clap.specs.Walk.{texts};
ghost use Rattle.clap.specs.Words.{FailsBy, fault_of, found_of, kind_of, rows_of, subcommand_of, subcommand_rows_of, takes};
ghost use Rattle.toml_words.specs.CommandLine.{tool};
ghost use Rattle.toml_words.specs.Request.{IsFaultIn, IsRequestIn, apply_of, asked_by, asked_destination, asked_edit, asked_of, asked_value, certificate_of, certify_of, check_of};
ghost use Rattle.toml_words.specs.Request.{chosen, destination_of, edit_of, editing_of, form_of, get_of, insert_of, is_editing, is_input, new_value_of, one_of, reading_of, remove_of};
ghost use Rattle.toml_words.specs.Request.{rename_of, set_of, show_of, validate_of, verify_of};

use crate::command_line::command;
use crate::marking::is_marked;
use crate::request::{Destination, Form, NewValue, OneEdit, Request};
use crate::values::{
    all_values, are_both_input, first_value, is_given, is_input, layout_given, profile_given,
    value, word,
};
use clap::ArgMatches;
use clap::error::ErrorKind;
use std::alloc::{AllocError, Global};

/// The numbers of the profiles.
static PROFILES: [&str; 2] = ["1", "2"];

/// The words of the layouts.
static LAYOUTS: [&str; 2] = ["plain", "follow"];

/// Why words make no request.
#[derive(Debug, Drop)]
pub enum WordsFault {
    /// What the parser answers to the words: a mistake in them, the text for who asks for help, or want of memory.
    Parser(clap::Error),
    /// The parser took the words, and they ask for nothing: two ways to print exclude each other, two files are standard input,
    /// what is to be changed in place is, or a path or a place begins with a hyphen.
    Nothing,
    /// There was no memory.
    NoMemory,
}

/// The request of the program's words, its own name first. Values that begin with a hyphen are marked (`marked_words`).
pub fn read_words<'a>(alloc: Global, words: &'a [&'a str]) -> Result<Request<'a>, WordsFault>
    ensures ok { IfOk result (IsRequestIn (texts words.entry.now)) }
    ensures err { IfErr result (IsFaultIn (texts words.entry.now)) }
{
    let matches = match parse(alloc, words, PROFILES.as_slice(), LAYOUTS.as_slice()) {
        Ok(matches) => matches,
        Err(error) => return Err(WordsFault::Parser(error)),
    };
    match requested(alloc, &matches) {
        Ok(Some(request)) => Ok(request),
        Ok(None) => Err(WordsFault::Nothing),
        Err(_) => Err(WordsFault::NoMemory),
    }
}

/// What the parser finds in the words, with these words for the profiles and the layouts.
fn parse<'a>(
    alloc: Global,
    words: &'a [&'a str],
    profiles: &'a [&'a str],
    layouts: &'a [&'a str],
) -> Result<ArgMatches<'a>, clap::Error>
    ensures ok { IfOk result (λ matches.
        subcommand_rows_of matches ≡ subcommand_of (tool profiles.entry layouts.entry) (texts words.entry.now)) }
    ensures kinds { FailsBy (fault_of (tool profiles.entry layouts.entry) (texts words.entry.now)) result }
    ensures err { IfErr result (λ error. takes (tool profiles.entry layouts.entry) (texts words.entry.now) ≡ true
        → kind_of error ≡ ErrorKind.OutOfMemory) }
{
    let command = command(alloc, profiles, layouts)?;
    command.try_get_matches_from(words)
}

/// The request of the subcommand that was met, if it asks for anything.
fn requested<'a>(alloc: Global, matches: &ArgMatches<'a>) -> Result<Option<Request<'a>>, AllocError>
    ensures { IfOk result (λ request. option_map asked_by request
        ≡ option_and_then asked_of (subcommand_rows_of matches.now)) }
{
    let Some((name, found)) = matches.subcommand() else {
        return Ok(None);
    };
    if name == "validate" {
        return validate_request(alloc, found);
    }
    Ok(if is_editing(name) {
        editing_request(name, found)
    } else {
        reading_request(name, found)
    })
}

/// Whether the subcommand is one of those that edit a file by their words.
fn is_editing(name: &str) -> bool
    ensures { result ≡ is_editing name.now }
{
    matches!(name, "set" | "insert" | "rename" | "remove" | "apply")
}

/// What such a subcommand asks.
fn editing_request<'a>(name: &str, found: &ArgMatches<'a>) -> Option<Request<'a>>
    ensures { option_map asked_by result ≡ editing_of name.now (rows_of (found_of found.now)) }
{
    match name {
        "set" => set_request(found),
        "insert" => insert_request(found),
        "rename" => rename_request(found),
        "remove" => remove_request(found),
        "apply" => apply_request(found),
        _ => None,
    }
}

/// What the other subcommands ask, those that have no list of files.
fn reading_request<'a>(name: &str, found: &ArgMatches<'a>) -> Option<Request<'a>>
    ensures { option_map asked_by result ≡ reading_of name.now (rows_of (found_of found.now)) }
{
    match name {
        "get" => get_request(found),
        "check" => check_request(found),
        "show" => show_request(found),
        "edit" => edit_request(found),
        "verify" => verify_request(found),
        "certify" => certify_request(found),
        _ => None,
    }
}

/// What `get` asks, if at most one form is given.
fn get_request<'a>(found: &ArgMatches<'a>) -> Option<Request<'a>>
    ensures { option_map asked_by result ≡ get_of (rows_of (found_of found.now)) }
{
    let file = word(found, "FILE")?;
    let place = word(found, "PLACE")?;
    let form = form_given(found)?;
    let default = value(found, "default");
    let profile = profile_given(found)?;
    Some(Request::Get {
        file,
        place,
        form,
        default,
        profile,
    })
}

/// The form: at most one may be given.
fn form_given(found: &ArgMatches<'_>) -> Option<Form>
    ensures { result ≡ form_of (rows_of (found_of found.now)) }
{
    chosen(
        is_given(found, "json"),
        is_given(found, "tagged"),
        is_given(found, "toml"),
        is_given(found, "type"),
    )
}

/// The form of the one flag that is set, or plain where none is; two give no form.
fn chosen(json: bool, tagged: bool, toml: bool, kind: bool) -> Option<Form>
    ensures { result ≡ chosen json tagged toml kind }
{
    match (json, tagged, toml, kind) {
        (false, false, false, false) => Some(Form::Plain),
        (true, false, false, false) => Some(Form::Json),
        (false, true, false, false) => Some(Form::Tagged),
        (false, false, true, false) => Some(Form::Toml),
        (false, false, false, true) => Some(Form::TypeName),
        _ => None,
    }
}

/// What `set` asks: a value for a place of a file.
fn set_request<'a>(found: &ArgMatches<'a>) -> Option<Request<'a>>
    ensures { option_map asked_by result ≡ set_of (rows_of (found_of found.now)) }
{
    let value = new_value(found)?;
    let parents = is_given(found, "parents");
    one_request(found, OneEdit::Set { value, parents })
}

/// What `insert` asks: a new member or element at a place of a file.
fn insert_request<'a>(found: &ArgMatches<'a>) -> Option<Request<'a>>
    ensures { option_map asked_by result ≡ insert_of (rows_of (found_of found.now)) }
{
    let value = new_value(found)?;
    let parents = is_given(found, "parents");
    one_request(found, OneEdit::Insert { value, parents })
}

/// What `rename` asks: another name for the member at a place of a file.
fn rename_request<'a>(found: &ArgMatches<'a>) -> Option<Request<'a>>
    ensures { option_map asked_by result ≡ rename_of (rows_of (found_of found.now)) }
{
    let to = value(found, "NAME")?;
    one_request(found, OneEdit::Rename { to })
}

/// What `remove` asks: that what stands at a place of a file goes.
fn remove_request<'a>(found: &ArgMatches<'a>) -> Option<Request<'a>>
    ensures { option_map asked_by result ≡ remove_of (rows_of (found_of found.now)) }
{
    one_request(found, OneEdit::Remove)
}

/// The value, and whether it is the text of a string.
fn new_value<'a>(found: &ArgMatches<'a>) -> Option<NewValue<'a>>
    ensures { option_map asked_value result ≡ new_value_of (rows_of (found_of found.now)) }
{
    let text = value(found, "VALUE")?;
    let is_string = is_given(found, "string");
    Some(NewValue { text, is_string })
}

/// The request of one edit.
fn one_request<'a>(found: &ArgMatches<'a>, edit: OneEdit<'a>) -> Option<Request<'a>>
    ensures { option_map asked_by result ≡ one_of (asked_edit edit.entry) (rows_of (found_of found.now)) }
{
    let file = word(found, "FILE")?;
    let place = word(found, "PLACE")?;
    let destination = destination_given(found, file)?;
    let layout = layout_given(found)?;
    let profile = profile_given(found)?;
    Some(Request::One {
        file,
        place,
        edit,
        destination,
        layout,
        profile,
    })
}

/// Where the edited text goes. Standard input can't be changed in place.
fn destination_given<'a>(found: &ArgMatches<'a>, file: &str) -> Option<Destination<'a>>
    ensures { option_map asked_destination result ≡ destination_of file.now (rows_of (found_of found.now)) }
{
    let in_place = is_given(found, "in-place");
    if in_place && is_input(file) {
        return None;
    }
    let certificate = certificate_given(found)?;
    Some(Destination {
        in_place,
        certificate,
    })
}

/// The path of the certificate, if one is given. None at all where it begins with a hyphen.
fn certificate_given<'a>(found: &ArgMatches<'a>) -> Option<Option<&'a str>>
    ensures { option_map (option_map (λ path. path.now)) result ≡ certificate_of (rows_of (found_of found.now)) }
{
    match first_value(found, "certificate") {
        None => Some(None),
        Some(path) => {
            if is_marked(path) {
                None
            } else {
                Some(Some(path))
            }
        }
    }
}

/// What `apply` asks, if the file and the list of edits are not both standard input.
fn apply_request<'a>(found: &ArgMatches<'a>) -> Option<Request<'a>>
    ensures { option_map asked_by result ≡ apply_of (rows_of (found_of found.now)) }
{
    let file = word(found, "FILE")?;
    let edits = word(found, "EDITS")?;
    let destination = destination_given(found, file)?;
    let layout = layout_given(found)?;
    let profile = profile_given(found)?;
    if are_both_input(file, edits) {
        return None;
    }
    Some(Request::Apply {
        file,
        edits,
        destination,
        layout,
        profile,
    })
}

/// What `validate` asks, if at most one of the files is standard input.
fn validate_request<'a>(
    alloc: Global,
    found: &ArgMatches<'a>,
) -> Result<Option<Request<'a>>, AllocError>
    ensures { IfOk result (λ request. option_map asked_by request ≡ validate_of (rows_of (found_of found.now))) }
{
    let Some(given) = all_values(found, "FILE") else {
        return Ok(None);
    };
    let Some(profile) = profile_given(found) else {
        return Ok(None);
    };
    if inputs(given) > 1 {
        return Ok(None);
    }
    let files = given.to_vec(alloc)?;
    Ok(Some(Request::Validate { files, profile }))
}

/// How many of the paths are standard input.
fn inputs(files: &[&str]) -> usize
    ensures count { result ≡ count_by is_input (texts files.now) }
    ensures few { result ≤ length files.now }
{
    let mut count = 0;
    for (i, file) in files.iter().enumerate() {
        if is_input(file) {
            count += 1;
        }
    }
    count
}

/// What `show` asks: the data of a file, or the list of its addresses.
fn show_request<'a>(found: &ArgMatches<'a>) -> Option<Request<'a>>
    ensures { option_map asked_by result ≡ show_of (rows_of (found_of found.now)) }
{
    let file = first_value(found, "FILE")?;
    let list = is_given(found, "list");
    let explain = is_given(found, "explain");
    let profile = profile_given(found)?;
    Some(Request::Show {
        file,
        list,
        explain,
        profile,
    })
}

/// What `check` asks: whether a file is a TOML document.
fn check_request<'a>(found: &ArgMatches<'a>) -> Option<Request<'a>>
    ensures { option_map asked_by result ≡ check_of (rows_of (found_of found.now)) }
{
    let file = first_value(found, "FILE")?;
    let explain = is_given(found, "explain");
    let profile = profile_given(found)?;
    Some(Request::Check {
        file,
        explain,
        profile,
    })
}

/// What `edit` asks: what edits make of a file, and the certificate which shows it.
fn edit_request<'a>(found: &ArgMatches<'a>) -> Option<Request<'a>>
    ensures { option_map asked_by result ≡ edit_of (rows_of (found_of found.now)) }
{
    let file = first_value(found, "FILE")?;
    let edits = first_value(found, "EDITS")?;
    let out = first_value(found, "OUT")?;
    let cert = first_value(found, "CERT")?;
    let explain = is_given(found, "explain");
    let profile = profile_given(found)?;
    Some(Request::Edit {
        file,
        edits,
        out,
        cert,
        explain,
        profile,
    })
}

/// What `verify` asks: whether a text is what edits make of another, as a certificate has it.
fn verify_request<'a>(found: &ArgMatches<'a>) -> Option<Request<'a>>
    ensures { option_map asked_by result ≡ verify_of (rows_of (found_of found.now)) }
{
    let before = first_value(found, "BEFORE")?;
    let edits = first_value(found, "EDITS")?;
    let after = first_value(found, "AFTER")?;
    let cert = first_value(found, "CERT")?;
    let explain = is_given(found, "explain");
    let profile = profile_given(found)?;
    Some(Request::Verify {
        before,
        edits,
        after,
        cert,
        explain,
        profile,
    })
}

/// What `certify` asks, if at most one of its three inputs is standard input.
fn certify_request<'a>(found: &ArgMatches<'a>) -> Option<Request<'a>>
    ensures { option_map asked_by result ≡ certify_of (rows_of (found_of found.now)) }
{
    let before = first_value(found, "BEFORE")?;
    let edits = first_value(found, "EDITS")?;
    let after = first_value(found, "AFTER")?;
    let cert = first_value(found, "CERT");
    let profile = profile_given(found)?;
    if are_both_input(before, edits)
        || are_both_input(before, after)
        || are_both_input(edits, after)
    {
        return None;
    }
    Some(Request::Certify {
        before,
        edits,
        after,
        cert,
        profile,
    })
}
