//! What a request comes to, by the bytes of what it reads.
ghost use Rattle.std.specs.Prelude.{◌≡◌, IfOk, map, option_map};
ghost use Rattle.toml_words.specs.Request.{asked_by};
ghost use Rattle.toml_commands.specs.Answering.{AnswersRequest, AnswersOfFile, IsShown, document_at, get_form, list_at, sought, text_layout, words_read};
ghost use Rattle.toml_delivery.specs.Outcomes.{texts_of};

use crate::apply::run_apply_in;
use crate::certify::run_certify_in;
use crate::check::run_check_in;
use crate::edit::run_edit_in;
use crate::get::{GetForm, run_get_in};
use crate::list::run_list_in;
use crate::one::run_one_in;
use crate::show::run_show_in;
use crate::verify::run_verify_in;
use std::alloc::{AllocError, Global};
use toml_delivery::Outcome;
use toml_print::Form as Printed;
use toml_text::MAX_LEN;
use toml_tree::Profile;
use toml_words::{Form, Layout, Request};

/// One byte more than the longest document has, so that a longer file shows.
pub const MOST: usize = MAX_LEN + 1;

/// Something that a request reads.
#[derive(Clone, Copy)]
pub struct Source<'a> {
    /// Its word.
    pub word: &'a str,
    /// How many of its bytes are read at most.
    pub limit: usize,
    /// Whether `-` is standard input, and no file of that name.
    pub may_be_input: bool,
}

/// What the request reads, in the order of its words. Of `validate`, which reads one file after the other, nothing.
pub fn sources<'a>(alloc: Global, request: &Request<'a>) -> Result<Vec<Source<'a>>, AllocError>
    ensures { IfOk result (λ list. map sought list.items ≡ words_read (asked_by request.now)) }
{
    Ok(match *request {
        Request::Show { file, .. } | Request::Check { file, .. } => {
            vec![in alloc; document(file, false)]?
        }
        Request::Get { file, .. } | Request::One { file, .. } => {
            vec![in alloc; document(file, true)]?
        }
        Request::Edit { file, edits, .. } => {
            vec![in alloc; document(file, false), list(edits, false)]?
        }
        Request::Apply { file, edits, .. } => {
            vec![in alloc; document(file, true), list(edits, true)]?
        }
        Request::Verify {
            before,
            edits,
            after,
            cert,
            ..
        } => {
            vec![in alloc;
                document(before, false),
                list(edits, false),
                document(after, false),
                list(cert, false),
            ]?
        }
        Request::Certify {
            before,
            edits,
            after,
            ..
        } => vec![in alloc;
            document(before, true),
            list(edits, true),
            document(after, true),
        ]?,
        Request::Validate { .. } => Vec::new(alloc),
    })
}

/// A document: a longer one is refused for its length.
fn document<'a>(word: &'a str, may_be_input: bool) -> Source<'a>
    ensures { sought result ≡ document_at may_be_input word.entry.now }
{
    Source {
        word,
        limit: MOST,
        may_be_input,
    }
}

/// An edit list or a certificate, which may be as long as it is.
fn list<'a>(word: &'a str, may_be_input: bool) -> Source<'a>
    ensures { sought result ≡ list_at may_be_input word.entry.now }
{
    Source {
        word,
        limit: usize::MAX,
        may_be_input,
    }
}

/// What the request comes to, of which these are the bytes of what it reads, in the order of its words. None where they are more or
/// fewer than its words, as of `validate`.
pub fn answer(
    alloc: Global,
    request: &Request<'_>,
    inputs: &[Vec<u8>],
) -> Result<Option<Outcome>, AllocError>
    ensures { IfOk result (AnswersRequest (asked_by request.now) (texts_of inputs.now)) }
{
    match *request {
        Request::Apply {
            layout,
            profile,
            ..
        } => {
            let [file, edits] = inputs else {
                return Ok(None);
            };
            Ok(Some(run_apply_in(alloc, file, edits, profile, text_layout(layout))?))
        }
        Request::Edit { profile, .. } => {
            let [file, edits] = inputs else {
                return Ok(None);
            };
            Ok(Some(run_edit_in(alloc, file, edits, profile)?))
        }
        Request::Verify { profile, .. } => {
            let [before, edits, after, cert] = inputs else {
                return Ok(None);
            };
            Ok(Some(run_verify_in(alloc, before, edits, after, cert, profile)?))
        }
        Request::Certify { profile, .. } => {
            let [before, edits, after] = inputs else {
                return Ok(None);
            };
            Ok(Some(run_certify_in(alloc, before, edits, after, profile)?))
        }
        _ => {
            let [file] = inputs else {
                return Ok(None);
            };
            answer_of_file(alloc, request, file)
        }
    }
}

/// The outcome of a request that reads one file.
fn answer_of_file(
    alloc: Global,
    request: &Request<'_>,
    file: &[u8],
) -> Result<Option<Outcome>, AllocError>
    ensures { IfOk result (AnswersOfFile (asked_by request.now) file.now) }
{
    match *request {
        Request::Show { list, profile, .. } => {
            Ok(Some(show_or_list(alloc, file, list, profile)?))
        }
        Request::Check { profile, .. } => Ok(Some(run_check_in(alloc, file, profile)?)),
        Request::Get {
            place,
            form,
            default,
            profile,
            ..
        } => {
            let (place, default) = (place.as_bytes(), bytes_of(default));
            Ok(Some(run_get_in(alloc, file, place, get_form(form), default, profile)?))
        }
        Request::One {
            place,
            edit,
            layout,
            profile,
            ..
        } => {
            let (place, layout) = (place.as_bytes(), text_layout(layout));
            Ok(Some(run_one_in(alloc, file, place, edit, profile, layout)?))
        }
        _ => Ok(None),
    }
}

/// What `show` comes to, by whether the addresses are listed.
fn show_or_list(
    alloc: Global,
    file: &[u8],
    list: bool,
    profile: Profile,
) -> Result<Outcome, AllocError>
    ensures { IfOk result (IsShown list profile file.now) }
{
    if list {
        run_list_in(alloc, file, profile)
    } else {
        run_show_in(alloc, file, profile)
    }
}

/// The bytes of a text, if there is one.
fn bytes_of<'a>(text: Option<&'a str>) -> Option<&'a [u8]>
    ensures { option_map (λ bytes. bytes.now) result ≡ option_map (λ text. text.now) text.entry }
{
    Some(text?.as_bytes())
}

/// How the editor lays new text out.
fn text_layout(layout: Layout) -> toml_editor::Layout
    ensures { result ≡ text_layout layout }
{
    match layout {
        Layout::Plain => toml_editor::Layout::Plain,
        Layout::Follow => toml_editor::Layout::Follow,
    }
}

/// How `get` prints in this form.
fn get_form(form: Form) -> GetForm
    ensures { result ≡ get_form form }
{
    match form {
        Form::Plain => GetForm::Printed(Printed::Plain),
        Form::Json => GetForm::Printed(Printed::Json),
        Form::Tagged => GetForm::Printed(Printed::Tagged),
        Form::TypeName => GetForm::Printed(Printed::TypeName),
        Form::Toml => GetForm::Toml,
    }
}
