//! The reading of a document line by line, and why other bytes are refused.
ghost use Rattle.std.specs.Prelude.{◌≡◌, ◌+◌, ◌<◌, IfErr, IfOk, OnOk};
ghost use Rattle.toml_text.specs.Limit.{IsText};
ghost use Rattle.toml_text.specs.Source.{text_of};
ghost use Rattle.toml_tree.specs.declared.profile.Profile.{Profile};
ghost use Rattle.toml_names.specs.model.Data.{IsDataOf};
ghost use Rattle.toml_names.specs.model.Documents.{IsDocumentIn};
ghost use Rattle.toml_names.specs.mentions.FirstMentions.{first_mentions};
ghost use Rattle.toml_names.specs.mentions.Mentions.{named};
ghost use Rattle.toml_names.specs.reader.Parts.{StandForNames, part_kinds};
ghost use Rattle.toml_delivery.specs.Outcomes.{Ends};
ghost use Rattle.toml_commands.specs.Refusals.{IsRefused};
ghost use Rattle.toml_commands.specs.Reading.{HasNumber, IsGoodTextWith, IsNameEnding, IsReadEnding, IsSyntaxEnding, IsTextRefusal, IsNumbered};

use std::alloc::Global;
use std::mem;
use toml_delivery::{Ending, Refusal};
use toml_names::{Address, NameFault, NamedText, ReadFault, mentions_of_text, names_of_text};
use toml_text::{MAX_LEN, Source, TextFault};
use toml_tree::{Profile, SyntaxFault};

/// The text that the bytes are, or why they are none.
pub fn read_source(file: &[u8]) -> Result<Source<'_>, Ending>
    ensures text { IfOk result (λ source. text_of source ≡ file.now) }
    ensures refused { (profile : Profile) → IfErr result (Ends (IsRefused profile file.now)) }
{
    match Source::new(file) {
        Ok(source) => Ok(source),
        Err(fault) => Err(Ending::Refused(text_refusal(fault))),
    }
}

/// The data of a document of the profile, which are lent part by part, or why the bytes are none.
#[tactic(auto, using(crate::proofs::Judged::no_reading, crate::proofs::Judged::numbered))]
pub fn read_data(alloc: Global, file: &[u8], profile: Profile) -> Result<NamedText<'_>, Ending>
    ensures facts { IfOk result (λ whole. IsGoodTextWith profile file.now (λ lines. IsDataOf (named lines) (part_kinds whole 0))) }
    ensures names { IfOk result (StandForNames profile file.now) }
    ensures refused { IfErr result (Ends (IsRefused profile file.now)) }
{
    let source = read_source(file)?;
    match names_of_text(alloc, source, profile) {
        Ok(whole) => Ok(whole),
        Err(fault) => Err(read_ending(fault)),
    }
}

/// Whether the bytes are a document of the profile, and else why not. What they name stays in memory: the program ends with the
/// answer, and then all of it goes at once.
pub fn judge(alloc: Global, file: &[u8], profile: Profile) -> Result<(), Ending>
    ensures good { OnOk result (IsDocumentIn profile file.now) }
    ensures refused { IfErr result (Ends (IsRefused profile file.now)) }
{
    let whole = read_data(alloc, file, profile)?;
    mem::forget(whole);
    Ok(())
}

/// The addresses that a document of the profile mentions, each once, or why the bytes are none. What they name stays in memory, as
/// in `judge`.
#[tactic(auto, using(crate::proofs::Judged::no_reading, crate::proofs::Judged::numbered))]
pub fn read_mentions(alloc: Global, file: &[u8], profile: Profile) -> Result<Vec<Address>, Ending>
    ensures firsts { IfOk result (λ list. IsGoodTextWith profile file.now (λ lines. list.items ≡ first_mentions (named lines))) }
    ensures refused { IfErr result (Ends (IsRefused profile file.now)) }
{
    let source = read_source(file)?;
    match mentions_of_text(alloc, source, profile) {
        Ok((list, whole)) => {
            mem::forget(whole);
            Ok(list)
        }
        Err(fault) => Err(read_ending(fault)),
    }
}

/// What a fault of the reading comes to.
fn read_ending(fault: ReadFault) -> Ending
    requires { IsNumbered fault }
    ensures { IsReadEnding fault result }
{
    match fault {
        ReadFault::Syntax(fault) => syntax_ending(fault),
        ReadFault::Names(fault) => name_ending(fault),
    }
}

/// What a fault of the names comes to.
pub fn name_ending(fault: NameFault) -> Ending
    requires { HasNumber fault }
    ensures { IsNameEnding fault result }
{
    match fault {
        NameFault::Redefined { line, .. } => Ending::Refused(line_refusal(201, line)),
        NameFault::LongAddress { line } => Ending::Refused(line_refusal(203, line)),
        NameFault::NoMemory => Ending::NoMemory,
    }
}

/// The refusal of a line, which is counted from 0 here and from 1 in print.
fn line_refusal(code: u16, line: usize) -> Refusal
    requires { line < 9223372036854775807 }
    ensures code { result.code ≡ code }
    ensures place { result.place ≡ line + 1 }
{
    Refusal {
        code,
        place: line + 1,
    }
}

/// The refusal of bytes that are no text.
pub fn text_refusal(fault: TextFault) -> Refusal
    ensures { IsTextRefusal fault result }
{
    match fault {
        TextFault::NotUtf8 { at } => Refusal {
            code: 101,
            place: at,
        },
        TextFault::TooLong => Refusal {
            code: 102,
            place: MAX_LEN,
        },
    }
}

/// What a syntax fault comes to.
pub fn syntax_ending(fault: SyntaxFault) -> Ending
    ensures { IsSyntaxEnding fault result }
{
    let (code, place) = match fault {
        SyntaxFault::BadCharacter { at } => (103, at),
        SyntaxFault::Expected { at } => (104, at),
        SyntaxFault::BadString { at } => (105, at),
        SyntaxFault::BadNumber { at } => (106, at),
        SyntaxFault::IntegerRange { at } => (107, at),
        SyntaxFault::BadDate { at } => (108, at),
        SyntaxFault::TooDeep { at } => (109, at),
        SyntaxFault::NoMemory => return Ending::NoMemory,
    };
    Ending::Refused(Refusal { code, place })
}
