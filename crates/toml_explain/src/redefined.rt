//! Names that are defined twice (201), and addresses that are too long (203).
ghost use Rattle.std.specs.Prelude.{◌≡◌, ◌≤◌, ◌-◌, IfOk, max, min, string_bytes};
ghost use Rattle.toml_explain.specs.Documents.{EndsInFound, OpensAtKey, OpensAtOffence, OpensInLine, ShowsClash, ShowsKey};
ghost use Rattle.toml_explain.specs.Excerpts.{EndsInLine, ShowsBoth};
ghost use Rattle.toml_explain.specs.Openings.{OpensInFile};

use crate::excerpt::{Excerpt, line_number};
use crate::input::Input;
use crate::opening::opened;
use crate::place::shown_place;
use crate::rule::rule;
use crate::spans::spans_at;
use crate::words::{with_line, with_lines};
use std::alloc::{AllocError, Global};
use toml_mentions::{Clash, Redefined, find_redefined};
use toml_places::spell_place;
use toml_text::Span;
use toml_tree::Profile;

/// Why a line is refused whose address has too many steps (203): its key is shown. Lines are counted from 1.
pub(crate) fn explain_long(
    alloc: Global,
    file: Input<'_>,
    profile: Profile,
    line: usize,
) -> Result<String, AllocError>
    ensures file { IfOk result (λ text. OpensInFile file.entry.word.now file.entry.bytes.now (string_bytes text)) }
    ensures key { IfOk result (λ text. OpensAtKey profile file.entry.word.now file.entry.bytes.now (line - 1) (string_bytes text)) }
    ensures below { IfOk result (λ text. ShowsKey profile file.entry.bytes.now (line - 1) (string_bytes text)) }
{
    let spans = spans_at(alloc, file.bytes, profile, line.saturating_sub(1))?;
    let lines = long_lines(alloc, file.bytes, spans.key)?;
    opened(alloc, file, spans.key.start, lines.as_str())
}

/// The sentence of an address of too many steps, and the line of its key.
fn long_lines(alloc: Global, bytes: &[u8], key: Span) -> Result<String, AllocError>
    ensures { IfOk result (λ text. EndsInLine bytes.now key.start (string_bytes text)) }
{
    let sentence = "an address has at most 100 steps, and this line makes a longer one";
    with_line(alloc, String::from_str(alloc, sentence)?, bytes, key)
}

/// The place nearest to another, from the start of a span up to its end.
fn held(place: usize, span: Span) -> usize
    ensures { result ≡ max (min place span.end) span.start }
{
    place.min(span.end).max(span.start)
}

/// The sentence of what is defined twice: its address, and the rule.
fn redefined_sentence(
    alloc: Global,
    redefined: &Redefined,
    clash: Clash,
) -> Result<String, AllocError> {
    let rule = rule(clash.first.role, clash.again.role);
    match spell_place(alloc, &redefined.address)? {
        Some(address) if address.len() <= LONGEST => {
            let shown = shown_place(alloc, address.as_str())?;
            format!(in alloc; "{} {rule}", shown.as_str())
        }
        _ => format!(in alloc; "this {rule}"),
    }
}

/// How many bytes of an address stand in a sentence at most.
const LONGEST: usize = 80;

/// What is said of the first mention.
const FIRST: &str = "first defined here";

/// The line of the mention that may not be, and that of the earliest mention that forbids it.
fn clash_lines(alloc: Global, bytes: &[u8], clash: Clash) -> Result<Excerpt, AllocError>
    ensures { IfOk result (λ e. ShowsBoth bytes.now clash.first.span.start clash.again.span.start (string_bytes e.text)) }
{
    let (first, again) = (clash.first.span, clash.again.span);
    let number = line_number(bytes, again.start);
    let mut excerpt = Excerpt::new(alloc, number);
    excerpt.push_line(bytes, again, "")?;
    if line_number(bytes, first.start) == number {
        excerpt.push_more(bytes, first, FIRST)?;
        return Ok(excerpt);
    }
    excerpt.push_line(bytes, first, FIRST)?;
    Ok(excerpt)
}

/// The sentence and the lines of what is defined twice in a line, or the line alone where nothing is.
fn redefined_lines(
    alloc: Global,
    bytes: &[u8],
    redefined: &Option<Redefined>,
    line: Span,
) -> Result<String, AllocError>
    ensures { IfOk result (λ text. EndsInFound bytes.now redefined.now (string_bytes text)) }
{
    let Some(twice) = redefined else {
        return line_alone(alloc, bytes, line);
    };
    let Some(clash) = twice.clash else {
        return line_alone(alloc, bytes, line);
    };
    let sentence = redefined_sentence(alloc, twice, clash)?;
    with_lines(sentence, clash_lines(alloc, bytes, clash)?)
}

/// What is said of a line in which something is defined twice, wherever that is.
fn line_alone(alloc: Global, bytes: &[u8], line: Span) -> Result<String, AllocError>
    ensures { IfOk result (λ text. EndsInLine bytes.now line.start (string_bytes text)) }
{
    let sentence = String::from_str(alloc, "a name in this line is defined already")?;
    with_line(alloc, sentence, bytes, line)
}

/// Why a line is refused that breaks the table rules (201): the key part whose mention does is shown, and the earliest mention that
/// forbids it. Lines are counted from 1.
pub(crate) fn explain_redefined(
    alloc: Global,
    file: Input<'_>,
    profile: Profile,
    line: usize,
) -> Result<String, AllocError>
    ensures file { IfOk result (λ text. OpensInFile file.entry.word.now file.entry.bytes.now (string_bytes text)) }
    ensures line { IfOk result (λ text. OpensInLine profile file.entry.word.now file.entry.bytes.now (line - 1) (string_bytes text)) }
    ensures offence { IfOk result (λ text. OpensAtOffence profile file.entry.word.now file.entry.bytes.now (line - 1) (string_bytes text)) }
    ensures clash { IfOk result (λ text. ShowsClash profile file.entry.bytes.now (line - 1) (string_bytes text)) }
{
    let spans = spans_at(alloc, file.bytes, profile, line.saturating_sub(1))?;
    let redefined = find_redefined(alloc, file.bytes, profile)?;
    let again = Redefined::again_start(&redefined).unwrap_or(spans.key.start);
    let at = held(again, spans.whole);
    let lines = redefined_lines(alloc, file.bytes, &redefined, spans.whole)?;
    opened(alloc, file, at, lines.as_str())
}
