//! What the parser's matches have for one argument.
ghost use Rattle.std.specs.Prelude.{◌≡◌, option_map};
ghost use Rattle.clap.specs.Walk.{texts};
ghost use Rattle.clap.specs.Words.{all_of, first_of, found_of, rows_of};
ghost use Rattle.toml_words.specs.Request.{are_both_input, is_given, is_input, layout_of, profile_of, value_of, word_of};

use crate::marking::{is_marked, unmarked};
use crate::request::{Layout, STANDARD_INPUT};
use clap::ArgMatches;
use toml_tree::Profile;

/// Whether both paths are standard input, which is read but once.
pub(crate) fn are_both_input(one: &str, other: &str) -> bool
    ensures { result ≡ are_both_input one.now other.now }
{
    is_input(one) && is_input(other)
}

/// Whether a word is that for standard input.
pub fn is_input(path: &str) -> bool
    ensures { result ≡ is_input path.now }
{
    path == STANDARD_INPUT
}

/// The profile: the parser answers `1` where the option is not given, and lets no other text than the two through.
pub(crate) fn profile_given(found: &ArgMatches<'_>) -> Option<Profile>
    ensures { result ≡ profile_of (rows_of (found_of found.now)) }
{
    match first_value(found, "profile")? {
        "1" => Some(Profile::One),
        "2" => Some(Profile::Two),
        _ => None,
    }
}

/// The layout: the parser answers `follow` where the option is not given, and lets no other text than the two through.
pub(crate) fn layout_given(found: &ArgMatches<'_>) -> Option<Layout>
    ensures { result ≡ layout_of (rows_of (found_of found.now)) }
{
    match first_value(found, "layout")? {
        "plain" => Some(Layout::Plain),
        "follow" => Some(Layout::Follow),
        _ => None,
    }
}

/// Whether the flag was given: the parser answers `true` or `false` for it.
pub(crate) fn is_given(found: &ArgMatches<'_>, flag: &str) -> bool
    ensures { result ≡ is_given flag.now (rows_of (found_of found.now)) }
{
    match first_value(found, flag) {
        Some(text) => text == "true",
        None => false,
    }
}

/// A word that is no value, so it may not be marked.
pub(crate) fn word<'a>(found: &ArgMatches<'a>, argument: &str) -> Option<&'a str>
    ensures { option_map (λ word. word.now) result ≡ word_of argument.now (rows_of (found_of found.now)) }
{
    let word = first_value(found, argument)?;
    if is_marked(word) {
        return None;
    }
    Some(word)
}

/// A value, without its mark.
pub(crate) fn value<'a>(found: &ArgMatches<'a>, argument: &str) -> Option<&'a str>
    ensures { option_map (λ value. value.now) result ≡ value_of argument.now (rows_of (found_of found.now)) }
{
    let word = first_value(found, argument)?;
    Some(unmarked(word))
}

/// The first value of an argument.
pub(crate) fn first_value<'a>(found: &ArgMatches<'a>, argument: &str) -> Option<&'a str>
    ensures { option_map (λ value. value.now) result
        ≡ first_of argument.now (rows_of (found_of found.now)) }
{
    found.get_str(argument)
}

/// All values of an argument.
pub(crate) fn all_values<'m, 'a>(found: &'m ArgMatches<'a>, argument: &str) -> Option<&'m [&'a str]>
    ensures { option_map (λ values. texts values.now) result
        ≡ all_of argument.now (rows_of (found_of found.entry.now)) }
{
    found.get_strs(argument)
}
