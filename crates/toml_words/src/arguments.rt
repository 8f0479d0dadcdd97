//! The arguments of commands, and how `clap` is told them.
ghost use Rattle.std.specs.Prelude.{◌≡◌, IfOk, false, map};
ghost use Rattle.clap.specs.Words.{rule_of};
ghost use Rattle.toml_words.specs.CommandLine.{AreLocal, flag, in_place, layout, named_argument, optional_argument, option, profile, required_argument, rule_in, several_arguments};

use clap::{Arg, ArgAction};
use std::alloc::{AllocError, Global};

/// An argument of a command: its name first and its help last, where these are its own.
pub(crate) enum Argument<'a> {
    /// A word that has to be given.
    Required(&'a str, &'a str),
    /// A word that may be left out, behind those that may not.
    Optional(&'a str, &'a str),
    /// One word or more, behind all others.
    Several(&'a str, &'a str),
    /// `--NAME`, which is given or not.
    Flag(&'a str, &'a str),
    /// `--NAME VALUE`; between its name and its help stands what that calls the value.
    Valued(&'a str, &'a str, &'a str),
    /// `-i` or `--in-place`.
    InPlace,
    /// `--layout L`: how new text is laid out, as its neighbours are where it is not given.
    Layout,
    /// `--profile N`: which texts are TOML, 1 where it is not given.
    Profile,
}

/// The words that the options of the profile and the layout allow.
#[derive(Clone, Copy)]
pub(crate) struct Allowed<'a> {
    pub(crate) profiles: &'a [&'a str],
    pub(crate) layouts: &'a [&'a str],
}

/// These arguments, in their order.
pub(crate) fn args<'a>(
    alloc: Global,
    rows: &'a [Argument<'a>],
    allowed: Allowed<'a>,
) -> Result<Vec<Arg<'a>>, AllocError>
    ensures rules { IfOk result (λ list. map rule_of list.items ≡ map (rule_in allowed.entry.profiles allowed.entry.layouts) rows.entry.now) }
    ensures local { IfOk result (λ list. AreLocal list.items) }
{
    let mut list = Vec::with_capacity(alloc, rows.len())?;
    for row in rows {
        list.push(arg(alloc, row, allowed))?;
    }
    Ok(list)
}

/// One argument.
fn arg<'a>(alloc: Global, row: &Argument<'a>, allowed: Allowed<'a>) -> Arg<'a>
    ensures rule { rule_of result ≡ rule_in allowed.entry.profiles allowed.entry.layouts row.now }
    ensures local { result.global ≡ false }
{
    match *row {
        Argument::Required(name, help) => required(alloc, name, help),
        Argument::Optional(name, help) => optional(alloc, name, help),
        Argument::Several(name, help) => several(alloc, name, help),
        Argument::Flag(name, help) => flag(alloc, name, help),
        Argument::Valued(name, value, help) => option(alloc, name, value, help),
        Argument::InPlace => in_place(alloc),
        Argument::Layout => layout(alloc, allowed.layouts),
        Argument::Profile => profile(alloc, allowed.profiles),
    }
}

/// A word that may be left out.
fn optional<'a>(alloc: Global, name: &'a str, help: &'a str) -> Arg<'a>
    ensures rule { rule_of result ≡ optional_argument name.entry.now }
    ensures local { result.global ≡ false }
{
    Arg::new(alloc, name).help(help)
}

/// A word that has to be given.
fn required<'a>(alloc: Global, name: &'a str, help: &'a str) -> Arg<'a>
    ensures rule { rule_of result ≡ required_argument name.entry.now }
    ensures local { result.global ≡ false }
{
    optional(alloc, name, help).required(true)
}

/// One word or more.
fn several<'a>(alloc: Global, name: &'a str, help: &'a str) -> Arg<'a>
    ensures rule { rule_of result ≡ several_arguments name.entry.now }
    ensures local { result.global ≡ false }
{
    required(alloc, name, help).num_args(1..)
}

/// What is told by `--NAME`.
fn named<'a>(alloc: Global, name: &'a str, help: &'a str) -> Arg<'a>
    ensures rule { rule_of result ≡ named_argument name.entry.now }
    ensures local { result.global ≡ false }
{
    optional(alloc, name, help).long(name)
}

/// `--NAME`, which is given or not.
fn flag<'a>(alloc: Global, name: &'a str, help: &'a str) -> Arg<'a>
    ensures rule { rule_of result ≡ flag name.entry.now }
    ensures local { result.global ≡ false }
{
    named(alloc, name, help).action(ArgAction::SetTrue)
}

/// `-i` or `--in-place`.
fn in_place<'a>(alloc: Global) -> Arg<'a>
    ensures rule { rule_of result ≡ in_place }
    ensures local { result.global ≡ false }
{
    let help = "Write the edited text to FILE, and print nothing";
    flag(alloc, "in-place", help).short('i')
}

/// `--NAME VALUE`.
fn option<'a>(alloc: Global, name: &'a str, value: &'a str, help: &'a str) -> Arg<'a>
    ensures rule { rule_of result ≡ option name.entry.now }
    ensures local { result.global ≡ false }
{
    named(alloc, name, help).value_name(value)
}

/// `--layout L`.
fn layout<'a>(alloc: Global, layouts: &'a [&'a str]) -> Arg<'a>
    ensures rule { rule_of result ≡ layout layouts.entry }
    ensures local { result.global ≡ false }
{
    let help = "follow writes new text as its neighbours are written; plain always in one way";
    option(alloc, "layout", "LAYOUT", help)
        .default_value("follow")
        .value_parser(layouts)
}

/// `--profile N`.
fn profile<'a>(alloc: Global, profiles: &'a [&'a str]) -> Arg<'a>
    ensures rule { rule_of result ≡ profile profiles.entry }
    ensures local { result.global ≡ false }
{
    let help =
        "1 is TOML 1.0; in 2 an inline table may stand on several lines, with comments and a last comma";
    option(alloc, "profile", "N", help)
        .default_value("1")
        .value_parser(profiles)
}
