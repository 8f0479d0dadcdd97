//! That no line and no comment is added unasked.
ghost use Rattle.std.specs.Prelude.{◌≡◌, ◌↔◌, ◌∷◌, ◌++◌, [], ℕ, List, IsTrue, IfOk, OnOk};
ghost use Rattle.toml_units.specs.Places.{is_line};
ghost use Rattle.toml_units.specs.View.{unit as span_of};
ghost use Rattle.toml_checker.specs.Added.{AddsText, AreAllowedWith, HasAdded, IsLineAsked, met_of};
ghost use Rattle.toml_checker.specs.CarriedTo.{At};
ghost use Rattle.toml_checker.specs.Debts.{IsAsked, IsCovered};
ghost use Rattle.toml_checker.specs.UnmarkedComments.{text_at};
ghost use Rattle.toml_checker.specs.Traces.{Met};
ghost use Rattle.toml_checker.specs.Walking.{AddsNoComments};
ghost use Rattle.toml_checker.specs.WrittenComments.{IsAllowed};

use crate::counting::no_more;
use crate::debts::Debts;
use crate::marks::{reach_with, reaches};
use crate::pairs::has_no_bytes;
use crate::unmarked::{is_unmarked, text_at};
use crate::written::{Written, all_texts, any_writes};
use std::alloc::{AllocError, Global};
use toml_names::Address;
use toml_units::{Unit, UnitKind};

/// What edits ask for: what they owe, the comments that they write, and whether there are any.
#[derive(Drop)]
pub(crate) struct Asked<'e> {
    pub(crate) debts: Debts,
    pub(crate) written: Vec<Written<'e>>,
    pub(crate) edited: bool,
}

/// Whether the unit is a line.
fn is_line(unit: &Unit) -> bool
    ensures { result ≡ is_line unit.now.kind }
{
    matches!(unit.kind, UnitKind::Line)
}

/// Whether a debt covers the address, if there is one.
fn is_owed(debts: &Debts, at: &Option<Address>) -> bool
    ensures { IsTrue result ↔ At at.now (IsCovered debts.now) }
{
    match at {
        Some(address) => debts.cover(address),
        None => false,
    }
}

/// Whether the line is paired, or owed, or the last one and of no bytes.
fn is_asked(line: &Unit, paired: bool, last: bool, debts: &Debts) -> bool
    ensures { IsTrue result ↔ IsAsked debts.now paired last (span_of line.now) }
{
    paired || is_owed(debts, &line.address) || (last && line.span.start == line.span.end)
}

/// Whether the unit, if it is a line, is asked for. Only the last line of a text has no newline.
fn is_line_asked(asked: &Asked, unit: &Unit, newline: &str, paired: bool) -> bool
    ensures { IsTrue result ↔ IsLineAsked asked.now (met_of unit.now newline.now paired) }
{
    if !is_line(unit) {
        return true;
    }
    let last = asked.edited && has_no_bytes(newline);
    is_asked(unit, paired, last, &asked.debts)
}

/// Whether all lines are asked for behind one unit more: once one is not, no other is looked at.
fn are_asked_with(so_far: bool, asked: &Asked, unit: &Unit, newline: &str, paired: bool) -> bool
    ensures { IsTrue result ↔ (IsTrue so_far × IsLineAsked asked.now (met_of unit.now newline.now paired)) }
{
    so_far && is_line_asked(asked, unit, newline, paired)
}

/// Whether the unit is a comment of an array or an inline table that one of the edits writes.
fn is_allowed(written: &[Written], text: &[u8], comment: &Unit) -> bool
    ensures { IsTrue result ↔ IsAllowed written.now text.now (span_of comment.now) }
{
    matches!(comment.kind, UnitKind::InnerComment)
        && any_writes(written, &comment.address, text_at(text, comment))
}

/// What was found of the units of the second text that were walked past.
#[derive(Drop)]
pub(crate) struct Added<'t> {
    /// Whether each line was asked for.
    pub(crate) lines: bool,
    /// The furthest end of paired units.
    reach: Option<usize>,
    /// Whether each new comment is one that an edit writes: new is a comment that is not paired and lies in no paired unit.
    allowed: bool,
    /// The texts of the new comments.
    texts: Vec<&'t [u8]>,
}

impl<'t> Added<'t> {
    /// Nothing was walked past.
    pub(crate) fn none(alloc: Global) -> Added<'t>
        ensures { (asked : Asked) (text : List ℕ) → HasAdded asked text [] result }
    {
        Added {
            lines: true,
            reach: None,
            allowed: true,
            texts: Vec::new(alloc),
        }
    }

    /// Walks past one unit more, whose line has the newline.
    pub(crate) fn add(
        &mut self,
        asked: &Asked,
        text: &'t [u8],
        unit: &Unit,
        newline: &str,
        paired: bool,
    ) -> Result<(), AllocError>
        ensures { (ms : List Met) → HasAdded asked.now text.now ms self.old
            → OnOk result (HasAdded asked.now text.now (ms ++ met_of unit.now newline.now paired ∷ []) self.new) }
    {
        self.lines = are_asked_with(self.lines, asked, unit, newline, paired);
        let end = unit.span.end;
        self.reach = reach_with(self.reach, paired, end);
        if is_unmarked(unit, reaches(self.reach, end)) {
            self.add_comment(asked, text, unit)?;
        }
        Ok(())
    }

    /// Adds a new comment.
    fn add_comment(
        &mut self,
        asked: &Asked,
        text: &'t [u8],
        comment: &Unit,
    ) -> Result<(), AllocError>
        ensures lines { self.new.lines ≡ self.old.lines }
        ensures reach { self.new.reach ≡ self.old.reach }
        ensures allowed { AreAllowedWith asked.now text.now (span_of comment.now) self.old self.new }
        ensures texts { OnOk result (AddsText (text_at text.now (span_of comment.now)) self.old self.new) }
    {
        self.allowed = self.allowed && is_allowed(&asked.written, text, comment);
        self.texts.push(text_at(text, comment))?;
        Ok(())
    }

    /// Whether each new comment is one that an edit writes, and no text stands more often among them than in what edits write.
    pub(crate) fn adds_no_comments(self, alloc: Global, asked: &Asked) -> Result<bool, AllocError>
        ensures { IfOk result (λ holds. IsTrue holds ↔ AddsNoComments asked.now self.entry) }
    {
        if !self.allowed {
            return Ok(false);
        }
        let given = all_texts(alloc, &asked.written)?;
        no_more(alloc, &self.texts, &given)
    }
}
