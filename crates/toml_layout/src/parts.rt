//! The parts of gaps: whitespace, newlines and comments.
ghost use Rattle.std.specs.Prelude.{◌≡◌, ◌++◌, IfOk, IfSome, MatchOption, OnOk, drop, false, slice_range, take};
ghost use Rattle.std.specs.Str.{IsCharBoundary};
ghost use Rattle.toml_text.specs.Source.{text_of};
ghost use Rattle.toml_layout.specs.Gaps.{SplitsFirst, SplitsLast, are_blank, are_ws, begins_line, is_comment, is_newline, is_ws, trimmed, without_ws};
ghost use Rattle.toml_layout.specs.OpenOutlines.{leaf_text};
ghost use Rattle.toml_layout.specs.PartOutlines.{AddsLines, AddsParted, IsParted, outlined, part};
ghost use Rattle.toml_layout.specs.Parts.{behind_first, first_part};

use crate::texts::Texts;
use crate::tree::{Gap, GapPart, Leaf};
use std::alloc::AllocError;
use toml_text::{Span, newline_len, unmarked_len, ws_len};

impl<'t> Texts<'t> {
    /// The gap in parts that are whitespace, a newline or a comment each.
    pub(crate) fn parted(self, gap: &Gap<'t>) -> Result<Gap<'t>, AllocError>
        ensures { IfOk result (λ g. IsParted gap.now.parts.items g.parts.items) }
    {
        let mut parted = Gap::empty(self.alloc);
        for part in &gap.parts {
            parted.add_parted(*part)?;
        }
        Ok(parted)
    }

    /// What stands in the document between these places, if anything does.
    pub fn kept(self, start: usize, end: usize) -> Option<Leaf<'t>>
        ensures { let text = text_of self.entry.source in IfSome result (λ l. leaf_text l ≡ slice_range text start end) }
    {
        let span = Span { start, end };
        if start == end || !self.source.holds(span) {
            return None;
        }
        let text = self.source.slice(span);
        Some(Leaf::Kept { start, text })
    }
}

impl<'t> Leaf<'t> {
    /// Its text, written anew.
    pub(crate) fn anew(self) -> Leaf<'t>
        ensures { leaf_text result ≡ leaf_text self.entry }
    {
        Leaf::New(self.text())
    }

    /// Its text cut in two.
    fn split(self, at: usize) -> (Leaf<'t>, Leaf<'t>)
        requires { IsCharBoundary (leaf_text self) at }
        ensures front { leaf_text result.0 ≡ take at (leaf_text self.entry) }
        ensures behind { leaf_text result.1 ≡ drop at (leaf_text self.entry) }
    {
        let (front, behind) = self.text().split_at(at);
        match self {
            Leaf::Kept { start, .. } => (
                Leaf::Kept { start, text: front },
                Leaf::Kept {
                    start: start.saturating_add(at),
                    text: behind,
                },
            ),
            Leaf::New(_) => (Leaf::New(front), Leaf::New(behind)),
        }
    }

    /// The first part of lines, and what stands behind it.
    fn first_part(self) -> (GapPart<'t>, Leaf<'t>)
        ensures front { part result.0 ≡ first_part (leaf_text self.entry) }
        ensures behind { leaf_text result.1 ≡ behind_first (leaf_text self.entry) }
    {
        let text = self.text();
        let ws = ws_len(text.as_bytes());
        if ws > 0 {
            let (own, behind) = self.split(ws);
            return (GapPart::Ws(own), behind);
        }
        let newline = newline_len(text.as_bytes());
        if newline > 0 {
            let (own, behind) = self.split(newline);
            return (GapPart::Newline(own), behind);
        }
        let comment = unmarked_len(text.as_bytes(), b'\n', b'\n');
        let (own, behind) = self.split(if comment > 0 { comment } else { text.len() });
        (GapPart::Comment(own), behind)
    }
}

impl<'t> GapPart<'t> {
    /// Whether it is whitespace.
    pub(crate) fn is_ws(self) -> bool
        ensures { result ≡ is_ws self.entry }
    {
        match self {
            GapPart::Ws(_) => true,
            GapPart::Comment(_) | GapPart::Newline(_) | GapPart::Lines(_) => false,
        }
    }

    /// Whether it is a newline.
    fn is_newline(self) -> bool
        ensures { result ≡ is_newline self.entry }
    {
        match self {
            GapPart::Newline(_) => true,
            GapPart::Ws(_) | GapPart::Comment(_) | GapPart::Lines(_) => false,
        }
    }

    /// Whether it is a comment.
    pub(crate) fn is_comment(self) -> bool
        ensures { result ≡ is_comment self.entry }
    {
        match self {
            GapPart::Comment(_) => true,
            GapPart::Ws(_) | GapPart::Newline(_) | GapPart::Lines(_) => false,
        }
    }

    /// This part, written anew.
    pub(crate) fn anew(self) -> GapPart<'t>
        ensures { part result ≡ part self.entry }
    {
        match self {
            GapPart::Ws(leaf) => GapPart::Ws(leaf.anew()),
            GapPart::Comment(leaf) => GapPart::Comment(leaf.anew()),
            GapPart::Newline(leaf) => GapPart::Newline(leaf.anew()),
            GapPart::Lines(leaf) => GapPart::Lines(leaf.anew()),
        }
    }
}

impl<'t> Gap<'t> {
    /// Puts these parts behind it.
    pub(crate) fn add(&mut self, parts: &[GapPart<'t>]) -> Result<(), AllocError>
        ensures { OnOk result (self.new.parts.items ≡ self.old.parts.items ++ parts.now) }
    {
        self.parts.extend_from_slice(parts)
    }

    /// Puts a part behind it, and in place of lines their parts.
    fn add_parted(&mut self, part: GapPart<'t>) -> Result<(), AllocError>
        ensures { OnOk result (AddsParted part.entry self.old.parts.items self.new.parts.items) }
    {
        match part {
            GapPart::Lines(lines) => self.add_lines(lines),
            other => {
                self.parts.push(other)?;
                Ok(())
            }
        }
    }

    /// Puts the parts of lines behind it.
    fn add_lines(&mut self, lines: Leaf<'t>) -> Result<(), AllocError>
        ensures { OnOk result (AddsLines (leaf_text lines.entry) self.old.parts.items self.new.parts.items) }
    {
        let mut rest = lines;
        while !rest.is_empty() {
            let (part, behind) = rest.first_part();
            self.parts.push(part)?;
            rest = behind;
        }
        Ok(())
    }

    /// Puts the same parts behind it, written anew.
    pub(crate) fn add_anew(&mut self, parts: &[GapPart<'t>]) -> Result<(), AllocError>
        ensures { OnOk result (outlined self.new.parts.items ≡ outlined self.old.parts.items ++ outlined parts.now) }
    {
        for part in parts {
            self.parts.push(part.anew())?;
        }
        Ok(())
    }
}

/// Whether only whitespace stands there.
pub(crate) fn are_ws(parts: &[GapPart<'_>]) -> bool
    ensures { result ≡ are_ws parts.now }
{
    for part in parts {
        if !part.is_ws() {
            return false;
        }
    }
    true
}

/// Whether only whitespace and newlines stand there.
pub(crate) fn are_blank(parts: &[GapPart<'_>]) -> bool
    ensures { result ≡ are_blank parts.now }
{
    for part in parts {
        if !part.is_ws() && !part.is_newline() {
            return false;
        }
    }
    true
}

/// Whether a newline stands there: what comes behind begins a line.
pub(crate) fn begins_line(parts: &[GapPart<'_>]) -> bool
    ensures { result ≡ begins_line parts.now }
{
    for part in parts {
        if part.is_newline() {
            return true;
        }
    }
    false
}

/// The parts without the whitespace in front.
pub(crate) fn without_ws<'a, 't>(parts: &'a [GapPart<'t>]) -> &'a [GapPart<'t>]
    ensures { result.now ≡ without_ws parts.now }
{
    for (index, part) in parts.iter().enumerate() {
        if !part.is_ws() {
            let (_, rest) = parts.split_at(index);
            return rest;
        }
    }
    let (_, none) = parts.split_at(parts.len());
    none
}

/// The parts without the whitespace at their end.
#[tactic(auto, using(crate::proofs::GapParts::trimmed_none, crate::proofs::GapParts::ws_on))]
pub(crate) fn trimmed<'a, 't>(parts: &'a [GapPart<'t>]) -> &'a [GapPart<'t>]
    ensures { result.now ≡ trimmed parts.now }
{
    for index in (0..parts.len()).rev() {
        if !parts[index].is_ws() {
            let (front, _) = parts.split_at(index + 1);
            return front;
        }
    }
    let (none, _) = parts.split_at(0);
    none
}

/// The parts up to the first newline and with it, and those behind; none where there is no newline.
pub(crate) fn past_first_newline<'a, 't>(
    parts: &'a [GapPart<'t>],
) -> Option<(&'a [GapPart<'t>], &'a [GapPart<'t>])>
    ensures { MatchOption result (begins_line parts.now ≡ false) (λ s. SplitsFirst parts.now s.0.now s.1.now) }
{
    for (index, part) in parts.iter().enumerate() {
        if part.is_newline() {
            return Some(parts.split_at(index + 1));
        }
    }
    None
}

/// The parts up to the last newline and with it, and those behind, which are whitespace, since a comment ends in a newline;
/// none where there is no newline.
pub(crate) fn past_last_newline<'a, 't>(
    parts: &'a [GapPart<'t>],
) -> Option<(&'a [GapPart<'t>], &'a [GapPart<'t>])>
    ensures { MatchOption result (begins_line parts.now ≡ false) (λ s. SplitsLast parts.now s.0.now s.1.now) }
{
    for index in (0..parts.len()).rev() {
        if parts[index].is_newline() {
            return Some(parts.split_at(index + 1));
        }
    }
    None
}
