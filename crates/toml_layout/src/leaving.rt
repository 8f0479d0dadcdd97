//! What is left where an entry is taken out, by layout `Follow`.
ghost use Rattle.std.specs.Prelude.{◌≡◌, ◌++◌, IfOk, option_map};
ghost use Rattle.toml_layout.specs.Gaps.{are_blank, are_ws, around, ends_container, ends_line, gives_way, goes_with_comma, if_any, is_alone, left_by};
ghost use Rattle.toml_layout.specs.Gaps.{begins_line as begins};
ghost use Rattle.toml_layout.specs.Items.{gap_parts};
ghost use Rattle.toml_layout.specs.Leaving.{ends_in_comment, left_of_last_line, left_with_comma, own_left, remains, what_is_left, without_comma, without_last};

use crate::parts::{are_blank, are_ws, begins_line, past_last_newline, trimmed, without_ws};
use crate::tree::{Gap, GapPart};
use std::alloc::{AllocError, Global};

/// What stands around an entry that goes.
#[derive(Clone, Copy)]
pub(crate) struct Around<'a, 't> {
    /// Behind the entry before it, if there is one.
    pub(crate) above: Option<&'a [GapPart<'t>]>,
    pub(crate) before: &'a [GapPart<'t>],
    pub(crate) after: &'a [GapPart<'t>],
    /// Behind its comma, if it has one.
    pub(crate) behind: Option<&'a [GapPart<'t>]>,
    pub(crate) is_last: bool,
}

/// What stands there once it is gone.
#[derive(Drop)]
pub(crate) struct Left<'t> {
    /// Behind the entry before it, where that is another gap now.
    pub(crate) above: Option<Gap<'t>>,
    /// Behind the comma before it, or the bracket, if there still is one.
    pub(crate) behind: Option<Gap<'t>>,
}

/// Whether only whitespace stands there, if there is something.
fn is_ws_if_any(parts: Option<&[GapPart<'_>]>) -> bool
    ensures { result ≡ if_any are_ws (option_map (λ p. p.now) parts.entry) }
{
    match parts {
        Some(parts) => are_ws(parts),
        None => true,
    }
}

/// Whether only whitespace and newlines stand there, if there is something.
fn is_blank_if_any(parts: Option<&[GapPart<'_>]>) -> bool
    ensures { result ≡ if_any are_blank (option_map (λ p. p.now) parts.entry) }
{
    match parts {
        Some(parts) => are_blank(parts),
        None => true,
    }
}

/// A gap of these parts.
fn copied<'t>(alloc: Global, parts: &[GapPart<'t>]) -> Result<Gap<'t>, AllocError>
    ensures { IfOk result (λ g. g.parts.items ≡ parts.now) }
{
    let mut gap = Gap::empty(alloc);
    gap.add(parts)?;
    Ok(gap)
}

/// A gap of these parts, if there are some.
fn copied_if_any<'t>(
    alloc: Global,
    parts: Option<&[GapPart<'t>]>,
) -> Result<Option<Gap<'t>>, AllocError>
    ensures { IfOk result (λ g. option_map gap_parts g ≡ option_map (λ p. p.now) parts.entry) }
{
    let Some(parts) = parts else {
        return Ok(None);
    };
    let gap = copied(alloc, parts)?;
    Ok(Some(gap))
}

/// A gap of parts, and others behind them.
fn joined<'t>(
    alloc: Global,
    one: &[GapPart<'t>],
    other: &[GapPart<'t>],
) -> Result<Gap<'t>, AllocError>
    ensures { IfOk result (λ g. g.parts.items ≡ one.now ++ other.now) }
{
    let mut gap = Gap {
        parts: Vec::new(alloc),
    };
    gap.add(one)?;
    gap.add(other)?;
    Ok(gap)
}

/// What a piece leaves that goes, an item or a comma, by what stands before and behind it: its line, where nothing else stands on
/// that; the whitespace before it goes too where it was the last on its line, and else that behind it. `is_closed` tells that the
/// closing bracket comes behind.
fn without_piece<'t>(
    alloc: Global,
    before: &[GapPart<'t>],
    behind: &[GapPart<'t>],
    is_closed: bool,
) -> Result<Gap<'t>, AllocError>
    ensures { IfOk result (λ g. g.parts.items ≡ left_by before.now behind.now is_closed) }
{
    let rest = without_ws(behind);
    if begins_line(before) {
        return match rest {
            [GapPart::Newline(_), more @ ..] => joined(alloc, trimmed(before), more),
            _ => joined(alloc, before, rest),
        };
    }
    if is_closed || !are_ws(behind) {
        joined(alloc, trimmed(before), behind)
    } else {
        joined(alloc, before, rest)
    }
}

/// The parts without the last one.
#[tactic(auto, using(crate::proofs::LeftParts::without_last_cut))]
fn without_last<'a, 't>(parts: &'a [GapPart<'t>]) -> &'a [GapPart<'t>]
    ensures { result.now ≡ without_last parts.now }
{
    let (front, _) = parts.split_at(parts.len().saturating_sub(1));
    front
}

/// Whether the last part is a comment.
#[tactic(auto, using(crate::proofs::LeftParts::ends_is))]
fn ends_in_comment(parts: &[GapPart<'_>]) -> bool
    ensures { result ≡ ends_in_comment parts.now }
{
    match parts.split_last() {
        Some((last, _)) => last.is_comment(),
        None => false,
    }
}

impl<'a, 't> Around<'a, 't> {
    /// Whether it is the first thing on its line.
    fn begins_line(self) -> bool
        ensures { result ≡ begins self.entry.before.now }
    {
        begins_line(self.before)
    }

    /// Whether a newline or a comment comes next: behind its comma, which stands on its own line, or behind it where it has none.
    fn ends_line(self) -> bool
        ensures { result ≡ ends_line (around self.entry) }
    {
        match self.behind {
            Some(behind) => are_ws(self.after) && !are_ws(behind),
            None => !are_ws(self.after),
        }
    }

    /// Whether the closing bracket comes behind it and its comma.
    fn ends_container(self) -> bool
        ensures { result ≡ ends_container (around self.entry) }
    {
        self.is_last && are_ws(self.after) && is_ws_if_any(self.behind)
    }

    /// Whether nothing but whitespace and newlines stands beside it between the brackets.
    fn is_alone(self) -> bool
        ensures { result ≡ is_alone (around self.entry) }
    {
        self.above.is_none()
            && self.is_last
            && are_blank(self.before)
            && are_blank(self.after)
            && is_blank_if_any(self.behind)
    }

    /// Whether the next entry takes its place.
    fn gives_way(self) -> bool
        ensures { result ≡ gives_way (around self.entry) }
    {
        let is_first = self.above.is_none() && !self.begins_line();
        let is_within = !self.ends_line() || is_first;
        !self.is_last && is_within && are_blank(self.after) && is_blank_if_any(self.behind)
    }

    /// Whether all goes from the end of the entry before it to its own.
    fn goes_with_comma(self) -> bool
        ensures { result ≡ goes_with_comma (around self.entry) }
    {
        !self.begins_line()
            && self.is_last
            && self.above.is_some()
            && is_blank_if_any(self.above)
            && are_blank(self.before)
    }

    /// What is left.
    pub(crate) fn left(self, alloc: Global) -> Result<Left<'t>, AllocError>
        ensures { IfOk result (λ l. remains l ≡ what_is_left (around self.entry)) }
    {
        if self.is_alone() {
            return Ok(Left {
                above: None,
                behind: Some(Gap::empty(alloc)),
            });
        }
        if self.gives_way() {
            return Ok(Left {
                above: None,
                behind: Some(copied(alloc, self.before)?),
            });
        }
        if self.goes_with_comma() {
            return Ok(Left {
                above: Some(copied(alloc, self.after)?),
                behind: copied_if_any(alloc, self.behind)?,
            });
        }
        let own = self.own_left(alloc)?;
        self.without_comma(alloc, own)
    }

    /// What it leaves before the bracket or the next item, where it goes without another.
    #[tactic(auto, using(crate::proofs::LeftParts::own_itself, crate::proofs::LeftParts::own_no_line, crate::proofs::LeftParts::own_line))]
    fn own_left(self, alloc: Global) -> Result<Gap<'t>, AllocError>
        ensures { IfOk result (λ g. g.parts.items ≡ own_left (around self.entry)) }
    {
        if !self.ends_container() {
            let own = self.without_itself(alloc)?;
            return Ok(own);
        }
        let Some((lines, _)) = past_last_newline(self.before) else {
            let own = self.without_itself(alloc)?;
            return Ok(own);
        };
        let own = self.without_last_line(alloc, lines)?;
        Ok(own)
    }

    /// What the last item leaves, which stands on a line of its own with the closing bracket: what stands up to its newline, and
    /// behind it before the bracket. Where the line before it ends in a comment, that keeps its newline.
    fn without_last_line(self, alloc: Global, lines: &[GapPart<'t>]) -> Result<Gap<'t>, AllocError>
        ensures { IfOk result (λ g. g.parts.items ≡ left_of_last_line lines.now (around self.entry)) }
    {
        let line = without_last(lines);
        if ends_in_comment(line) {
            return copied(alloc, lines);
        }
        match self.behind {
            Some(behind) => joined(alloc, line, behind),
            None => joined(alloc, line, self.after),
        }
    }

    /// What it leaves with its comma: where more than whitespace stands between, the comma goes by itself.
    fn without_itself(self, alloc: Global) -> Result<Gap<'t>, AllocError>
        ensures { IfOk result (λ g. g.parts.items ≡ left_with_comma (around self.entry)) }
    {
        let Some(behind) = self.behind else {
            return without_piece(alloc, self.before, self.after, self.is_last);
        };
        if are_ws(self.after) {
            return without_piece(alloc, self.before, behind, self.is_last);
        }
        let own = without_piece(alloc, self.before, self.after, false)?;
        without_piece(alloc, &own.parts, behind, self.is_last)
    }

    /// What it leaves where it was the last one and had no comma: then the one before it goes.
    fn without_comma(self, alloc: Global, own: Gap<'t>) -> Result<Left<'t>, AllocError>
        ensures { IfOk result (λ l. remains l ≡ without_comma (around self.entry) own.entry.parts.items) }
    {
        match (self.behind, self.above) {
            (None, Some(above)) => Ok(Left {
                above: Some(without_piece(alloc, above, &own.parts, true)?),
                behind: None,
            }),
            _ => Ok(Left {
                above: None,
                behind: Some(own),
            }),
        }
    }
}
