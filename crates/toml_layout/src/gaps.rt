//! The gaps around an entry that is put in, by layout `Follow`.
ghost use Rattle.std.specs.Prelude.{◌≡◌, IfOk, MatchOption, false, option_copied, option_map};
ghost use Rattle.toml_layout.specs.Items.{gap_parts, item, items_of};
ghost use Rattle.toml_layout.specs.Looks.{around as around_equals, respaced};
ghost use Rattle.toml_layout.specs.Margins.{IndentsComment, IsMarginAlone, IsOnLine, PutsLine, are_tabs, has_own_comment, is_short};
ghost use Rattle.toml_layout.specs.Margins.{is_tab_run, last_of, margin, one_space, parting};
ghost use Rattle.toml_layout.specs.OpenOutlines.{assign as assign_outline, leaf_text};
ghost use Rattle.toml_layout.specs.PairPlaces.{IsPairPlace, IsPlaceBelow, equals_above, goes_on_at, laid_key};
ghost use Rattle.toml_layout.specs.PartOutlines.{outlined};
ghost use Rattle.toml_layout.specs.Rooms.{IsBetween, RoomAlone, RoomBeside, RoomOnLine, behind_comma, beside, room_of};
ghost use Rattle.toml_layout.specs.Spacings.{is_narrow};

use crate::layout::Layout;
use crate::looks::Equals;
use crate::parts::{past_first_newline, past_last_newline};
use crate::texts::Texts;
use crate::tree::{Assign, Entries, Entry, Gap, GapPart, Leaf};
use crate::values::key_at;
use std::alloc::{AllocError, Global};
use toml_names::Step;

/// The parts up to a newline and with it, and those behind.
type Split<'a, 't> = (&'a [GapPart<'t>], &'a [GapPart<'t>]);

/// The whitespace before the first comment that stands on a line of its own.
fn comment_indent<'a, 't>(parts: &'a [GapPart<'t>]) -> Option<&'a [GapPart<'t>]>
    ensures { MatchOption result (has_own_comment parts.now ≡ false) (λ i. IndentsComment parts.now i.now) }
{
    for (index, part) in parts.iter().enumerate() {
        if part.is_comment() {
            let (front, _) = parts.split_at(index);
            if let Some((_, indent)) = past_last_newline(front) {
                return Some(indent);
            }
        }
    }
    None
}

/// Whether tabs stand there, and nothing else.
fn are_tabs(parts: &[GapPart<'_>]) -> bool
    ensures { result ≡ are_tabs parts.now }
{
    for part in parts {
        if !is_tab_run(part.leaf().text()) {
            return false;
        }
    }
    !parts.is_empty()
}

/// Whether the text is of tabs alone.
fn is_tab_run(text: &str) -> bool
    ensures { result ≡ is_tab_run text.now }
{
    for byte in text.as_bytes() {
        if *byte != b'\t' {
            return false;
        }
    }
    true
}

/// How an item begins its line: its newline, the last of these parts, and its indent.
fn margin<'t>(
    alloc: Global,
    line: &[GapPart<'t>],
    indent: &[GapPart<'t>],
) -> Result<Gap<'t>, AllocError>
    ensures { IfOk result (λ g. outlined g.parts.items ≡ margin line.now indent.now) }
{
    let mut margin = last_anew(alloc, line)?;
    margin.add_anew(indent)?;
    Ok(margin)
}

/// The last part, if there is one, written anew.
fn last_anew<'t>(alloc: Global, parts: &[GapPart<'t>]) -> Result<Gap<'t>, AllocError>
    ensures { IfOk result (λ g. outlined g.parts.items ≡ outlined (last_of parts.now)) }
{
    let Some((last, _)) = parts.split_last() else {
        return Ok(Gap::empty(alloc));
    };
    let gap = Gap::one(alloc, last.anew())?;
    Ok(gap)
}

/// How an item begins its line that is put in between brackets where none stands: as far in as the first comment on a line of
/// its own, else two spaces or one tab further than the closing bracket.
fn margin_alone<'t>(
    alloc: Global,
    parts: &[GapPart<'t>],
    split: Split<'_, 't>,
) -> Result<Gap<'t>, AllocError>
    ensures { IfOk result (λ g. IsMarginAlone parts.now split.entry.0.now split.entry.1.now (outlined g.parts.items)) }
{
    let (line, closing) = split;
    if let Some(indent) = comment_indent(parts) {
        let margin = margin(alloc, line, indent)?;
        return Ok(margin);
    }
    let mut margin = margin(alloc, line, closing)?;
    let step = if are_tabs(closing) { "\t" } else { "  " };
    margin.parts.push(GapPart::Ws(Leaf::New(step)))?;
    Ok(margin)
}

/// The gaps around an item that is put in on a line of its own where a gap splits: up to there and the item's indent, and the
/// newline of the item and what stands behind.
fn on_line<'t>(
    alloc: Global,
    split: Split<'_, 't>,
    margin: &[GapPart<'t>],
) -> Result<(Gap<'t>, Gap<'t>), AllocError>
    ensures { let line = split.entry.0.now in let rest = split.entry.1.now in
        IfOk result (λ r. IsOnLine margin.now line rest r.0.parts.items r.1.parts.items) }
{
    let (mut before, mut behind) = (Gap::empty(alloc), Gap::empty(alloc));
    before.add(split.0)?;
    if let Some((newline, indent)) = margin.split_first() {
        before.add(indent)?;
        behind.parts.push(*newline)?;
    }
    behind.add(split.1)?;
    Ok((before, behind))
}

impl<'t> Entries<'t> {
    /// Makes room for an entry before the one with the index, or behind the last one, as the entry there is written: on a line
    /// of its own, or behind what stands behind the first comma. It answers the gaps around the new one.
    pub(crate) fn room_beside(
        &mut self,
        texts: Texts<'t>,
        index: usize,
        is_pair: bool,
    ) -> Result<(Gap<'t>, Gap<'t>), AllocError>
        ensures { IfOk result (λ r. RoomBeside (items_of self.old) index is_pair (room_of self.new r)) }
    {
        let Some(beside) = self.beside(index) else {
            return self.room_alone(texts, is_pair);
        };
        let before = texts.parted(&beside.before)?;
        match past_last_newline(&before.parts) {
            Some((line, indent)) => {
                let margin = margin(texts.alloc, line, indent)?;
                let room = self.room_on_line(texts, index, &margin)?;
                Ok(room)
            }
            None => {
                let space = self.behind_comma(texts.alloc)?;
                self.room(texts.alloc, index, space)
            }
        }
    }

    /// The entry with the index, or the last one, if there is one.
    fn beside(&self, index: usize) -> Option<&Entry<'t>>
        ensures { option_map item (option_copied result) ≡ beside (items_of self.now) index }
    {
        let last = self.list.len().checked_sub(1)?;
        self.list.get(index.min(last))
    }

    /// Makes room on a line of its own: behind the first newline of the gap in which it is to stand. Where that has none, its own
    /// newline stands before it.
    fn room_on_line(
        &mut self,
        texts: Texts<'t>,
        index: usize,
        margin: &Gap<'t>,
    ) -> Result<(Gap<'t>, Gap<'t>), AllocError>
        ensures { IfOk result (λ r. RoomOnLine (items_of self.old) index (gap_parts margin.now) (room_of self.new r)) }
    {
        let none = Gap::empty(texts.alloc);
        if let Some(other) = self.list.get(index) {
            let (before, behind) = texts.line_in(&other.before, margin)?;
            let _old = self.change_before(index, behind);
            return Ok((before, none));
        }
        if let Some(end) = self.take_end() {
            let (before, behind) = texts.line_in(&end, margin)?;
            self.put_end(Some(behind));
            return Ok((before, none));
        }
        match self.list.len().checked_sub(1) {
            Some(last) => {
                let after = self.change_after(last, none);
                texts.line_in(&after, margin)
            }
            None => Ok((none, Gap::empty(texts.alloc))),
        }
    }

    /// Makes room between brackets where no entry stands. Where a newline does, the new one gets a line of its own before the last
    /// of them; in an array else it has the whitespace there on both sides, and in an inline table one space.
    fn room_alone(
        &mut self,
        texts: Texts<'t>,
        is_pair: bool,
    ) -> Result<(Gap<'t>, Gap<'t>), AllocError>
        ensures { IfOk result (λ r. RoomAlone (items_of self.old) is_pair (room_of self.new r)) }
    {
        let alloc = texts.alloc;
        let end = self.take_end().unwrap_or(Gap::empty(alloc));
        let between = texts.parted(&end)?;
        if let Some(split) = past_last_newline(&between.parts) {
            let margin = margin_alone(alloc, &between.parts, split)?;
            let (before, behind) = on_line(alloc, split, &margin.parts)?;
            self.put_end(Some(behind));
            return Ok((before, Gap::empty(alloc)));
        }
        around(alloc, between, is_pair)
    }

    /// What stands behind the first comma that an entry follows, where that is nothing or one character of whitespace; else one
    /// space.
    fn behind_comma(&self, alloc: Global) -> Result<Gap<'t>, AllocError>
        ensures { IfOk result (λ g. outlined g.parts.items ≡ behind_comma (items_of self.now).list) }
    {
        let Some(second) = self.list.get(1) else {
            let space = one_space(alloc)?;
            return Ok(space);
        };
        let space = parting(alloc, &second.before.parts)?;
        Ok(space)
    }
}

/// The gaps around an entry that is put in between brackets where only this stands.
fn around<'t>(
    alloc: Global,
    between: Gap<'t>,
    is_pair: bool,
) -> Result<(Gap<'t>, Gap<'t>), AllocError>
    ensures { IfOk result (λ r. IsBetween is_pair (gap_parts between.entry) (gap_parts r.0) (gap_parts r.1)) }
{
    if is_pair {
        return Ok((one_space(alloc)?, one_space(alloc)?));
    }
    let mut after = Gap::empty(alloc);
    after.add_anew(&between.parts)?;
    Ok((between, after))
}

/// A gap of one space.
pub(crate) fn one_space<'t>(alloc: Global) -> Result<Gap<'t>, AllocError>
    ensures { IfOk result (λ g. outlined g.parts.items ≡ one_space) }
{
    Gap::one(alloc, GapPart::Ws(Leaf::New(" ")))
}

/// These parts, written anew, where they are nothing or one character of whitespace; else one space.
fn parting<'t>(alloc: Global, parts: &[GapPart<'t>]) -> Result<Gap<'t>, AllocError>
    ensures { IfOk result (λ g. outlined g.parts.items ≡ parting parts.now) }
{
    if !is_short(parts) {
        return one_space(alloc);
    }
    let mut gap = Gap::empty(alloc);
    gap.add_anew(parts)?;
    Ok(gap)
}

/// Whether they are nothing or one character of whitespace.
fn is_short(parts: &[GapPart<'_>]) -> bool
    ensures { result ≡ is_short parts.now }
{
    match parts {
        [] => true,
        [part] => part.is_ws() && part.leaf().text().len() <= 1,
        _ => false,
    }
}

impl<'t> Texts<'t> {
    /// The gaps around an item that is put in on a line of its own in the gap: behind its first newline, and where it has none
    /// before it.
    fn line_in(self, gap: &Gap<'t>, margin: &Gap<'t>) -> Result<(Gap<'t>, Gap<'t>), AllocError>
        ensures { let all = gap.now.parts.items in
            IfOk result (λ r. PutsLine all margin.now.parts.items r.0.parts.items r.1.parts.items) }
    {
        let gap = self.parted(gap)?;
        if let Some(split) = past_first_newline(&gap.parts) {
            return on_line(self.alloc, split, &margin.parts);
        }
        let mut before = Gap::empty(self.alloc);
        before.add(&margin.parts)?;
        Ok((before, gap))
    }

    /// The index at which a pair is put in for the table at these steps: behind the last one. By layout `Follow` it is behind the
    /// last one below that table, and has around its `=` what that one has.
    pub(crate) fn pair_index(
        self,
        pairs: &Entries<'t>,
        parent: &[Step],
        assign: &mut Assign<'t>,
    ) -> Result<usize, AllocError>
        ensures place { IfOk result (IsPairPlace self.entry.layout parent.now (items_of pairs.now).list) }
        ensures key { let m = items_of pairs.now in
            IfOk result (λ i. assign_outline assign.new ≡ laid_key self.entry.layout m i (assign_outline assign.old)) }
    {
        match self.layout {
            Layout::Plain => Ok(pairs.list.len()),
            Layout::Follow => {
                let index = self.index_below(pairs, parent)?;
                if let Some(other) = pairs.equals_above(index) {
                    assign.space_as(other.before, other.after);
                }
                Ok(index)
            }
        }
    }

    /// The index of a new pair in the table at these steps: behind the last pair below it.
    fn index_below(self, pairs: &Entries<'t>, parent: &[Step]) -> Result<usize, AllocError>
        ensures { IfOk result (IsPlaceBelow parent.now (items_of pairs.now).list) }
    {
        let count = pairs.list.len();
        if parent.is_empty() {
            return Ok(count);
        }
        let mut index = count;
        while index > 0 {
            if self.goes_on(pairs, index - 1, parent)? {
                return Ok(index);
            }
            index -= 1;
        }
        Ok(count)
    }

    /// Whether the key of the pair with the index goes on behind these steps.
    fn goes_on(self, pairs: &Entries<'t>, at: usize, parent: &[Step]) -> Result<bool, AllocError>
        ensures { IfOk result (λ on. on ≡ goes_on_at parent.now (items_of pairs.now).list at) }
    {
        let Some(key) = key_at(&pairs.list, at) else {
            return Ok(false);
        };
        let common = self.common(key, parent)?;
        Ok(parent.len() < key.parts() && common == parent.len())
    }
}

impl<'t> Entries<'t> {
    /// What stands around the `=` of the pair before the index, if there is one.
    fn equals_above(&self, index: usize) -> Option<Equals<'t>>
        ensures { around_equals result ≡ equals_above (items_of self.now) index }
    {
        if index == 0 {
            return None;
        }
        let Some(entry) = self.list.get(index - 1) else {
            return None;
        };
        let assign = entry.assign.as_ref()?;
        Some(Equals {
            before: assign.before_equals,
            after: assign.after_equals,
        })
    }
}

impl<'t> Assign<'t> {
    /// Gives it around its `=` what stands around another's, where that is nothing or one space on each side.
    pub(crate) fn space_as(&mut self, before_equals: Leaf<'t>, after_equals: Leaf<'t>)
        ensures { assign_outline self.new ≡ respaced (leaf_text before_equals.entry) (leaf_text after_equals.entry) (assign_outline self.old) }
    {
        if is_narrow(before_equals) && is_narrow(after_equals) {
            self.before_equals = before_equals.anew();
            self.after_equals = after_equals.anew();
        }
    }
}

/// Whether nothing stands there, or one space.
fn is_narrow(ws: Leaf<'_>) -> bool
    ensures { result ≡ is_narrow (leaf_text ws.entry) }
{
    ws.text() == "" || ws.text() == " "
}
