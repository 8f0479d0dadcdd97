//! Gaps: what may stand before and behind a value of an array, or a pair of an inline table.
ghost use Rattle.std.specs.Prelude.{◌≡◌, ◌∷◌, [], map, IfOk};
ghost use Rattle.toml_tree.specs.ReadingValues.{gap_step, gap_at, pair_gap_at};
ghost use Rattle.toml_tree.specs.Reads.{cursor, Moves, Reads, step};
ghost use Rattle.toml_tree.specs.View.{piece, gap_line, gap, lines_before};

use crate::piece::{Gap, GapLine, LineGap, LinesGap, Piece};
use crate::profile::Profile;
use crate::reader::Reader;
use crate::step::Step;
use std::alloc::{AllocError, Global};
use toml_scalar::SyntaxFault;

/// The gap of this one line and of the whitespace behind it.
fn one_line<'t>(alloc: Global, line: GapLine<'t>, ws: Piece<'t>) -> Result<Gap<'t>, AllocError>
    ensures { IfOk result (λ g. gap g ≡ lines_before (gap_line line.entry ∷ []) (piece ws.entry)) }
{
    Ok(Gap::Line(Box::new(alloc, LineGap { line, ws })?))
}

/// The gap of these lines and of the whitespace behind them, in as much room as it needs.
fn gap_of<'t>(
    alloc: Global,
    mut lines: Vec<GapLine<'t>>,
    ws: Piece<'t>,
) -> Result<Gap<'t>, AllocError>
    ensures { IfOk result (λ g. gap g ≡ lines_before (map gap_line lines.entry.items) (piece ws.entry)) }
{
    lines.shrink_to_fit();
    let more = LinesGap { lines, ws };
    Ok(Gap::Lines(Box::new(alloc, more)?))
}

impl<'t> Reader<'t> {
    /// A line of a gap, or its last whitespace.
    #[tactic(auto, unfolding(crate::specs::ReadingValues::gap_step))]
    fn gap_step(&mut self) -> Result<Step<GapLine<'t>, Piece<'t>>, SyntaxFault>
        ensures reads { Reads (step gap_line piece) (cursor self.old) (cursor self.new) result (gap_step (cursor self.old)) }
        ensures moves { IfOk result (Moves (cursor self.old) (cursor self.new)) }
    {
        let blank = self.blank();
        let newline = self.newline();
        if !newline.text.is_empty() {
            return Ok(Step::Next(GapLine { blank, newline }));
        }
        match blank.comment {
            Some(_) => Err(self.refuse()),
            None => Ok(Step::Done(blank.ws)),
        }
    }

    /// `ws-comment-newline`: what it mostly is, whitespace alone or one line, takes no list of lines.
    pub(crate) fn gap(&mut self, alloc: Global) -> Result<Gap<'t>, SyntaxFault>
        ensures { Reads gap (cursor self.old) (cursor self.new) result (gap_at (cursor self.old)) }
    {
        let first = match self.gap_step()? {
            Step::Next(line) => line,
            Step::Done(ws) => return Ok(Gap::Ws(ws)),
        };
        let second = match self.gap_step()? {
            Step::Next(line) => line,
            Step::Done(ws) => return Ok(one_line(alloc, first, ws)?),
        };
        let mut lines = Vec::with_capacity(alloc, 2)?;
        lines.push(first)?;
        lines.push(second)?;
        loop {
            match self.gap_step()? {
                Step::Next(line) => {
                    lines.push(line)?;
                }
                Step::Done(ws) => return Ok(gap_of(alloc, lines, ws)?),
            }
        }
    }

    /// The gap before or behind a pair: whitespace alone in profile 1, which takes no memory.
    #[inline]
    #[tactic(auto, unfolding(crate::specs::ReadingValues::pair_gap_at))]
    pub(crate) fn pair_gap(
        &mut self,
        alloc: Global,
        profile: Profile,
    ) -> Result<Gap<'t>, SyntaxFault>
        ensures { Reads gap (cursor self.old) (cursor self.new) result (pair_gap_at profile (cursor self.old)) }
    {
        match profile {
            Profile::One => {
                let ws = self.ws();
                Ok(Gap::Ws(ws))
            }
            Profile::Two => self.gap(alloc),
        }
    }
}
