//! `insert` into a table that no line makes, but longer headers imply: a header line of it, and the new line behind that.
ghost use Rattle.std.specs.Prelude.{IfOk, OnOk};
ghost use Rattle.toml_layout.specs.OpenOutlines.{leaf_text, value};
ghost use Rattle.toml_working.specs.ImpliedTables.{IsAboveComments, IsAhead, LaysOutBelow, PutsAhead, PutsSection};
ghost use Rattle.toml_working.specs.Starting.{read_of};
ghost use Rattle.toml_working.specs.Stands.{KeepsRest};

use crate::headers::Landmark;
use crate::inserting::Insertion;
use crate::lines::Line;
use crate::sections::NewHeader;
use crate::working::{Before, Position, Tree};
use std::alloc::AllocError;
use toml_layout::{Brackets, Equals, Layout, Leaf};
use toml_names::Address;

impl<'x> Tree<'x> {
    /// Puts a header line for the parent, and a line behind it, in before the first header line below the parent; by layout `Follow`
    /// before the comment lines above that one, and as that one begins.
    pub(crate) fn insert_ahead(
        &mut self,
        before: Before<'_, 'x>,
        next: Position,
        parent: &Address,
        insertion: Insertion<'_, 'x>,
    ) -> Result<bool, AllocError>
        ensures rest { OnOk result (KeepsRest self.old self.new) }
        ensures put { let it = insertion.entry in
            OnOk result (PutsAhead parent.now it.at.now it.spelled.now (value it.new) (read_of before.entry) next self.old self.new) }
    {
        let header = NewHeader {
            at: parent,
            brackets: Brackets::One,
            spelled: insertion.spelled,
        };
        let (at, ws) = self.place_ahead(before, next)?;
        let (own, equals) = self.laid_out_below(before, next, ws)?;
        let line = self.pair_line(parent.steps().len(), insertion, self.style)?;
        self.put_section(before, at, header, ws, line.beginning_as(own, equals))
    }

    /// Where a header line goes ahead of another, and the whitespace with which it begins, in the layout of the tree.
    fn place_ahead(
        &self,
        before: Before<'_, 'x>,
        next: Position,
    ) -> Result<(Position, Leaf<'x>), AllocError>
        ensures { IfOk result (λ r. IsAhead self.now.texts.layout (read_of before.entry) self.now.slots.items next r.0 r.1) }
    {
        match self.texts.layout {
            Layout::Plain => Ok((next, Leaf::EMPTY)),
            Layout::Follow => {
                let at = self.above_comments(before, next)?;
                Ok((at, self.look_at(before, next)?.ws))
            }
        }
    }

    /// The place right behind the last line above a place that is no comment line, or that of the first line: what stands from there up to
    /// that place are comment lines.
    fn above_comments(&self, before: Before<'_, 'x>, at: Position) -> Result<Position, AllocError>
        ensures { IfOk result (IsAboveComments (read_of before.entry) self.now.slots.items at) }
    {
        match self.landmark(before, at, Landmark::NoComment)? {
            Some(line) => Ok(line.next()),
            None => Ok(Position { slot: 0, index: 0 }),
        }
    }

    /// How the first line begins of a section whose header begins with this whitespace and goes ahead of another, in the layout of the tree.
    fn laid_out_below(
        &self,
        before: Before<'_, 'x>,
        next: Position,
        ws: Leaf<'x>,
    ) -> Result<(Leaf<'x>, Option<Equals<'x>>), AllocError>
        ensures { let layout = self.now.texts.layout in
            IfOk result (λ r. LaysOutBelow layout (leaf_text ws.entry) (read_of before.entry) self.now.slots.items next r.0 r.1) }
    {
        match self.texts.layout {
            Layout::Plain => Ok((Leaf::EMPTY, None)),
            Layout::Follow => self.beginning_below(before, next, ws),
        }
    }

    /// Puts a header line in at a place, with this whitespace to begin with, and a line behind it.
    fn put_section(
        &mut self,
        before: Before<'_, 'x>,
        at: Position,
        header: NewHeader<'_, 'x>,
        ws: Leaf<'x>,
        line: Line<'x>,
    ) -> Result<bool, AllocError>
        ensures rest { OnOk result (KeepsRest self.old self.new) }
        ensures put { let it = header.entry in
            let style = leaf_text self.old.style in
            OnOk result (PutsSection it.at.now it.brackets (leaf_text ws.entry) it.spelled.now style line.entry (read_of before.entry) at self.old.slots.items self.new.slots.items) }
    {
        if !self.put(before, at, line)? {
            return Ok(false);
        }
        self.put_header(before, at, header, ws)
    }
}
