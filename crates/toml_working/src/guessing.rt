//! Behind which line of a section, or of a table of dotted keys in it, a new line goes. The end of the section is a guess: else many
//! insertions into one long section would each go through all of it.
ghost use Rattle.std.specs.Prelude.{◌≡◌, IfSome, OnOk, true};
ghost use Rattle.toml_layout.specs.OpenOutlines.{value};
ghost use Rattle.toml_working.specs.Putting.{TreePutsBehind};
ghost use Rattle.toml_working.specs.Sections.{FindsSectionEnd, IsEndFrom, IsOfSectionAt};
ghost use Rattle.toml_working.specs.Starting.{read_of};
ghost use Rattle.toml_working.specs.Stands.{KeepsRest};
ghost use Rattle.toml_working.specs.TableEnds.{EndsTable, FindsLastInTable, FindsTableEnd, IsLastInTableFrom, PassesInTable};

use crate::inserting::Insertion;
use crate::steps::begins;
use crate::working::{Before, Position, Tree};
use std::alloc::AllocError;
use toml_layout::Layout;
use toml_names::{Address, Step};

impl<'x> Tree<'x> {
    /// The last line with a key and a value from a place in the section of a table on, before the next header. The guess is
    /// taken where its line stands in that section.
    pub(crate) fn last_of_section(
        &self,
        before: Before<'_, 'x>,
        from: Position,
        table: &[Step],
    ) -> Option<Position>
        ensures { FindsSectionEnd table.now before.entry.units.now self.now.slots.items from result }
    {
        match self.guessed_end(before, table) {
            Some(found) => Some(found),
            None => self.last_pair(before, from),
        }
    }

    /// The last line with a key and a value from the guess on, where the guess and that line stand in the section of the table: where the
    /// guess does, that line does too, and the second look is for the proof.
    fn guessed_end(&self, before: Before<'_, 'x>, table: &[Step]) -> Option<Position>
        ensures last { let start = self.now.section_end in
            IfSome result (IsEndFrom before.entry.units.now self.now.slots.items start) }
        ensures there { IfSome result (IsOfSectionAt table.now before.entry.units.now self.now.slots.items) }
    {
        if !self.is_of_section(before, self.section_end, table) {
            return None;
        }
        match self.last_pair(before, self.section_end) {
            Some(found) if self.is_of_section(before, found, table) => Some(found),
            _ => None,
        }
    }

    /// Whether the line at a place has a key and a value, and stands in the section of the table.
    fn is_of_section(&self, before: Before<'_, 'x>, at: Position, table: &[Step]) -> bool
        ensures { result ≡ true → IsOfSectionAt table.now before.entry.units.now self.now.slots.items at }
    {
        let Some(line) = self.seen(before, at) else {
            return false;
        };
        match (line.base, line.address) {
            (Some(base), Some(own)) => base == table.len() && begins(table, own.steps()),
            _ => false,
        }
    }

    /// The line behind which a new one goes of a table that the dotted key of a line makes: the last one with a key and a value in the
    /// section; by layout `Follow` the last one of those strictly below the table.
    pub(crate) fn table_end(
        &self,
        before: Before<'_, 'x>,
        line: Position,
        section: &[Step],
        table: &Address,
    ) -> Position
        ensures { let layout = self.now.texts.layout in
            EndsTable layout section.now table.now before.entry.units.now self.now.slots.items line result }
    {
        let last = match self.texts.layout {
            Layout::Plain => self.last_of_section(before, line, section),
            Layout::Follow => self.last_of_table(before, line, section, table),
        };
        last.unwrap_or(line)
    }

    /// The last line with a key and a value strictly below a table, from a place in its section on, before the next header. The guess
    /// is taken where its line stands in that section and a line of the table stands there or behind.
    fn last_of_table(
        &self,
        before: Before<'_, 'x>,
        from: Position,
        section: &[Step],
        table: &Address,
    ) -> Option<Position>
        ensures { FindsTableEnd section.now table.now before.entry.units.now self.now.slots.items from result }
    {
        match self.guessed_in_table(before, section, table) {
            Some(found) => Some(found),
            None => self.last_in_table(before, from, table),
        }
    }

    /// The last line with a key and a value strictly below a table, from the guess on, where the guess and that line stand in the section: where
    /// the guess does, that line does too, and the second look is for the proof.
    fn guessed_in_table(
        &self,
        before: Before<'_, 'x>,
        section: &[Step],
        table: &Address,
    ) -> Option<Position>
        ensures last { let start = self.now.section_end in
            IfSome result (IsLastInTableFrom table.now before.entry.units.now self.now.slots.items start) }
        ensures there { IfSome result (IsOfSectionAt section.now before.entry.units.now self.now.slots.items) }
    {
        if !self.is_of_section(before, self.section_end, section) {
            return None;
        }
        match self.last_in_table(before, self.section_end, table) {
            Some(found) if self.is_of_section(before, found, section) => Some(found),
            _ => None,
        }
    }

    /// The last line with a key and a value strictly below the address, from the place on, before the next header line.
    fn last_in_table(
        &self,
        before: Before<'_, 'x>,
        from: Position,
        address: &Address,
    ) -> Option<Position>
        ensures { FindsLastInTable address.now before.entry.units.now self.now.slots.items from result }
    {
        let mut last = None;
        let mut skip = from.index;
        for slot in from.slot..self.slots.len() {
            let (found, ends) = self.table_lines_in(before, slot, skip, address, last);
            if ends {
                return found;
            }
            last = found;
            skip = 0;
        }
        last
    }

    /// The last line of a slot with a key and a value strictly below the address, before a header line of it, or the last one before the
    /// slot; and whether there is a header line. So many lines are passed over.
    fn table_lines_in(
        &self,
        before: Before<'_, 'x>,
        slot: usize,
        skip: usize,
        address: &Address,
        last: Option<Position>,
    ) -> (Option<Position>, bool)
        ensures { PassesInTable address.now before.entry.units.now self.now.slots.items slot skip last result.1 result.0 }
    {
        let Some(lines) = self.slots.get(slot) else {
            return (last, true);
        };
        let mut found = last;
        for index in skip..lines.count() {
            let Some(line) = lines.seen(before.units, index) else {
                return (found, false);
            };
            if line.is_header() {
                return (found, true);
            }
            found = line.in_table_at(address, Position { slot, index }, found);
        }
        (found, false)
    }

    /// Puts a line in behind another of the section of a table, whose address has `base` steps.
    pub(crate) fn insert_in_section(
        &mut self,
        before: Before<'_, 'x>,
        behind: Position,
        base: usize,
        insertion: Insertion<'_, 'x>,
    ) -> Result<bool, AllocError>
        ensures rest { OnOk result (KeepsRest self.old self.new) }
        ensures put { let it = insertion.entry in
            OnOk result (TreePutsBehind it.at.now base it.spelled.now (value it.new) (read_of before.entry) behind self.old self.new) }
    {
        self.section_end = behind;
        self.insert_behind(before, behind, base, insertion)
    }
}
