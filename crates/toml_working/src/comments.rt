//! The comment lines with which a text begins, by layout `Follow`: below them goes the first line of the root.
ghost use Rattle.std.specs.Prelude.{IfOk};
ghost use Rattle.toml_working.specs.OpeningComments.{FindsAbove, FindsComments, PassesComments};
ghost use Rattle.toml_working.specs.Starting.{read_of};

use crate::working::{Before, Position, Tree};
use std::alloc::AllocError;
use toml_layout::Layout;

impl<'x> Tree<'x> {
    /// The line below which the first one of the root goes, if that does not go before all lines: by layout `Follow` the last of
    /// the comment lines with which the text begins, where a blank line or none follows them.
    pub(crate) fn comments_end(
        &self,
        before: Before<'_, 'x>,
    ) -> Result<Option<Position>, AllocError>
        ensures { IfOk result (FindsAbove self.now.texts.layout (read_of before.entry) self.now.slots.items) }
    {
        match self.texts.layout {
            Layout::Plain => Ok(None),
            Layout::Follow => self.first_comments(before),
        }
    }

    /// The last of the comment lines with which the text begins, where a blank line or none follows them.
    fn first_comments(&self, before: Before<'_, 'x>) -> Result<Option<Position>, AllocError>
        ensures { IfOk result (FindsComments (read_of before.entry) self.now.slots.items) }
    {
        let mut last = None;
        for slot in 0..self.slots.len() {
            let (found, ends) = self.comments_in(before, slot, last)?;
            if ends {
                return Ok(found);
            }
            last = found;
        }
        Ok(last)
    }

    /// The last comment line of a slot, or of those before it, where nothing else stands in it; or what was sought, and `true`.
    fn comments_in(
        &self,
        before: Before<'_, 'x>,
        slot: usize,
        last: Option<Position>,
    ) -> Result<(Option<Position>, bool), AllocError>
        ensures { IfOk result (λ r. PassesComments (read_of before.entry) self.now.slots.items slot last r.1 r.0) }
    {
        let Some(lines) = self.slots.get(slot) else {
            return Ok((last, true));
        };
        let mut found = last;
        for index in 0..lines.count() {
            let Some(line) = lines.seen(before.units, index) else {
                return Ok((found, false));
            };
            if !line.is_bare() {
                return Ok((None, true));
            }
            let look = lines.look(self.texts.alloc, before.known, index)?;
            if !look.has_comment {
                return Ok((found, true));
            }
            found = Some(Position { slot, index });
        }
        Ok((found, false))
    }
}
