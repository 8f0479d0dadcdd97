//! The working tree written as pieces.
ghost use Rattle.std.specs.Prelude.{◌≡◌, ℕ, List, IfOk, false};
ghost use Rattle.toml_text.specs.Source.{text_of};
ghost use Rattle.toml_layout.specs.OpenOutlines.{assign as assign_outline, blank_text, entries as entries_outline, entry as entry_outline};
ghost use Rattle.toml_layout.specs.OpenOutlines.{entry_outlined, gap_read, header as header_outline, key_text, line as line_outline};
ghost use Rattle.toml_layout.specs.OpenOutlines.{value as value_outline};
ghost use Rattle.toml_layout.specs.Outlines.{assign_outlined, entries_outlined, expr_outlined, line_outlined, value_outlined};
ghost use Rattle.toml_layout.specs.Parts.{parts_outlined};
ghost use Rattle.toml_working.specs.Writing.{SpellAll, SpellsLine, SpellsSlot, Writes, WritesOut};

use crate::lines::{Body, Line, Slot};
use crate::pieces::Pieces;
use crate::working::Tree;
use std::alloc::AllocError;
use toml_layout::{
    Assign, Blank, Brackets, Entries, Entry, Expr, Gap, Header, Key, OpenLine, Value,
};
use toml_text::Source;
use toml_tree::Piece;

impl<'t> Tree<'t> {
    /// The pieces of the text, behind the mark of the document.
    pub fn pieces(&self, source: Source<'t>, mark: Piece<'t>) -> Result<Pieces<'t>, AllocError>
        ensures before { IfOk result (λ pieces. pieces.before ≡ text_of source.entry) }
        ensures written { IfOk result (λ pieces. WritesOut (text_of source.entry) mark.entry.text.now self.now.slots.items pieces.out) }
    {
        let mut pieces = Pieces::none(self.alloc(), source);
        pieces.place(mark.start, mark.text)?;
        for slot in &self.slots {
            pieces.slot(slot)?;
        }
        Ok(pieces)
    }
}

impl<'t> Pieces<'t> {
    /// Writes the lines that now stand in a slot.
    fn slot(&mut self, slot: &Slot<'t>) -> Result<(), AllocError>
        ensures before { self.new.before ≡ self.old.before }
        ensures written { (text : List ℕ) → SpellsSlot self.old.before slot.now text → Writes text self.old self.new result }
    {
        match slot {
            Slot::Kept(kept) => self.keep(kept.span),
            Slot::Lines(lines) => self.lines(lines),
        }
    }

    /// Writes lines, one after the other.
    fn lines(&mut self, lines: &[Line<'t>]) -> Result<(), AllocError>
        ensures before { self.new.before ≡ self.old.before }
        ensures written { (text : List ℕ) → SpellAll (SpellsLine self.old.before) lines.now text → Writes text self.old self.new result }
    {
        for line in lines {
            self.line(line)?;
        }
        Ok(())
    }

    /// Writes a line, or keeps its span where it is as it was.
    fn line(&mut self, line: &Line<'t>) -> Result<(), AllocError>
        ensures before { self.new.before ≡ self.old.before }
        ensures written { (text : List ℕ) → SpellsLine self.old.before line.now text → Writes text self.old self.new result }
    {
        match &line.body {
            Body::Kept(kept) => self.keep(kept.span),
            Body::Open(open) => self.open_line(open),
        }
    }

    /// Writes an opened line, with its newline.
    fn open_line(&mut self, line: &OpenLine<'t>) -> Result<(), AllocError>
        ensures { Writes (line_outlined (line_outline line.now)) self.old self.new result }
    {
        self.begin(line.is_new);
        self.leaf(line.ws)?;
        match &line.expr {
            Expr::Blank => {}
            Expr::Pair(pair) => {
                self.assign(&pair.assign)?;
                self.value(&pair.value)?;
            }
            Expr::Header(header) => self.header(header)?,
        }
        self.blank(&line.tail)?;
        self.leaf(line.newline)
    }

    /// Writes a header between its brackets.
    fn header(&mut self, header: &Header<'t>) -> Result<(), AllocError>
        ensures { Writes (expr_outlined (header_outline header.now)) self.old self.new result }
    {
        let (opening, closing) = match header.brackets {
            Brackets::One => ("[", "]"),
            Brackets::Two => ("[[", "]]"),
        };
        self.symbol(opening)?;
        self.leaf(header.before)?;
        self.key(&header.key)?;
        self.leaf(header.after)?;
        self.symbol(closing)
    }

    /// Writes whitespace, and the comment behind it if there is one.
    fn blank(&mut self, blank: &Blank<'t>) -> Result<(), AllocError>
        ensures { Writes (blank_text blank.now) self.old self.new result }
    {
        self.leaf(blank.ws)?;
        match &blank.comment {
            Some(comment) => self.leaf(*comment),
            None => Ok(()),
        }
    }

    /// Writes a key, each dot between whitespace.
    fn key(&mut self, key: &Key<'t>) -> Result<(), AllocError>
        ensures { Writes (key_text key.now) self.old self.new result }
    {
        self.leaf(key.first)?;
        for dotted in &key.rest {
            self.leaf(dotted.before_dot)?;
            self.symbol(".")?;
            self.leaf(dotted.after_dot)?;
            self.leaf(dotted.part)?;
        }
        Ok(())
    }

    /// Writes a key, and `=` between whitespace.
    fn assign(&mut self, assign: &Assign<'t>) -> Result<(), AllocError>
        ensures { Writes (assign_outlined (assign_outline assign.now)) self.old self.new result }
    {
        self.key(&assign.key)?;
        self.leaf(assign.before_equals)?;
        self.symbol("=")?;
        self.leaf(assign.after_equals)
    }

    /// Writes a value with all that stands in it.
    #[cycle(writing)]
    fn value(&mut self, value: &Value<'t>) -> Result<(), AllocError>
        ensures { Writes (value_outlined (value_outline value.now)) self.old self.new result }
    {
        match value {
            Value::Scalar(token) => self.leaf(*token),
            Value::Array(entries) => {
                self.leaf(entries.opening)?;
                self.entries(entries)?;
                self.symbol("]")
            }
            Value::Inline(entries) => {
                self.leaf(entries.opening)?;
                self.entries(entries)?;
                self.symbol("}")
            }
        }
    }

    /// Writes entries with their commas, and what stands behind the last one.
    #[cycle(writing)]
    fn entries(&mut self, entries: &Entries<'t>) -> Result<(), AllocError>
        ensures { Writes (entries_outlined false (entries_outline entries.now).entries) self.old self.new result }
    {
        let mut is_behind = false;
        for index in 0..entries.list.len() {
            if let Some(entry) = entries.list.get(index) {
                if is_behind {
                    self.symbol(",")?;
                }
                is_behind = true;
                self.entry(entry)?;
            }
        }
        if let Some(end) = &entries.end {
            if is_behind {
                self.symbol(",")?;
            }
            self.gap(end)?;
        }
        Ok(())
    }

    /// Writes an entry, and the gaps around it.
    #[cycle(writing)]
    fn entry(&mut self, entry: &Entry<'t>) -> Result<(), AllocError>
        ensures { Writes (entry_outlined (entry_outline entry.now)) self.old self.new result }
    {
        self.gap(&entry.before)?;
        if let Some(assign) = &entry.assign {
            self.assign(assign)?;
        }
        self.value(&entry.value)?;
        self.gap(&entry.after)
    }

    /// Writes a gap by its parts.
    fn gap(&mut self, gap: &Gap<'t>) -> Result<(), AllocError>
        ensures { Writes (parts_outlined (gap_read gap.now)) self.old self.new result }
    {
        for part in &gap.parts {
            self.leaf(part.leaf())?;
        }
        Ok(())
    }
}
