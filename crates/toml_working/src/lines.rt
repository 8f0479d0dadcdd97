//! The lines of the working tree: kept as they stand in the document until an edit changes something on them.
ghost use Rattle.std.specs.Prelude.{◌≡◌, IfOk, List, OnOk, None, [], length, ◌+◌, ◌<◌, ◌^◌, IfSome};
ghost use Rattle.std.specs.List.{list_any};
ghost use Rattle.toml_layout.specs.KnownLines.{lines_known};
ghost use Rattle.toml_tree.specs.Tree.{Line as ReadLine};
ghost use Rattle.toml_working.specs.declared.lines.Line.{Line as WorkingLine};
ghost use Rattle.toml_layout.specs.OpenOutlines.{expr as expr_outlined, leaf_text};
ghost use Rattle.toml_working.specs.OpeningLines.{HasOutline, OpensBody, OpensToEndIn, alone};
ghost use Rattle.toml_layout.specs.Outlines.{Nothing};
ghost use Rattle.toml_working.specs.Seeing.{FindsIn, SeesLine, kept_found, line_found, read_by, seen};
ghost use Rattle.toml_working.specs.Putting.{LineIsLast, SlotIsLast};
ghost use Rattle.toml_working.specs.PuttingHeaders.{LineHasNoBytes, SlotHasNoBytes};
ghost use Rattle.toml_working.specs.Stands.{OpensSlot, kept_line};
ghost use Rattle.toml_working.specs.Standing.{Read, is_below, lies_below, slot_standing};
ghost use Rattle.toml_working.specs.TablePlaces.{FindsFirstIn};

use std::alloc::{AllocError, Global};
use toml_layout::{Blank, Expr, KnownLine, Leaf, OpenLine, Texts};
use toml_names::Address;
use toml_text::Span;
use toml_units::Unit;

/// A line that is as it was.
#[derive(Clone, Copy)]
pub struct Kept {
    /// Its number in the document, from 0.
    pub line: usize,
    /// Where it stands, with its newline.
    pub span: Span,
    /// Whether it is the last line, which ends in no newline.
    pub is_last: bool,
    /// The number of its first unit, which is the line itself.
    pub first: usize,
}

/// What stands on a line.
#[derive(Drop)]
pub enum Body<'t> {
    Kept(Kept),
    Open(Box<OpenLine<'t>>),
}

/// A line of the working tree.
#[derive(Drop)]
pub struct Line<'t> {
    /// Where its value, table or element stands; none for a blank line.
    pub address: Option<Address>,
    /// Of a line with a key and a value: how many steps the address of the table has in which it stands.
    pub base: Option<usize>,
    pub body: Body<'t>,
}

/// A line by what finds it.
#[derive(Clone, Copy)]
pub struct Seen<'a> {
    /// Where its value, table or element stands; none for a blank line.
    pub address: Option<&'a Address>,
    /// Of a line with a key and a value: how many steps the address of the table has in which it stands.
    pub base: Option<usize>,
}

/// What a line is sought as.
#[derive(Clone, Copy)]
pub enum Sought {
    /// Its value is what stands at the address, or holds it.
    Holder,
    /// It is the header line of what stands at the address.
    Header,
    /// Its dotted key makes the table at the address.
    Dotted,
    /// It is a header line at the address or below it.
    HeaderBelow,
}

/// The lines that now stand where one line of the document stood, in text order.
#[derive(Drop)]
pub enum Slot<'t> {
    /// The line of the document, as it was; its address is that of its unit.
    Kept(Kept),
    Lines(Vec<Line<'t>>),
}

impl Kept {
    /// The line by what finds it.
    pub(crate) fn seen(self, units: &[Unit]) -> Seen<'_>
        ensures { seen result ≡ kept_found units.now self }
    {
        match units.get(self.first) {
            Some(unit) => Seen {
                address: unit.address.as_ref(),
                base: unit.base,
            },
            None => Seen {
                address: None,
                base: None,
            },
        }
    }

    /// The line with an address of its own; the units are those of the document.
    fn as_line<'t>(self, alloc: Global, units: &[Unit]) -> Result<Line<'t>, AllocError>
        ensures { IfOk result (λ l. l ≡ kept_line units.now self) }
    {
        let seen = self.seen(units);
        let address = match seen.address {
            Some(own) => Some(own.copy(alloc)?),
            None => None,
        };
        Ok(Line {
            address,
            base: seen.base,
            body: Body::Kept(self),
        })
    }
}

impl<'t> Line<'t> {
    /// The line by what finds it.
    pub(crate) fn seen(&self) -> Seen<'_>
        ensures { seen result ≡ line_found self.now }
    {
        Seen {
            address: self.address.as_ref(),
            base: self.base,
        }
    }

    /// Whether it is the last line, which ends in no newline.
    pub(crate) fn is_last(&self) -> bool
        ensures { LineIsLast self.now result }
    {
        match &self.body {
            Body::Kept(kept) => kept.is_last,
            Body::Open(line) => line.newline.is_empty(),
        }
    }

    /// Whether it has no bytes, and ends in no newline.
    pub(crate) fn has_no_bytes(&self) -> bool
        ensures { LineHasNoBytes self.now result }
    {
        match &self.body {
            Body::Kept(kept) => kept.span.start == kept.span.end,
            Body::Open(line) => line.has_no_bytes(),
        }
    }

    /// Makes it a line with its pieces, if it is none yet; these are the lines of the document.
    pub(crate) fn open(
        &mut self,
        texts: Texts<'t>,
        known: &[KnownLine<'t>],
    ) -> Result<(), AllocError>
        ensures address { self.new.address ≡ self.old.address }
        ensures base { self.new.base ≡ self.old.base }
        ensures opened { OnOk result (OpensBody texts.entry (lines_known known.now) self.old.body self.new.body) }
    {
        if let Body::Kept(kept) = self.body {
            if let Some(line) = known.get(kept.line) {
                let opened = line.open(texts)?;
                self.body = Body::Open(Box::new(texts.alloc, opened)?);
            }
        }
        Ok(())
    }

    /// Gives it another newline.
    pub(crate) fn end_in(
        &mut self,
        texts: Texts<'t>,
        known: &[KnownLine<'t>],
        newline: Leaf<'t>,
    ) -> Result<(), AllocError>
        ensures address { self.new.address ≡ self.old.address }
        ensures base { self.new.base ≡ self.old.base }
        ensures opened { let lines = (lines_known known.now) in
            OnOk result (OpensToEndIn (leaf_text newline.entry) texts.entry lines self.old.body self.new.body) }
    {
        self.open(texts, known)?;
        if let Body::Open(open) = &mut self.body {
            open.newline = newline;
        }
        Ok(())
    }

    /// A line that an edit writes.
    pub(crate) fn new(
        alloc: Global,
        address: Option<Address>,
        base: Option<usize>,
        expr: Expr<'t>,
        newline: Leaf<'t>,
    ) -> Result<Line<'t>, AllocError>
        ensures address { IfOk result (λ l. l.address ≡ address) }
        ensures base { IfOk result (λ l. l.base ≡ base) }
        ensures outline { IfOk result (λ l. HasOutline (alone (expr_outlined expr.entry) (leaf_text newline.entry)) l.body) }
    {
        let tail = Blank {
            ws: Leaf::EMPTY,
            comment: None,
        };
        let open = OpenLine {
            is_new: true,
            ws: Leaf::EMPTY,
            expr,
            tail,
            newline,
        };
        Ok(Line {
            address,
            base,
            body: Body::Open(Box::new(alloc, open)?),
        })
    }

    /// The last line of no bytes.
    pub(crate) fn empty(alloc: Global) -> Result<Line<'t>, AllocError>
        ensures { IfOk result (λ l. (l.address ≡ None) × (l.base ≡ None) × HasOutline (alone Nothing []) l.body) }
    {
        Line::new(alloc, None, None, Expr::Blank, Leaf::EMPTY)
    }
}

/// Whether one of the lines stands at the address or below.
fn is_any_below(lines: &[Line<'_>], at: &Address) -> bool
    ensures { result ≡ list_any (λ (l : WorkingLine). lies_below at.now l.address) lines.now }
{
    for line in lines {
        if line.seen().is_below(at) {
            return true;
        }
    }
    false
}

impl<'t> Slot<'t> {
    /// How many lines stand there.
    pub(crate) fn count(&self) -> usize
        ensures { (read : Read) → result ≡ length (slot_standing read self.now) }
    {
        match self {
            Slot::Kept(_) => 1,
            Slot::Lines(lines) => lines.len(),
        }
    }

    /// A line, by its index, to be looked at; the units are those of the document.
    pub(crate) fn seen<'a>(&'a self, units: &'a [Unit], index: usize) -> Option<Seen<'a>>
        ensures { SeesLine units.now self.now index result }
    {
        match self {
            Slot::Kept(kept) if index == 0 => Some(kept.seen(units)),
            Slot::Kept(_) => None,
            Slot::Lines(lines) => Some(lines.get(index)?.seen()),
        }
    }

    /// The index of its first line that is what is sought.
    pub(crate) fn find<'a>(&'a self, units: &'a [Unit], what: Sought, at: &Address) -> Option<usize>
        ensures finds { FindsIn what at.now units.now self.now result }
        ensures first { FindsFirstIn what at.now units.now self.now result }
        ensures low { IfSome result (λ index. index + 1 < 2 ^ 64) }
    {
        for index in 0..self.count() {
            let line = self.seen(units, index)?;
            if line.is_sought(what, at) {
                return Some(index);
            }
        }
        None
    }

    /// Whether one of its lines stands at the address or below.
    pub(crate) fn is_below(&self, units: &[Unit], at: &Address) -> bool
        ensures { (lines : List ReadLine) → result ≡ list_any (is_below at.now) (slot_standing (read_by units.now lines) self.now) }
    {
        match self {
            Slot::Kept(kept) => kept.seen(units).is_below(at),
            Slot::Lines(lines) => is_any_below(lines, at),
        }
    }

    /// Whether the line with the index is the last one, which ends in no newline.
    pub(crate) fn is_last(&self, index: usize) -> bool
        ensures { SlotIsLast self.now index result }
    {
        match self {
            Slot::Kept(kept) => kept.is_last,
            Slot::Lines(lines) => match lines.get(index) {
                Some(line) => line.is_last(),
                None => false,
            },
        }
    }

    /// Whether the line with the index has no bytes, and ends in no newline.
    pub(crate) fn has_no_bytes(&self, index: usize) -> bool
        ensures { SlotHasNoBytes self.now index result }
    {
        match self {
            Slot::Kept(kept) => kept.span.start == kept.span.end,
            Slot::Lines(lines) => match lines.get(index) {
                Some(line) => line.has_no_bytes(),
                None => false,
            },
        }
    }

    /// Makes its line one that can be changed, if it is none yet.
    pub(crate) fn open(&mut self, alloc: Global, units: &[Unit]) -> Result<(), AllocError>
        ensures { OnOk result (OpensSlot units.now self.old self.new) }
    {
        if let Slot::Kept(kept) = self {
            let line = kept.as_line(alloc, units)?;
            let mut lines = Vec::with_capacity(alloc, 1)?;
            lines.push(line)?;
            *self = Slot::Lines(lines);
        }
        Ok(())
    }

    /// Its lines, if it is opened.
    pub(crate) fn opened(&mut self) -> Option<&mut Vec<Line<'t>>> {
        match self {
            Slot::Kept(_) => None,
            Slot::Lines(lines) => Some(lines),
        }
    }

    /// The line with the index, if it is opened.
    pub(crate) fn line_mut(&mut self, index: usize) -> Option<&mut Line<'t>> {
        self.opened()?.get_mut(index)
    }
}
