//! A line of a document, or a value that an edit brings, opened.
ghost use Rattle.std.specs.Prelude.{◌≡◌, IfOk, IfSome, option_map};
ghost use Rattle.toml_text.specs.Source.{text_of};
ghost use Rattle.toml_tree.specs.Lines.{line as tree_line};
ghost use Rattle.toml_tree.specs.View.{assign as tree_assign, gap as tree_gap, header as tree_header, key as tree_key};
ghost use Rattle.toml_tree.specs.View.{keyval as tree_keyval, value as tree_value};
ghost use Rattle.toml_layout.specs.OpenOutlines.{assign as assign_outlined, header as header_outlined, leaf_text};
ghost use Rattle.toml_layout.specs.OpenOutlines.{opening_brackets, closing_brackets};
ghost use Rattle.toml_layout.specs.Opening.{GapStands, IsKeyOpened, OpensArray, OpensGap, OpensInline, OpensKeyVal, OpensLine};
ghost use Rattle.toml_layout.specs.Opening.{OpensText, OpensValue};
ghost use Rattle.toml_layout.specs.Opening.{array_tree, inline_tree};
ghost use Rattle.toml_layout.specs.Parts.{lines_apart};
ghost use Rattle.toml_layout.specs.TreeOutlines.{assign_outline, gap_outline, header_outline};

use crate::layout::Layout;
use crate::texts::Texts;
use crate::tree::{
    Assign, Blank, Brackets, Dotted, Entries, Entry, Expr, Gap, GapPart, Header, Key, KeyVal, Leaf,
    OpenLine, Value,
};
use std::alloc::{AllocError, Global};
use toml_lists::GapList;
use toml_scalar::SyntaxFault;
use toml_text::{Source, Span};
use toml_tree::{Line, Piece, Profile, parse_value_in};

/// Opens trees.
#[derive(Clone, Copy)]
pub(crate) struct Opener<'t> {
    /// Its text is that of the document.
    texts: Texts<'t>,
    /// Whether the tree is the document's, and not one that an edit brings.
    is_kept: bool,
}

impl<'t> Opener<'t> {
    /// Opens what stands in the document.
    pub(crate) fn kept(texts: Texts<'t>) -> Opener<'t>
        ensures { result.texts ≡ texts.entry }
    {
        Opener {
            texts,
            is_kept: true,
        }
    }

    /// Opens what an edit brings.
    pub(crate) fn new(texts: Texts<'t>) -> Opener<'t>
        ensures { result.texts ≡ texts.entry }
    {
        Opener {
            texts,
            is_kept: false,
        }
    }

    /// A piece, kept where the tree is the document's, and else new.
    fn leaf(self, piece: Piece<'t>) -> Leaf<'t>
        ensures { leaf_text result ≡ piece.entry.text.now }
    {
        if self.is_kept {
            Leaf::Kept {
                start: piece.start,
                text: piece.text,
            }
        } else {
            Leaf::New(piece.text)
        }
    }

    /// The bracket or the brace, of one byte, with which the value begins.
    fn opening(self, whole: Piece<'t>, mark: &'static str) -> Leaf<'t>
        ensures { leaf_text result ≡ mark.entry.now }
    {
        if self.is_kept {
            Leaf::Kept {
                start: whole.start,
                text: mark,
            }
        } else {
            Leaf::New(mark)
        }
    }

    /// Whitespace, and the comment behind it if there is one.
    fn blank(self, blank: toml_tree::Blank<'t>) -> Blank<'t>
        ensures ws { leaf_text result.ws ≡ blank.entry.ws.text.now }
        ensures comment { option_map leaf_text result.comment ≡ option_map (λ p. p.text.now) blank.entry.comment }
    {
        let comment = match blank.comment {
            Some(comment) => Some(self.leaf(comment)),
            None => None,
        };
        Blank {
            ws: self.leaf(blank.ws),
            comment,
        }
    }

    /// A gap by its parts, or as one part where it is kept with its lines.
    fn gap(self, gap: &toml_tree::Gap<'t>) -> Result<Gap<'t>, AllocError>
        ensures { OpensGap self.entry.texts (tree_gap gap.now) result }
    {
        if gap.lines().is_empty() {
            return Gap::space(self.texts.alloc, self.leaf(gap.ws()));
        }
        if let Some(lines) = self.kept_lines(gap) {
            return Gap::one(self.texts.alloc, GapPart::Lines(lines));
        }
        let mut opened = Gap::empty(self.texts.alloc);
        for line in gap.lines() {
            opened.push_ws(self.leaf(line.blank.ws))?;
            if let Some(comment) = line.blank.comment {
                opened.parts.push(GapPart::Comment(self.leaf(comment)))?;
            }
            opened
                .parts
                .push(GapPart::Newline(self.leaf(line.newline)))?;
        }
        opened.push_ws(self.leaf(gap.ws()))?;
        Ok(opened)
    }

    /// A gap with lines of the document: it needs no parts.
    fn kept_lines(self, gap: &toml_tree::Gap<'t>) -> Option<Leaf<'t>>
        ensures { let all = tree_gap gap.now in
            IfSome result (λ l. GapStands (text_of self.entry.texts.source) all → lines_apart (leaf_text l) ≡ gap_outline all) }
    {
        if !self.is_kept {
            return None;
        }
        let first = gap.lines().first()?;
        let span = Span {
            start: first.blank.ws.start,
            end: gap.ws().span().end,
        };
        if !self.texts.source.holds(span) {
            return None;
        }
        Some(Leaf::Kept {
            start: span.start,
            text: self.texts.source.slice(span),
        })
    }

    /// A key by its parts.
    fn key(self, key: &toml_tree::Key<'t>) -> Result<Key<'t>, AllocError>
        ensures { IfOk result (IsKeyOpened (tree_key key.now)) }
    {
        let mut rest = Vec::with_capacity(self.texts.alloc, key.rest.len())?;
        for dotted in &key.rest {
            rest.push(Dotted {
                before_dot: self.leaf(dotted.before_dot),
                after_dot: self.leaf(dotted.after_dot),
                part: self.leaf(dotted.part),
            })?;
        }
        Ok(Key {
            first: self.leaf(key.first),
            rest,
        })
    }

    /// A key, and `=` between whitespace.
    fn assign(self, assign: &toml_tree::Assign<'t>) -> Result<Assign<'t>, AllocError>
        ensures { IfOk result (λ a. assign_outlined a ≡ assign_outline (tree_assign assign.now)) }
    {
        Ok(Assign {
            key: self.key(&assign.key)?,
            before_equals: self.leaf(assign.before_equals),
            after_equals: self.leaf(assign.after_equals),
        })
    }

    /// A value with all that stands in it.
    #[cycle(opening)]
    pub(crate) fn value(self, value: &toml_tree::Value<'t>) -> Result<Value<'t>, AllocError>
        ensures { OpensValue self.entry.texts (tree_value value.now) result }
    {
        match value {
            toml_tree::Value::Scalar(_, token) => Ok(Value::Scalar(self.leaf(*token))),
            toml_tree::Value::Array(array) => {
                let entries = self.array(array)?;
                Ok(Value::Array(Box::new(self.texts.alloc, entries)?))
            }
            toml_tree::Value::Inline(table) => {
                let entries = self.inline(table)?;
                Ok(Value::Inline(Box::new(self.texts.alloc, entries)?))
            }
        }
    }

    /// The elements of an array, with all that stands around them.
    #[cycle(opening)]
    fn array(self, array: &toml_tree::Array<'t>) -> Result<Entries<'t>, AllocError>
        ensures { OpensArray self.entry.texts (array_tree array.now) result }
    {
        let mut list = Vec::with_capacity(self.texts.alloc, array.items.len())?;
        for item in &array.items {
            let before = self.gap(&item.before)?;
            let value = self.value(&item.value)?;
            let after = self.gap(&item.after)?;
            list.push(Entry {
                before,
                assign: None,
                value,
                after,
            })?;
        }
        let end = match &array.end {
            Some(gap) => Some(self.gap(gap)?),
            None => None,
        };
        Ok(Entries {
            opening: self.opening(array.whole, "["),
            list: GapList::of(self.texts.alloc, list),
            end,
        })
    }

    /// The pairs of an inline table, with all that stands around them.
    #[cycle(opening)]
    fn inline(self, table: &toml_tree::InlineTable<'t>) -> Result<Entries<'t>, AllocError>
        ensures { OpensInline self.entry.texts (inline_tree table.now) result }
    {
        let mut list = Vec::with_capacity(self.texts.alloc, table.pairs.len())?;
        for pair in &table.pairs {
            let before = self.gap(&pair.before)?;
            let keyval = self.keyval(&pair.keyval)?;
            let after = self.gap(&pair.after)?;
            list.push(Entry {
                before,
                assign: Some(Box::new(self.texts.alloc, keyval.assign)?),
                value: keyval.value,
                after,
            })?;
        }
        let end = match &table.end {
            Some(gap) => Some(self.gap(gap)?),
            None => None,
        };
        Ok(Entries {
            opening: self.opening(table.whole, "{"),
            list: GapList::of(self.texts.alloc, list),
            end,
        })
    }

    /// A key/value pair with all that stands in its value.
    #[cycle(opening)]
    fn keyval(self, pair: &toml_tree::KeyVal<'t>) -> Result<KeyVal<'t>, AllocError>
        ensures { OpensKeyVal self.entry.texts (tree_keyval pair.now) result }
    {
        Ok(KeyVal {
            assign: self.assign(&pair.assign)?,
            value: self.value(&pair.value)?,
        })
    }

    /// A header between its brackets.
    fn header(
        self,
        brackets: Brackets,
        header: &toml_tree::Header<'t>,
    ) -> Result<Header<'t>, AllocError>
        ensures { let outline = header_outline (opening_brackets brackets) (closing_brackets brackets) in
            IfOk result (λ h. header_outlined h ≡ outline (tree_header header.now)) }
    {
        Ok(Header {
            brackets,
            before: self.leaf(header.before),
            key: self.key(&header.key)?,
            after: self.leaf(header.after),
        })
    }

    /// A line of the document with all that stands on it.
    pub(crate) fn line(self, line: &Line<'t>) -> Result<OpenLine<'t>, AllocError>
        ensures { OpensLine self.entry.texts (tree_line line.now) result }
    {
        let (ws, expr, tail) = match line.expr() {
            toml_tree::Expr::Blank(blank) => (Leaf::EMPTY, Expr::Blank, *blank),
            toml_tree::Expr::KeyVal { ws, keyval, tail } => {
                (self.leaf(*ws), Expr::Pair(self.keyval(keyval)?), *tail)
            }
            toml_tree::Expr::Std { ws, header, tail } => {
                let expr = Expr::Header(self.header(Brackets::One, header)?);
                (self.leaf(*ws), expr, *tail)
            }
            toml_tree::Expr::Array { ws, header, tail } => {
                let expr = Expr::Header(self.header(Brackets::Two, header)?);
                (self.leaf(*ws), expr, *tail)
            }
        };
        Ok(OpenLine {
            is_new: false,
            ws,
            expr,
            tail: self.blank(tail),
            newline: self.leaf(line.newline()),
        })
    }
}

/// The text of a value of the profile, opened, if it is one.
pub fn open_value<'t>(
    alloc: Global,
    text: &'t str,
    profile: Profile,
) -> Result<Option<Value<'t>>, AllocError>
    ensures { IfOk result (OpensText profile text.now) }
{
    let Ok(source) = Source::new(text.as_bytes()) else {
        return Ok(None);
    };
    match parse_value_in(alloc, source, profile) {
        Ok(value) => {
            let texts = Texts {
                alloc,
                source,
                layout: Layout::Plain,
            };
            Ok(Some(Opener::new(texts).value(&value)?))
        }
        Err(SyntaxFault::NoMemory) => Err(AllocError),
        Err(_) => Ok(None),
    }
}
