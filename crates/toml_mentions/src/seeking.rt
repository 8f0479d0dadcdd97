//! A text gone through line by line: which part of which key names a sought address, in which role.
ghost use Rattle.std.specs.Prelude.{◌≡◌, ◌<◌, [], IfOk, List, OnOk, Option, Some, map};
ghost use Rattle.toml_text.specs.Source.{text_of};
ghost use Rattle.toml_scalar.specs.declared.fault.SyntaxFault.TheVariants.{NoMemory};
ghost use Rattle.toml_tree.specs.Lines.{line as tree_line};
ghost use Rattle.toml_tree.specs.Tree as spelled;
ghost use Rattle.toml_tree.specs.View.{array_items, element as item_element, header, key, keyval, piece, value};
ghost use Rattle.toml_tree.specs.declared.piece.Gap.{Gap};
ghost use Rattle.toml_names.specs.mentions.Mentions.{Named, count_tables};
ghost use Rattle.toml_names.specs.model.Addresses.{Address};
ghost use Rattle.toml_mentions.specs.Sought.{Counts, IsFrontOf, IsKeySeen, IsPassed, SeeksNext, Sees, Sight, SoughtIn, Stands, TakesElement, TakesExpr, element_parts, first_sight, inside_parts, most_lines, pair_parts, seen_of, sights, way_to};
ghost use Rattle.toml_mentions.specs.Spots.{IsSpotOf};

use crate::role::Role;
use crate::seeker::{Mention, Seeker};
use crate::way::{indexed, named};
use std::alloc::{AllocError, Global};
use toml_names::Step;
use toml_text::{Source, Span};
use toml_tree::{
    Expr, Header, Item, Key, KeyVal, Line, LineReader, Piece, Profile, SyntaxFault, Value,
};

/// The piece by which a value is spelled.
fn value_piece<'t>(value: &Value<'t>) -> Piece<'t> {
    match value {
        Value::Scalar(_, token) => *token,
        Value::Array(array) => array.whole,
        Value::Inline(table) => table.whole,
    }
}

impl Seeker<'_> {
    /// Goes down a part of a header's key that others follow: on into the last element of an array of tables.
    fn pass(&mut self, way: Option<usize>, part: Piece<'_>) -> Result<Option<usize>, AllocError>
        ensures { (at : Address) (earlier : List Named) → way ≡ way_to self.old.target.now at → Counts self.old.tables.items self.old.target.now earlier
            → IfOk result (λ w. IsPassed self.old self.new at earlier (piece part.entry) w) }
    {
        let named = named(self.alloc, self.target, way, part.text)?;
        let inside = self.entered(named);
        self.mention(inside, Role::Passed, part)?;
        Ok(inside)
    }

    /// Goes down the parts of a header's key that others follow. Gives the way behind them, and the last part.
    fn fronts<'t>(&mut self, keys: &Key<'t>) -> Result<(Option<usize>, Piece<'t>), AllocError>
        ensures { (earlier : List Named) → Counts self.old.tables.items self.old.target.now earlier
            → IfOk result (λ r. IsFrontOf self.old self.new earlier (key keys.now) r.0 (piece r.1)) }
    {
        let mut way = Some(0);
        let mut part = keys.first;
        for dotted in &keys.rest {
            way = self.pass(way, part)?;
            part = dotted.part;
        }
        Ok((way, part))
    }

    /// Takes the header of a table in, and is in its table then.
    fn table(&mut self, head: &Header<'_>) -> Result<(), AllocError>
        ensures { (ws : spelled.Piece) (tail : spelled.Blank) → OnOk result (TakesExpr self.old self.new (spelled.TableLine ws (header head.now) tail)) }
    {
        let (way, part) = self.fronts(&head.key)?;
        let named = named(self.alloc, self.target, way, part.text)?;
        self.mention(named, Role::Header, part)?;
        self.section = named;
        Ok(())
    }

    /// Takes the header of an array of tables in, and is in its new element then.
    fn array_table(&mut self, head: &Header<'_>) -> Result<(), AllocError>
        ensures { (ws : spelled.Piece) (tail : spelled.Blank) → OnOk result (TakesExpr self.old self.new (spelled.ArrayTableLine ws (header head.now) tail)) }
    {
        let (way, part) = self.fronts(&head.key)?;
        let array = named(self.alloc, self.target, way, part.text)?;
        self.section = self.element(array, part)?;
        Ok(())
    }

    /// Takes one more element of an array of tables in.
    fn element(
        &mut self,
        array: Option<usize>,
        part: Piece<'_>,
    ) -> Result<Option<usize>, AllocError>
        ensures { (at : Address) (earlier : List Named) → array ≡ way_to self.old.target.now at → Counts self.old.tables.items self.old.target.now earlier
            → count_tables earlier at < most_lines → IfOk result (λ w. TakesElement self.old self.new at earlier (piece part.entry) w) }
    {
        self.mention(array, Role::Tables, part)?;
        let count = self.tables_at(array);
        self.set_tables(array, count.saturating_add(1));
        let inside = indexed(self.target, array, count);
        self.mention(inside, Role::Element, part)?;
        Ok(inside)
    }

    /// Takes a key in that stands in the table at the way, and tells the way of its value.
    fn key(&mut self, table: Option<usize>, keys: &Key<'_>) -> Result<Option<usize>, AllocError>
        ensures { (at : Address) → table ≡ way_to self.old.target.now at → IfOk result (λ w. IsKeySeen self.old self.new at (key keys.now) w) }
    {
        let mut way = table;
        let mut part = keys.first;
        for dotted in &keys.rest {
            way = named(self.alloc, self.target, way, part.text)?;
            self.mention(way, Role::Dotted, part)?;
            part = dotted.part;
        }
        way = named(self.alloc, self.target, way, part.text)?;
        self.mention(way, Role::Valued, part)?;
        Ok(way)
    }

    /// Takes a key and its value in.
    #[cycle(inside)]
    fn keyval(&mut self, table: Option<usize>, pair: &KeyVal<'_>) -> Result<(), AllocError>
        ensures { (at : Address) → table ≡ way_to self.old.target.now at
            → OnOk result (Sees self.old self.new (sights self.old.target.now (pair_parts at (keyval pair.now).assign (keyval pair.now).value))) }
    {
        match self.key(table, &pair.assign.key)? {
            Some(depth) => self.value(depth, &pair.value),
            None => Ok(()),
        }
    }

    /// Takes in what lies in a value.
    #[cycle(inside)]
    fn value(&mut self, depth: usize, node: &Value<'_>) -> Result<(), AllocError>
        ensures { (at : Address) → Some depth ≡ way_to self.old.target.now at
            → OnOk result (Sees self.old self.new (sights self.old.target.now (inside_parts at (value node.now)))) }
    {
        match node {
            Value::Scalar(_, _) => Ok(()),
            Value::Array(array) => self.items(depth, &array.items),
            Value::Inline(table) => {
                for pair in &table.pairs {
                    self.keyval(Some(depth), &pair.keyval)?;
                }
                Ok(())
            }
        }
    }

    /// Takes in the element of an array that is on the way.
    #[cycle(inside)]
    fn items(&mut self, depth: usize, items: &[Item<'_>]) -> Result<(), AllocError>
        ensures { (at : Address) (end : Option Gap) → Some depth ≡ way_to self.old.target.now at
            → OnOk result (Sees self.old self.new (sights self.old.target.now (element_parts at 0 (array_items (map item_element items.now) end)))) }
    {
        if depth >= self.target.len() {
            return Ok(());
        }
        let Step::Index(index) = &self.target[depth] else {
            return Ok(());
        };
        let number = *index as usize;
        if number >= items.len() {
            return Ok(());
        }
        let item = &items[number];
        self.see_element(depth + 1, value_piece(&item.value).span());
        self.value(depth + 1, &item.value)
    }

    /// Takes in that an element of an array stands here.
    fn see_element(&mut self, depth: usize, span: Span)
        ensures { Sees self.old self.new [] }
    {
        if depth == self.target.len() && self.stood.is_none() {
            self.stood = Some(span);
        }
    }

    /// Takes a line in.
    fn line(&mut self, line: &Line<'_>) -> Result<(), AllocError>
        ensures { OnOk result (TakesExpr self.old self.new (tree_line line.now).expr) }
    {
        match line.expr() {
            Expr::Blank(_) => Ok(()),
            Expr::KeyVal { keyval, .. } => self.keyval(self.section, keyval),
            Expr::Std { header, .. } => self.table(header),
            Expr::Array { header, .. } => self.array_table(header),
        }
    }

    /// Reads a line, takes it in and lets it go. A text that has no tree is read up to where that is found.
    fn take_next<'t>(
        &mut self,
        reader: LineReader<'t>,
    ) -> Result<Option<LineReader<'t>>, AllocError>
        ensures { IfOk result (λ left. SeeksNext self.old reader.entry self.new left) }
    {
        match reader.next(self.alloc) {
            Ok((line, more)) => {
                self.line(&line)?;
                Ok(more)
            }
            Err(fault) => {
                told(fault)?;
                Ok(None)
            }
        }
    }
}

/// Ok where it says something of the text: memory did not lack.
fn told(fault: SyntaxFault) -> Result<(), AllocError>
    ensures { OnOk result (¬ (fault ≡ NoMemory)) }
{
    match fault {
        SyntaxFault::NoMemory => Err(AllocError),
        _ => Ok(()),
    }
}

/// Looks for an address in a text, line by line up to its end.
pub(crate) fn seek<'a>(
    alloc: Global,
    source: Source<'_>,
    profile: Profile,
    target: &'a [Step],
) -> Result<Seeker<'a>, AllocError>
    ensures { IfOk result (SoughtIn target.entry.now profile (text_of source.entry)) }
{
    let mut seeker = Seeker::new(alloc, target)?;
    let mut left = Some(LineReader::new(source, profile));
    while let Some(reader) = left {
        left = seeker.take_next(reader)?;
    }
    Ok(seeker)
}

/// The first place of a text at which what stands at steps is named: the span of the key part. Of an element of an array in a value,
/// which no key part names, it is where the element stands; the root has none. All of the text is read.
pub fn find_spot(
    alloc: Global,
    source: Source<'_>,
    profile: Profile,
    steps: &[Step],
) -> Result<Option<Span>, AllocError>
    ensures { IfOk result (IsSpotOf profile (text_of source.entry) steps.entry.now) }
{
    let seeker = seek(alloc, source, profile, steps)?;
    Ok(spot_of(&seeker.firsts, seeker.stood))
}

/// Where the first of the mentions stands, or else the element.
fn spot_of(firsts: &[Mention], stood: Option<Span>) -> Option<Span>
    ensures { (first : Sight) → first_sight (map seen_of firsts.now) ≡ Some first → result ≡ Some first.span }
{
    match firsts.first() {
        Some(first) => Some(first.span),
        None => stood,
    }
}
