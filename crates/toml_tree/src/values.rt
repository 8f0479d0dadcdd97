//! Values: scalars, arrays and inline tables, each nesting at most so deep.
ghost use Rattle.std.specs.Prelude.{◌≡◌, map, IfOk};
ghost use Rattle.toml_scalar.specs.Faults.{IsAt};
ghost use Rattle.toml_tree.specs.ReadingValues.{scalar_at, item_step, after_element, items_at, array_at, keyval_at, pair_step, pair_at, after_member, pairs_at, may_end, inline_at, value_at};
ghost use Rattle.toml_tree.specs.Reads.{cursor, Moves, ReadsAs};
ghost use Rattle.toml_tree.specs.View.{value, gap, element, keyval, member, table_pairs, all_items, AddsItem, all_pairs, AddsPair};

use crate::piece::Gap;
use crate::profile::Profile;
use crate::reader::Reader;
use crate::step::Step;
use crate::tree::{Array, InlineTable, Item, KeyVal, Pair, Value};
use std::alloc::Global;
use toml_scalar::{SyntaxFault, begins_scalar, scan_scalar};

/// How deep values nest at most: a scalar has depth 1, what stands in an array or an inline table is one deeper.
pub const MAX_DEPTH: usize = 100;

/// Whether the pairs of an inline table may end so: in profile 1 not with a comma.
fn may_end(profile: Profile, pairs: &[Pair<'_>], end: &Option<Gap<'_>>) -> bool
    ensures { result ≡ may_end profile (table_pairs (map member pairs.now) end.now) }
{
    match profile {
        Profile::One => match end {
            Some(_) => pairs.is_empty(),
            None => true,
        },
        Profile::Two => true,
    }
}

impl<'t> Reader<'t> {
    /// A scalar.
    fn scalar(&mut self) -> Result<Value<'t>, SyntaxFault>
        ensures { ReadsAs value self.old self.new result scalar_at }
    {
        let (span, kind) = scan_scalar(self.source, self.at)?;
        Ok(Value::Scalar(kind, self.take_to(span.end)))
    }

    /// The refusal where values may nest no deeper: `TooDeep` where a value begins.
    fn refuse_depth(&self) -> SyntaxFault
        ensures { IsAt self.now.at result }
    {
        if self.begins(b'[') || self.begins(b'{') || begins_scalar(self.rest()) {
            return SyntaxFault::TooDeep { at: self.at };
        }
        self.refuse()
    }

    /// `val`, nesting at most so deep.
    #[cycle(value)]
    pub(crate) fn value(
        &mut self,
        alloc: Global,
        deep: usize,
        profile: Profile,
    ) -> Result<Value<'t>, SyntaxFault>
        ensures { ReadsAs value self.old self.new result (value_at profile deep) }
    {
        if deep == 0 {
            return Err(self.refuse_depth());
        }
        if self.begins(b'[') {
            self.array(alloc, deep - 1, profile)
        } else if self.begins(b'{') {
            self.inline_table(alloc, deep - 1, profile)
        } else {
            self.scalar()
        }
    }

    /// `array`, its values nesting at most so deep.
    #[cycle(value)]
    #[tactic(auto, unfolding(crate::specs::ReadingValues::array_at))]
    fn array(
        &mut self,
        alloc: Global,
        deep: usize,
        profile: Profile,
    ) -> Result<Value<'t>, SyntaxFault>
        ensures { ReadsAs value self.old self.new result (array_at (value_at profile deep)) }
    {
        let start = *self;
        if !self.eat(b'[') {
            return Err(self.refuse());
        }
        let (items, end) = self.items(alloc, deep, profile)?;
        let whole = start.up_to(self);
        let array = Array { whole, items, end };
        Ok(Value::Array(Box::new(alloc, array)?))
    }

    /// `array-values ws-comment-newline array-close`
    #[cycle(value)]
    fn items(
        &mut self,
        alloc: Global,
        deep: usize,
        profile: Profile,
    ) -> Result<(Vec<Item<'t>>, Option<Gap<'t>>), SyntaxFault>
        ensures { ReadsAs all_items self.old self.new result (items_at (value_at profile deep)) }
    {
        let mut items = Vec::new(alloc);
        loop {
            match self.item_step(alloc, deep, profile, &mut items)? {
                Step::Next(()) => {}
                Step::Done(end) => {
                    items.shrink_to_fit();
                    return Ok((items, end));
                }
            }
        }
    }

    /// An item and the comma behind it, or the end of an array.
    #[cycle(value)]
    #[tactic(auto, unfolding(crate::specs::ReadingValues::item_step))]
    fn item_step(
        &mut self,
        alloc: Global,
        deep: usize,
        profile: Profile,
        items: &mut Vec<Item<'t>>,
    ) -> Result<Step<(), Option<Gap<'t>>>, SyntaxFault>
        ensures reads { AddsItem items.old items.new self.old self.new result (item_step (value_at profile deep)) }
        ensures moves { IfOk result (Moves (cursor self.old) (cursor self.new)) }
    {
        let before = self.gap(alloc)?;
        if self.eat(b']') {
            return Ok(Step::Done(Some(before)));
        }
        let value = self.value(alloc, deep, profile)?;
        let after = self.gap(alloc)?;
        let item = Item {
            before,
            value,
            after,
        };
        self.after_item(items, item)
    }

    /// Takes an item into the list, and the comma behind it or the end of its array.
    #[tactic(auto, using(crate::proofs::Ends::last_item_taken), unfolding(crate::specs::ReadingValues::after_element))]
    fn after_item(
        &mut self,
        items: &mut Vec<Item<'t>>,
        item: Item<'t>,
    ) -> Result<Step<(), Option<Gap<'t>>>, SyntaxFault>
        ensures reads { AddsItem items.old items.new self.old self.new result (after_element (element item.entry)) }
        ensures moves { IfOk result (Moves (cursor self.old) (cursor self.new)) }
    {
        items.push(item)?;
        if self.eat(b',') {
            return Ok(Step::Next(()));
        }
        if self.eat(b']') {
            return Ok(Step::Done(None));
        }
        Err(self.refuse())
    }

    /// `inline-table`, its values nesting at most so deep.
    #[cycle(value)]
    #[tactic(auto, unfolding(crate::specs::ReadingValues::inline_at))]
    fn inline_table(
        &mut self,
        alloc: Global,
        deep: usize,
        profile: Profile,
    ) -> Result<Value<'t>, SyntaxFault>
        ensures { ReadsAs value self.old self.new result (inline_at profile (value_at profile deep)) }
    {
        let start = *self;
        if !self.eat(b'{') {
            return Err(self.refuse());
        }
        let (pairs, end) = self.pairs(alloc, deep, profile)?;
        if !may_end(profile, &pairs, &end) {
            // the brace that was read
            return Err(SyntaxFault::Expected { at: self.at - 1 });
        }
        let whole = start.up_to(self);
        let table = InlineTable { whole, pairs, end };
        Ok(Value::Inline(Box::new(alloc, table)?))
    }

    /// `inline-table-keyvals ws %x7D`, and a comma behind the last pair.
    #[cycle(value)]
    fn pairs(
        &mut self,
        alloc: Global,
        deep: usize,
        profile: Profile,
    ) -> Result<(Vec<Pair<'t>>, Option<Gap<'t>>), SyntaxFault>
        ensures { ReadsAs all_pairs self.old self.new result (pairs_at profile (value_at profile deep)) }
    {
        let mut pairs = Vec::new(alloc);
        loop {
            match self.pair_step(alloc, deep, profile, &mut pairs)? {
                Step::Next(()) => {}
                Step::Done(end) => {
                    pairs.shrink_to_fit();
                    return Ok((pairs, end));
                }
            }
        }
    }

    /// A pair and the comma behind it, or the end of an inline table.
    #[cycle(value)]
    #[tactic(auto, unfolding(crate::specs::ReadingValues::pair_step))]
    fn pair_step(
        &mut self,
        alloc: Global,
        deep: usize,
        profile: Profile,
        pairs: &mut Vec<Pair<'t>>,
    ) -> Result<Step<(), Option<Gap<'t>>>, SyntaxFault>
        ensures reads { AddsPair pairs.old pairs.new self.old self.new result (pair_step profile (value_at profile deep)) }
        ensures moves { IfOk result (Moves (cursor self.old) (cursor self.new)) }
    {
        let before = self.pair_gap(alloc, profile)?;
        if self.eat(b'}') {
            return Ok(Step::Done(Some(before)));
        }
        self.pair(alloc, deep, profile, pairs, before)
    }

    /// A pair behind its first gap, and the comma behind it or the end of its inline table.
    #[cycle(value)]
    #[tactic(auto, unfolding(crate::specs::ReadingValues::pair_at))]
    fn pair(
        &mut self,
        alloc: Global,
        deep: usize,
        profile: Profile,
        pairs: &mut Vec<Pair<'t>>,
        before: Gap<'t>,
    ) -> Result<Step<(), Option<Gap<'t>>>, SyntaxFault>
        ensures reads { AddsPair pairs.old pairs.new self.old self.new result (pair_at profile (value_at profile deep) (gap before.entry)) }
        ensures moves { IfOk result (Moves (cursor self.old) (cursor self.new)) }
    {
        let keyval = self.keyval(alloc, deep, profile)?;
        let after = self.pair_gap(alloc, profile)?;
        let pair = Pair {
            before,
            keyval,
            after,
        };
        self.after_pair(pairs, pair)
    }

    /// Takes a pair into the list, and the comma behind it or the end of its inline table.
    #[tactic(auto, using(crate::proofs::Ends::last_pair_taken), unfolding(crate::specs::ReadingValues::after_member))]
    fn after_pair(
        &mut self,
        pairs: &mut Vec<Pair<'t>>,
        pair: Pair<'t>,
    ) -> Result<Step<(), Option<Gap<'t>>>, SyntaxFault>
        ensures reads { AddsPair pairs.old pairs.new self.old self.new result (after_member (member pair.entry)) }
        ensures moves { IfOk result (Moves (cursor self.old) (cursor self.new)) }
    {
        pairs.push(pair)?;
        if self.eat(b',') {
            return Ok(Step::Next(()));
        }
        if self.eat(b'}') {
            return Ok(Step::Done(None));
        }
        Err(self.refuse())
    }

    /// `keyval`, its value nesting at most so deep.
    #[cycle(value)]
    #[tactic(auto, unfolding(crate::specs::ReadingValues::keyval_at))]
    pub(crate) fn keyval(
        &mut self,
        alloc: Global,
        deep: usize,
        profile: Profile,
    ) -> Result<KeyVal<'t>, SyntaxFault>
        ensures { ReadsAs keyval self.old self.new result (keyval_at (value_at profile deep)) }
    {
        let assign = self.assign(alloc)?;
        let value = self.value(alloc, deep, profile)?;
        Ok(KeyVal { assign, value })
    }
}
