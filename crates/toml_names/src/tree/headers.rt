//! Headers and whole lines entered into the tree of names.
ghost use Rattle.std.specs.Prelude.{◌∷◌, ◌≡◌, ◌<◌, length, MatchOption, slice_index_or, true, []};
ghost use Rattle.toml_tree.specs.Lines.{line as tree_line};
ghost use Rattle.toml_tree.specs.View.{piece, key as tree_key};
ghost use Rattle.toml_names.specs.declared.mentions.mention.Role.TheVariants.{Passed, Bare};
ghost use Rattle.toml_names.specs.model.Addresses.{child};
ghost use Rattle.toml_names.specs.tree.EnteringLines.{EntersLine, ClashesInLine};
ghost use Rattle.toml_names.specs.tree.Headers.{header_fronts};
ghost use Rattle.toml_names.specs.mentions.Keys.{part_name, key_names};
ghost use Rattle.toml_names.specs.mentions.KeyParts.{expr_key_parts};
ghost use Rattle.toml_names.specs.tree.LongKeys.{CanEnterHeaders, IsLongEntry, IsLongKey};
ghost use Rattle.toml_names.specs.mentions.Mentions as mentions;
ghost use Rattle.toml_names.specs.mentions.Mentions.{table_at, entered, ends_tables};
ghost use Rattle.toml_names.specs.tree.NameTree.{IsAbsent, IsInner, IsTree, ClashesAfter, Passes};
ghost use Rattle.toml_names.specs.tree.EnteringHeaders.{AddsTable, PassedFronts};
ghost use Rattle.toml_names.specs.tree.Nodes.{Spot, address_at};
ghost use Rattle.toml_names.specs.tree.Steps.{IsNode, Steps};

use crate::mentions::mention::{Kind, Role};
use crate::tree::long_keys::is_long;
use crate::tree::name_tree::{EnterFault, Found, NameTree};
use toml_tree::{Expr, Key, Line, Piece};

/// What a line leaves: the node of its value, table or element, if it is not blank, and that of the last header's
/// table.
#[derive(Clone, Copy, Drop)]
pub struct Entered {
    pub own: Option<usize>,
    pub section: usize,
}

impl<'t> NameTree<'t> {
    /// Where a header goes on at a node: in the last table of an array, or in the table itself.
    pub(crate) fn inner(&self, id: usize) -> usize
        requires there { IsNode self.now.nodes.items id }
        ensures within { result < length self.now.nodes.items }
        ensures entered { IsInner self.now.nodes.items id result }
    {
        match self.nodes[id].role() {
            Role::Tables => self.nodes[id].elements().last().copied().unwrap_or(id),
            _ => id,
        }
    }

    /// Passes through a name of the table of a node, into the last table of an array; none where the name is new and only
    /// names that are there are followed.
    fn pass(
        &mut self,
        known: bool,
        at: usize,
        part: Piece<'t>,
        line: usize,
    ) -> Result<Option<usize>, EnterFault>
        requires there { IsNode self.old.nodes.items at }
        ensures { let before = self.old.nodes.items in
            let after = self.new.nodes.items in
            let name = part_name (piece part.entry) in
            let here = child (address_at before at) name in
            Steps 1 self.old self.new result
            (λ r. MatchOption r ((known ≡ true) × IsAbsent before at name) (λ id. Passes before after id at line name))
            (ClashesAfter before (λ ms. table_at line Passed (entered ms here) ∷ [])) }
    {
        let found = match self.follow(known, at, part, Role::Passed, Kind::Table, line)? {
            Some(found) => found,
            None => return Ok(None),
        };
        match found {
            Found::Known(there) => {
                let id = self.inner(there);
                self.mention(id, Role::Passed, line)?;
                Ok(Some(id))
            }
            Found::New(id) => Ok(Some(id)),
        }
    }

    /// Passes through the proper fronts of a header's key, from the root, and gives the table of the last of them and the
    /// key's last part; none where the key is too long and one of the fronts is new.
    pub(crate) fn pass_fronts(
        &mut self,
        key: &Key<'t>,
        line: usize,
    ) -> Result<Option<(usize, Piece<'t>)>, EnterFault>
        requires tree { IsTree self.old.nodes.items }
        ensures { let before = self.old.nodes.items in
            let after = self.new.nodes.items in
            let names = key_names (tree_key key.now) in
            Steps (length key.now.rest.items) self.old self.new result
            (λ r. MatchOption r (CanEnterHeaders before line names × IsLongKey [] names)
            (λ w. PassedFronts before after line w.0 (part_name (piece w.1)) names))
            (ClashesAfter before (λ ms. header_fronts line ms [] names)) }
    {
        let long = is_long(0, key);
        let mut here = 0;
        let mut part = key.first;
        for dotted in &key.rest {
            match self.pass(long, here, part, line)? {
                Some(id) => here = id,
                None => return Ok(None),
            }
            part = dotted.part;
        }
        Ok(Some((here, part)))
    }

    /// Enters a header of an array of tables under a name of the table of a node: the array, and its next element, whose
    /// node it gives.
    pub(crate) fn enter_tables(
        &mut self,
        at: usize,
        part: Piece<'t>,
        line: usize,
    ) -> Result<usize, EnterFault>
        requires there { IsNode self.old.nodes.items at }
        ensures { let before = self.old.nodes.items in
            let after = self.new.nodes.items in
            let name = part_name (piece part.entry) in
            let here = child (address_at before at) name in
            Steps 1 self.old self.new result
            (λ id. AddsTable before after id line here)
            (ClashesAfter before (λ ms. ends_tables line ms here)) }
    {
        match self.find_or_grow(at, part, Role::Tables, Kind::Array, line)? {
            Found::Known(array) => self.enter_next_table(array, line),
            Found::New(array) => Ok(self.grow_element(array, Role::Element, Kind::Table, line)?),
        }
    }

    /// Enters one more header of an array of tables that is there: the array, and its next element, whose node it gives.
    fn enter_next_table(&mut self, array: usize, line: usize) -> Result<usize, EnterFault>
        requires there { IsNode self.old.nodes.items array }
        requires mention { (d : Spot) → (slice_index_or self.old.nodes.items array d).role ≡ Bare → ⊥ }
        ensures { let before = self.old.nodes.items in
            let after = self.new.nodes.items in
            let here = address_at before array in
            Steps 0 self.old self.new result
            (λ id. AddsTable before after id line here)
            (ClashesAfter before (λ ms. ends_tables line ms here)) }
    {
        self.mention(array, Role::Tables, line)?;
        Ok(self.grow_element(array, Role::Element, Kind::Table, line)?)
    }

    /// Enters what a line names, the last header's table being at a node; none where it goes and its key alone is too
    /// long.
    pub(crate) fn enter_line(
        &mut self,
        at: usize,
        number: usize,
        line: &Line<'t>,
    ) -> Result<Option<Entered>, EnterFault>
        requires there { IsNode self.old.nodes.items at }
        ensures { let before = self.old.nodes.items in
            let after = self.new.nodes.items in
            let e = (tree_line line.now).expr in
            Steps (expr_key_parts e) self.old self.new result
            (λ r. MatchOption r (IsLongEntry before at number e) (EntersLine before after at number e))
            (ClashesInLine before at number e) }
    {
        match line.expr() {
            Expr::Blank(_) => Ok(Some(Entered {
                own: None,
                section: at,
            })),
            Expr::KeyVal { keyval, .. } => match self.pair_unless_long(at, keyval, number)? {
                Some(id) => Ok(Some(Entered {
                    own: Some(id),
                    section: at,
                })),
                None => Ok(None),
            },
            Expr::Std { header, .. } => match self.table_unless_long(&header.key, number)? {
                Some(id) => Ok(Some(Entered {
                    own: Some(id),
                    section: id,
                })),
                None => Ok(None),
            },
            Expr::Array { header, .. } => match self.tables_unless_long(&header.key, number)? {
                Some(id) => Ok(Some(Entered {
                    own: Some(id),
                    section: id,
                })),
                None => Ok(None),
            },
        }
    }
}
