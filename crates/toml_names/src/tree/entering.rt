//! Keys and values entered into the tree of names.
ghost use Rattle.std.specs.Prelude.{◌∷◌, ◌≡◌, true, false, MatchOption, length, IfOk, slice_index_or, []};
ghost use Rattle.toml_tree.specs.View.{piece, key as tree_key, value, keyval as tree_keyval};
ghost use Rattle.toml_names.specs.declared.mentions.mention.Role.TheVariants.{Bare, Valued};
ghost use Rattle.toml_names.specs.model.Addresses.{below, child};
ghost use Rattle.toml_names.specs.mentions.Keys.{part_name, key_names};
ghost use Rattle.toml_names.specs.mentions.KeyParts.{value_key_parts, keyval_key_parts};
ghost use Rattle.toml_names.specs.mentions.Mentions.{fronts, inside, is_tables, pair_named};
ghost use Rattle.toml_names.specs.tree.LongKeys.{CanEnterKey, FollowedFronts};
ghost use Rattle.toml_names.specs.tree.NameTree.{IsAbsent, Clashes, EntersInside, EntersTo, HasNoElements, name_at};
ghost use Rattle.toml_names.specs.tree.Nodes.{Spot, address_at};
ghost use Rattle.toml_names.specs.tree.Steps.{GoesOn, Grows, IsNode, Steps};
ghost use Rattle.toml_names.specs.mentions.View.{kind as kind_of};

use crate::meaning::keys::kind_of;
use crate::mentions::mention::{Kind, Role};
use crate::tree::name_tree::{EnterFault, Found, NameTree};
use std::alloc::AllocError;
use toml_tree::{Key, KeyVal, Piece, Value};

impl<'t> NameTree<'t> {
    /// Enters a name of the table of a node in a role other than a value's or that of an array of tables; none where the
    /// name is new and only names that are there are followed.
    pub(crate) fn enter(
        &mut self,
        known: bool,
        at: usize,
        part: Piece<'t>,
        role: Role,
        kind: Kind<'t>,
        line: usize,
    ) -> Result<Option<usize>, EnterFault>
        requires there { IsNode self.old.nodes.items at }
        requires mention { role ≡ Bare → ⊥ }
        requires plain { is_tables role ≡ false }
        ensures { let before = self.old.nodes.items in
            let after = self.new.nodes.items in
            let name = part_name (piece part.entry) in
            let entry = name_at before at name role (kind_of kind.entry) line ∷ [] in
            Steps 1 self.old self.new result
            (λ r. MatchOption r ((known ≡ true) × IsAbsent before at name)
            (EntersTo before after entry (child (address_at before at) name)))
            (Clashes before entry) }
    {
        let found = match self.follow(known, at, part, role, kind, line)? {
            Some(found) => found,
            None => return Ok(None),
        };
        match found {
            Found::Known(id) => {
                self.mention(id, role, line)?;
                Ok(Some(id))
            }
            Found::New(id) => Ok(Some(id)),
        }
    }

    /// Enters a value's own name: nothing may stand there.
    pub(crate) fn enter_valued(
        &mut self,
        at: usize,
        part: Piece<'t>,
        kind: Kind<'t>,
        line: usize,
    ) -> Result<usize, EnterFault>
        requires there { IsNode self.old.nodes.items at }
        ensures enters { let before = self.old.nodes.items in
            let after = self.new.nodes.items in
            let name = part_name (piece part.entry) in
            let entry = name_at before at name Valued (kind_of kind.entry) line ∷ [] in
            Steps 1 self.old self.new result
            (EntersTo before after entry (child (address_at before at) name))
            (Clashes before entry) }
        ensures lone { IfOk result (λ id. (id ≡ length self.old.nodes.items) × HasNoElements self.new.nodes.items id) }
    {
        match self.find_or_grow(at, part, Role::Valued, kind, line)? {
            Found::Known(id) => Err(EnterFault::Clash(self.address(id)?)),
            Found::New(id) => Ok(id),
        }
    }

    /// Enters the proper fronts of a key as tables of dotted keys, and gives the table of the last of them and the
    /// key's last part; none where one of them is new and only names that are there are followed.
    fn enter_fronts(
        &mut self,
        known: bool,
        at: usize,
        key: &Key<'t>,
        line: usize,
    ) -> Result<Option<(usize, Piece<'t>)>, EnterFault>
        requires there { IsNode self.old.nodes.items at }
        ensures { let before = self.old.nodes.items in
            let after = self.new.nodes.items in
            let here = address_at before at in
            let names = key_names (tree_key key.now) in
            Steps (length key.now.rest.items) self.old self.new result
            (λ r. MatchOption r ((known ≡ true) × CanEnterKey before line here names)
            (λ w. FollowedFronts before after line here w.0 (part_name (piece w.1)) names))
            (Clashes before (fronts line here names)) }
    {
        let mut here = at;
        let mut part = key.first;
        for dotted in &key.rest {
            match self.enter(known, here, part, Role::Dotted, Kind::Table, line)? {
                Some(id) => here = id,
                None => return Ok(None),
            }
            part = dotted.part;
        }
        Ok(Some((here, part)))
    }

    /// Enters what a pair names in the table of a node, and gives the node of its value; none where a front of its key is
    /// new and only names that are there are followed.
    #[cycle(entering)]
    pub(crate) fn enter_pair(
        &mut self,
        known: bool,
        at: usize,
        pair: &KeyVal<'t>,
        line: usize,
    ) -> Result<Option<usize>, EnterFault>
        requires there { IsNode self.old.nodes.items at }
        ensures { let before = self.old.nodes.items in
            let after = self.new.nodes.items in
            let p = tree_keyval pair.now in
            let here = address_at before at in
            let names = pair_named line here p.assign p.value in
            Steps (keyval_key_parts p.assign p.value) self.old self.new result
            (λ r. MatchOption r ((known ≡ true) × CanEnterKey before line here (key_names p.assign.key))
            (EntersTo before after names (below here (key_names p.assign.key))))
            (Clashes before names) }
    {
        match self.enter_fronts(known, at, &pair.assign.key, line)? {
            Some((here, part)) => {
                let id = self.enter_valued(here, part, kind_of(&pair.value), line)?;
                self.enter_inside(id, &pair.value, line)?;
                Ok(Some(id))
            }
            None => Ok(None),
        }
    }

    /// Enters what the value of a node names inside it.
    #[cycle(entering)]
    pub(crate) fn enter_inside(
        &mut self,
        id: usize,
        v: &Value<'t>,
        line: usize,
    ) -> Result<(), EnterFault>
        requires there { IsNode self.old.nodes.items id }
        requires lone { (d : Spot) → (slice_index_or self.old.nodes.items id d).elements ≡ [] }
        ensures { let before = self.old.nodes.items in
            let after = self.new.nodes.items in
            let names = inside line (address_at before id) (value v.now) in
            Steps (value_key_parts (value v.now)) self.old self.new result
            (λ _. EntersInside before after names id)
            (Clashes before names) }
    {
        match v {
            Value::Scalar(_, _) => Ok(()),
            Value::Array(array) => {
                for item in &array.items {
                    let what = kind_of(&item.value);
                    let element = self.grow_item(id, what, line)?;
                    self.enter_inside(element, &item.value, line)?;
                }
                Ok(())
            }
            Value::Inline(table) => {
                for pair in &table.pairs {
                    self.enter_pair(false, id, &pair.keyval, line)?;
                }
                Ok(())
            }
        }
    }

    /// A new node, for the next element of an array in a value.
    fn grow_item(&mut self, above: usize, kind: Kind<'t>, line: usize) -> Result<usize, AllocError>
        requires there { IsNode self.old.nodes.items above }
        ensures grown { IfOk result (Grows self.old.nodes.items self.new.nodes.items above Bare (kind_of kind.entry) line) }
        ensures there { IfOk result (IsNode self.new.nodes.items) }
        ensures lone { IfOk result (λ id. (d : Spot) → (slice_index_or self.new.nodes.items id d).elements ≡ []) }
        ensures goes_on { GoesOn 0 self.old self.new }
    {
        self.grow_element(above, Role::Bare, kind, line)
    }
}
