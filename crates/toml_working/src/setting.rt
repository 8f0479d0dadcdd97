//! `set`: the bytes of the value at the address become those of the edit's value.
ghost use Rattle.std.specs.Prelude.{IfOk, OnOk};
ghost use Rattle.toml_working.specs.Starting.{read_of};
ghost use Rattle.toml_layout.specs.OpenOutlines.{value};
ghost use Rattle.toml_working.specs.Stands.{KeepsRest, TreeSets};

use crate::working::{Before, Tree};
use std::alloc::AllocError;
use toml_layout::{Inside, Value};
use toml_names::{Address, Place};

impl<'x> Tree<'x> {
    /// Puts a value in place of the one at the address. It answers `false` where no single value stands there: a table that
    /// headers or dotted keys make, or an array of tables.
    pub fn set(
        &mut self,
        before: Before<'_, 'x>,
        named: Option<Place>,
        at: &Address,
        new: Value<'x>,
    ) -> Result<bool, AllocError>
        ensures set { IfOk result (λ done. TreeSets at.now (value new.entry) (read_of before.entry) self.old self.new done) }
        ensures rest { OnOk result (KeepsRest self.old self.new) }
    {
        match self.value_line(before, named, at) {
            Some(place) => self.change_value(before, place, at, Inside::Set(new)),
            None => Ok(false),
        }
    }
}
