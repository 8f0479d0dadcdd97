//! What an edit changes in a value.
ghost use Rattle.std.specs.Prelude.{IfOk};
ghost use Rattle.toml_layout.specs.ChangingIn.{ChangesIn};
ghost use Rattle.toml_layout.specs.OpenOutlines.{value as value_outlined};

use crate::members::Held;
use crate::texts::Texts;
use crate::tree::Value;
use std::alloc::AllocError;
use toml_names::Step;

/// What becomes of what stands in a value at some steps.
#[derive(Drop)]
pub enum Inside<'t> {
    /// A value stands there in place of the old one.
    Set(Value<'t>),
    /// A value is put in there; these are the spellings of the whole address.
    Insert {
        spelled: &'t [String],
        new: Value<'t>,
    },
    /// It gets another name, by its spelling.
    Rename(&'t str),
    /// It is taken out.
    Remove,
}

impl<'t> Texts<'t> {
    /// Changes what stands in the value at the steps. It answers `false` where nothing stands there to be set, or where no
    /// array and no inline table holds it, or would hold it.
    pub fn change_in(
        self,
        own: &mut Value<'t>,
        steps: &[Step],
        change: Inside<'t>,
    ) -> Result<bool, AllocError>
        ensures { IfOk result (ChangesIn self.entry.layout steps.now change.entry (value_outlined own.old) (value_outlined own.new)) }
    {
        match change {
            Inside::Set(new) => self.set_in(own, steps, new),
            Inside::Insert { spelled, new } => {
                self.change_held(own, steps, Held::Put { spelled, new })
            }
            Inside::Rename(to) => {
                self.rename_in(own, steps, to)?;
                Ok(true)
            }
            Inside::Remove => self.change_held(own, steps, Held::Out),
        }
    }
}
