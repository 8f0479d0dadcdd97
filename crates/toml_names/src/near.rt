//! What the names of lines tell of the data near the ways of a set of addresses, and beside them.
ghost use Rattle.std.specs.Prelude.{IfOk};
ghost use Rattle.toml_names.specs.model.AddressSets.{is_hidden};
ghost use Rattle.toml_names.specs.model.Data.{kind_at};
ghost use Rattle.toml_names.specs.reader.LineNames.{AreDataNear, Stand, TellsDataBeside};

use crate::line_names::LineNames;
use crate::model::address_set::AddressSet;
use crate::model::datum::Data;
use std::alloc::AllocError;

impl<'t> LineNames<'t> {
    /// The data of the lines taken, of all that the set does not hide: what lies below a name beside the ways of the set is
    /// left out, and an element beside them stands alone.
    pub fn data_near(&self, set: &AddressSet) -> Result<Data, AllocError>
        requires stand { Stand self.now }
        ensures { IfOk result (λ d. AreDataNear self.now (is_hidden set.now) (kind_at d.root)) }
    {
        Ok(Data {
            root: self.tree.datum_near(0, set)?,
        })
    }

    /// Whether the data of the lines taken are these, and where the set hides them those of the other lines. What is hidden
    /// is compared as it stands in both trees of names; scalars' values alone are made, which can lack memory, and of hidden
    /// ones none that both spell alike.
    pub fn has_data_beside(
        &self,
        other: &LineNames<'_>,
        set: &AddressSet,
        data: &Data,
    ) -> Result<bool, AllocError>
        requires stand { Stand self.now }
        requires other { Stand other.now }
        ensures { IfOk result (TellsDataBeside self.now other.now (is_hidden set.now) (kind_at «data».now.root)) }
    {
        self.tree
            .holds_beside(0, &other.tree, Some(0), set, &data.root)
    }
}
