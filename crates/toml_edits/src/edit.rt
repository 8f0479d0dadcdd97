//! What an edit is.
ghost use Rattle.std.specs.Prelude.{◌≡◌};
ghost use Rattle.toml_edits.specs.Edits.{change, place as place_of};

use toml_names::Address;

/// One edit on the data of a document, at an address. A `value` is the text of one TOML value, `to` is a name.
#[derive(Drop)]
pub enum Edit {
    /// The value takes the place of what stands there.
    Set { at: Address, value: String },
    /// A new member of a table, or a new element of an array before the one that has the index, or at its end.
    Insert { at: Address, value: String },
    /// A member of a table gets another name.
    Rename { at: Address, to: String },
    /// What stands there goes.
    Remove { at: Address },
    /// A new member of a table: an empty table.
    Section { at: Address },
    /// A new element at the end of an array that is a member of a table: an empty table. Where there is no such array, it is made too.
    Element { at: Address },
}

/// The address that an edit names.
pub fn place(edit: &Edit) -> &Address
    ensures { result.now ≡ place_of (change edit.now) }
{
    match edit {
        Edit::Set { at, .. } => at,
        Edit::Insert { at, .. } => at,
        Edit::Rename { at, .. } => at,
        Edit::Remove { at } => at,
        Edit::Section { at } => at,
        Edit::Element { at } => at,
    }
}
