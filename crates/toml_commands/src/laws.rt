//! Laws over the definitions: nothing is run.
ghost use Rattle.toml_commands.specs.Certify.{EditedIsCertified};
ghost use Rattle.toml_commands.specs.Edit.{PlainIsPrinted};
ghost use Rattle.toml_commands.specs.Listing.{OneListing};
ghost use Rattle.toml_commands.specs.Show.{OneLine};

/// A document has at most one line of tagged JSON.
pub fn shown()
    ensures { OneLine }
{}

/// Where all edits of a list are defined on the data so far and plain on a document, and the text that they write is within the
/// limit, `edit` prints `ok` and has that text written, and a certificate of it; but for want of memory.
pub fn edited()
    ensures { PlainIsPrinted }
{}

/// A document has at most one list of its addresses.
pub fn listed()
    ensures { OneListing }
{}

/// Of what `edit` writes for fewer than 2^63 edits `certify` says `yes`, and has the very certificate written that `edit` writes
/// beside it; but for want of memory.
pub fn certified()
    ensures { EditedIsCertified }
{}
