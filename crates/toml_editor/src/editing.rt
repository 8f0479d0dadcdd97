//! The editor as a whole.
ghost use Rattle.std.specs.Prelude.{◌≡◌, [], IfOk, IfErr, map, string_bytes};
ghost use Rattle.toml_text.specs.Source.{text_of};
ghost use Rattle.toml_tree.specs.HandedOut.{tree_of};
ghost use Rattle.toml_tree.specs.declared.profile.Profile.TheVariants.{One};
ghost use Rattle.toml_names.specs.model.AddressSets.{is_hidden};
ghost use Rattle.toml_edits.specs.Edits.{change};
ghost use Rattle.toml_edits.specs.Near.{AreNear};
ghost use Rattle.toml_units.specs.Cursors.{StandsBefore, Walks};
ghost use Rattle.toml_units.specs.declared.cursor.UnitCursor.{UnitCursor};
ghost use Rattle.toml_editor.specs.Edited.{IsEdited, IsEditedWith, IsEditedInPieces, RefusesText, Tells, TellsWith};
ghost use Rattle.toml_working.specs.Tidy.{ArePieces};
ghost use Rattle.toml_editor.specs.Editing.{IsEditedAs, IsJudged, IsMadeAs, IsReadFrom};
ghost use Rattle.toml_editor.specs.declared.fault.EditorFault.TheVariants.{NoMemory};
ghost use Rattle.toml_working.specs.Reading.{IsReadAs};
ghost use Rattle.toml_editor.specs.SpelledEdits.{AreSpelled};
ghost use Rattle.toml_working.specs.Writing.{WritesOut};

use crate::fault::EditorFault;
use crate::making::{Read, make_all};
use crate::spelled::{Spelled, spell_all};
use std::alloc::Global;
use toml_checker::{Afterwards, Finding, find_walked};
use toml_edits::{Draft, Edit, near_addresses};
use toml_layout::{Layout, Texts};
use toml_names::{AddressSet, ReadFault};
use toml_text::{MAX_LEN, Source};
use toml_tree::{Profile, mark};
use toml_units::{Certificate, Piece, TakenLines, UnitCursor, join};
use toml_working::{Before, LineFacts, ReadDocument, Tree, let_go, read_document};

/// What the edits make, not judged yet: the pieces of the edited text, and the text.
#[derive(Drop)]
struct Unjudged {
    pieces: Vec<Piece>,
    text: String,
}

/// What is handed out: the same, with its certificate.
#[derive(Drop)]
struct Edited {
    pieces: Vec<Piece>,
    text: String,
    certificate: Certificate,
}

/// The text that the edits make of a document of profile 1, and its certificate: `edit_in` with `Profile::One`.
pub fn edit(
    alloc: Global,
    before: &[u8],
    edits: &[Edit],
) -> Result<(String, Certificate), EditorFault>
    ensures edited { IfOk result (λ r. IsEdited One before.now (map change edits.now) (string_bytes r.0) r.1.pairs.items) }
    ensures told { IfErr result (Tells One before.now (map change edits.now)) }
{
    edit_in(alloc, before, edits, Profile::One)
}

/// The text that the edits make of a document, one after the other, and the certificate which shows that all else is kept:
/// it pairs each unit that no edit names and that lies in no other such unit, and no others.
///
/// The document and the values of the edits are read in the profile. The judge finds the certificate in it before the text is
/// handed out. Of plain edits (a `set` where a value stands, a `rename`, an `insert` of a name at the root or in a table that has a
/// header, a `remove` of the value of a line, a `section` or an `element` above which no line's value stands) the text is the one
/// that their definition gives, byte for byte (`WritesPlain`); what is answered of them, and where behind them stands an edit with
/// a fault, or one that is refused (`IsRefusedIn`), says `laws::plain_answers`. Faults are told in the order of `EditorFault`.
pub fn edit_in(
    alloc: Global,
    before: &[u8],
    edits: &[Edit],
    profile: Profile,
) -> Result<(String, Certificate), EditorFault>
    ensures edited { IfOk result (λ r. IsEdited profile before.now (map change edits.now) (string_bytes r.0) r.1.pairs.items) }
    ensures told { IfErr result (Tells profile before.now (map change edits.now)) }
{
    edit_with(alloc, before, edits, profile, Layout::Plain)
}

/// What `edit_in` makes, for a program that ends with it: once the data were compared, what both texts name stays in memory, and
/// goes with the program.
pub fn edit_at_exit(
    alloc: Global,
    before: &[u8],
    edits: &[Edit],
    profile: Profile,
) -> Result<(String, Certificate), EditorFault>
    ensures edited { IfOk result (λ r. IsEdited profile before.now (map change edits.now) (string_bytes r.0) r.1.pairs.items) }
    ensures told { IfErr result (Tells profile before.now (map change edits.now)) }
{
    edit_with_at_exit(alloc, before, edits, profile, Layout::Plain)
}

/// What `edit_in` makes, in a layout. By `Layout::Plain` it is that. By `Layout::Follow` new text is written as its neighbours
/// are: the text differs from that of `Layout::Plain` in whitespace, newlines and commas on lines that the edits name or write, in
/// where a new line or pair stands, and in one blank line. Of plain edits it is in each layout the text of their definition.
pub fn edit_with(
    alloc: Global,
    before: &[u8],
    edits: &[Edit],
    profile: Profile,
    layout: Layout,
) -> Result<(String, Certificate), EditorFault>
    ensures edited { IfOk result (λ r. IsEditedWith layout profile before.now (map change edits.now) (string_bytes r.0) r.1.pairs.items) }
    ensures told { IfErr result (TellsWith layout profile before.now (map change edits.now)) }
{
    let edited = edit_document(alloc, before, edits, profile, layout, Afterwards::LetGo)?;
    Ok((edited.text, edited.certificate))
}

/// What `edit_with` makes, for a program that ends with it, as `edit_at_exit`.
pub fn edit_with_at_exit(
    alloc: Global,
    before: &[u8],
    edits: &[Edit],
    profile: Profile,
    layout: Layout,
) -> Result<(String, Certificate), EditorFault>
    ensures edited { IfOk result (λ r. IsEditedWith layout profile before.now (map change edits.now) (string_bytes r.0) r.1.pairs.items) }
    ensures told { IfErr result (TellsWith layout profile before.now (map change edits.now)) }
{
    let Edited {
        text,
        certificate,
        ..
    } = edit_document(alloc, before, edits, profile, layout, Afterwards::Stay)?;
    Ok((text, certificate))
}

/// What the edits make of a document of profile 1, in pieces: `edit_pieces_in` with `Profile::One`.
pub fn edit_pieces(
    alloc: Global,
    before: &[u8],
    edits: &[Edit],
) -> Result<(Vec<Piece>, Certificate), EditorFault>
    ensures edited { IfOk result (λ r. IsEditedInPieces One before.now (map change edits.now) r.0.items r.1.pairs.items) }
    ensures told { IfErr result (Tells One before.now (map change edits.now)) }
{
    edit_pieces_in(alloc, before, edits, Profile::One)
}

/// What `edit_in` makes, certified in the same way, in pieces: kept spans of the text before the edits, which rise and do not overlap, and
/// new texts. No piece is empty; new texts that meet are one, and so are kept spans that touch.
pub fn edit_pieces_in(
    alloc: Global,
    before: &[u8],
    edits: &[Edit],
    profile: Profile,
) -> Result<(Vec<Piece>, Certificate), EditorFault>
    ensures edited { IfOk result (λ r. IsEditedInPieces profile before.now (map change edits.now) r.0.items r.1.pairs.items) }
    ensures told { IfErr result (Tells profile before.now (map change edits.now)) }
{
    let edited = edit_document(
        alloc,
        before,
        edits,
        profile,
        Layout::Plain,
        Afterwards::LetGo,
    )?;
    Ok((edited.pieces, edited.certificate))
}

/// What the edits make of a document, where the judge certifies it.
#[tactic(auto, using(crate::proofs::Judgements::memory_tells))]
fn edit_document(
    alloc: Global,
    before: &[u8],
    edits: &[Edit],
    profile: Profile,
    layout: Layout,
    afterwards: Afterwards,
) -> Result<Edited, EditorFault>
    ensures edited { IfOk result (IsEditedAs layout profile before.now (map change edits.now)) }
    ensures told { IfErr result (TellsWith layout profile before.now (map change edits.now)) }
{
    let spelled = spell_all(alloc, edits)?;
    edit_spelled(alloc, before, edits, &spelled, profile, layout, afterwards)
}

/// Edits the text with the spellings of the edits. These live as long as the text and the edits: new pieces are lent from all.
#[tactic(auto, using(crate::proofs::Judgements::memory_tells, crate::proofs::Judgements::refused_tells))]
fn edit_spelled<'x>(
    alloc: Global,
    before: &'x [u8],
    edits: &'x [Edit],
    spelled: &'x [Spelled],
    profile: Profile,
    layout: Layout,
    afterwards: Afterwards,
) -> Result<Edited, EditorFault>
    requires spelled { AreSpelled (map change edits.now) spelled.now }
    ensures edited { IfOk result (IsEditedAs layout profile before.now (map change edits.now)) }
    ensures told { IfErr result (TellsWith layout profile before.now (map change edits.now)) }
{
    let touched = near_addresses(alloc, edits)?;
    match read(alloc, before, profile, &touched) {
        Ok((source, document)) => edit_read(
            alloc, before, source, document, touched, edits, spelled, profile, layout, afterwards,
        ),
        Err(fault) => Err(fault),
    }
}

/// Edits a document that was read. The judge walks over its units and reads the second text once the working tree, the data
/// and the lines of the first are let go.
fn edit_read<'x>(
    alloc: Global,
    before: &'x [u8],
    source: Source<'x>,
    document: ReadDocument<'x>,
    touched: AddressSet,
    edits: &'x [Edit],
    spelled: &'x [Spelled],
    profile: Profile,
    layout: Layout,
    afterwards: Afterwards,
) -> Result<Edited, EditorFault>
    requires read { IsReadAs profile before.now (text_of source) document }
    requires spelled { AreSpelled (map change edits.now) spelled.now }
    requires touched { AreNear (is_hidden touched) (map change edits.now) }
    ensures edited { IfOk result (IsEditedAs layout profile before.now (map change edits.now)) }
    ensures told { IfErr result (TellsWith layout profile before.now (map change edits.now)) }
{
    let ReadDocument {
        lines,
        facts,
        taken,
    } = document;
    let read = Read {
        before: Before {
            known: &lines,
            units: taken.units(),
        },
        names: taken.names(),
        profile,
    };
    let made = make_text(alloc, source, read, facts, edits, spelled, &touched, layout);
    drop(lines);
    drop(touched);
    match made {
        Ok(it) => certify(alloc, before, taken, edits, it, profile, layout, afterwards),
        Err(fault) => {
            let_go(taken);
            Err(fault)
        }
    }
}

/// What is made is handed on where the judge finds a certificate; a reason of the judge is of this text.
#[tactic(auto, using(crate::proofs::Judgements::memory_tells))]
fn certify<'x>(
    alloc: Global,
    before: &'x [u8],
    taken: TakenLines<'x>,
    edits: &[Edit],
    made: Unjudged,
    profile: Profile,
    layout: Layout,
    afterwards: Afterwards,
) -> Result<Edited, EditorFault>
    requires walks { (cursor : UnitCursor) → StandsBefore taken cursor → Walks profile before.now cursor [] }
    requires made { IsMadeAs layout profile before.now (map change edits.now) made }
    ensures edited { IfOk result (IsEditedAs layout profile before.now (map change edits.now)) }
    ensures told { IfErr result (TellsWith layout profile before.now (map change edits.now)) }
    ensures judged { IfErr result (IsJudged profile before.now (map change edits.now) (string_bytes made.text)) }
{
    if made.text.len() > MAX_LEN {
        let_go(taken);
        return Err(EditorFault::TooLong);
    }
    let cursor = UnitCursor::held(taken);
    let after = made.text.as_bytes();
    match find_walked(alloc, before, cursor, edits, after, profile, afterwards)? {
        Finding::Found(certificate) => Ok(Edited {
            pieces: made.pieces,
            text: made.text,
            certificate,
        }),
        Finding::No(reason) => Err(EditorFault::Unverified(reason)),
    }
}

/// What the edits make of a document, not judged yet; the facts are those of its lines, and are let go once the working tree has
/// them. Of its data those are built that the edits can touch.
#[tactic(auto, using(crate::proofs::Judgements::memory_tells))]
fn make_text<'x>(
    alloc: Global,
    source: Source<'x>,
    read: Read<'_, 'x>,
    facts: Vec<LineFacts>,
    edits: &'x [Edit],
    spelled: &'x [Spelled],
    touched: &AddressSet,
    layout: Layout,
) -> Result<Unjudged, EditorFault>
    requires read { IsReadFrom (text_of source) read facts.items }
    requires spelled { AreSpelled (map change edits.now) spelled.now }
    requires touched { AreNear (is_hidden touched.now) (map change edits.now) }
    ensures made { IfOk result (IsMadeAs layout read.entry.profile (text_of source.entry) (map change edits.now)) }
    ensures told { IfErr result (TellsWith layout read.entry.profile (text_of source.entry) (map change edits.now)) }
{
    let texts = Texts {
        alloc,
        source,
        layout,
    };
    let built = Tree::of(texts, read.before, &facts);
    drop(facts);
    let mut tree = match built {
        Ok(tree) => tree,
        Err(error) => return Err(EditorFault::from(error)),
    };
    let near = read.names.data_near(touched)?;
    let mut draft = Draft::of(near);
    match make_all(alloc, &mut tree, read, &mut draft, edits, spelled) {
        Ok(()) => write_out(alloc, source, &tree),
        Err(fault) => Err(fault),
    }
}

/// What stands in the working tree.
fn write_out<'x>(
    alloc: Global,
    source: Source<'x>,
    tree: &Tree<'x>,
) -> Result<Unjudged, EditorFault>
    ensures pieces { IfOk result (λ made. ArePieces (text_of source.entry) (string_bytes made.text) made.pieces.items) }
    ensures written { let text = text_of source.entry in
        IfOk result (λ made. WritesOut text (tree_of text []).mark.text tree.now.slots.items (string_bytes made.text)) }
    ensures told { IfErr result (λ fault. fault ≡ NoMemory) }
{
    let pieces = tree.pieces(source, mark(source))?.into_list();
    let text = join(alloc, source, &pieces)?;
    Ok(Unjudged { pieces, text })
}

/// The text and its document, or why there is none.
fn read<'x>(
    alloc: Global,
    before: &'x [u8],
    profile: Profile,
    touched: &AddressSet,
) -> Result<(Source<'x>, ReadDocument<'x>), EditorFault>
    ensures read { IfOk result (λ r. IsReadAs profile before.now (text_of r.0) r.1) }
    ensures refused { IfErr result (RefusesText profile before.now) }
{
    let source = match Source::new(before) {
        Ok(source) => source,
        Err(fault) => return Err(EditorFault::Text(fault)),
    };
    match read_document(alloc, source, profile, touched) {
        Ok(document) => Ok((source, document)),
        Err(ReadFault::Syntax(fault)) => Err(EditorFault::from(fault)),
        Err(ReadFault::Names(fault)) => Err(EditorFault::from(fault)),
    }
}
