ghost use Rattle.std.specs.Prelude.{◌≡◌, IfOk, IfErr, length};
ghost use Rattle.toml_text.specs.Source.{text_of};
ghost use Rattle.toml_tree.specs.Document.{document, Refuses, RefusesValue};
ghost use Rattle.toml_tree.specs.Profiles.{IsOfProfile, IsValueOfProfile};
ghost use Rattle.toml_tree.specs.Reading.{here, ahead};
ghost use Rattle.toml_tree.specs.Reads.{cursor, Onward};
ghost use Rattle.toml_tree.specs.Spells.{Spells, SpellsValue, mark_of};
ghost use Rattle.toml_tree.specs.View.{piece, value};
ghost use Rattle.toml_tree.specs.declared.profile.Profile.TheVariants.{One};

use crate::document::Doc;
use crate::piece::Piece;
use crate::profile::Profile;
use crate::reader::Reader;
use crate::tree::Value;
use crate::values::MAX_DEPTH;
use std::alloc::Global;
use toml_scalar::SyntaxFault;
use toml_text::Source;

/// The tree of the text (`toml`) in profile 1: `parse_in` with `Profile::One`.
pub fn parse<'t>(alloc: Global, source: Source<'t>) -> Result<Doc<'t>, SyntaxFault>
    ensures spelled { IfOk result (λ doc. Spells (document doc) (text_of source.entry)) }
    ensures of_profile { IfOk result (λ doc. IsOfProfile One (document doc)) }
    ensures refused { IfErr result (Refuses One (text_of source.entry)) }
{
    parse_in(alloc, source, Profile::One)
}

/// The tree of the text (`toml`): one exactly where some tree of the profile spells the text behind the optional mark
/// U+FEFF.
///
/// A refusal says that none does. Its place is a byte offset from 0, the mark counted, and at most the text's
/// length: what stands there is no form of the grammar (`BadCharacter`, `Expected`), is a bad scalar, which begins
/// there, or is a value nested more than 100 deep. `NoMemory` says nothing of the text.
pub fn parse_in<'t>(
    alloc: Global,
    source: Source<'t>,
    profile: Profile,
) -> Result<Doc<'t>, SyntaxFault>
    ensures spelled { IfOk result (λ doc. Spells (document doc) (text_of source.entry)) }
    ensures of_profile { IfOk result (λ doc. IsOfProfile profile (document doc)) }
    ensures refused { IfErr result (Refuses profile (text_of source.entry)) }
{
    let mut reader = Reader { source, at: 0 };
    let mark = reader.mark();
    let lines = reader.lines(alloc, profile)?;
    Ok(Doc { mark, lines })
}

/// The tree of a text that is one value of profile 1 and nothing else: `parse_value_in` with `Profile::One`.
pub fn parse_value<'t>(alloc: Global, source: Source<'t>) -> Result<Value<'t>, SyntaxFault>
    ensures spelled { IfOk result (λ v. SpellsValue (value v) 0 (text_of source.entry)) }
    ensures of_profile { IfOk result (λ v. IsValueOfProfile One (value v)) }
    ensures refused { IfErr result (RefusesValue One (text_of source.entry)) }
{
    parse_value_in(alloc, source, Profile::One)
}

/// The tree of a text that is one value and nothing else: one exactly where the text is a value of the profile that
/// nests at most 100 deep (`val`). The mark U+FEFF is no part of a value. It refuses as `parse_in` does.
pub fn parse_value_in<'t>(
    alloc: Global,
    source: Source<'t>,
    profile: Profile,
) -> Result<Value<'t>, SyntaxFault>
    ensures spelled { IfOk result (λ v. SpellsValue (value v) 0 (text_of source.entry)) }
    ensures of_profile { IfOk result (λ v. IsValueOfProfile profile (value v)) }
    ensures refused { IfErr result (RefusesValue profile (text_of source.entry)) }
{
    let mut reader = Reader { source, at: 0 };
    let value = reader.value(alloc, MAX_DEPTH, profile)?;
    if !reader.rest().is_empty() {
        return Err(reader.refuse());
    }
    Ok(value)
}

/// The length of the mark U+FEFF at the front, or 0.
fn mark_len(bytes: &[u8]) -> usize
    ensures { result ≡ length (mark_of bytes.now) }
{
    match bytes {
        [0xEF, 0xBB, 0xBF, ..] => 3,
        _ => 0,
    }
}

impl<'t> Reader<'t> {
    /// The mark U+FEFF if it stands here, or an empty piece.
    pub(crate) fn mark(&mut self) -> Piece<'t>
        ensures piece { piece result ≡ here (length (mark_of (cursor self.old).rest)) (cursor self.old) }
        ensures after { cursor self.new ≡ ahead (length (mark_of (cursor self.old).rest)) (cursor self.old) }
        ensures onward { Onward (cursor self.old) (cursor self.new) }
    {
        let len = mark_len(self.rest());
        self.take_to(self.at + len)
    }
}
