//! Pieces of edited texts. The texts and their certificates are rows of `edit`.

use crate::rows::profile;
use crate::worked::{assert_answers, edits, units_of};
use std::alloc::Global;
use std::test::Fail;
use toml_editor::{edit_pieces, edit_pieces_in};
use toml_edits::Edit;
use toml_text::{Source, Span};
use toml_tree::Profile;
use toml_units::{Certificate, Piece, Unit, join};

/// In a profile, edits and texts: each unit that the certificate pairs, which are those that the edits leave as they are and that
/// lie in no other such unit, lies in one kept piece.
const KEPT: &str = r#"
1
kept | [{"op":"set","at":["port"],"value":"0x1F"}] | port = 1_000 # keep¶
kept | [{"op":"remove","at":["x",0]},{"op":"remove","at":["x",0]}] | x = [1, 2, 3]¶
kept | [{"op":"remove","at":["x",0]}] | x = [1, # one¶ 2]¶
kept | [{"op":"insert","at":["a","d"],"value":"2"}] | a.b = 1¶# c¶[c] # d¶
kept | [{"op":"rename","at":["a"],"to":"z z"}] | [a]¶b = 1 # one¶[a.c]¶
kept | [{"op":"remove","at":["t","y","z",1]}] | t = {x = 1, y.z = [2, # two¶{}]}¶
kept | [{"op":"insert","at":["x",0],"value":"0"}] | x = [1, [2, 3], {k = 4}]¶
kept | [{"op":"rename","at":["x",2,"k"],"to":"m"}] | x = [1, [2, 3], {k = 4}]¶
kept | [{"op":"remove","at":["a",0]}] | [[a]]¶b = 1¶[[a]] # second¶b = 2
kept | [{"op":"remove","at":["b"]}] | a = 1¶b = 2
kept | [{"op":"insert","at":["a","x"],"value":"1"}] | # c¶[a.b] # d¶
kept | [{"op":"insert","at":["x",0],"value":"[0]"},{"op":"insert","at":["x",2],"value":"{}"}] | x = [[1], {k = [2]}]¶
kept | [{"op":"remove","at":["x",0]}] | x = [1, [2]]¶
kept | [{"op":"remove","at":["t","b",0]},{"op":"remove","at":["t","a"]}] | t = {a = 1, b = [3, {c = 4}]}¶
kept | [{"op":"section","at":["a",0,"s"]}] | [[a]]¶b = 1 # one¶[[a]] # second¶
kept | [{"op":"element","at":["a",1]}] | [[a]]¶# last
kept | [{"op":"section","at":["s"]}] | a = 1¶
kept | [{"op":"section","at":["a",0,"c"]}] | [[a]]¶[a.b]¶[[a]]¶x = 1
kept | [{"op":"element","at":["a",2]}] | [[a]]¶[a.b]¶[[a]]¶x = 1
kept | [{"op":"element","at":["n",0]}] | [[a]]¶[a.b]¶[[a]]¶x = 1

2
kept | [{"op":"remove","at":["t","x"]}] | t = {¶  x = 1, # one¶  y = 2,¶}¶
kept | [{"op":"remove","at":["t","y"]}] | t = {¶  x = 1, # one¶  y = 2,¶}¶
kept | [{"op":"insert","at":["t","z"],"value":"3"}] | t = {¶  x = 1, # one¶  y = 2,¶}¶
kept | [{"op":"rename","at":["t"],"to":"u"}] | t = { # c¶}¶
kept | [{"op":"set","at":["t","a","x"],"value":"{ # in\n}"}] | t = {¶  a = {¶    x = 1, # in¶  }, # out¶}¶
kept | [{"op":"insert","at":["x",0],"value":"{ # k\n}"}] | x = [¶  {¶    k = 1, # k¶  }, # first¶  {}, # second¶]¶
kept | [{"op":"remove","at":["t","a","b"]}] | t = {a.b.c = 1, # C¶ a.b.d = 2, # D¶}¶
"#;

/// Whether the span has no bytes or lies in one kept piece.
fn is_kept(pieces: &[Piece], span: Span) -> bool {
    span.start == span.end || pieces.iter().any(|piece| holds(piece, span))
}

/// Whether it is a kept piece in which the span lies.
fn holds(piece: &Piece, span: Span) -> bool {
    match piece {
        Piece::Kept(kept) => kept.start <= span.start && span.end <= kept.end,
        Piece::New(_) => false,
    }
}

/// Whether each unit that the certificate pairs lies in a kept piece.
fn are_kept(pieces: &[Piece], units: &[Unit], certificate: &Certificate) -> bool {
    for (paired, _) in &certificate.pairs {
        match units.get(*paired as usize) {
            Some(unit) if is_kept(pieces, unit.span) => (),
            _ => return false,
        }
    }
    true
}

fn kept_by(alloc: Global, text: &str, edits: &[Edit], profile: Profile) -> Option<bool> {
    let units = units_of(alloc, text)?;
    let (pieces, certificate) = edit_pieces_in(alloc, text.as_bytes(), edits, profile).ok()?;
    Some(are_kept(&pieces, &units, &certificate))
}

fn kept_units(alloc: Global, word: &str, asked: &str) -> Option<String> {
    let (list, text) = asked.split_once(" | ")?;
    let kept = kept_by(alloc, text, &edits(alloc, list)?, profile(word)?)?;
    String::from_str(alloc, if kept { "kept" } else { "not kept" }).ok()
}

#[test]
fn units_that_no_edit_names_lie_in_kept_pieces(rt: HostRuntime) -> Result<(), Fail> {
    assert_answers(&rt, rt.alloc(), KEPT, 27, kept_units)
}

/// The pieces that edits make of a text, and what they are when they are joined.
const PIECES: &str = r#"
port = 1_000 # keep¶
[Kept(Span { start: 0, end: 7 }), New("0x1F"), Kept(Span { start: 12, end: 20 })] "port = 0x1F # keep\n" | [{"op":"set","at":["port"],"value":"0x1F"}]

x = [1, 2, 3]¶
[Kept(Span { start: 0, end: 5 }), Kept(Span { start: 11, end: 14 })] "x = [3]\n" | [{"op":"remove","at":["x",0]},{"op":"remove","at":["x",0]}]
"#;

#[tactic(auto, using(crate::proofs::Edited::pieces_held))]
fn pieces_of(alloc: Global, text: &[u8], edits: &[Edit]) -> Option<String> {
    let Ok(source) = Source::new(text) else {
        return None;
    };
    let Ok((pieces, _)) = edit_pieces(alloc, text, edits) else {
        return None;
    };
    let joined = join(alloc, source, &pieces).ok()?;
    format!(in alloc; "{pieces:?} {:?}", joined.as_str()).ok()
}

fn pieces(alloc: Global, text: &str, list: &str) -> Option<String> {
    pieces_of(alloc, text.as_bytes(), &edits(alloc, list)?)
}

#[test]
fn edited_texts_have_pieces(rt: HostRuntime) -> Result<(), Fail> {
    assert_answers(&rt, rt.alloc(), PIECES, 2, pieces)
}
