//! What of two texts stands in no unit.
ghost use Rattle.std.specs.Prelude.{◌≡◌, ◌↔◌, IsTrue, map};
ghost use Rattle.toml_tree.specs.Spells.{mark_of};
ghost use Rattle.toml_edits.specs.Edits.{change};
ghost use Rattle.toml_checker.specs.Frame.{KeepsFrame};

use toml_edits::Edit;

/// The mark U+FEFF at the front of a text, or nothing.
fn mark(text: &[u8]) -> &[u8]
    ensures { result.now ≡ mark_of text.now }
{
    match text {
        [0xEF, 0xBB, 0xBF, ..] => &text[..3],
        _ => &[],
    }
}

/// Whether the mark is in both texts or in neither.
fn have_one_mark(before: &[u8], after: &[u8]) -> bool
    ensures { IsTrue result ↔ (mark_of before.now ≡ mark_of after.now) }
{
    mark(before) == mark(after)
}

/// Whether the mark is in both texts or in neither, and the texts are equal where there is no edit.
pub(crate) fn keeps_frame(before: &[u8], edits: &[Edit], after: &[u8]) -> bool
    ensures { IsTrue result ↔ KeepsFrame (map change edits.now) before.now after.now }
{
    if !have_one_mark(before, after) {
        return false;
    }
    !edits.is_empty() || before == after
}
