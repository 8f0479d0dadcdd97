//! Laws over the definitions: each function's contract is one or a few, and nothing is run.
ghost use Rattle.toml_tree.specs.Laws.{OneTree, InsideIsOfProfile, OneValue, OneKeyVal, OneExpr, DepthIsNesting, ReaderIsSound, ReaderIsComplete, ValueReaderIsSound, ValueReaderIsComplete};
ghost use Rattle.toml_tree.specs.Profiles.{OneTreeIn, OneIsInTwo};
ghost use Rattle.toml_tree.specs.Pieces.{ValuePieceIsText, ValueHasByte, ValueStartsThere, KeyValStartsThere, ExprStartsThere};
ghost use Rattle.toml_tree.specs.Parts.{PartsJoin, SizesAdd, FrontIsPlaced, BackIsPlaced, BothArePlaced};
ghost use Rattle.toml_tree.specs.Moved.{MovedValueSpells, MovedKeyValSpells, MovedExprSpells, MovedValueText, MovedKeyValText, MovedExprText};
ghost use Rattle.toml_tree.specs.Inner.{LinesInside, KeyValInside, ValueOfKeyVal, ValuesInside, KeyValsInside};
ghost use Rattle.toml_tree.specs.Bare.{BareValueText, BareItemsText, BarePairsText, BareLinesText, BareValueOfProfile, BareLinesOfProfile};
ghost use Rattle.toml_tree.specs.MarkedTexts.{MarkEndsAtChar, TextIsSpelled};
ghost use Rattle.toml_tree.specs.Places.{PutValueIsSame, PutLinesAreSame, PutValueSpells, PutLinesSpell, LinesHaveNoMark, PutDocSpells, PutValueOfProfile, PutLinesOfProfile};
ghost use Rattle.toml_tree.specs.ViewLaws.{ViewOfScalar, ViewOfArray, ViewOfInline, ViewOfKeyVal};

/// A text has at most one tree, in either profile.
pub fn one_tree()
    ensures one { OneTree }
    ensures of_profile { OneTreeIn }
{}

/// What spells a text in profile 1 spells it in profile 2. What stands in a value of a profile is of it.
pub fn profiles()
    ensures wider { OneIsInTwo }
    ensures inside { InsideIsOfProfile }
{}

/// A tree is of a profile whatever places it has, or none.
pub fn placeless_profiles()
    ensures bare_value { BareValueOfProfile }
    ensures bare_lines { BareLinesOfProfile }
    ensures put_value { PutValueOfProfile }
    ensures put_lines { PutLinesOfProfile }
{}

/// A text is at most one value, at most one key/value pair, and at most one expression.
pub fn one_part()
    ensures value { OneValue }
    ensures keyval { OneKeyVal }
    ensures expr { OneExpr }
{}

/// The depth of a value is how deep values nest in it.
pub fn depths()
    ensures { DepthIsNesting }
{}

/// The plain reader reads a tree exactly where one of the profile spells the text, and reads that tree.
pub fn plain_reader()
    ensures sound { ReaderIsSound }
    ensures complete { ReaderIsComplete }
    ensures value_sound { ValueReaderIsSound }
    ensures value_complete { ValueReaderIsComplete }
{}

/// A value's own piece begins where its parts stand and is their text, a byte at least; a pair and an expression begin where their parts stand.
pub fn pieces()
    ensures text { ValuePieceIsText }
    ensures byte { ValueHasByte }
    ensures value_start { ValueStartsThere }
    ensures keyval_start { KeyValStartsThere }
    ensures expr_start { ExprStartsThere }
{}

/// Parts before others lie in the whole, in order: their texts join, their sizes add, and each stands at its place exactly where the whole does.
pub fn parts()
    ensures texts { PartsJoin }
    ensures sizes { SizesAdd }
    ensures front { FrontIsPlaced }
    ensures back { BackIsPlaced }
    ensures both { BothArePlaced }
{}

/// A tree spells a text at one place exactly where, moved, it spells it further behind.
pub fn moved()
    ensures value { MovedValueSpells }
    ensures keyval { MovedKeyValSpells }
    ensures expr { MovedExprSpells }
{}

/// What is moved keeps its text, in its form or not.
pub fn moved_texts()
    ensures value { MovedValueText }
    ensures keyval { MovedKeyValText }
    ensures expr { MovedExprText }
{}

/// Each expression, pair and value inside a tree that spells a text spells its own text at its own place.
pub fn inner()
    ensures lines { LinesInside }
    ensures keyval { KeyValInside }
    ensures value { ValueOfKeyVal }
    ensures values { ValuesInside }
    ensures keyvals { KeyValsInside }
{}

/// Without its places a tree has the same text.
pub fn bare_texts()
    ensures value { BareValueText }
    ensures items { BareItemsText }
    ensures pairs { BarePairsText }
    ensures lines { BareLinesText }
{}

/// What is in the forms, whatever places it has, is the same tree but for its places when it is put at a place, and spells its own text there.
pub fn put_trees()
    ensures same_value { PutValueIsSame }
    ensures same_lines { PutLinesAreSame }
    ensures value { PutValueSpells }
    ensures lines { PutLinesSpell }
{}

/// Lines in the forms begin with no mark, and behind a mark or none they are the document of the text that they make.
pub fn put_documents()
    ensures no_mark { LinesHaveNoMark }
    ensures document { PutDocSpells }
{}

/// The tree of a parsed value, and of a parsed pair, is that of what it holds.
pub fn views()
    ensures scalar { ViewOfScalar }
    ensures array { ViewOfArray }
    ensures inline { ViewOfInline }
    ensures keyval { ViewOfKeyVal }
{}

/// A document's text is its mark, or nothing, and its lines, and these begin where a character does.
pub fn marked_texts()
    ensures text { TextIsSpelled }
    ensures mark { MarkEndsAtChar }
{}
