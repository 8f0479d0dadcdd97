//! Laws over the definitions of what is laid out: nothing is run.
ghost use Rattle.toml_layout.specs.OpenLaws.{EntriesAreOutlined, GapsAreSpelled};
ghost use Rattle.toml_layout.specs.OneOutline.{PutIsOne, SetIsMade, TakenIsOne};
ghost use Rattle.toml_layout.specs.Opening.{BackLies, FrontLies, TextIsTheirs};
ghost use Rattle.toml_layout.specs.PartOutlines.{NoLinesStay, PartedSpells};
ghost use Rattle.toml_layout.specs.Parts.{PartsAreOne};
ghost use Rattle.toml_layout.specs.RenamedPairs.{PairIsRenamed};
ghost use Rattle.toml_layout.specs.RenameOutlines.{RenameStaysAside};
ghost use Rattle.toml_layout.specs.SetOutlines.{SetStaysAside};
ghost use Rattle.toml_layout.specs.TreeOutlines.{ValueIsOutlined, LineIsOutlined, LinesAreOutlined};

/// A value, a line and lines spell the texts of their outlines.
pub fn outlines()
    ensures value { ValueIsOutlined }
    ensures line { LineIsOutlined }
    ensures lines { LinesAreOutlined }
{}

/// What stands between brackets or braces has the outline of its entries, and the parts of a gap spell its text.
pub fn entries()
    ensures entries { EntriesAreOutlined }
    ensures gaps { GapsAreSpelled }
{}

/// Of parts that stand in a text the first ones do, and those behind them; and the text there is theirs.
pub fn lying()
    ensures front { FrontLies }
    ensures back { BackLies }
    ensures text { TextIsTheirs }
{}

/// What a `rename` makes of the key and the value of a line.
pub fn renamed_pairs()
    ensures { PairIsRenamed }
{}

/// A `set` and a `rename` leave a value as it is to which their address does not lead.
pub fn aside()
    ensures set { SetStaysAside }
    ensures rename { RenameStaysAside }
{}

/// A text has one list of parts; those of a gap that is taken apart spell its text, and no lines are among them.
pub fn parts()
    ensures one { PartsAreOne }
    ensures text { PartedSpells }
    ensures lines { NoLinesStay }
{}

/// What an `insert` and a `remove` make of a value whose keys are apart is one in a layout, and so it has one text; and a `set` makes
/// something of each value.
pub fn one_outline()
    ensures taken { TakenIsOne }
    ensures put { PutIsOne }
    ensures set { SetIsMade }
{}
