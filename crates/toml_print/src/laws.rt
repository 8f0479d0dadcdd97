//! Laws over the definitions: nothing is run.
ghost use Rattle.toml_print.specs.Laws.{FloatIsNumber, OnePrinted, OneTree, TreeIsTagged};
ghost use Rattle.toml_print.specs.Tagged.{OneTagged};
ghost use Rattle.toml_print.specs.ValueTexts.{OneValueAt};

/// Data have at most one tree, one tagged JSON, which is that of the tree, and one text in each form.
pub fn printed()
    ensures tree { OneTree }
    ensures of_tree { TreeIsTagged }
    ensures tagged { OneTagged }
    ensures text { OnePrinted }
{}

/// In good lines one value at most stands at an address.
pub fn values()
    ensures { OneValueAt }
{}

/// JSON has a number for each float but `inf`, `-inf` and `nan`.
pub fn numbers()
    ensures { FloatIsNumber }
{}
