//! Laws over the definitions of what changes on lines: nothing is run.
ghost use Rattle.toml_working.specs.HeldLines.{HeldIsInside, HeldIsNoLine, ParentIsHeld, PutLinesAreOne, TakenLinesAreOne};

/// What an `insert` and a `remove` make of lines that are as the table rules have them is one in a layout, and so it has one text.
pub fn held_lines()
    ensures taken { TakenLinesAreOne }
    ensures put { PutLinesAreOne }
{}

/// Where an array or an inline table in the value of a line holds what stands at an address, the value of a line is the parent or holds
/// it, and what stands at the address lies in the value of a line; it is no line's own value, of lines that are as the table rules have
/// them.
pub fn containers()
    ensures parent { ParentIsHeld }
    ensures inside { HeldIsInside }
    ensures no_line { HeldIsNoLine }
{}
