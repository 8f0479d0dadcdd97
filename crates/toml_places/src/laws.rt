//! Laws over the definitions: each function's contract is a few, and nothing is run.
ghost use Rattle.toml_places.specs.Laws.{FoundIsSpelled, SpelledIsFound, OnePlace, RefusedWithin, FrontGoesOn, SpelledIsReadBack, PlainLeads, OneAddress, BelowClosed, BelowStepsClosed, PartStands};

/// The plain reader finds the steps that a text spells, and no others; a text spells one list of steps. Others are refused at
/// one of their bytes or at their end, and what stands before that can go on to be a place.
pub fn places()
    ensures sound { FoundIsSpelled }
    ensures found { SpelledIsFound }
    ensures one { OnePlace }
    ensures within { RefusedWithin }
    ensures front { FrontGoesOn }
{}

/// The place that an address is spelled as is read back to its steps, which lead to it whatever stands there.
pub fn spelled_places()
    ensures back { SpelledIsReadBack }
    ensures leads { PlainLeads }
{}

/// A place leads to one address. In closed data what stands below a step, or below all steps of an address, is what the data have
/// there.
pub fn addresses()
    ensures one { OneAddress }
    ensures below { BelowClosed }
    ensures below_steps { BelowStepsClosed }
{}

/// Something stands at each part of a text's data.
pub fn parts()
    ensures { PartStands }
{}
