//! Laws over the definitions: nothing is run.
ghost use Rattle.toml_edits.specs.EditList.{BadListIsNone, OneEditList};
ghost use Rattle.toml_edits.specs.ListLaws.{CarriedKeepOrder, CarriedOn, CarriedStands, DataIndicesAreLow, ListsCarryApart, ListsCarryFronts};
ghost use Rattle.toml_edits.specs.ListLaws.{FaultOrLead, LeadsStayClosed, OneFirstFault, OneLead, StaysClosed};
ghost use Rattle.toml_edits.specs.NearLaws.{FaultsNear, FaultBeside, HiddenStays, LeadsBeside, LeadsNear};
ghost use Rattle.toml_edits.specs.Laws.{CarriedAlong, CarriedFront, CarriedApart, DataAreClosed, FrontsStand, OneAfter, PartedAtLast};
ghost use Rattle.toml_edits.specs.Fitting.{CarriedStayLow, CarriesRest};
ghost use Rattle.toml_edits.specs.Notes.{SeenIsCarried};
ghost use Rattle.toml_edits.specs.Sides.{SidesAreRight};
ghost use Rattle.toml_edits.specs.Laws.{ElementIsEmpty, NewTablesStay, SectionIsEmpty, SetCarries, SomeAfter, ValuesAreNew, ValuesStand};

/// What is below an address is carried along with it, unless the edit is below the address or a `set` at it. A
/// beginning of what is carried is carried to a beginning as long. Where no fault holds, and nothing stands below
/// nothing, no two things are carried to one address. An address that ends with a step is parted there.
pub fn carried()
    ensures along { CarriedAlong }
    ensures front { CarriedFront }
    ensures apart { CarriedApart }
    ensures parted { PartedAtLast }
{}

/// In data nothing stands below an address where nothing does; an edit without a fault leaves it so, and a list of such
/// edits. Something then stands at each beginning of an address at which something does. Each index in data is below 2^63.
pub fn closed()
    ensures data { DataAreClosed }
    ensures fronts { FrontsStand }
    ensures stays { StaysClosed }
    ensures leads { LeadsStayClosed }
    ensures indices { DataIndicesAreLow }
{}

/// An edit makes one thing of data, and without a fault it makes one. What a value that is set finds there moves as the edit carries it, the place's own
/// fact aside.
pub fn after()
    ensures one { OneAfter }
    ensures some { SomeAfter }
    ensures set { SetCarries }
{}

/// New sections and elements move nothing. Where one comes an empty table stands, its array with an element that is the
/// first, and all else is as it was.
pub fn new_tables()
    ensures stay { NewTablesStay }
    ensures section { SectionIsEmpty }
    ensures element { ElementIsEmpty }
{}

/// After an edit that puts a value something stands at its place, and nothing comes to stand there, or below, but what lay
/// under a `set`.
pub fn values()
    ensures stand { ValuesStand }
    ensures fresh { ValuesAreNew }
{}

/// Through a list a thing is carried edit by edit, and a beginning of it to a beginning as long. Edits without a fault carry
/// what stands somewhere to where something stands, no two things to one address, and a thing above another only if it was
/// so.
pub fn carried_by_lists()
    ensures on { CarriedOn }
    ensures fronts { ListsCarryFronts }
    ensures stands { CarriedStands }
    ensures apart { ListsCarryApart }
    ensures order { CarriedKeepOrder }
{}

/// No list both leads to data and has a first fault; of each there is at most one.
pub fn lists()
    ensures one { OneLead }
    ensures or_fault { FaultOrLead }
    ensures one_fault { OneFirstFault }
{}

/// Bytes are at most one list of edits, and none where an entry is no edit.
pub fn edit_lists()
    ensures one { OneEditList }
    ensures bad { BadListIsNone }
{}

/// Edits from which nothing is hidden that they look at, move or make may be made on the data that are not hidden. What they
/// make of them, with the hidden as it was, is what they make of all; what they make of all has the same where nothing is
/// hidden, and else what it had.
pub fn near()
    ensures beside { LeadsBeside }
    ensures near { LeadsNear }
    ensures stays { HiddenStays }
{}

/// The first fault of such edits is the same on the data that are not hidden. One such edit has on data, beside anything
/// hidden, the fault that it has on them.
pub fn near_faults()
    ensures faults { FaultsNear }
    ensures fault { FaultBeside }
{}

/// The plain function says where a place lies, seen from an address. What is removed, or lies strictly below what is set, is carried
/// nowhere; all else is carried somewhere, where indices have room, and these rise by one at most.
pub fn sides()
    ensures sides { SidesAreRight }
    ensures rest { CarriesRest }
    ensures low { CarriedStayLow }
{}

/// What is seen of a list of edits is where it carries a thing.
pub fn seen()
    ensures { SeenIsCarried }
{}
