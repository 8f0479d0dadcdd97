//! Laws over the definitions: nothing is run.
ghost use Rattle.toml_names.specs.model.AddressSets.{ReachedAreNotHidden};
ghost use Rattle.toml_names.specs.model.Addresses.{SameStepIsEqual, StepIsSame, SameIsEqual, AboveIsAbove};
ghost use Rattle.toml_names.specs.mentions.Alike.{SectionGoesOn, CountsAdd, AlikeNameTheSame, AlikeStayAlike, PairsLeaveAlike};
ghost use Rattle.toml_names.specs.mentions.Clear.{NotAboveNext, ClearOfRoot, SectionIsClear, HeadersAreClear, NotNamedIsClear};
ghost use Rattle.toml_names.specs.model.DataLaws.{LinesHaveOneKind, LineValuesStandAlone, ValuesHaveOneKind, InnerValuesStandAlone, OneData, LinesAreClosed, ValuesAreClosed, LinesHaveData};
ghost use Rattle.toml_names.specs.mentions.FirstMentions.{FirstMentionsAreThese, OneListOfFirstMentions};
ghost use Rattle.toml_names.specs.model.Hidden.{ElementsAreNear, FrontsAreNear, WaysAreNear};
ghost use Rattle.toml_names.specs.model.Indices.{IndicesAreLow, ValueIndicesAreLow};
ghost use Rattle.toml_names.specs.mentions.Inside.{InsideIsBelow, InsideMoves, ValueKeepsRules, BelowIsOfItsLine};
ghost use Rattle.toml_names.specs.mentions.Joining.{LinesJoin, ValuesJoin, OneKind, FirstIsData, ValuesStandAlone};
ghost use Rattle.toml_names.specs.model.Levels.{ScalarLevel, ArrayLevel, TableLevel, DatumIsOneOfThree, DatumHasRoot, ArrayAtRoot, ArrayAtIndex, ArrayAtName, IndexIsWithin, TableAtRoot, TableAtName, TableAtIndex, NameHasMember, NothingBelowScalar};
ghost use Rattle.toml_names.specs.mentions.Local.{LastRoleDecides};
ghost use Rattle.toml_names.specs.reader.LineNames.{TakenAreGood};
ghost use Rattle.toml_names.specs.reader.Names.{FrontsAreGood, RefusedAreBad, OneRefusal, LineAddresses, NoLineAddress};
ghost use Rattle.toml_names.specs.mentions.OwnAddresses.{LineIsNamed, NamedHasLine, ThemselvesDiffer, OwnAddressesDiffer, OwnAddressIsNamed, OwnAddressHasFact, HeaderIsSection};
ghost use Rattle.toml_names.specs.model.Parts.{DatumHasPart, StepIsThere, PartIsThere};
ghost use Rattle.toml_names.specs.mentions.Placeless.{KeyPlacesAreNotNamed, LinePlacesAreNotNamed, PlacesAreNotNamed, ValuePlacesAreNotNamed};
ghost use Rattle.toml_names.specs.model.Places.{PlacesAreFound, NoPlace, PlaceIsFound};
ghost use Rattle.toml_names.specs.mentions.Rules.{NoMisfit, MisfitIsFirst, SomeKeepRules, MoreKeepRules, MovedKeepRules, RulesAreOfMentions};
ghost use Rattle.toml_names.specs.reader.Texts.{LessIsLeft, RefusedIsNoDocument};
ghost use Rattle.toml_names.specs.model.SameData.{SameScalars, SameArrays, SameTables};

/// Steps that are the same are equal, and so are addresses, and equal ones are the same; an address is above those of
/// which it is a beginning.
pub fn addresses()
    ensures equal_steps { SameStepIsEqual }
    ensures same_steps { StepIsSame }
    ensures same { SameIsEqual }
    ensures above { AboveIsAbove }
{}

/// Mentions keep the table rules exactly where no misfit is found among them, and what is found is the first
/// offence; what is no mention has no part in it.
pub fn rules()
    ensures none { NoMisfit }
    ensures first { MisfitIsFirst }
    ensures mentions { RulesAreOfMentions }
{}

/// Mentions that keep the rules still do where some in a row are taken out, and where others are put in between that keep
/// them and are at other addresses. Mentions that are moved, each in its role, keep the rules just where they did before, if
/// two come to one address exactly where they had one. A value that keeps them alone does so at each address.
pub fn kept_rules()
    ensures some { SomeKeepRules }
    ensures more { MoreKeepRules }
    ensures moved { MovedKeepRules }
    ensures value { ValueKeepsRules }
{}

/// Lines of which the names are refused, memory aside, are not good, and there is one fault for which they are. A text that is
/// refused, memory aside, is no document.
pub fn refusals()
    ensures bad { RefusedAreBad }
    ensures one { OneRefusal }
    ensures text { RefusedIsNoDocument }
{}

/// Behind a line that a reader of lines handed out less is left than before, or nothing.
pub fn lines_left()
    ensures { LessIsLeft }
{}

/// Lines of which all names could be taken are good. The lines before a line are good if they are with it, and good lines
/// have data: the first kind named at each address.
pub fn good_lines()
    ensures taken { TakenAreGood }
    ensures front { FrontsAreGood }
    ensures have_data { LinesHaveData }
{}

/// The address of a line is that of what its expression stands for; behind the last line there is none.
pub fn line_addresses()
    ensures of_lines { LineAddresses }
    ensures behind { NoLineAddress }
{}

/// What a line names stands in what the lines name, behind what those before it name, and has the line's number.
pub fn named_lines()
    ensures there { LineIsNamed }
    ensures number { NamedHasLine }
{}

/// Under the rules what is named by itself, by a header, as a value or as an element, is so named once; so lines that
/// have one address of their own are one line. That address is named by the line, and something stands there in the
/// data; behind a header it is that of the table of the last header.
pub fn own_addresses()
    ensures themselves { ThemselvesDiffer }
    ensures differ { OwnAddressesDiffer }
    ensures named { OwnAddressIsNamed }
    ensures fact { OwnAddressHasFact }
    ensures section { HeaderIsSection }
{}

/// What a value names inside it lies strictly below its address, and moves along with it. Under the rules only the line
/// of a value names anything strictly below it.
pub fn inside()
    ensures below { InsideIsBelow }
    ensures moves { InsideMoves }
    ensures alone { BelowIsOfItsLine }
{}

/// What a line names depends on what was named before by the last header's table, and by how many tables the arrays of
/// tables have; both go on where a list before stopped. Lists that are alike in these stay so once the same is named
/// behind both, and a pair changes neither.
pub fn alike_lists()
    ensures section { SectionGoesOn }
    ensures counts { CountsAdd }
    ensures same { AlikeNameTheSame }
    ensures more { AlikeStayAlike }
    ensures pairs { PairsLeaveAlike }
{}

/// Each index in what the lines of a document name is below the length of its text, and each in what a value alone
/// names below the length of the value's.
pub fn indices()
    ensures lines { IndicesAreLow }
    ensures values { ValueIndicesAreLow }
{}

/// What is named is clear of an address where it is neither at it nor below it. Where only values are named at an address that
/// is not the root, no header names anything at it or below it. Under the rules, where an address is not named, nothing is
/// named at it or below it.
pub fn clear()
    ensures next { NotAboveNext }
    ensures root { ClearOfRoot }
    ensures section { SectionIsClear }
    ensures headers { HeadersAreClear }
    ensures not_named { NotNamedIsClear }
{}

/// Where a thing stands is read off the mentions of its address; what has no place is not named. Under the rules each
/// thing has one place.
pub fn places()
    ensures found { PlacesAreFound }
    ensures none { NoPlace }
    ensures one { PlaceIsFound }
{}

/// Under the rules what lines or a value name at one address is of one kind, and values stand alone.
pub fn data()
    ensures kinds { LinesHaveOneKind }
    ensures alone { LineValuesStandAlone }
    ensures inner_kinds { ValuesHaveOneKind }
    ensures inner_alone { InnerValuesStandAlone }
{}

/// What is named has one map of data. Under the rules, where nothing stands in the data of lines or of a value, nothing
/// stands below.
pub fn closed_data()
    ensures one { OneData }
    ensures lines { LinesAreClosed }
    ensures values { ValuesAreClosed }
{}

/// Under the rules each thing that lines or a value name joins those before it. Where each does, what is named at one
/// address is of one kind, the first kind at each address is the data, and values stand alone.
pub fn joining()
    ensures lines { LinesJoin }
    ensures values { ValuesJoin }
    ensures kinds { OneKind }
    ensures first { FirstIsData }
    ensures alone { ValuesStandAlone }
{}

/// Under the rules one more mention keeps them exactly where the mark of its address, one role for all, allows it.
pub fn last_roles()
    ensures { LastRoleDecides }
{}

/// The plain list of first mentions has each address that is mentioned, once, in the order of the first mentions; no
/// other list is so.
pub fn mentions_in_order()
    ensures these { FirstMentionsAreThese }
    ensures one { OneListOfFirstMentions }
{}

/// A datum is a scalar, an array or a table, and something stands at its root. What each has at every address is told
/// level by level, by what its parts have.
pub fn levels()
    ensures scalars { ScalarLevel }
    ensures arrays { ArrayLevel }
    ensures tables { TableLevel }
    ensures three { DatumIsOneOfThree }
    ensures root { DatumHasRoot }
{}

/// An array stands at its root; at an index stands the element, at a name nothing. An index at which something stands
/// is below the length.
pub fn arrays()
    ensures here { ArrayAtRoot }
    ensures index { ArrayAtIndex }
    ensures name { ArrayAtName }
    ensures within { IndexIsWithin }
{}

/// A table stands at its root; at a name stands the member, at an index nothing. A name at which something stands has
/// a member.
pub fn tables()
    ensures here { TableAtRoot }
    ensures name { TableAtName }
    ensures index { TableAtIndex }
    ensures member { NameHasMember }
{}

/// A datum has a part at each step, or none, and a scalar has none. Where something stands below a step something
/// stands at it, and a part that is put at a step is there.
pub fn parts()
    ensures part { DatumHasPart }
    ensures scalar { NothingBelowScalar }
    ensures step { StepIsThere }
    ensures put { PartIsThere }
{}

/// Data are the same where they are so level by level: scalars by their values, arrays at each index, tables at each
/// name.
pub fn same_data()
    ensures scalars { SameScalars }
    ensures arrays { SameArrays }
    ensures tables { SameTables }
{}

/// Keys, lines and values that are the same but for where their pieces stand name the same.
pub fn placeless()
    ensures key { KeyPlacesAreNotNamed }
    ensures line { LinePlacesAreNotNamed }
    ensures lines { PlacesAreNotNamed }
    ensures value { ValuePlacesAreNotNamed }
{}

/// Beside a way to an address nothing is hidden at and below the address, nor above it, nor at the elements that stand in
/// what is above it.
pub fn near_ways()
    ensures below { WaysAreNear }
    ensures above { FrontsAreNear }
    ensures elements { ElementsAreNear }
{}

/// A set of addresses reaches, of those that end in a name, the ones that it does not hide.
pub fn reached()
    ensures { ReachedAreNotHidden }
{}
