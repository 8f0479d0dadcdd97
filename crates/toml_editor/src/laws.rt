//! Laws over the definitions of what plain edits write, in each layout: nothing is run.
ghost use Rattle.toml_editor.specs.Bares.{SetBares, InsertBares, RemoveBares, RenameBares};
ghost use Rattle.toml_editor.specs.CarriedUnits.{PlainIsCarried};
ghost use Rattle.toml_editor.specs.CarriedLists.{FirstBlankNeedsNewline, ListIsCarried};
ghost use Rattle.toml_editor.specs.CertifiedLists.{PartnersCertify, OuterAreNamed, OuterPartnersCertify, PlainListIsCertified};
ghost use Rattle.toml_editor.specs.ChangedUnits.{SetUnits};
ghost use Rattle.toml_editor.specs.EachEdit.{EachEditIsTold, LastHasOneAnswer, LastHasOneText};
ghost use Rattle.toml_editor.specs.PlainAnswers.{FirstFaultIsAnswered, FirstRefusedIsAnswered, LongIsAnswered, OnlyRefusedIsTold, PlainIsAnswered};
ghost use Rattle.toml_editor.specs.LastTexts.{OneChange};
ghost use Rattle.toml_editor.specs.HeaderLaws.{ElementIsLaidOut, ElementNames, ElementUnits, DocumentsAreReady, SectionIsLaidOut, SectionNames, SectionUnits, ValueIsPlace};
ghost use Rattle.toml_editor.specs.InsertLaws.{InsertNames, InsertRules, InsertShort, InsertData, InsertForms, InsertOfProfile, InsertKeepsLines};
ghost use Rattle.toml_editor.specs.RemoveLaws.{EmptyNames, RemoveNames, RemoveGood, RemoveData, RemoveForms, RemoveOfProfile, RemoveKeepsLines};
ghost use Rattle.toml_editor.specs.RenameLaws.{RenameNames, RenameGood, RenameData, RenameForms, RenameOfProfile, RenameKeepsLine};
ghost use Rattle.toml_editor.specs.RenamedHeaders.{RenameAlong, RenameAlongElement};
ghost use Rattle.toml_editor.specs.RenamedUnits.{RenameUnits};
ghost use Rattle.toml_editor.specs.StandingLaws.{HeaderIsAlone, InsertStands, InsertStandsBelow, OnePlaceInSection, PlacesDoNotStand, RemoveStands, RenameStands, RootComesFirst, RootPairIsLine};
ghost use Rattle.toml_editor.specs.StandingLaws.{DottedIsKeyed, ImpliedIsBelow, InsertStandsAhead, InsertStandsAmong, OnePlaceAmong};
ghost use Rattle.toml_editor.specs.StandingLaws.{RulesOrder, SetStands, StandingIsValue, ValueStands};
ghost use Rattle.toml_working.specs.Renaming.{RenameIsOutlined};
ghost use Rattle.toml_editor.specs.SetLaws.{SetNames, SetRules, SetShort, SetData, SetForms, SetOfProfile, SetWithin, SetElsewhere, SetKeepsLine};
ghost use Rattle.toml_working.specs.Setting.{SetIsOutlined};
ghost use Rattle.toml_editor.specs.UnitBlocks.{EmptyUnits, InsertUnits, RemoveUnits};
ghost use Rattle.toml_editor.specs.Steps.{GoodTextsAreDocuments, PlainIsWritten, PlainStep, PlainSteps, OneWritten, OneListWritten, StyleIsNewline};
ghost use Rattle.toml_working.specs.Writing.{LinesAreWritten, TextIsWritten};

/// After a `set` the lines name what they named, the new value in the place of the old. They keep the table rules and the
/// bound on addresses, where the value keeps them at its address; they have the data that the edit makes, and are
/// in the forms.
pub fn sets()
    ensures names { SetNames }
    ensures rules { SetRules }
    ensures short { SetShort }
    ensures data { SetData }
    ensures forms { SetForms }
{}

/// After an `insert` of a name in a table that is no value and lies in none, the lines name what they named, some tables at the parent or
/// above it once more, and the name's value. They keep the table rules, where the table had no such name and the value
/// keeps them, and the bound on addresses, where each address in the value keeps it below the name; they have the data that the edit
/// makes, and are in the forms.
pub fn inserts()
    ensures names { InsertNames }
    ensures rules { InsertRules }
    ensures short { InsertShort }
    ensures data { InsertData }
    ensures forms { InsertForms }
{}

/// After a `section` or an `element` without a fault, above which no line's value stands, the lines name what they named, and what the
/// new header names. By what finds them they are what the working tree makes of the lines before. The lines of each document are
/// ready for a header line.
pub fn headers()
    ensures section_names { SectionNames }
    ensures element_names { ElementNames }
    ensures section_laid_out { SectionIsLaidOut }
    ensures element_laid_out { ElementIsLaidOut }
    ensures ready { DocumentsAreReady }
{}

/// Where a thing stands, by the names of the lines, tells whether a line's value stands at it or above it.
pub fn value_places()
    ensures { ValueIsPlace }
{}

/// The units after such a `section` or `element` are those of before and its header line's, or also one of a last line of no bytes, as
/// where a blank line is written.
pub fn header_units()
    ensures section { SectionUnits }
    ensures element { ElementUnits }
{}

/// After a `remove` of a value of a line the lines name what they named, without what that line names; where the table right above
/// the value would go with it, that is named as the line's value, an empty table. They keep the table rules and the bound on
/// addresses, have the data that the edit makes, and are in the forms.
pub fn removes()
    ensures names { RemoveNames }
    ensures emptied { EmptyNames }
    ensures good { RemoveGood }
    ensures data { RemoveData }
    ensures forms { RemoveForms }
{}

/// After a `rename` to a name that is not there the lines name what they named, each thing at its new address. They keep
/// the table rules and the bound on addresses, have the data that the edit makes, and are in the forms.
pub fn renames()
    ensures names { RenameNames }
    ensures good { RenameGood }
    ensures data { RenameData }
    ensures forms { RenameForms }
{}

/// A `rename` finds the parts of a header's key by the header's own address: each stands for the beginning of it up to and
/// with the part's name.
pub fn renamed_headers()
    ensures table { RenameAlong }
    ensures element { RenameAlongElement }
{}

/// Lines after a `set`, an `insert`, a `remove` or a `rename` are of each profile of which the lines were before and the new value, if
/// there is one; of a `section` and an `element` see `plain_edits`.
pub fn profiles()
    ensures set { SetOfProfile }
    ensures insert { InsertOfProfile }
    ensures remove { RemoveOfProfile }
    ensures rename { RenameOfProfile }
{}

/// Places aside, a `set` leaves what stands in a value as it was, if the address does not lie in the value, and the value
/// itself, if it does not stand at the address either. The newline of new lines is LF or CR LF.
pub fn kept()
    ensures within { SetWithin }
    ensures elsewhere { SetElsewhere }
    ensures style { StyleIsNewline }
{}

/// Places aside, a line stays what it is and where it is, if a `set` is neither at its value nor in it; if a `rename` is at
/// no part of a key in it. An `insert` puts in one line, or a header of the table and one behind it; a `remove` takes out the line of the
/// value; all others stay, but that a last line gets a newline before the new one, and leaves one of no bytes.
pub fn kept_lines()
    ensures set { SetKeepsLine }
    ensures rename { RenameKeepsLine }
    ensures insert { InsertKeepsLines }
    ensures remove { RemoveKeepsLines }
{}

/// Where the pieces of a tree stand does not count: the tree after one of these edits, without its places, is what the edit makes of the
/// tree without its places. Of an `insert` this is said at the root alone.
pub fn bares()
    ensures set { SetBares }
    ensures insert { InsertBares }
    ensures remove { RemoveBares }
    ensures rename { RenameBares }
{}

/// The units of edited lines. After an `insert` they are those of before, and between two lines those of the new line, or of a new
/// header and it; it has some whitespace, in layout `Plain` that of ` = `; after a `remove` of a line they are those of
/// before without its own, where a last line leaves one of no bytes. After a `rename` to a name that is free they are those of
/// before, one by one, of the same kind and base, at the carried address, with the same text unless the edit changes the unit.
/// After a `set` what lay in the old value is gone, the unit that has the value has the new one, what is in that comes behind it,
/// and all others are as after a `rename`, where they were; one that the edit changes has the new value in the place of one that
/// stood at the address.
pub fn units()
    ensures insert { InsertUnits }
    ensures remove { RemoveUnits }
    ensures empty { EmptyUnits }
    ensures rename { RenameUnits }
    ensures set { SetUnits }
{}

/// A good text and what a plain edit writes of it without a fault have pairs of partners: they name just the units of the
/// first that the edit neither takes away nor changes, each pair fits, and the second has no line and no comment that the
/// edit does not ask for.
pub fn carried()
    ensures { PlainIsCarried }
{}

/// So it is of a list of plain edits, each without a fault on the data so far: the pairs name just the units of the first
/// text that no edit of the list takes away or changes. A blank line may be written before a header line only if the text ends in a
/// newline: else a last line that goes would leave one for which no edit asks.
pub fn carried_by_lists()
    ensures { ListIsCarried }
{}

/// Within the limit of a text all demands of the judge hold of these pairs, and of those of them alone whose first unit
/// lies in no other unit that is protected: these name just such units. So for each list of plain edits without a fault
/// there is a text that it writes, with such pairs, and if it is within the limit the judge's verdict on it is yes; a blank line may
/// be written only if the text ends in a newline, and what is written by at first is so.
pub fn certified()
    ensures partners { PartnersCertify }
    ensures named { OuterAreNamed }
    ensures outer { OuterPartnersCertify }
    ensures list { PlainListIsCertified }
    ensures blank { FirstBlankNeedsNewline }
{}

/// Within the limit of a text the good texts are the documents of the profile.
pub fn good_texts()
    ensures { GoodTextsAreDocuments }
{}

/// A plain edit that makes something of the data writes a text, and no other one; a list of them writes no two. Where an
/// edit has no fault, what it writes of a good text is a good text of the same profile, with the data that the edit makes
/// and the mark that it had; so it is of a list that leads from the one data to the other.
pub fn plain_edits()
    ensures written { PlainIsWritten }
    ensures one { OneWritten }
    ensures step { PlainStep }
    ensures one_list { OneListWritten }
    ensures steps { PlainSteps }
{}

/// What a `set` and a `rename` make of a value's tree they make of its outline.
pub fn outlines()
    ensures set { SetIsOutlined }
    ensures rename { RenameIsOutlined }
{}

/// Lines by what finds them. Where their pieces stand does not count, and under the table rules no line stands at the value
/// of another, or in it.
pub fn standing()
    ensures places { PlacesDoNotStand }
    ensures order { RulesOrder }
{}

/// A value that lines name stands on one of them or in its value, what stands so is a value that they name, and the lines
/// after a `set` of it are what the `set` makes of the lines, by what finds them.
pub fn standing_set()
    ensures value { ValueStands }
    ensures named { StandingIsValue }
    ensures set { SetStands }
{}

/// So are the lines after a `rename` to a name that is free.
pub fn standing_renamed()
    ensures { RenameStands }
{}

/// Of lines in the forms those of the root come first, and the lines after an `insert` of a name there are what it makes of
/// the lines, by what finds them. After one in a table that has a header they have the new line in the section of the table: this is one
/// place under the table rules, and no dotted key makes such a table.
pub fn standing_inserted()
    ensures root { RootComesFirst }
    ensures insert { InsertStands }
    ensures below { InsertStandsBelow }
    ensures place { OnePlaceInSection }
    ensures alone { HeaderIsAlone }
{}

/// After an `insert` in a table that dotted keys make lines have the new line in the section of one that makes it. This is one place under the table
/// rules, and names alone lead from the section of each such line to the table. After one in a table that longer headers alone imply they have a
/// new header and the new line before the first of these.
pub fn standing_inserted_in_tables()
    ensures among { InsertStandsAmong }
    ensures place { OnePlaceAmong }
    ensures keyed { DottedIsKeyed }
    ensures ahead { InsertStandsAhead }
    ensures below { ImpliedIsBelow }
{}

/// The value of a key at the root is that of a line, and the lines after a `remove` of the value of a line are what the `remove` makes of
/// the lines, by what finds them.
pub fn standing_removed()
    ensures root { RootPairIsLine }
    ensures remove { RemoveStands }
{}

/// What the editor answers in a layout, want of memory aside. Where all edits of a list are defined on the data so far and plain, it is the
/// text that they write, if it is within the limit of a text, and else that it is too long. Where the edits before one are so,
/// and it is not defined, it is that edit's fault with its number; where it is defined, but a `set` of an address where the text so
/// far has no one value, an `insert` into an array of tables, or a `section` or an `element` above which a line's value stands, it is
/// that its place is spread, with its number; where it is a `remove` of the only element of an array of tables, it is that it takes a
/// last element, with its number. Where the edits before one are so, these two are told of it in no other case; of an `insert` this
/// is said where no index in the data is so great that it could not rise.
pub fn plain_answers()
    ensures plain { PlainIsAnswered }
    ensures long { LongIsAnswered }
    ensures fault { FirstFaultIsAnswered }
    ensures refused { FirstRefusedIsAnswered }
    ensures told { OnlyRefusedIsTold }
{}

/// Where the working tree stands for the lines of a tree, the mark and the text of these lines are written: of the lines of
/// a text that text.
pub fn written_out()
    ensures lines { LinesAreWritten }
    ensures text { TextIsWritten }
{}

/// What an edit makes that changes an array or an inline table in the value of a line, or removes a table, is one thing in a layout, of lines
/// that are as the table rules have them: so it has one text.
pub fn one_change()
    ensures { OneChange }
{}

/// An edit without a fault on a good text is plain, makes such a change, or is refused. So where all edits before the last one are plain, there
/// is at most one text that they make, and one answer: the text with its certificate, or the fault. This is so of each single edit. The answer:
/// want of memory aside, below 2^63 edits, and of an `insert` where no index in the data is so great that it could not rise.
pub fn each_edit()
    ensures told { EachEditIsTold }
    ensures text { LastHasOneText }
    ensures answer { LastHasOneAnswer }
{}
