//! Laws over the definitions: each function's contract is a few, and nothing is run.
ghost use Rattle.toml_scalar.specs.FaultLaws.{ScalarFaultIsAt, KeyFaultIsAt, ValueFaultIsAt};
ghost use Rattle.toml_scalar.specs.MomentLaws.{MomentIsForm, FormIsMoment, OneMomentKind, MomentBegins, MomentIsRun, SpaceIsApart, DateText, TimeText, LocalText, OffsetText};
ghost use Rattle.toml_scalar.specs.NumberLaws.{IntegerFormIsForm, FormIsIntegerForm, FittingFits, FitsIsFitting, IntegerIsForm, FormIsInteger, FloatIsForm, FormIsFloat, BoolIsForm, FormIsBool};
ghost use Rattle.toml_scalar.specs.ScanLaws.{ScanIsSound, ScanIsFound, ScanIsLongest, OneKind, TokenBegins, PartIsSound, PartIsFound, PartIsLongest, PartBegins};
ghost use Rattle.toml_scalar.specs.Spelling.{OneName, SpelledNames, SpelledStrings};
ghost use Rattle.toml_scalar.specs.ValueLaws.{TokenHasValue, ValueIsOfToken, ScalarIsFound, ScalarIsMeant, OneScalarValue, NameIsFound, NameIsMeant, NameIsTotal};

/// Which runs have the form of an integer, and which of these are in range.
pub fn integer_forms()
    ensures form { IntegerFormIsForm }
    ensures form_found { FormIsIntegerForm }
    ensures range { FittingFits }
    ensures range_found { FitsIsFitting }
{}

/// Which runs are integers and booleans.
pub fn integers_and_booleans()
    ensures integer { IntegerIsForm }
    ensures integer_found { FormIsInteger }
    ensures boolean { BoolIsForm }
    ensures boolean_found { FormIsBool }
{}

/// Which runs are floats.
pub fn floats()
    ensures float { FloatIsForm }
    ensures float_found { FormIsFloat }
{}

/// Which runs are dates and times, and of which kind.
pub fn moment_kinds()
    ensures form { MomentIsForm }
    ensures found { FormIsMoment }
    ensures one { OneMomentKind }
{}

/// What dates and times begin with, and where a space stands in one.
pub fn moment_runs()
    ensures first { MomentBegins }
    ensures run { MomentIsRun }
    ensures apart { SpaceIsApart }
{}

/// What the datum of a date or a time has.
pub fn moment_texts()
    ensures date { DateText }
    ensures time { TimeText }
    ensures local { LocalText }
    ensures offset { OffsetText }
{}

/// Where scalars end: a token that something follows which closes is the longest there, and of one kind.
pub fn scans()
    ensures sound { ScanIsSound }
    ensures found { ScanIsFound }
    ensures longest { ScanIsLongest }
    ensures one_kind { OneKind }
    ensures first { TokenBegins }
{}

/// Where key parts end.
pub fn key_parts()
    ensures sound { PartIsSound }
    ensures found { PartIsFound }
    ensures longest { PartIsLongest }
    ensures first { PartBegins }
{}

/// What tokens mean.
pub fn values()
    ensures total { TokenHasValue }
    ensures token { ValueIsOfToken }
    ensures found { ScalarIsFound }
    ensures meant { ScalarIsMeant }
    ensures one { OneScalarValue }
{}

/// A key part has one name, the one that is computed, and what has a name that is computed is a key part.
pub fn names()
    ensures found { NameIsFound }
    ensures meant { NameIsMeant }
    ensures total { NameIsTotal }
    ensures one { OneName }
{}

/// The spelling of a name names it.
pub fn spelled_names()
    ensures { SpelledNames }
{}

/// The spelling of a string means its characters.
pub fn spelled_strings()
    ensures { SpelledStrings }
{}

/// The faults of what stands at a place are at that place.
pub fn fault_places()
    ensures scalar { ScalarFaultIsAt }
    ensures key { KeyFaultIsAt }
    ensures value { ValueFaultIsAt }
{}
