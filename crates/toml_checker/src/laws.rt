//! Laws over the definitions: nothing is run.
ghost use Rattle.toml_checker.specs.Answers.{CertifiedIsFound};
ghost use Rattle.toml_checker.specs.Findings.{FoundIsMet, JudgedSearch, OneReason, NeverBadPair, UnmetIsNone};
ghost use Rattle.toml_checker.specs.Headline.{CertifiedStand};
ghost use Rattle.toml_checker.specs.Laws.{BlankLinesArePartners, CommentsStayTogether, NoneIsWrittenThere, UnplacedAreProtected};
ghost use Rattle.toml_checker.specs.Laws.{UnitsAreLow, InnerAreProtected, ProtectedAreCarried, CertifiedIsAllDemands, OneVerdict};
ghost use Rattle.toml_checker.specs.Plain.{FlagsTell};
ghost use Rattle.toml_checker.specs.SearchLaws.{OneCertificate, OneSearch, OuterIsSearched, SearchFinds, SearchServes, StuckIsLost};
ghost use Rattle.toml_checker.specs.Sights.{SeenIsStands};

/// What lies in a protected unit is protected and carried along with it; a protected unit is carried to an address.
pub fn protection()
    ensures inner { InnerAreProtected }
    ensures carried { ProtectedAreCarried }
{}

/// No index of a unit comes near the end of the numbers that an index may be.
pub fn low_units()
    ensures { UnitsAreLow }
{}

/// A text is certified exactly where all demands hold. There is one verdict.
pub fn verdicts()
    ensures demands { CertifiedIsAllDemands }
    ensures one { OneVerdict }
{}

/// The plain functions say which units are protected, and what is seen of a list of edits, which of its edits name them.
pub fn plain()
    ensures flags { FlagsTell }
    ensures seen { SeenIsStands }
{}

/// What is certified has the headline's meaning: two documents, the data that the edits make, a partner of its own for
/// all that no edit names, in the same order and where the edits carry it, and nothing unasked.
pub fn headline()
    ensures { CertifiedStand }
{}

/// The comments of one array or inline table are protected together or not at all, and no edit writes a comment where a
/// protected one of them is carried to.
pub fn comments()
    ensures together { CommentsStayTogether }
    ensures unwritten { NoneIsWrittenThere }
{}

/// Blank lines and comment lines are protected, with their comments. Where no line is added unasked each such line of the
/// second text is a partner, but for a last one of no bytes.
pub fn blank_lines()
    ensures protected { UnplacedAreProtected }
    ensures partners { BlankLinesArePartners }
{}

/// The search finds one list of pairs.
pub fn search()
    ensures { OneSearch }
{}

/// What the search finds meets each demand that, with those before it, any pairs of protected units meet. Where it stops
/// short none meet the first six. So it finds a certificate where there is any, and the answer is one.
pub fn completeness()
    ensures serves { SearchServes }
    ensures lost { StuckIsLost }
    ensures finds { SearchFinds }
    ensures found { CertifiedIsFound }
{}

/// A certificate of the outermost protected units is what the search finds: there is one.
pub fn one_certificate()
    ensures searched { OuterIsSearched }
    ensures one { OneCertificate }
{}

/// What the judge says of the pairs with which the search ends is a finding: a certificate, or the first demand that no
/// pairs of protected units meet. Of findings there is one.
pub fn findings()
    ensures judged { JudgedSearch }
    ensures met { FoundIsMet }
    ensures reason { OneReason }
    ensures none { UnmetIsNone }
    ensures pairs { NeverBadPair }
{}
