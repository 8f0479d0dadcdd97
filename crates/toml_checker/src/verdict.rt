/// Why a text is not certified: the demand that fails.
#[derive(Clone, Copy, Debug, Drop, PartialEq, Eq)]
pub enum Reason {
    /// The text before the edits is no document of the profile.
    BeforeRefused,
    /// The text after them is none.
    AfterRefused,
    /// An edit is not defined on the data so far.
    EditsRefused,
    /// The text after the edits has other data than they give.
    OtherData,
    /// The numbers of the pairs do not both rise; or a pair names no two units; or they differ in kind or bytes or, as lines
    /// neither of which is the last of its text, in their newline; or the edits do not carry the address of the one to that of
    /// the other.
    BadPair,
    /// A protected unit is neither paired nor inside a paired unit that is protected.
    Lost,
    /// A line is neither paired, nor owed by an edit, nor the last one, of no bytes, behind an edit.
    Unasked,
    /// A comment is neither paired, nor inside a paired unit, nor one in an array or an inline table that an edit writes; or
    /// stands more often than edits write it.
    NewComment,
    /// The mark is in one text alone, or the texts differ although there is no edit.
    NotTheSame,
}

/// The answer of the judge: a no has the first demand that fails.
#[derive(Clone, Copy, Debug, Drop, PartialEq, Eq)]
pub enum Verdict {
    Yes,
    No(Reason),
}
