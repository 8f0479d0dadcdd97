//! What words ask for.

use toml_tree::Profile;

/// The word for standard input, where a command takes it.
pub const STANDARD_INPUT: &str = "-";

/// What the words ask for. Paths are as they were given; of those that are read one at most is `STANDARD_INPUT`, where a command
/// takes that.
#[derive(Debug, Drop)]
pub enum Request<'a> {
    /// The data of the file.
    Show {
        file: &'a str,
        /// List the addresses in place of the data.
        list: bool,
        /// Say of a refusal where and why.
        explain: bool,
        profile: Profile,
    },
    /// Whether the file is a TOML document.
    Check {
        file: &'a str,
        explain: bool,
        profile: Profile,
    },
    /// What edits make of the file, and the certificate which shows it.
    Edit {
        file: &'a str,
        edits: &'a str,
        /// Where the edited text is to be written.
        out: &'a str,
        /// Where its certificate is to be written.
        cert: &'a str,
        explain: bool,
        profile: Profile,
    },
    /// Whether a text is what edits make of another, as a certificate has it.
    Verify {
        before: &'a str,
        edits: &'a str,
        after: &'a str,
        cert: &'a str,
        explain: bool,
        profile: Profile,
    },
    /// Whether a text is what edits make of another, and the certificate which shows it.
    Certify {
        before: &'a str,
        edits: &'a str,
        after: &'a str,
        /// Where the certificate is to be written.
        cert: Option<&'a str>,
        profile: Profile,
    },
    /// What stands at a place of the file.
    Get {
        file: &'a str,
        place: &'a str,
        form: Form,
        /// What is printed where nothing stands there.
        default: Option<&'a str>,
        profile: Profile,
    },
    /// What one edit makes of the file.
    One {
        file: &'a str,
        place: &'a str,
        edit: OneEdit<'a>,
        destination: Destination<'a>,
        layout: Layout,
        profile: Profile,
    },
    /// What a list of edits makes of the file.
    Apply {
        file: &'a str,
        edits: &'a str,
        destination: Destination<'a>,
        layout: Layout,
        profile: Profile,
    },
    /// Which of the files are no TOML documents, and why.
    Validate {
        files: Vec<&'a str>,
        profile: Profile,
    },
}

/// How what stands at a place is printed.
#[derive(Clone, Copy, Debug, PartialEq, Eq)]
pub enum Form {
    /// A scalar by its text, an array or a table as JSON.
    Plain,
    /// As JSON.
    Json,
    /// As tagged JSON.
    Tagged,
    /// As it is spelled in the file.
    Toml,
    /// Its type alone.
    TypeName,
}

/// An edit of one line of words, at its place.
#[derive(Clone, Copy, Debug)]
pub enum OneEdit<'a> {
    /// A value for what stands there, or a new one where nothing does.
    Set {
        value: NewValue<'a>,
        /// Make what is missing above the place.
        parents: bool,
    },
    /// A new member or element.
    Insert {
        value: NewValue<'a>,
        parents: bool,
    },
    /// Another name for a member.
    Rename {
        to: &'a str,
    },
    /// What stands there goes.
    Remove,
}

/// A value as it was given.
#[derive(Clone, Copy, Debug)]
pub struct NewValue<'a> {
    pub text: &'a str,
    /// The text is that of a string, and no TOML.
    pub is_string: bool,
}

/// How new text is laid out.
#[derive(Clone, Copy, Debug, PartialEq, Eq)]
pub enum Layout {
    /// Always in the same way.
    Plain,
    /// As its neighbours are.
    Follow,
}

/// Where an edited text goes.
#[derive(Clone, Copy, Debug)]
pub struct Destination<'a> {
    /// In the place of the file, and else to standard output.
    pub in_place: bool,
    /// Where the certificate is to be written.
    pub certificate: Option<&'a str>,
}
