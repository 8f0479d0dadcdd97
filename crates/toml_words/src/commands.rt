//! The subcommands, each with its arguments and an example.

use crate::arguments::Argument::{
    self, Flag, InPlace, Layout, Optional, Profile, Required, Several, Valued,
};

/// What a command is called, what it is for, how it is used, and what it takes.
pub(crate) struct Subcommand<'a> {
    pub(crate) name: &'a str,
    pub(crate) about: &'a str,
    pub(crate) example: &'a str,
    pub(crate) arguments: &'a [Argument<'a>],
}

/// What FILE is, where it is read.
const FILE: &str = "The document, or - for standard input";

/// What PLACE is.
const PLACE: &str =
    "A place, as server.port, users[0].name, x[-1], x[+] behind the last, or . for all";

/// What VALUE is.
const VALUE: &str = "The value, as it is spelled in TOML";

/// What EDITS is.
const EDITS: &str = "The edits, a JSON list";

/// What `--string` does.
const STRING: &str = "VALUE is the text of a string";

/// What `--parents` does.
const PARENTS: &str = "Make the tables that are missing above PLACE, where it ends in a name";

/// What `--certificate PATH` does.
const CERTIFICATE: &str = "Write there which parts of FILE were kept";

/// What `--explain` does.
const EXPLAIN: &str = "Say of a refusal where and why";

/// All of them: those that read a file, those that edit one by their words, and those that stand on certificates.
pub(crate) static SUBCOMMANDS: [Subcommand<'static>; 12] = [
    Subcommand {
        name: "get",
        about: "Prints what stands at a place of a TOML document",
        example: "Example: tomled get Cargo.toml package.version",
        arguments: &[
            Required("FILE", FILE),
            Required("PLACE", PLACE),
            Flag("json", "Print it as JSON"),
            Flag(
                "tagged",
                "Print it as tagged JSON, each scalar with its type",
            ),
            Flag("toml", "Print it as it is spelled in FILE"),
            Flag("type", "Print its type alone"),
            Valued(
                "default",
                "TEXT",
                "Print this where nothing stands at PLACE",
            ),
            Profile,
        ],
    },
    Subcommand {
        name: "validate",
        about: "Says which files are no TOML documents, where, and why",
        example: "Example: tomled validate *.toml",
        arguments: &[
            Several("FILE", "The documents; one may be - for standard input"),
            Profile,
        ],
    },
    Subcommand {
        name: "check",
        about: "Says whether a file is a TOML document",
        example: "Example: tomled check --explain server.toml",
        arguments: &[
            Required("FILE", "The document"),
            Flag("explain", EXPLAIN),
            Profile,
        ],
    },
    Subcommand {
        name: "show",
        about: "Prints the data of a TOML document as tagged JSON",
        example: "Example: tomled show --list server.toml",
        arguments: &[
            Required("FILE", "The document"),
            Flag("list", "List the addresses in place of the data"),
            Flag("explain", EXPLAIN),
            Profile,
        ],
    },
    Subcommand {
        name: "set",
        about: "Sets the value at a place of a TOML document, and keeps all else",
        example: "Example: tomled set -i Cargo.toml package.edition --string 2024",
        arguments: &[
            Required("FILE", FILE),
            Required("PLACE", PLACE),
            Required("VALUE", VALUE),
            Flag("string", STRING),
            Flag("parents", PARENTS),
            InPlace,
            Valued("certificate", "PATH", CERTIFICATE),
            Layout,
            Profile,
        ],
    },
    Subcommand {
        name: "insert",
        about: "Puts a new member or element into a TOML document, and keeps all else",
        example: "Example: tomled insert -i app.toml 'hosts[+]' --string example.org",
        arguments: &[
            Required("FILE", FILE),
            Required("PLACE", PLACE),
            Required("VALUE", VALUE),
            Flag("string", STRING),
            Flag("parents", PARENTS),
            InPlace,
            Valued("certificate", "PATH", CERTIFICATE),
            Layout,
            Profile,
        ],
    },
    Subcommand {
        name: "rename",
        about: "Gives a member of a table in a TOML document another name, and keeps all else",
        example: "Example: tomled rename -i Cargo.toml dependencies.serde serde_json",
        arguments: &[
            Required("FILE", FILE),
            Required("PLACE", PLACE),
            Required("NAME", "The new name, as it is, and no key"),
            InPlace,
            Valued("certificate", "PATH", CERTIFICATE),
            Layout,
            Profile,
        ],
    },
    Subcommand {
        name: "remove",
        about: "Takes what stands at a place out of a TOML document, and keeps all else",
        example: "Example: tomled remove -i Cargo.toml dev-dependencies.rand",
        arguments: &[
            Required("FILE", FILE),
            Required("PLACE", PLACE),
            InPlace,
            Valued("certificate", "PATH", CERTIFICATE),
            Layout,
            Profile,
        ],
    },
    Subcommand {
        name: "apply",
        about: "Makes a list of edits in a TOML document, and keeps all that no edit names",
        example: "Example: tomled apply -i server.toml edits.json",
        arguments: &[
            Required("FILE", FILE),
            Required("EDITS", "The edits, a JSON list, or - for standard input"),
            InPlace,
            Valued("certificate", "PATH", CERTIFICATE),
            Layout,
            Profile,
        ],
    },
    Subcommand {
        name: "edit",
        about: "Edits a TOML document, and keeps all that no edit names",
        example: "Example: tomled edit server.toml edits.json new.toml new.cert",
        arguments: &[
            Required("FILE", "The document"),
            Required("EDITS", EDITS),
            Required("OUT", "The file to write the edited document to"),
            Required("CERT", "The file to write the certificate to"),
            Flag("explain", EXPLAIN),
            Profile,
        ],
    },
    Subcommand {
        name: "verify",
        about: "Says whether an edited TOML document is what the edits make, and keeps all else",
        example: "Example: tomled verify server.toml edits.json new.toml new.cert",
        arguments: &[
            Required("BEFORE", "The document before the edits"),
            Required("EDITS", EDITS),
            Required("AFTER", "The document after the edits"),
            Required("CERT", "The certificate: which parts are kept"),
            Flag("explain", EXPLAIN),
            Profile,
        ],
    },
    Subcommand {
        name: "certify",
        about: "Judges whether a TOML document, whoever wrote it, is what the edits make of another, and keeps all else",
        example: "Example: tomled certify server.toml edits.json new.toml",
        arguments: &[
            Required(
                "BEFORE",
                "The document before the edits, or - for standard input",
            ),
            Required(
                "EDITS",
                "The edits, a JSON list, or - for standard input; of the three one may be -",
            ),
            Required(
                "AFTER",
                "The document after the edits, or - for standard input",
            ),
            Optional("CERT", "The file to write the certificate to"),
            Profile,
        ],
    },
];
