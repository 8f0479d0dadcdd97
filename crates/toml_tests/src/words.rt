//! What the words of command lines ask for.

use std::alloc::{AllocError, Global};
use std::process::Abort;
use std::test::Fail;
use toml_words::{WordsFault, marked_words, parser_text, read_words};

/// What the words of a line ask for, or why they ask for nothing. Between two spaces stands a word of no characters.
fn asked(alloc: Global, line: &str) -> Result<String, AllocError> {
    let mut words = Vec::new(alloc);
    for word in line.split(' ') {
        words.push(String::from_str(alloc, word)?)?;
    }
    let marked = marked_words(alloc, &words)?;
    let mut texts = Vec::new(alloc);
    for word in &marked {
        texts.push(word.as_str())?;
    }
    match read_words(alloc, &texts) {
        Ok(request) => format!(in alloc; "{request:?}"),
        Err(WordsFault::Parser(error)) => {
            let told = parser_text(alloc, &error)?;
            String::from_str(alloc, if told.is_help { "help" } else { "mistake" })
        }
        Err(WordsFault::Nothing) => String::from_str(alloc, "nothing"),
        Err(WordsFault::NoMemory) => Err(AllocError),
    }
}

/// What words ask for, and lines of such words.
const REQUESTS: &str = r#"
Show { file: "a", list: true, explain: false, profile: Two }
tomled show --list --profile 2 a
tomled show a --profile=2 --list

Check { file: "-", explain: true, profile: One }
tomled check --explain -

Edit { file: "a", edits: "b", out: "c", cert: "d", explain: false, profile: Two }
tomled edit a b --profile 2 c d

Verify { before: "a", edits: "b", after: "c", cert: "d", explain: true, profile: One }
tomled verify a b c d --explain

Certify { before: "a", edits: "-", after: "c", cert: Some("-"), profile: One }
tomled certify a - c -

Certify { before: "a", edits: "b", after: "-", cert: None, profile: Two }
tomled certify a b - --profile=2

Get { file: "-", place: "a.b", form: Plain, default: None, profile: One }
tomled get - a.b

Get { file: "F", place: "z", form: TypeName, default: Some("-1"), profile: One }
tomled get --default -1 --type F z
tomled get F z --type --default=-1

Get { file: "-F", place: "z", form: Toml, default: Some(""), profile: Two }
tomled get --toml --default= --profile 2 -- -F z

One { file: "F", place: "n", edit: Set { value: NewValue { text: "-1", is_string: false }, parents: false }, destination: Destination { in_place: true, certificate: None }, layout: Follow, profile: One }
tomled set F n -1 -i
tomled set -i F n -1
tomled set F n --in-place -- -1

One { file: "F", place: "n", edit: Insert { value: NewValue { text: "-x", is_string: true }, parents: true }, destination: Destination { in_place: false, certificate: Some("C") }, layout: Follow, profile: Two }
tomled insert --certificate C --parents F n --profile 2 --string -x

One { file: "F", place: "n", edit: Rename { to: "--string" }, destination: Destination { in_place: false, certificate: None }, layout: Follow, profile: One }
tomled rename F n --string

One { file: "F", place: ".", edit: Remove, destination: Destination { in_place: false, certificate: None }, layout: Plain, profile: One }
tomled remove F . --layout plain

Apply { file: "F", edits: "-", destination: Destination { in_place: true, certificate: Some("C") }, layout: Follow, profile: One }
tomled apply F - -i --certificate=C

Validate { files: ["a", "-", "b"], profile: Two }
tomled validate a - --profile 2 b

help
tomled --help
tomled --version
tomled -V
tomled get --help
tomled set -h
tomled help

mistake
tomled
tomled get F
tomled get --json=x F a
tomled get F a --pretty
tomled get F a -1
tomled set -1 F n
tomled set F n
tomled set F n 1 2
tomled set --layout odd F n 1
tomled rename F n --parents --string x
tomled remove F n -1
tomled validate
tomled validate a --list
tomled check --profile 3 a
tomled check --profile 1 a --profile=1
tomled edit a b c
tomled verify a b c d e
tomled certify a b
tomled unknown a

nothing
tomled get --json --toml F a
tomled get --type --tagged F a
tomled set -i - port 1
tomled set F n 1 --certificate -x
tomled apply -i - E
tomled apply - -
tomled certify - b -
tomled validate - a -
"#;

/// Each paragraph: what is wanted, and the lines of which it is.
#[test]
fn words_ask(rt: HostRuntime) -> Result<(), Fail> {
    for paragraph in REQUESTS.trim_matches('\n').split("\n\n") {
        let (wanted, lines) = paragraph.split_once('\n').ok_or("no lines")?;
        for line in lines.split('\n') {
            let got = asked(rt.alloc(), line)?;
            assert!(rt; got.as_str() == wanted, "{line}: {got}");
        }
    }
    Ok(())
}
