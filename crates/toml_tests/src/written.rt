//! What is written of a text's names is what the JSON library writes of the tagged JSON of its data.

use std::alloc::Global;
use toml_names::{Data, names_of_text, read_names};
use toml_print::{tagged, write_tagged};
use toml_text::Source;
use toml_tree::{Profile, parse};

/// A key of two parts, of which the program shows the same.
const DOTTED: &str = "3.14 = 0xdead_beef\n";

/// Every escape, and characters that have none.
const ESCAPED: &str =
    r#""\b\t\n\f\r\"\\" = "\u0000\u0007\b\t\n\u000B\f\r\u000E\u0019\u001A\u001F !\"/#[\\]\u007F\u0080é\u2028𝄞""#;

/// Names out of order, of which some begin others, more than a few in one table, and empty ones.
const UNORDERED: &str =
    "b = 1\na.b = 2\n'' = 3\nab = 4\na.a = 5\nB = 6\nj = 7\n\"\\u00E9\" = 8\ni = 9\nh = 10\n'~' = 11\na.'' = 12\nc = 13\n[x]\nz = 1\ny = 2\n[e]\nd = {c = 1, b = 2, a = 3}";

/// Nothing, one thing and more, in arrays and in tables.
const NESTED: &str =
    "a = [[], [1], {}, [1, {b = 'c', d.e = -0.0, f = true}, 'g']]\n\n[[h.i]]\n\n[[h.i]]\nj = 1979-05-27";

/// The data of a document.
fn data(alloc: Global, source: Source) -> Option<Data> {
    let doc = parse(alloc, source).ok()?;
    let names = read_names(alloc, &doc).ok()?;
    names.data().copy(alloc).ok()
}

/// What is written behind what was there.
fn written(alloc: Global, source: Source) -> Option<Vec<u8>> {
    let whole = names_of_text(alloc, source, Profile::One).ok()?;
    let mut written = Vec::from_slice(alloc, b"[").ok()?;
    write_tagged(alloc, &mut written, &whole).ok()?;
    Some(written)
}

/// What the library writes.
fn librarys(alloc: Global, source: Source) -> Option<Vec<u8>> {
    let json = tagged(alloc, &data(alloc, source)?).ok()?;
    json.to_vec(alloc).ok()
}

/// Whether the library's text stands behind what was there.
fn is_the_librarys(alloc: Global, text: &str) -> Option<bool> {
    let source = Source::new(text.as_bytes()).ok()?;
    let (written, wanted) = (written(alloc, source)?, librarys(alloc, source)?);
    let (first, rest) = written.as_slice().split_first()?;
    Some(*first == b'[' && rest == wanted.as_slice())
}

#[test]
fn the_text_is_the_librarys(rt: HostRuntime) {
    for text in ["", DOTTED, ESCAPED, UNORDERED, NESTED] {
        assert_eq!(rt; is_the_librarys(rt.alloc(), text), Some(true), "{text}");
    }
}
