//! Names and data: the places and addresses of things, the first offence, and the data of values.

use crate::worked::{address, assert_answers, doc, names, path, source, what_stands};
use std::alloc::Global;
use std::test::Fail;
use toml_names::{Address, Data, Datum, NameFault, Names, read_names, read_value, same};
use toml_tree::parse_value;

/// Where in a document stands what has a path, and which path the line with a number has.
const PLACES: &str = "
a.b = 1¶[x.y]¶z = [{k = 1}]¶[[t]]¶[[t]]¶# c¶[x]¶q.r = {s.t = 2}¶q.u = 3¶
Some(Root) | /
Some(Dotted(0)) | /a
Some(KeyVal(0)) | /a/b
None | /a/b/c
Some(Header(6)) | /x
Some(Header(1)) | /x/y
Some(KeyVal(2)) | /x/y/z
Some(Inside(2)) | /x/y/z/#0
None | /x/y/z/#1
Some(Inside(2)) | /x/y/z/#0/k
Some(Tables(3)) | /t
Some(Header(4)) | /t/#1
None | /t/#2
Some(Dotted(7)) | /x/q
Some(Inside(7)) | /x/q/r/s
None | /q
/a/b | 0
/x/y | 1
/t/#1 | 4
none | 5
/x/q/r | 7
none | 9
none | 100

[a.b]¶[a.c]¶
Some(Implicit(0)) | /a

[a.b.c]¶[a]¶b.x = 1
Some(Dotted(2)) | /a/b

[[t]]¶[t.u]
Some(Header(0)) | /t/#0

[[a]]¶[[a.b]]¶[[a]]¶[[a.b]]
Some(Header(3)) | /a/#1/b/#0

[[a]]¶k = 1¶[[a]]¶k = 1
Some(KeyVal(3)) | /a/#1/k
";

fn told_of(alloc: Global, names: &Names<'_, '_>, asked: &str) -> Option<String> {
    match asked.parse::<usize>() {
        Ok(line) => match names.address_of(line) {
            Some(at) => path(alloc, at),
            None => String::from_str(alloc, "none").ok(),
        },
        Err(_) => {
            let place = names.place(&address(alloc, asked)?);
            format!(in alloc; "{place:?}").ok()
        }
    }
}

fn place_or_address(alloc: Global, text: &str, asked: &str) -> Option<String> {
    let doc = doc(alloc, text)?;
    let names = names(alloc, &doc)?;
    told_of(alloc, &names, asked)
}

#[test]
fn things_have_their_places(rt: HostRuntime) -> Result<(), Fail> {
    assert_answers(&rt, rt.alloc(), PLACES, 28, place_or_address)
}

/// The line of a refusal, and the address of what is told again, or that one is too long.
pub fn told(alloc: Global, fault: &NameFault) -> Option<String> {
    match fault {
        NameFault::Redefined { line, address } => {
            let path = path(alloc, address)?;
            format!(in alloc; "{line} {}", path.as_str()).ok()
        }
        NameFault::LongAddress { line } => format!(in alloc; "{line} long").ok(),
        NameFault::NoMemory => None,
    }
}

const OFFENCES: &str = "
∅
2 /a/b | [a]¶b = {c = 1}¶[a.b.d]
2 /a/b | [a]¶b = {c = 1}¶[a.b.d]¶[a]
2 /fruit/apple | [fruit]¶apple.color = 1¶[fruit.apple]
2 /a/#0/b | [[a]]¶b = 1¶[[a.b]]
";

fn offence(alloc: Global, _: &str, text: &str) -> Option<String> {
    let doc = doc(alloc, text)?;
    told(alloc, &read_names(alloc, &doc).err()?)
}

#[test]
fn the_first_offence_is_told(rt: HostRuntime) -> Result<(), Fail> {
    assert_answers(&rt, rt.alloc(), OFFENCES, 4, offence)
}

/// What stands at a path in a value, or why the value is refused.
const PARTS: &str = r#"
{list = [1, {text = 'x'}], number = 1.0}
table | /
array | /list
Integer(1) | /list/#0
nothing | /list/#0/#0
Text("x") | /list/#1/text
nothing | /list/#1/text/x
nothing | /list/#2
nothing | /list/text
nothing | /text
Float(FloatText { text: "1.0" }) | /number

{a.b = 1, a.c = [2]}
Integer(1) | /a/b
Integer(2) | /a/c/#0

{k = 1, k = 2}
Rules | /

// a key of a hundred parts
{a.a.a.a.a.a.a.a.a.a.a.a.a.a.a.a.a.a.a.a.a.a.a.a.a.a.a.a.a.a.a.a.a.a.a.a.a.a.a.a.a.a.a.a.a.a.a.a.a.a.a.a.a.a.a.a.a.a.a.a.a.a.a.a.a.a.a.a.a.a.a.a.a.a.a.a.a.a.a.a.a.a.a.a.a.a.a.a.a.a.a.a.a.a.a.a.a.a.a.a = []}
table | /a

{a.a.a.a.a.a.a.a.a.a.a.a.a.a.a.a.a.a.a.a.a.a.a.a.a.a.a.a.a.a.a.a.a.a.a.a.a.a.a.a.a.a.a.a.a.a.a.a.a.a.a.a.a.a.a.a.a.a.a.a.a.a.a.a.a.a.a.a.a.a.a.a.a.a.a.a.a.a.a.a.a.a.a.a.a.a.a.a.a.a.a.a.a.a.a.a.a.a.a.a = [1]}
Long | /a
"#;

/// The data of a text that is one value.
fn value(alloc: Global, text: &str) -> Option<Datum> {
    read_value(alloc, &parse_value(alloc, source(text)?).ok()?).ok()
}

fn part(alloc: Global, text: &str, path: &str) -> Option<String> {
    match read_value(alloc, &parse_value(alloc, source(text)?).ok()?) {
        Ok(root) => what_stands(alloc, &root, path),
        Err(fault) => format!(in alloc; "{fault:?}").ok(),
    }
}

/// Whether a value's data are those of a copy of another one's.
const ALIKE: &str = "
{list = [1, {text = 'x'}], number = 1.0}
true | {list = [1, {text = 'x'}], number = 1.0}
true | {list = [1, {text = 'x'}], number = +1.0}
false | {list = [1, {text = 'x'}], number = 1.00}
false | {}

{}
false | {list = [1, {text = 'x'}], number = 1.0}
false | []
";

/// A copy of the data of a text that is one value.
fn copied_value(alloc: Global, text: &str) -> Option<Data> {
    let data = Data {
        root: value(alloc, text)?,
    };
    data.copy(alloc).ok()
}

fn alike(alloc: Global, one: &str, other: &str) -> Option<String> {
    let alike = same(&value(alloc, one)?, &copied_value(alloc, other)?.root);
    format!(in alloc; "{alike}").ok()
}

#[test]
fn values_have_their_data(rt: HostRuntime) -> Result<(), Fail> {
    assert_answers(&rt, rt.alloc(), PARTS, 15, part)?;
    assert_answers(&rt, rt.alloc(), ALIKE, 6, alike)
}

/// The path of a copy of an address.
fn copied(alloc: Global, _: &str, steps: &str) -> Option<String> {
    let copy = address(alloc, steps)?.copy(alloc).ok()?;
    path(alloc, &Address::of(copy.into_steps()))
}

#[test]
fn addresses_are_copied(rt: HostRuntime) -> Result<(), Fail> {
    assert_answers(&rt, rt.alloc(), "∅\n/t/#1/u | /t/#1/u", 1, copied)
}
