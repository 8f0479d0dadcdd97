//! Units and certificates: the units of documents with their kinds, places, addresses and bases, and the pairs of certificates.

use crate::worked::{assert_answers, path, units_of};
use std::alloc::Global;
use std::test::Fail;
use toml_units::{Unit, certificate_text, read_certificate};

/// The units of documents, by number: what each is, where it begins and ends, its address, and its base; `-` where it has
/// none.
const UNITS: &str = r##"
∅
Line 0 0 - - | 0
none | 1

□a = 1
Line 3 8 /a 0 | 0
none | 1

a = 1 # c␍¶# d␍¶
Line 0 9 /a 0 | 0
TailComment 6 9 /a - | 1
Line 11 14 - - | 2
TailComment 11 14 - - | 3
Line 16 16 - - | 4
none | 5

␣␣¶␉# only¶
Line 0 2 - - | 0
Line 3 10 - - | 1
TailComment 4 10 - - | 2
Line 11 11 - - | 3
none | 4

[a.b]¶c.d = 1¶[[t]] # x¶[[t]]¶k = 2
Line 0 5 /a/b - | 0
Line 6 13 /a/b/c/d 2 | 1
Line 14 23 /t/#0 - | 2
TailComment 20 23 /t/#0 - | 3
Line 24 29 /t/#1 - | 4
Line 30 35 /t/#1/k 2 | 5
none | 6

a = """¶# no comment¶""" # yes
Line 0 30 /a 0 | 0
TailComment 25 30 /a - | 1
none | 2

□# c¶a = 1
Line 3 6 - - | 0
TailComment 3 6 - - | 1
Line 7 12 /a 0 | 2
none | 3

[[t]]¶a.b = 1
Line 0 5 /t/#0 - | 0
Line 6 13 /t/#0/a/b 2 | 1
none | 2

a = []¶b = {}¶
Line 0 6 /a 0 | 0
Line 7 13 /b 0 | 1
Line 14 14 - - | 2
none | 3

x = [1, # one¶ 2]¶
Line 0 17 /x 0 | 0
Element 5 6 /x/#0 - | 1
InnerComment 8 13 /x - | 2
Element 15 16 /x/#1 - | 3
Line 18 18 - - | 4
none | 5

a = [# x¶# y¶]¶
Line 0 14 /a 0 | 0
InnerComment 5 8 /a - | 1
InnerComment 9 12 /a - | 2
Line 15 15 - - | 3
none | 4

x = [[1, # a¶2,# b¶], # c¶]
Line 0 27 /x 0 | 0
Element 5 20 /x/#0 - | 1
Element 6 7 /x/#0/#0 - | 2
InnerComment 9 12 /x/#0 - | 3
Element 13 14 /x/#0/#1 - | 4
InnerComment 15 18 /x/#0 - | 5
InnerComment 22 25 /x - | 6
none | 7

p = {a.b = 1, c = {d = 2}}
Line 0 26 /p 0 | 0
Pair 5 12 /p/a/b 1 | 1
Pair 14 25 /p/c 1 | 2
Pair 19 24 /p/c/d 2 | 3
none | 4

"é b" = [{x = 1}]
Line 0 18 /é b 0 | 0
Element 10 17 /é b/#0 - | 1
Pair 11 16 /é b/#0/x 2 | 2
none | 3

x = [1 # c¶, 2]
Line 0 15 /x 0 | 0
Element 5 6 /x/#0 - | 1
InnerComment 7 10 /x - | 2
Element 13 14 /x/#1 - | 3
none | 4

x = [1 # c¶]
Line 0 12 /x 0 | 0
Element 5 6 /x/#0 - | 1
InnerComment 7 10 /x - | 2
none | 3

x = [1, # c␍¶2]
Line 0 15 /x 0 | 0
Element 5 6 /x/#0 - | 1
InnerComment 8 11 /x - | 2
Element 13 14 /x/#1 - | 3
none | 4

p = {a = [ # c¶ 1]}
Line 0 19 /p 0 | 0
Pair 5 18 /p/a 1 | 1
InnerComment 11 14 /p/a - | 2
Element 16 17 /p/a/#0 - | 3
none | 4

[[a.b]]¶[a.b.c]¶d = [1,¶2] # t
Line 0 7 /a/b/#0 - | 0
Line 8 15 /a/b/#0/c - | 1
Line 16 30 /a/b/#0/c/d 4 | 2
Element 21 22 /a/b/#0/c/d/#0 - | 3
Element 24 25 /a/b/#0/c/d/#1 - | 4
TailComment 27 30 /a/b/#0/c/d - | 5
none | 6

t = {¶  x = 1, # one¶  y = 2,¶}¶
Line 0 31 /t 0 | 0
Pair 8 13 /t/x 1 | 1
InnerComment 15 20 /t - | 2
Pair 23 28 /t/y 1 | 3
Line 32 32 - - | 4
none | 5

t = {#a¶x = [#b¶{ y.z = {#c¶},#d¶}]} # e
Line 0 40 /t 0 | 0
InnerComment 5 7 /t - | 1
Pair 8 35 /t/x 1 | 2
InnerComment 13 15 /t/x - | 3
Element 16 34 /t/x/#0 - | 4
Pair 18 29 /t/x/#0/y/z 3 | 5
InnerComment 25 27 /t/x/#0/y/z - | 6
InnerComment 30 32 /t/x/#0 - | 7
TailComment 37 40 /t - | 8
none | 9

t = {a = { # c¶}}
Line 0 17 /t 0 | 0
Pair 5 16 /t/a 1 | 1
InnerComment 11 14 /t/a - | 2
none | 3
"##;

fn unit_text(alloc: Global, unit: &Unit) -> Option<String> {
    let at = match &unit.address {
        Some(at) => path(alloc, at)?,
        None => String::from_str(alloc, "-").ok()?,
    };
    let (kind, start, end) = (unit.kind, unit.span.start, unit.span.end);
    match unit.base {
        Some(base) => format!(in alloc; "{kind:?} {start} {end} {} {base}", at.as_str()).ok(),
        None => format!(in alloc; "{kind:?} {start} {end} {} -", at.as_str()).ok(),
    }
}

fn unit(alloc: Global, text: &str, number: &str) -> Option<String> {
    match units_of(alloc, text)?.get(number.parse::<usize>().ok()?) {
        Some(unit) => unit_text(alloc, unit),
        None => String::from_str(alloc, "none").ok(),
    }
}

#[test]
fn documents_have_units(rt: HostRuntime) -> Result<(), Fail> {
    assert_answers(&rt, rt.alloc(), UNITS, 110, unit)
}

/// The pairs of certificates.
const CERTIFICATES: &str = "
∅
[] | kept 1¶
[(0, 0)] | kept 1¶0 0¶
[(1, 1), (2, 2)] | kept 1¶1 1¶2 2¶
[(0, 0), (0, 0)] | kept 1¶0 0¶0 0¶
[(18446744073709551615, 10)] | kept 1¶18446744073709551615 10¶
[(18446744073709551615, 0)] | kept 1¶18446744073709551615 0¶
[(0, 0), (1, 1), (2, 0)] | kept 1¶0 0¶1 1¶2 0¶
";

/// The pairs of a certificate, of which the text is this one.
fn pairs(alloc: Global, _: &str, text: &str) -> Option<String> {
    let certificate = read_certificate(alloc, text.as_bytes()).ok()?;
    if certificate_text(alloc, &certificate).ok()?.as_str() != text {
        return None;
    }
    format!(in alloc; "{:?}", certificate.pairs).ok()
}

#[test]
fn certificates_are_read_and_written(rt: HostRuntime) -> Result<(), Fail> {
    assert_answers(&rt, rt.alloc(), CERTIFICATES, 7, pairs)
}
