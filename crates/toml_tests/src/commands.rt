//! The calls that take no profile. No command makes them, and that they answer where there is memory no contract says.

use std::alloc::{AllocError, Global};
use std::process::Abort;
use std::test::Fail;
use toml_commands::{
    GetForm, run_certify, run_check, run_edit, run_get, run_list, run_show, run_verify,
};
use toml_delivery::Outcome;
use toml_print::Form;

const FILE: &[u8] = b"a = {}\n";

const EDITS: &[u8] = b"[]";

const CERT: &[u8] = b"kept 1\n0 0\n1 1\n";

/// Whether the outcome is a success with this output.
fn is_told(got: &Outcome, out: &str) -> bool {
    got.status == 0 && got.out.as_slice() == out.as_bytes() && got.err.is_empty()
}

/// Whether the calls that read the document say what there is to say of it.
fn is_read(alloc: Global) -> Result<bool, AllocError> {
    Ok(
        is_told(&run_check(alloc, FILE)?, "ok\n")
            && is_told(&run_show(alloc, FILE)?, "{\"a\":{}}\n")
            && is_told(&run_list(alloc, FILE)?, "[\"a\"]\n"),
    )
}

/// Whether what stands at a place is printed, or else the default.
fn is_gotten(alloc: Global) -> Result<bool, AllocError> {
    let form = GetForm::Printed(Form::TypeName);
    let there = run_get(alloc, FILE, b"a", form, None)?;
    let spelled = run_get(alloc, FILE, b"a", GetForm::Toml, None)?;
    let default = run_get(alloc, FILE, b"b", form, Some(b"7"))?;
    let missing = run_get(alloc, FILE, b"b", form, None)?;
    Ok(
        is_told(&there, "table\n")
            && is_told(&spelled, "{}\n")
            && is_told(&default, "7\n")
            && missing.status == 5,
    )
}

/// Whether the document is edited, and the edit verified and certified.
fn is_edited(alloc: Global) -> Result<bool, AllocError> {
    let edited = run_edit(alloc, FILE, EDITS)?;
    let verified = run_verify(alloc, FILE, EDITS, FILE, CERT)?;
    let certified = run_certify(alloc, FILE, EDITS, FILE)?;
    Ok(is_told(&edited, "ok\n") && is_told(&verified, "yes\n") && is_told(&certified, "yes\n"))
}

#[test]
fn calls_without_a_profile_answer(rt: HostRuntime) -> Result<(), Fail> {
    assert!(rt; is_read(rt.alloc())? && is_gotten(rt.alloc())? && is_edited(rt.alloc())?);
    Ok(())
}
