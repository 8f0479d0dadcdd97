//! How often texts stand in lists.
ghost use Rattle.std.specs.Prelude.{◌≡◌, ◌↔◌, ◌<◌, ◌≤◌, ◌+◌, ◌^◌, ℕ, List, IsTrue, IfOk, OnOk};
ghost use Rattle.toml_checker.specs.Counts.{HasOneMore, count_of, seen};

use std::alloc::{AllocError, Global};
use std::collections::BTreeMap;

/// Counts a text once more.
fn add_one<'t>(counts: &mut BTreeMap<&'t [u8], u64>, text: &'t [u8]) -> Result<(), AllocError>
    requires { count_of counts.old text.now + 1 < 2 ^ 64 }
    ensures { OnOk result (HasOneMore text.now counts.old counts.new) }
{
    let count = counts.get(text).copied().unwrap_or(0);
    counts.insert(text, count + 1)?;
    Ok(())
}

/// Takes a text once, if there is one left.
fn take_one(counts: &mut BTreeMap<&[u8], u64>, text: &[u8]) -> bool
    ensures had { IsTrue result ↔ (0 < count_of counts.old text.now) }
    ensures left { IsTrue result → HasOneMore text.now counts.new counts.old }
{
    if let Some(count) = counts.get_mut(text) {
        if *count > 0 {
            *count -= 1;
            return true;
        }
    }
    false
}

/// How often each text is among these.
pub(crate) fn counted<'t>(
    alloc: Global,
    texts: &[&'t [u8]],
) -> Result<BTreeMap<&'t [u8], u64>, AllocError>
    ensures { IfOk result (λ m. (t : List ℕ) → count_of m t ≡ seen t texts.now) }
{
    let mut counts = BTreeMap::new(alloc);
    for text in texts {
        add_one(&mut counts, *text)?;
    }
    Ok(counts)
}

/// Whether a text was counted.
pub(crate) fn has(counts: &BTreeMap<&[u8], u64>, text: &[u8]) -> bool
    ensures { IsTrue result ↔ (0 < count_of counts.now text.now) }
{
    match counts.get(text) {
        Some(count) => *count > 0,
        None => false,
    }
}

/// Whether no text stands more often among the first ones than among the second.
pub(crate) fn no_more(alloc: Global, used: &[&[u8]], allowed: &[&[u8]]) -> Result<bool, AllocError>
    ensures { IfOk result (λ holds. IsTrue holds ↔ ((t : List ℕ) → seen t used.now ≤ seen t allowed.now)) }
{
    let mut left = counted(alloc, allowed)?;
    for text in used {
        if !take_one(&mut left, *text) {
            return Ok(false);
        }
    }
    Ok(true)
}
