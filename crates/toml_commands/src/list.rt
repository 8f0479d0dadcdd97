//! `show --list`: the addresses of a document's mentions.
ghost use Rattle.std.specs.Prelude.{◌≡◌, IfErr, IfOk};
ghost use Rattle.serde_json.specs.View.{view};
ghost use Rattle.toml_tree.specs.declared.profile.Profile.TheVariants.{One};
ghost use Rattle.toml_commands.specs.Listing.{Lists, ListsAddresses, address_json, line_of, lines_of, step_json};
ghost use Rattle.toml_delivery.specs.Outcomes.{Ends};
ghost use Rattle.toml_commands.specs.Refusals.{IsRefused};

use crate::document::read_mentions;
use serde_json::Value;
use std::alloc::{AllocError, Global};
use std::mem;
use toml_delivery::{Ending, Outcome};
use toml_names::{Address, Step};
use toml_tree::Profile;

/// What `show --list` prints for a document of profile 1, and for other bytes: `run_list_in` with `Profile::One`.
pub fn run_list(alloc: Global, file: &[u8]) -> Result<Outcome, AllocError>
    ensures { IfOk result (Lists One file.now) }
{
    run_list_in(alloc, file, Profile::One)
}

/// Prints the distinct addresses of the mentions of a document of the profile in the order of their first mentions, and else
/// its refusal. What was read stays in memory, for a program that ends with it.
pub fn run_list_in(alloc: Global, file: &[u8], profile: Profile) -> Result<Outcome, AllocError>
    ensures { IfOk result (Lists profile file.now) }
{
    Outcome::of_text(alloc, listed(alloc, file, profile))
}

/// The lines of a document's addresses.
fn listed(alloc: Global, file: &[u8], profile: Profile) -> Result<Vec<u8>, Ending>
    ensures good { IfOk result (λ text. ListsAddresses profile file.now text.items) }
    ensures refused { IfErr result (Ends (IsRefused profile file.now)) }
{
    let mentions = read_mentions(alloc, file, profile)?;
    let text = lines(alloc, &mentions)?;
    mem::forget(mentions);
    Ok(text)
}

/// A line for each address.
fn lines(alloc: Global, addresses: &[Address]) -> Result<Vec<u8>, AllocError>
    ensures { IfOk result (λ text. text.items ≡ lines_of addresses.now) }
{
    let mut text = Vec::new(alloc);
    for address in addresses {
        text.extend_from_slice(line(alloc, address)?.as_slice())?;
    }
    Ok(text)
}

/// The JSON of an address in compact text, and LF.
#[tactic(auto, using(crate::proofs::Listed::no_float))]
fn line(alloc: Global, address: &Address) -> Result<Vec<u8>, AllocError>
    ensures { IfOk result (λ line. line.items ≡ line_of address.now) }
{
    let json = address_json(alloc, address)?;
    let mut line = json.to_vec(alloc)?;
    line.push(b'\n')?;
    Ok(line)
}

/// The list of an address's steps.
fn address_json(alloc: Global, address: &Address) -> Result<Value, AllocError>
    ensures { IfOk result (λ json. view json ≡ address_json address.now) }
{
    let steps = address.steps();
    let mut list = Vec::with_capacity(alloc, steps.len())?;
    for step in steps {
        list.push(step_json(alloc, step)?)?;
    }
    Ok(Value::Array(list))
}

/// A name as a text, an index as a number.
fn step_json(alloc: Global, step: &Step) -> Result<Value, AllocError>
    ensures { IfOk result (λ json. view json ≡ step_json step.now) }
{
    match step {
        Step::Name(name) => Value::try_from_str(alloc, name.as_str()),
        Step::Index(index) => Ok(Value::from(*index)),
    }
}
