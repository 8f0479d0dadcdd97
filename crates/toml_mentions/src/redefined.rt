//! Names that are defined again.
ghost use Rattle.std.specs.Prelude.{◌≡◌, IfOk, OnOk};
ghost use Rattle.toml_text.specs.Source.{text_of};
ghost use Rattle.toml_mentions.specs.Redefined.{FindsBoth, FindsClash, FindsOffence, JudgedAt, address_told, again_start};
ghost use Rattle.toml_names.specs.reader.Texts.{IsOfMemory};

use crate::seeker::Clash;
use crate::seeking::seek;
use std::alloc::{AllocError, Global};
use toml_names::{Address, NameFault, ReadFault, judge_text};
use toml_text::Source;
use toml_tree::{Profile, SyntaxFault};

/// Two mentions of which the one forbids the other, and the address that they both name.
#[derive(Drop)]
pub struct Redefined {
    /// The address.
    pub address: Address,
    /// The two mentions.
    pub clash: Option<Clash>,
}

impl Redefined {
    /// Where the key part of the mention begins that may not be.
    pub fn again_start(found: &Option<Redefined>) -> Option<usize>
        ensures { result ≡ again_start found.now }
    {
        Some(found.as_ref()?.clash?.again.span.start)
    }
}

/// Which address is defined again in bytes of which the names are refused for that, and by which mentions.
pub fn find_redefined(
    alloc: Global,
    bytes: &[u8],
    profile: Profile,
) -> Result<Option<Redefined>, AllocError>
    ensures offence { IfOk result (FindsOffence profile bytes.now) }
    ensures clash { IfOk result (FindsClash profile bytes.now) }
    ensures both { IfOk result (FindsBoth profile bytes.now) }
{
    let Ok(source) = Source::new(bytes) else {
        return Ok(None);
    };
    match judged_at(alloc, source, profile)? {
        Some(address) => {
            let clash = seek(alloc, source, profile, address.steps())?.clash;
            Ok(Some(Redefined { address, clash }))
        }
        None => Ok(None),
    }
}

/// The address that is defined again in a text.
fn judged_at(
    alloc: Global,
    source: Source<'_>,
    profile: Profile,
) -> Result<Option<Address>, AllocError>
    ensures { IfOk result (JudgedAt profile (text_of source.entry)) }
{
    match judge_text(alloc, source, profile) {
        Ok(()) => Ok(None),
        Err(fault) => address_told(fault),
    }
}

/// The address that a fault of a text tells, if it does.
fn address_told(fault: ReadFault) -> Result<Option<Address>, AllocError>
    ensures says { OnOk result (¬ IsOfMemory fault) }
    ensures address { IfOk result (λ at. at ≡ address_told fault) }
{
    match fault {
        ReadFault::Names(NameFault::Redefined { address, .. }) => Ok(Some(address)),
        ReadFault::Names(NameFault::LongAddress { .. }) => Ok(None),
        ReadFault::Names(NameFault::NoMemory) => Err(AllocError),
        ReadFault::Syntax(SyntaxFault::NoMemory) => Err(AllocError),
        ReadFault::Syntax(_) => Ok(None),
    }
}
