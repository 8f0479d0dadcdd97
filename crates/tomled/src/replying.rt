//! What a request comes to, by what is read for it. Nothing of it is written or printed yet.
ghost use Rattle.tomled.specs.Asking.{Asked};
ghost use Rattle.tomled.specs.Replies.{IsReply, IsReplyBy, IsReplyFrom};

use crate::inputs::Inputs;
use crate::reading::read_all;
use crate::validate::validated;
use std::alloc::Global;
use toml_commands::{answer, explained, explains, sources};
use toml_delivery::{Outcome, RunFault};
use toml_words::Request;

/// What a request came to, and the bytes that were read for it.
#[derive(Drop)]
pub struct Reply {
    pub inputs: Vec<Vec<u8>>,
    pub outcome: Outcome,
}

/// What the request comes to, with what is said of its refusal. What could not be read is a file fault.
pub fn reply_to<I: Inputs>(
    alloc: Global,
    inputs: &mut I,
    request: &Request<'_>,
) -> Result<Reply, RunFault>
    ensures { Asked (I.reads inputs.old) (I.reads inputs.new) (IsReply request.now result) }
{
    if let Request::Validate { files, profile } = request {
        let outcome = validated(alloc, inputs, files, *profile)?;
        return Ok(Reply {
            inputs: Vec::new(alloc),
            outcome,
        });
    }
    reply_from(alloc, inputs, request)
}

/// What a request comes to whose files are read whole.
fn reply_from<I: Inputs>(
    alloc: Global,
    inputs: &mut I,
    request: &Request<'_>,
) -> Result<Reply, RunFault>
    ensures { Asked (I.reads inputs.old) (I.reads inputs.new) (IsReplyFrom request.now result) }
{
    let sources = sources(alloc, request)?;
    match read_all(alloc, inputs, &sources) {
        Ok(read) => reply_by(alloc, request, read),
        Err(fault) => {
            let outcome = fault.outcome(alloc, explains(request))?;
            Ok(Reply {
                inputs: Vec::new(alloc),
                outcome,
            })
        }
    }
}

/// What a request comes to for which these bytes were read.
fn reply_by(alloc: Global, request: &Request<'_>, inputs: Vec<Vec<u8>>) -> Result<Reply, RunFault>
    ensures { IsReplyBy request.now inputs.items result }
{
    let Some(plain) = answer(alloc, request, &inputs)? else {
        return Err(RunFault::Words);
    };
    let outcome = explained(alloc, request, &inputs, plain)?;
    Ok(Reply { inputs, outcome })
}
