//! What is told of a text: what is written for it, or why nothing is.
ghost use Rattle.std.specs.Prelude.{◌≢◌, IfOk};
ghost use Rattle.program_searches.specs.Replies.{reply_of};
ghost use Rattle.unroll.specs.Written.{IsUnrollFault};
ghost use Rattle.program_unroll.specs.Unrolled.{IsUnrollReply};

use kif::add_refusal;
use program_searches::Reply;
use statement::Status;
use std::alloc::{AllocError, AllocGlobal, Global};
use unroll::{Bounds, UnrollFault, unrolled};

/// The line that names a fault, but want of memory.
pub(crate) fn refused(alloc: Global, bytes: &[u8], fault: &UnrollFault) -> Result<Reply, AllocError>
    requires fault { IsUnrollFault bytes.now fault.now }
    requires other { fault.now ≢ UnrollFault.NoMemory }
    ensures { (bounds : Bounds) → IfOk result (λ reply. IsUnrollReply bounds bytes.now (reply_of reply)) }
{
    let mut output = Vec::new(alloc);
    add_refusal(fault, &mut output)?;
    Ok(Reply {
        output,
        status: Status::Refused,
    })
}

/// What `unroll` tells of the bytes of the input: the text that is written for them, in which `base` and `input` are those that are stated, or
/// only what can come of them, as `bounds` says; or the line that names why none is written. It fails only for want of memory.
pub fn unroll_reply<T: AllocGlobal>(
    rt: &T,
    bytes: &[u8],
    bounds: Bounds,
) -> Result<Reply, AllocError>
    ensures { IfOk result (λ reply. IsUnrollReply bounds bytes.now (reply_of reply)) }
{
    match unrolled(rt, bytes, bounds) {
        Ok(output) => Ok(Reply {
            output,
            status: Status::Answer,
        }),
        Err(UnrollFault::NoMemory) => Err(AllocError),
        Err(fault) => refused(rt.alloc(), bytes, &fault),
    }
}
