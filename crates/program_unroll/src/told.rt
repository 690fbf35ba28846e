//! What is told of a text, with what explains it.
ghost use Rattle.std.specs.Prelude.{◌≡◌, ◌≢◌, ◌≤◌, Ok, IfOk, IfErr};
ghost use Rattle.std.specs.Io.KnownBytes.{Appends};
ghost use Rattle.statement.specs.Output.{AppendsFront};
ghost use Rattle.program_searches.specs.Replies.{reply_of};
ghost use Rattle.program_streams.specs.MoreTold.{TellsMore};
ghost use Rattle.program_streams.specs.Input.{IsReadFrom};
ghost use Rattle.program_unroll.specs.Unrolled.{IsUnrollReply, IsReplyTold};

use crate::explaining::unroll_explanation;
use crate::replying::refused;
use kif::write_bytes;
use program_searches::Reply;
use program_streams::{RunFault, read_input, status_of, write_out};
use statement::Status;
use std::alloc::{AllocGlobal, Global};
use std::io::{Read, Write};
use unroll::{Bounds, UnrollFault, unrolled};

/// What is told of a text that was read.
#[derive(Drop)]
pub struct Told {
    /// The bytes that were read.
    pub bytes: Vec<u8>,
    /// What is written for them, or the line that names why nothing is.
    pub reply: Reply,
    /// Why nothing is written, where it is so. What explains it rests on this alone, and no clause says anything of it.
    pub fault: Option<UnrollFault>,
}

/// What is told of bytes.
fn told_of<T: AllocGlobal>(rt: &T, bytes: Vec<u8>, bounds: Bounds) -> Result<Told, RunFault>
    ensures told { IfOk result (λ told. (told.bytes.items ≡ bytes.items) × IsUnrollReply bounds bytes.items (reply_of told.reply)) }
    ensures fault { IfErr result (λ fault. fault ≡ RunFault.Memory) }
{
    match unrolled(rt, &bytes, bounds) {
        Ok(output) => Ok(Told {
            bytes,
            reply: Reply {
                output,
                status: Status::Answer,
            },
            fault: None,
        }),
        Err(UnrollFault::NoMemory) => Err(RunFault::Memory),
        Err(fault) => {
            let Ok(reply) = refused(rt.alloc(), &bytes, &fault) else {
                return Err(RunFault::Memory);
            };
            Ok(Told {
                bytes,
                reply,
                fault: Some(fault),
            })
        }
    }
}

/// Reads a text, and answers what is written for it, or the line that names why nothing is.
pub fn unroll_read<T: AllocGlobal, R: Read>(
    rt: &T,
    input: &mut R,
    bounds: Bounds,
) -> Result<Told, RunFault>
    ensures reply { IfOk result (λ told. IsReadFrom (R.remaining input.old) (R.remaining input.new) told.bytes.items
        × IsUnrollReply bounds told.bytes.items (reply_of told.reply)) }
    ensures fault { IfErr result (λ fault. fault ≢ RunFault.Write) }
{
    let bytes = read_input(rt.alloc(), input)?;
    told_of(rt, bytes, bounds)
}

/// Writes a reply.
fn write_reply<W: Write>(output: &mut W, reply: &Reply) -> Result<Status, RunFault>
    ensures whole { IfOk result (λ status. (status ≡ reply.now.status)
        × Appends (W.contents output.old) (W.contents output.new) reply.now.output.items) }
    ensures front { IfErr result (λ fault. (fault ≡ RunFault.Write)
        × AppendsFront (W.contents output.old) (W.contents output.new) reply.now.output.items) }
{
    write_out(output, &reply.output)?;
    Ok(reply.status)
}

/// Tells the errors a text. A fault in writing it is passed over.
fn tell<E: Write>(errors: &mut E, text: &[u8])
    ensures { AppendsFront (E.contents errors.old) (E.contents errors.new) text.now }
{
    let _ = write_bytes(errors, text);
}

/// Tells the errors what explains a refusal that was written, if there is memory for it.
fn explain_told<E: Write>(
    alloc: Global,
    told: &Told,
    bounds: Bounds,
    ended: &Result<Status, RunFault>,
    errors: &mut E,
)
    ensures { TellsMore (ended.now ≡ Ok Status.Refused) (E.contents errors.old) (E.contents errors.new) }
{
    let Ok(Status::Refused) = ended else {
        return;
    };
    let Some(fault) = &told.fault else {
        return;
    };
    let Ok(text) = unroll_explanation(alloc, &told.bytes, fault, bounds) else {
        return;
    };
    tell(errors, &text);
}

/// Writes what is told of a text, and then tells the errors what explains it, if it is a refusal. It answers the exit status.
pub fn write_told<W: Write, E: Write>(
    alloc: Global,
    told: &Told,
    bounds: Bounds,
    output: &mut W,
    errors: &mut E,
) -> u8
    ensures told { IsReplyTold (reply_of told.now.reply) result
        (W.contents output.old) (W.contents output.new) (E.contents errors.old) (E.contents errors.new) }
    ensures statuses { result ≤ 4 }
{
    let ended = write_reply(output, &told.reply);
    let status = status_of(ended, errors);
    explain_told(alloc, told, bounds, &ended, errors);
    status
}
