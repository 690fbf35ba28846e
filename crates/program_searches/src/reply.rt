//! All the bytes of a reply, and its status.
ghost use Rattle.std.specs.Prelude.{◌≡◌, ◌++◌, IfOk, OnOk, IfSome};
ghost use Rattle.statement.specs.TextFaults.{refusal_line};
ghost use Rattle.statement.specs.Checking.{count_line};

use kif::add_refusal;
use statement::Status;
use std::alloc::{AllocError, Global};
use std::fmt::Display;
use std::io::Write;

/// The reply to a command.
#[derive(Drop)]
pub struct Reply {
    /// All its bytes.
    pub output: Vec<u8>,
    /// What kind of reply it is.
    pub status: Status,
}

/// An answer with these bytes.
pub fn answered(output: Vec<u8>) -> Reply
    ensures output { result.output ≡ output }
    ensures status { result.status ≡ Status.Answer }
{
    Reply {
        output,
        status: Status::Answer,
    }
}

/// The refusal that names a fault.
pub fn refused<F: Display>(alloc: Global, fault: &F) -> Result<Reply, AllocError>
    ensures line { IfOk result (λ reply. IfSome (F.output fault.now) (λ words. reply.output.items ≡ refusal_line words)) }
    ensures status { IfOk result (λ reply. reply.status ≡ Status.Refused) }
{
    let mut output = Vec::new(alloc);
    add_refusal(fault, &mut output)?;
    Ok(Reply {
        output,
        status: Status::Refused,
    })
}

/// Adds a line of a word and a count. After an error the output may have a beginning of it.
pub fn add_count(word: &str, count: usize, output: &mut Vec<u8>) -> Result<(), AllocError>
    ensures { OnOk result (output.new.items ≡ output.old.items ++ count_line word.now count) }
{
    writeln!(output, "{word} {count}").map_err(|_| AllocError)
}
