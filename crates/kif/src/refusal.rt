//! The line that says why an input is refused.
ghost use Rattle.std.specs.Prelude.{◌≡◌, ◌++◌, OnOk, IfSome};
ghost use Rattle.statement.specs.TextFaults.{refusal_line};

use std::alloc::{AllocError, Allocator};
use std::fmt::Display;
use std::io::Write;

/// Adds the line of a refusal to the text: `refused`, the fault as it is displayed, and a line feed.
/// An error is want of memory, where the fault's own display does not fail, and then the text may
/// hold a beginning of the line.
pub fn add_refusal<A: Allocator, F: Display>(
    fault: &F,
    text: &mut Vec<u8, A>,
) -> Result<(), AllocError>
    ensures { OnOk result (IfSome (F.output fault.now) (λ words. text.new.items ≡ text.old.items ++ refusal_line words)) }
{
    writeln!(text, "refused {fault}").map_err(|_| AllocError)
}
