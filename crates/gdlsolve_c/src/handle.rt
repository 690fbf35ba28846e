//! What a handle leads to.
ghost use Rattle.std.specs.Prelude.{◌≡◌, IfOk};
ghost use Rattle.gdlsolve_c.specs.Handles.{StandsFor};

use position::NetGame;
use std::alloc::{AllocError, Global};

/// What a handle leads to: the bytes of rules, and the game of them, which is made when it is first asked for.
#[derive(Drop)]
pub(crate) struct Handle {
    pub(crate) rules: Vec<u8>,
    pub(crate) made: Option<NetGame>,
}

/// Hands on what may go from thread to thread, as a caller of the library may have a handle go.
fn may_be_sent<T: Send>(value: T) -> T
    ensures { result ≡ value }
{
    value
}

/// A handle that stands for rules. It fails only for want of memory.
pub(crate) fn handle_of(alloc: Global, rules: &[u8]) -> Result<Box<Handle>, AllocError>
    ensures { IfOk result (λ handle. StandsFor handle.value rules.now) }
{
    let mut copy = Vec::new(alloc);
    copy.extend_from_slice(rules)?;
    let handle = Handle {
        rules: copy,
        made: None,
    };
    Ok(Box::new(alloc, may_be_sent(handle))?)
}
