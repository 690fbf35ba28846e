//! What opening a handle comes to.
ghost use Rattle.std.specs.Prelude.{◌≡◌, IfSome, List, ℕ};
ghost use Rattle.gdlsolve_c.specs.Handles.{StandsFor, OpensTo, IsOpenStatus};

use crate::handle::{Handle, handle_of};
use crate::parts::Parts;
use std::alloc::Global;
use std::marker::Model;
use std::ptr::null_mut;

/// The status of a handle.
const OPENED: u32 = 0;

/// The status of want of memory.
const STARVED: u32 = 3;

/// What opening comes to: a pointer to a handle, or to nothing for want of memory.
pub(crate) struct Opened {
    pub(crate) at: *mut u8,
    pub(crate) status: u32,
    pub(crate) ghost rules: { List ℕ },
}

impl Model for Opened {
    ghost also_owns = { λ o. OpensTo o.status o.at o.rules };
}

impl Opened {
    /// A handle.
    pub(crate) fn with(parts: Parts<Handle, Global>) -> Opened
        requires { StandsFor parts.value parts.value.rules.items }
        ensures { (result.status ≡ 0) × (result.rules ≡ parts.value.rules.items) }
    {
        let Parts { ptr, alloc: _owner } = parts;
        Opened {
            at: ptr.cast(),
            status: OPENED,
        }
    }

    /// None, for want of memory.
    pub(crate) fn starved() -> Opened
        ensures { result.status ≡ 3 }
    {
        Opened {
            at: null_mut(),
            status: STARVED,
        }
    }
}

/// The parts of a handle that stands for rules, or nothing for want of memory.
fn handle_parts(alloc: Global, rules: &[u8]) -> Option<Parts<Handle, Global>>
    ensures { IfSome result (λ parts. StandsFor parts.value rules.now) }
{
    match handle_of(alloc, rules) {
        Ok(handle) => Some(Parts::of(handle)),
        Err(_) => None,
    }
}

/// Opens a handle that stands for rules.
pub(crate) fn open_over(alloc: Global, rules: &[u8]) -> Opened
    ensures rules { result.status ≡ 0 → result.rules ≡ rules.now }
    ensures status { IsOpenStatus result.status }
{
    match handle_parts(alloc, rules) {
        Some(parts) => Opened::with(parts),
        None => Opened::starved(),
    }
}

/// Gives back all that a handle has.
pub(crate) fn closed(parts: Parts<Handle, Global>) {
    drop(parts.into_box());
}
