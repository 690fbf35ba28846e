//! Why a run ends without its reply.
use thiserror::Error;

/// Why a run ends without its reply.
#[derive(Clone, Copy, Debug, PartialEq, Eq, Error)]
pub enum RunFault {
    /// A growth was refused. Nothing was written.
    #[error("no memory")]
    Memory,
    /// The reader failed. Nothing was written.
    #[error("read fault")]
    Read,
    /// The writer failed, or took no byte. It holds a beginning of the reply.
    #[error("write fault")]
    Write,
}

impl RunFault {
    ghost use Rattle.std.specs.Prelude.{◌≡◌};
    ghost use Rattle.program_streams.specs.Faults.{fault_line};

    /// The line that tells of the fault.
    pub(crate) fn line(self) -> &'static [u8]
        ensures { result.now ≡ fault_line self }
    {
        match self {
            RunFault::Memory => b"no memory\n",
            RunFault::Read => b"read fault\n",
            RunFault::Write => b"write fault\n",
        }
    }
}
