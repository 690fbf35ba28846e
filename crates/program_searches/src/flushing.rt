//! The trait of what is flushed, which every writer has.
ghost use Rattle.std.specs.Prelude.{OnOk, ⊤};
ghost use Rattle.std.specs.Io.KnownBytes.{Keeps};

use std::io::{Result, Write};

/// A writer that may be flushed, with what that means to it.
pub trait Flushing: Write {
    /// That nothing is pending of what the writer was given. No write is known to keep it.
    ghost is_flushed: { Self → Type 0 };

    /// Flushes the writer, and keeps its bytes.
    fn flush_all(&mut self) -> Result<()>
        ensures bytes { Keeps (Self.contents self.old) (Self.contents self.new) }
        ensures flushed { OnOk result (is_flushed self.new) };
}

impl<W: Write> Flushing for W {
    // Std tells of no writer whether it is flushed, so this says nothing. Code that is written for any `Flushing` cannot use that.
    ghost is_flushed = { λ _. ⊤ };

    fn flush_all(&mut self) -> Result<()> {
        self.flush()
    }
}
