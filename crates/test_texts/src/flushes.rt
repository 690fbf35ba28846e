//! What no clause says: that the flush of the writer is called, once, and that its failure is told. Also how code promises to have flushed.
ghost use Rattle.std.specs.Prelude.{OnOk};
ghost use Rattle.std.specs.Io.KnownBytes.{Appends};

use program_searches::Flushing;
use std::io::{self, Error, ErrorKind, Write};

/// A writer that counts the bytes and the flushes, and may fail at either.
#[derive(Drop)]
struct Tray {
    taken: usize,
    flushes: usize,
    writes_fail: bool,
    flushes_fail: bool,
}

impl Write for Tray {
    fn write(&mut self, buf: &[u8]) -> io::Result<usize> {
        if self.writes_fail {
            return Err(Error::from(ErrorKind::Other));
        }
        self.taken = self.taken.saturating_add(buf.len());
        Ok(buf.len())
    }

    fn flush(&mut self) -> io::Result<()> {
        self.flushes = self.flushes.saturating_add(1);
        if self.flushes_fail {
            return Err(Error::from(ErrorKind::Other));
        }
        Ok(())
    }
}

fn empty_tray(writes_fail: bool, flushes_fail: bool) -> Tray {
    Tray {
        taken: 0,
        flushes: 0,
        writes_fail,
        flushes_fail,
    }
}

// Writes the bytes and flushes, and promises both.
fn write_flushed<W: Flushing>(out: &mut W, bytes: &[u8]) -> io::Result<()>
    ensures whole { OnOk result (Appends (W.contents out.old) (W.contents out.new) bytes.now) }
    ensures flushed { OnOk result (W.is_flushed out.new) }
{
    out.write_all(bytes)?;
    out.flush_all()
}

// The same for a writer of which nothing more is known.
fn write_to<W: Write>(out: &mut W, bytes: &[u8]) -> io::Result<()>
    ensures { OnOk result (Appends (W.contents out.old) (W.contents out.new) bytes.now) }
{
    write_flushed(out, bytes)
}

/// Whether writes and flushes of a tray fail, whether three bytes are written and flushed, how many bytes and flushes it has counted then,
/// and whether it is flushed once more.
const TRAYS: [((bool, bool), bool, (usize, usize), bool); 3] = [
    ((false, false), true, (3, 1), true),
    // A flush that fails is told.
    ((false, true), false, (3, 1), false),
    // Nothing is flushed behind a write that fails.
    ((true, false), false, (0, 0), true),
];

#[test]
fn a_flush_reaches_the_writer(rt: HostRuntime) {
    for ((writes_fail, flushes_fail), written, (taken, flushes), again) in TRAYS {
        let mut out = empty_tray(writes_fail, flushes_fail);
        assert_eq!(rt; write_to(&mut out, b"one").is_ok(), written);
        assert_eq!(rt; (out.taken, out.flushes), (taken, flushes));
        assert_eq!(rt; out.flush_all().is_ok(), again);
        assert_eq!(rt; out.flushes, flushes.saturating_add(1));
    }
}

#[test]
fn a_list_keeps_its_bytes(rt: HostRuntime) {
    let mut out = Vec::new(rt.alloc());
    assert!(rt; write_to(&mut out, b"one").is_ok());
    assert!(rt; out.flush_all().is_ok());
    assert!(rt; out.as_slice() == b"one".as_slice());
}
