//! Readers and writers that fail, or go on slowly.
use std::alloc::Global;
use std::io::{Error, ErrorKind, Read, Result, Write};

/// A reader that gives so many bytes at a time, and fails after so many reads.
#[derive(Drop)]
pub struct Torn<'a> {
    pub left: &'a [u8],
    pub step: usize,
    pub reads: usize,
}

impl<'a> Read for Torn<'a> {
    fn read(&mut self, buf: &mut [u8]) -> Result<usize> {
        if self.reads == 0 {
            return Err(Error::from(ErrorKind::Other));
        }
        self.reads -= 1;
        let room = buf.len().min(self.step);
        self.left.read(&mut buf[..room])
    }
}

/// What a writer does once it is full.
#[derive(Clone, Copy, PartialEq)]
pub(crate) enum AtEnd {
    TakesNone,
    Fails,
    /// It takes all bytes, and fails where they are flushed.
    FailsToFlush,
}

/// A writer that takes one byte at a time until it is full, and keeps how many bytes it had taken at each flush.
#[derive(Drop)]
pub struct Full {
    pub(crate) taken: Vec<u8>,
    pub(crate) flushed: Vec<usize>,
    room: usize,
    at_end: AtEnd,
}

impl Full {
    pub(crate) fn new(alloc: Global, room: usize, at_end: AtEnd) -> Full {
        Full {
            taken: Vec::new(alloc),
            flushed: Vec::new(alloc),
            room,
            at_end,
        }
    }
}

impl Write for Full {
    fn write(&mut self, buf: &[u8]) -> Result<usize> {
        match buf.first() {
            Some(byte) if self.taken.len() < self.room => {
                self.taken.push(*byte)?;
                Ok(1)
            }
            _ if self.at_end == AtEnd::Fails => Err(Error::from(ErrorKind::Other)),
            _ => Ok(0),
        }
    }

    fn flush(&mut self) -> Result<()> {
        if self.at_end == AtEnd::FailsToFlush {
            return Err(Error::from(ErrorKind::Other));
        }
        self.flushed.push(self.taken.len())?;
        Ok(())
    }
}
