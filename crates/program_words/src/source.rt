//! Where the rules come from.
ghost use Rattle.std.specs.Prelude.{◌≡◌, None, Ok};
ghost use Rattle.std.specs.Io.KnownBytes.{ReadConsumes};
ghost use Rattle.std.specs.Io.{ReadsAtMost};
ghost use Rattle.program_words.specs.Sources.{left_of};
ghost use Rattle.program_words.specs.declared.source.Source.TheVariants.{Standard};

use std::fs::OpenFile;
use std::io::{ErrorKind, Read, Write};
use std::rt::Files;
use std::{fs, io};

/// A reader of rules.
#[derive(Drop)]
pub enum Source<R, F> {
    /// Standard input.
    Standard(R),
    /// A file.
    Named(F),
}

impl<R: Read, F: Read> Read for Source<R, F> {
    ghost remaining = { left_of R.remaining F.remaining };

    fn read(&mut self, buf: &mut [u8]) -> io::Result<usize>
        ensures bound { ReadsAtMost result buf.new }
        ensures bytes { ReadConsumes (left_of R.remaining F.remaining self.old) (left_of R.remaining F.remaining self.new) result buf.new }
    {
        match self {
            Source::Standard(input) => input.read(buf),
            Source::Named(file) => file.read(buf),
        }
    }
}

/// The file of this name, to be read, where it is no folder.
fn opened<T: Files>(rt: &T, name: &str) -> io::Result<T::File> {
    let file = fs::open(rt, name)?;
    if file.metadata()?.is_dir() {
        return Err(io::Error::from(ErrorKind::IsADirectory));
    }
    Ok(file)
}

/// The file of this name, if there is one, and else the input.
pub fn source_of<T: Files, R: Drop>(
    rt: &T,
    name: Option<&str>,
    input: R,
) -> io::Result<Source<R, T::File>>
    ensures { name.entry ≡ None → result ≡ Ok (Standard input) }
{
    match name {
        Some(name) => Ok(Source::Named(opened(rt, name)?)),
        None => Ok(Source::Standard(input)),
    }
}

/// Tells why the file of this name is not read.
pub fn tell_unread<E: Write>(errors: &mut E, name: &str, fault: &io::Error) {
    let _ = match fault.kind() {
        ErrorKind::NotFound => writeln!(errors, "{name}: no such file"),
        ErrorKind::IsADirectory => writeln!(errors, "{name}: is a folder"),
        kind => writeln!(errors, "{name}: {kind}"),
    };
}
