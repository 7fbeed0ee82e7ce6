//! Streams of the standard library as streams whose failed calls are counted.

ghost use Rattle.std.specs.Prelude.{◌≡◌, ◌≢◌, true, OnOk, OnErr, IfErr};
ghost use Rattle.std.specs.IoError.{error_kind};
ghost use Rattle.rr_types.specs.Counts.{counted};

use crate::stream::{Sink, Source};
use std::io;
use std::io::{Error, ErrorKind, Read, Write};

/// A stream of the standard library, with a count of its calls that failed. A write that takes none of some bytes has
/// failed. An interrupted call is made again and is no fault, up to 2^64 - 1 times.
#[derive(Drop)]
pub struct Counted<S> {
    stream: S,
    faults: u64,
    flushed: bool,
}

impl<S> Counted<S> {
    /// The stream, with no failed calls yet.
    pub fn new(stream: S) -> Counted<S>
        ensures stream { result.stream ≡ stream }
        ensures faults { result.faults ≡ 0 }
        ensures flushed { result.flushed ≡ true }
    {
        Counted {
            stream,
            faults: 0,
            flushed: true,
        }
    }

    /// The stream itself.
    pub fn into_inner(self) -> S
        ensures { result ≡ self.stream }
    {
        self.stream
    }

    // Counts a fault.
    fn note_fault(&mut self)
        ensures faults { self.new.faults ≡ counted self.old.faults }
        ensures stream { self.new.stream ≡ self.old.stream }
        ensures flushed { self.new.flushed ≡ self.old.flushed }
    {
        self.faults = self.faults.saturating_add(1);
    }

    // A call failed. Where it was interrupted it is to be made again; else that is a fault, and the call ends by its error.
    fn end_unless_interrupted(&mut self, error: Error) -> io::Result<()>
        ensures again { OnOk result (self.new ≡ self.old) }
        ensures faults { OnErr result (self.new.faults ≡ counted self.old.faults) }
        ensures error { IfErr result (λ e. (e ≡ error) × (error_kind e ≢ ErrorKind.Interrupted)) }
        ensures stream { self.new.stream ≡ self.old.stream }
        ensures flushed { self.new.flushed ≡ self.old.flushed }
    {
        if error.kind() == ErrorKind::Interrupted {
            return Ok(());
        }
        self.note_fault();
        Err(error)
    }

    // A call was interrupted each time that it was made. That is a fault, and this is its error.
    fn end_by_interruptions(&mut self) -> Error
        ensures faults { self.new.faults ≡ counted self.old.faults }
        ensures error { error_kind result ≡ ErrorKind.Other }
        ensures stream { self.new.stream ≡ self.old.stream }
        ensures flushed { self.new.flushed ≡ self.old.flushed }
    {
        self.note_fault();
        Error::other("interrupted each time")
    }
}

impl<W: Write> Sink for Counted<W> {
    ghost printing = { λ s. record { contents = W.contents s.stream; faults = s.faults; flushed = s.flushed } };

    fn write(&mut self, bytes: &[u8]) -> io::Result<usize> {
        'turns: for _ in 0..u64::MAX {
            match self.stream.write(bytes) {
                Ok(0) if !bytes.is_empty() => {
                    self.note_fault();
                    return Err(Error::from(ErrorKind::WriteZero));
                }
                Ok(taken) => {
                    self.flushed = self.flushed && taken == 0;
                    return Ok(taken);
                }
                Err(error) => self.end_unless_interrupted(error)?,
            }
        }
        Err(self.end_by_interruptions())
    }

    fn flush(&mut self) -> io::Result<()> {
        'turns: for _ in 0..u64::MAX {
            match self.stream.flush() {
                Ok(()) => {
                    self.flushed = true;
                    return Ok(());
                }
                Err(error) => self.end_unless_interrupted(error)?,
            }
        }
        Err(self.end_by_interruptions())
    }

    // Nobody watches it.
    fn tell_progress(&mut self, _done: u64, _all: u64) {}
}

impl<R: Read> Source for Counted<R> {
    ghost reading = { λ s. record { remaining = R.remaining s.stream; faults = s.faults } };

    fn read(&mut self, room: &mut [u8]) -> io::Result<usize> {
        'turns: for _ in 0..u64::MAX {
            match self.stream.read(room) {
                Ok(read) => return Ok(read),
                Err(error) => self.end_unless_interrupted(error)?,
            }
        }
        Err(self.end_by_interruptions())
    }
}
