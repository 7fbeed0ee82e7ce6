//! The interfaces to streams.

ghost use Rattle.std.specs.Prelude.{◌≡◌, ◌≢◌, ℕ, ◌<◌, ◌≤◌, false, true, length, IfOk, IfErr, OnOk, OnErr};
ghost use Rattle.std.specs.Io.{ReadsAtMost, WritesAtMost};
ghost use Rattle.std.specs.Io.KnownBytes.{Keeps, ReadConsumes, WriteAppends};
ghost use Rattle.std.specs.IoError.{error_kind};
ghost use Rattle.rr_types.specs.Counts.{Grew};
ghost use Rattle.rr_stream.specs.Streams.{Printing, Reading};

use std::io;
use std::io::ErrorKind;

/// A stream that a program prints on. A call that fails is counted as a fault; one that is interrupted is made again.
/// Counts stop at 2^64 - 1.
pub trait Sink {
    /// The bytes that it has taken, how many calls failed, and whether all that it has taken is flushed.
    ghost printing: { Self → Printing };

    /// Takes a front of the bytes, and says how many: at least one, unless there are none.
    ///
    /// # Errors
    /// Those of the stream; nothing is taken then.
    fn write(&mut self, bytes: &[u8]) -> io::Result<usize>
        ensures bound { WritesAtMost result bytes.now }
        ensures some { IfOk result (λ n. 0 < length bytes.now → 0 < n) }
        ensures bytes { WriteAppends (printing self.old).contents (printing self.new).contents result bytes.now }
        ensures waits { IfOk result (λ n. 0 < n → (printing self.new).flushed ≡ false) }
        ensures cause { OnErr result (Grew (printing self.old).faults (printing self.new).faults) }
        ensures faults { (printing self.old).faults ≤ (printing self.new).faults }
        ensures retried { IfErr result (λ e. error_kind e ≢ ErrorKind.Interrupted) };

    /// Passes on all that was taken.
    ///
    /// # Errors
    /// Those of the stream.
    fn flush(&mut self) -> io::Result<()>
        ensures bytes { Keeps (printing self.old).contents (printing self.new).contents }
        ensures done { OnOk result ((printing self.new).flushed ≡ true) }
        ensures cause { OnErr result (Grew (printing self.old).faults (printing self.new).faults) }
        ensures faults { (printing self.old).faults ≤ (printing self.new).faults }
        ensures retried { IfErr result (λ e. error_kind e ≢ ErrorKind.Interrupted) };

    /// Tells people, where they can see it, how far the work that prints here is: `done` of `all`. The stream itself
    /// takes nothing.
    fn tell_progress(&mut self, done: u64, all: u64)
        ensures { printing self.new ≡ printing self.old };
}

/// A stream that a program reads from. A call that fails is counted as a fault; one that is interrupted is made again.
/// Counts stop at 2^64 - 1.
pub trait Source {
    /// The bytes that it has left, and how many calls failed.
    ghost reading: { Self → Reading };

    /// Puts the next bytes into the front of `room`, and says how many: none only at the end of the stream, or where
    /// there is no room.
    ///
    /// # Errors
    /// Those of the stream; nothing is read then.
    fn read(&mut self, room: &mut [u8]) -> io::Result<usize>
        ensures bound { ReadsAtMost result room.new }
        ensures bytes { ReadConsumes (reading self.old).remaining (reading self.new).remaining result room.new }
        ensures cause { OnErr result (Grew (reading self.old).faults (reading self.new).faults) }
        ensures faults { (reading self.old).faults ≤ (reading self.new).faults }
        ensures retried { IfErr result (λ e. error_kind e ≢ ErrorKind.Interrupted) };
}
