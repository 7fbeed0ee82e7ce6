//! A sink with a stream on which people see how far a long work is.

ghost use Rattle.std.specs.Prelude.{◌≡◌};

use crate::stream::Sink;
use std::io;
use std::io::Write;

/// A sink, and a stream that people watch, such as a terminal. A progress line stands there during a long work, and is
/// removed before anything is printed. Where the line can't be written, nobody sees it.
#[derive(Drop)]
pub struct Watched<S, W> {
    sink: S,
    people: Option<W>,
    percent: Option<u64>,
}

impl<S, W> Watched<S, W> {
    /// The sink with the stream that people watch, if any do.
    pub fn new(sink: S, people: Option<W>) -> Watched<S, W>
        ensures { result.sink ≡ sink }
    {
        Watched {
            sink,
            people,
            percent: None,
        }
    }
}

impl<S, W: Write> Watched<S, W> {
    // Takes the progress line away.
    fn clear(&mut self)
        ensures { self.new.sink ≡ self.old.sink }
    {
        if let Some(people) = &mut self.people {
            if self.percent.is_some() {
                let _ = write!(people, "\r\x1b[K");
            }
        }
        self.percent = None;
    }

    // Replaces the progress line, where the new one says something else.
    fn show(&mut self, percent: u64)
        ensures { self.new.sink ≡ self.old.sink }
    {
        if let Some(people) = &mut self.people {
            if self.percent != Some(percent) {
                let _ = write!(people, "\r\x1b[K{percent} %");
                self.percent = Some(percent);
            }
        }
    }
}

impl<S: Sink, W: Write> Sink for Watched<S, W> {
    ghost printing = { λ s. S.printing s.sink };

    fn write(&mut self, bytes: &[u8]) -> io::Result<usize> {
        self.clear();
        self.sink.write(bytes)
    }

    fn flush(&mut self) -> io::Result<()> {
        self.clear();
        self.sink.flush()
    }

    fn tell_progress(&mut self, done: u64, all: u64) {
        if done < all {
            self.show(done.saturating_mul(100) / all);
        } else {
            self.clear();
        }
    }
}
