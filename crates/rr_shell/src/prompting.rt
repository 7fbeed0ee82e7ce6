//! Inputs that show a prompt.

ghost use Rattle.std.specs.Prelude.{◌≡◌};

use rr_stream::{Counted, Source};
use std::io;
use std::io::{Read, Write};

/// An input that shows a prompt to whoever types there.
pub trait Prompting: Source {
    /// Shows that a line is expected, where somebody types. Nothing is read.
    fn prompt(&mut self)
        ensures { Self.reading self.new ≡ Self.reading self.old };

    /// Shows a text, where somebody types. Nothing is read.
    fn show(&mut self, text: &[u8])
        ensures { Self.reading self.new ≡ Self.reading self.old };
}

impl<R: Read> Prompting for Counted<R> {
    // Nobody types there.
    fn prompt(&mut self) {}

    fn show(&mut self, _text: &[u8]) {}
}

/// An input, and a stream on which whoever types there sees the prompt. Where that can't be written, nobody sees it.
#[derive(Drop)]
pub struct Prompted<S, W> {
    source: S,
    people: Option<W>,
    has_prompted: bool,
}

impl<S, W> Prompted<S, W> {
    /// The input with that stream, if somebody types there.
    pub fn new(source: S, people: Option<W>) -> Prompted<S, W>
        ensures { result.source ≡ source }
    {
        Prompted {
            source,
            people,
            has_prompted: false,
        }
    }
}

impl<S, W: Write> Prompted<S, W> {
    fn tell(&mut self, text: &[u8])
        ensures { self.new.source ≡ self.old.source }
    {
        if let Some(people) = &mut self.people {
            let _ = people.write_all(text);
            let _ = people.flush();
        }
    }
}

impl<S: Source, W: Write> Source for Prompted<S, W> {
    ghost reading = { λ s. S.reading s.source };

    fn read(&mut self, room: &mut [u8]) -> io::Result<usize> {
        let read = self.source.read(room)?;
        // What follows the end of the input begins in a line of its own.
        if read == 0 && self.has_prompted {
            self.tell(b"\n");
        }
        Ok(read)
    }
}

impl<S: Source, W: Write> Prompting for Prompted<S, W> {
    fn prompt(&mut self) {
        self.tell(b"> ");
        self.has_prompted = true;
    }

    fn show(&mut self, text: &[u8]) {
        self.tell(text);
    }
}
