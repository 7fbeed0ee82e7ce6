//! What schedules and tapes are tested for alike, each a text of a line of nodes and of lines of events.

use rr_text::{Schedule, Tape};
use rr_types::Refusal;
use std::alloc::{AllocError, Global};
use std::process::Abort;

/// What has such a text.
pub trait EventText {
    /// What is read of a text.
    fn parse(alloc: Global, bytes: &[u8]) -> Result<Self, Refusal>;

    /// Its text.
    fn text(&self, alloc: Global) -> Result<Vec<u8>, AllocError>;

    /// How many events it has.
    fn event_count(&self) -> usize;
}

impl EventText for Schedule {
    fn parse(alloc: Global, bytes: &[u8]) -> Result<Schedule, Refusal> {
        Schedule::parse(alloc, bytes)
    }

    fn text(&self, alloc: Global) -> Result<Vec<u8>, AllocError> {
        Schedule::text(self, alloc)
    }

    fn event_count(&self) -> usize {
        self.events().len()
    }
}

impl EventText for Tape {
    fn parse(alloc: Global, bytes: &[u8]) -> Result<Tape, Refusal> {
        Tape::parse(alloc, bytes)
    }

    fn text(&self, alloc: Global) -> Result<Vec<u8>, AllocError> {
        Tape::text(self, alloc)
    }

    fn event_count(&self) -> usize {
        self.events().len()
    }
}

/// Whether a text is printed as it was read.
pub fn is_reprinted<T: EventText + Drop>(rt: &impl Abort, alloc: Global, text: &str) -> bool {
    let read = T::parse(alloc, text.as_bytes()).expect(rt, "a text");
    read.text(alloc).expect(rt, "memory").as_slice() == text.as_bytes()
}

/// Whether bytes are refused, or printed as they were read.
fn is_refused_or_printed<T: EventText + Drop>(
    rt: &impl Abort,
    alloc: Global,
    bytes: &[u8],
) -> bool {
    match T::parse(alloc, bytes) {
        Ok(read) => read.text(alloc).expect(rt, "memory").as_slice() == bytes,
        Err(refusal) => matches!(refusal, Refusal::BadNodes | Refusal::BadEvent(_)),
    }
}

/// The text with another byte at one place.
fn with_byte(rt: &impl Abort, alloc: Global, text: &[u8], at: usize, byte: u8) -> Vec<u8> {
    let mut bytes = text.to_vec(alloc).expect(rt, "memory");
    if let Some(place) = bytes.get_mut(at) {
        *place = byte;
    }
    bytes
}

/// Asserts that a text with any byte at any place is refused, or printed as it was read.
pub fn assert_each_byte<T: EventText + Drop>(rt: &impl Abort, alloc: Global, text: &[u8]) {
    for at in 0..text.len() {
        for byte in 0..=255u8 {
            let bytes = with_byte(rt, alloc, text, at, byte);
            assert!(rt;
                is_refused_or_printed::<T>(rt, alloc, &bytes),
                "{byte} at {at}"
            );
        }
    }
}

/// Asserts that a text that is cut at any place is refused, or printed as it was read.
pub fn assert_each_cut<T: EventText + Drop>(rt: &impl Abort, alloc: Global, text: &[u8]) {
    for end in 0..text.len() {
        assert!(rt;
            is_refused_or_printed::<T>(rt, alloc, text.split_at(end).0),
            "cut at {end}"
        );
    }
}

/// A text of a million events.
fn a_million(rt: &impl Abort, alloc: Global) -> Vec<u8> {
    let mut text = b"nodes 1\n".to_vec(alloc).expect(rt, "memory");
    for _ in 0..1_000_000 {
        text.extend_from_slice(b"tick 0\n").expect(rt, "memory");
    }
    text
}

/// Asserts that a million events are read and printed, and that the next one is refused.
pub fn assert_a_million_at_most<T: EventText + Drop>(rt: &impl Abort, alloc: Global) {
    let mut text = a_million(rt, alloc);
    let read = T::parse(alloc, &text).expect(rt, "a text");
    assert!(rt; read.event_count() == 1_000_000);
    assert!(rt; read.text(alloc).expect(rt, "memory").as_slice() == text.as_slice());
    text.extend_from_slice(b"tick 0\n").expect(rt, "memory");
    let refused = T::parse(alloc, &text).err();
    assert!(rt; refused == Some(Refusal::BadEvent(1_000_002)));
}
