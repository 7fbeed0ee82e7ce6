//! Runs over streams that give or take one byte a call, that are interrupted, that fail or that are closed.

use rr_cli::execute;
use rr_stream::{Counted, HostFiles};
use std::io;
use std::io::{ErrorKind, Read, Write};

const SCHEDULE: &[u8] = b"nodes 1\nsubmit 0 7 1 claim a x\n";

const REPORT: &[u8] = b"refuse 2 5 Down\ndecided 0\n";

/// What a stream does at a call.
#[derive(Clone, Copy, Debug, PartialEq, Eq)]
enum Manner {
    /// One byte is given or taken a call.
    Slow,
    /// Every call is interrupted once, and then made.
    Interrupted,
    /// Nothing is given or taken behind the first bytes.
    Broken,
    /// It takes all, and doesn't flush.
    Unflushed,
}

/// A stream in memory that has a manner.
#[derive(Drop)]
struct Fake<'a> {
    manner: Manner,
    interrupted: bool,
    rest: &'a [u8],
    taken: Vec<u8>,
    flushed: usize,
}

impl Fake<'_> {
    /// Whether this call is to be interrupted.
    fn interrupts(&mut self) -> bool {
        self.interrupted = !self.interrupted;
        self.manner == Manner::Interrupted && self.interrupted
    }
}

fn fake_stream(rt: &HostRuntime, manner: Manner) -> Fake<'static> {
    Fake {
        manner,
        interrupted: false,
        rest: SCHEDULE,
        taken: Vec::new(rt.alloc()),
        flushed: 0,
    }
}

impl Read for Fake<'_> {
    fn read(&mut self, buf: &mut [u8]) -> io::Result<usize> {
        if self.interrupts() {
            return Err(io::Error::from(ErrorKind::Interrupted));
        }
        match (self.rest.split_first(), buf.first_mut()) {
            (Some((byte, rest)), Some(room)) => {
                if self.manner == Manner::Broken && rest.len() < 9 {
                    return Err(io::Error::new(ErrorKind::BrokenPipe, "broken"));
                }
                *room = *byte;
                self.rest = rest;
                Ok(1)
            }
            _ => Ok(0),
        }
    }
}

impl Write for Fake<'_> {
    fn write(&mut self, buf: &[u8]) -> io::Result<usize> {
        if self.interrupts() {
            return Err(io::Error::from(ErrorKind::Interrupted));
        }
        if self.manner == Manner::Broken && self.taken.len() >= 9 {
            return Ok(0);
        }
        match buf.first() {
            Some(byte) => {
                self.taken.push(*byte)?;
                Ok(1)
            }
            None => Ok(0),
        }
    }

    fn flush(&mut self) -> io::Result<()> {
        if self.interrupts() {
            return Err(io::Error::from(ErrorKind::Interrupted));
        }
        if self.manner == Manner::Unflushed {
            return Err(io::Error::new(ErrorKind::StorageFull, "full"));
        }
        self.flushed = self.taken.len();
        Ok(())
    }
}

/// Whether a run from one fake stream to another ends so: with this status, this output and this error.
fn ends(rt: &HostRuntime, from: Manner, to: Manner, status: u8, text: &[u8], error: &[u8]) -> bool {
    let mut input = Counted::new(fake_stream(rt, from));
    let mut out = Counted::new(fake_stream(rt, to));
    let mut err = Vec::new(rt.alloc());
    let ended = execute(
        rt,
        &["rr", "sim"],
        &mut HostFiles::new(rt),
        &mut input,
        &mut out,
        &mut err,
    );
    let out = out.into_inner();
    let is_flushed = status != 0 || out.flushed == text.len();
    ended == status && out.taken.as_slice() == text && err.as_slice() == error && is_flushed
}

#[test]
fn goes_on_byte_by_byte(rt: HostRuntime) {
    assert!(rt; ends(&rt, Manner::Slow, Manner::Slow, 0, REPORT, b""));
}

#[test]
fn makes_an_interrupted_call_again(rt: HostRuntime) {
    assert!(rt;
        ends(
            &rt,
            Manner::Interrupted,
            Manner::Interrupted,
            0,
            REPORT,
            b""
        )
    );
}

#[test]
fn tells_a_stream_that_breaks_in_the_middle(rt: HostRuntime) {
    let unread = b"rr: standard input: broken\n";
    assert!(rt; ends(&rt, Manner::Broken, Manner::Slow, 5, b"", unread));
    let front = b"refuse 2 ";
    let unwritten = b"rr: standard output: write zero\n";
    assert!(rt; ends(&rt, Manner::Slow, Manner::Broken, 5, front, unwritten));
}

#[test]
fn tells_a_flush_that_fails(rt: HostRuntime) {
    let unflushed = b"rr: standard output: full\n";
    assert!(rt; ends(&rt, Manner::Slow, Manner::Unflushed, 5, REPORT, unflushed));
}

/// A reader that fails behind its first bytes.
#[derive(Drop)]
struct Torn {
    given: bool,
}

impl Read for Torn {
    fn read(&mut self, buf: &mut [u8]) -> io::Result<usize> {
        let first = b"nodes 3\n";
        if self.given || buf.len() < first.len() {
            return Err(io::Error::new(ErrorKind::Other, "torn"));
        }
        self.given = true;
        buf[..first.len()].copy_from_slice(first);
        Ok(first.len())
    }
}

#[test]
fn tells_a_reader_that_fails(rt: HostRuntime) {
    let mut out = Counted::new(Vec::new(rt.alloc()));
    let mut err = Vec::new(rt.alloc());
    let mut input = Counted::new(Torn { given: false });
    let status = execute(
        &rt,
        &["rr", "sim"],
        &mut HostFiles::new(&rt),
        &mut input,
        &mut out,
        &mut err,
    );
    assert_eq!(rt; status, 5);
    assert!(rt; err.as_slice() == b"rr: standard input: torn\n".as_slice());
    assert!(rt; out.into_inner().is_empty());
}

/// A writer that takes nothing.
#[derive(Drop)]
struct Closed;

impl Write for Closed {
    fn write(&mut self, _buf: &[u8]) -> io::Result<usize> {
        Err(io::Error::new(ErrorKind::BrokenPipe, "closed"))
    }

    fn flush(&mut self) -> io::Result<()> {
        Ok(())
    }
}

/// How a run of this input ends whose output nobody reads, and whether its error is empty.
fn unread(rt: &HostRuntime, words: &[&str], input: &[u8]) -> (u8, bool) {
    let mut err = Vec::new(rt.alloc());
    let mut out = Counted::new(Closed);
    let status = execute(
        rt,
        words,
        &mut HostFiles::new(rt),
        &mut Counted::new(input),
        &mut out,
        &mut err,
    );
    (status, err.is_empty())
}

#[test]
fn a_reader_that_has_gone_is_told_nothing(rt: HostRuntime) {
    let runs: [(&[&str], &[u8]); 3] = [
        (&["rr", "sim"], b"nodes 3\n"),
        (
            &["rr", "draw"],
            b"nodes 2\nrestart 0\nrestart 1\ndev 0\ndev 1\n",
        ),
        (
            &["rr", "sweep", "--seed", "1"],
            b"nodes 1\nrestart 0\ndev 0\ndev 0\n",
        ),
    ];
    for (words, input) in runs {
        assert_eq!(rt; unread(&rt, words, input), (5, true));
    }
}

/// How a run ends whose output and error nobody reads.
fn ending_unread(rt: &HostRuntime, words: &[&str]) -> u8 {
    let mut out = Counted::new(Closed);
    execute(
        rt,
        words,
        &mut HostFiles::new(rt),
        &mut Counted::new(&b""[..]),
        &mut out,
        &mut Closed,
    )
}

#[test]
fn words_are_told_to_nobody(rt: HostRuntime) {
    for word in ["--help", "--version"] {
        assert_eq!(rt;
            ending_unread(&rt, &["rr", word]),
            5,
            "the status of {word}"
        );
    }
}
