//! Runs over a file whose bytes are known, and over one that isn't there.

use rr_cli::execute_with_views;
use rr_stream::{Counted, NamedText};

const SCHEDULE: &[u8] = b"nodes 1\nsubmit 0 7 1 claim a x\n";

const REPORT: &[u8] = b"refuse 2 5 Down\ndecided 0\n";

/// How a run by these words ends over the file `schedule` and this standard input: with this status and output.
fn ends(rt: &HostRuntime, words: &[&str], input: &[u8], status: u8, text: &[u8]) -> bool {
    let mut out = Counted::new(Vec::new(rt.alloc()));
    let mut err = Vec::new(rt.alloc());
    let ended = execute_with_views(
        rt,
        words,
        &mut NamedText::new("schedule", SCHEDULE),
        &mut Counted::new(input),
        &mut out,
        &mut err,
    );
    ended == status && out.into_inner().as_slice() == text && err.is_empty() == (status < 2)
}

#[test]
fn a_file_is_read_by_its_path(rt: HostRuntime) {
    assert!(rt; ends(&rt, &["rr", "sim", "schedule"], b"", 0, REPORT));
    assert!(rt; ends(&rt, &["rr", "sim"], SCHEDULE, 0, REPORT));
    assert!(rt; ends(&rt, &["rr", "sim", "schedules"], SCHEDULE, 5, b""));
    assert!(rt; ends(&rt, &["rr", "check", "schedule", "-"], REPORT, 0, b""));
    assert!(rt; ends(&rt, &["rr", "check", "-", "schedule"], REPORT, 3, b""));
}
