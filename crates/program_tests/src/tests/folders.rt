//! Commands over a folder that another program has locked.

use rr_run::{Lockable, MarkWriter, execute};
use rr_stream::{Counted, HostFiles};
use std::fs;
use std::fs::OpenFile;
use std::io::{Read, Seek, Write};
use std::os::unix::fs::FileExt;
use std::process::Abort;
use std::rt::Files;
use std::sync::Wait;
use std::thread::Threads;
use std::time::Clock;

/// The words of a run of two nodes, one of whose folders is locked.
const WORDS: [&str; 8] = [
    "rr",
    "run",
    "--nodes",
    "2",
    "--dir",
    "rr_run_locked",
    "--script",
    "rr_run_locked.script",
];

/// Asserts that the command of these words ends with this status, this output and this error.
fn assert_ended<
    F: Read + Write + Seek + FileExt + OpenFile + Drop + Send + Lockable,
    R: Files<File = F>
        + AllocGlobal
        + Threads
        + Wait
        + Clock
        + Sync
        + MarkWriter<Handle = F>
        + Abort,
>(rt: &R, words: &[&str], status: u8, text: &str, error: &str)
where
    R::Dir: Send,
{
    let mut out = Counted::new(Vec::new(rt.alloc()));
    let mut err = Vec::new(rt.alloc());
    let ended = execute(
        rt,
        words,
        &mut HostFiles::new(rt),
        &mut Counted::new(&b""[..]),
        &mut out,
        &mut err,
    );
    assert_eq!(rt; ended, status);
    assert!(rt; out.into_inner().as_slice() == text.as_bytes());
    assert!(rt; err.as_slice() == error.as_bytes());
}

#[test]
fn a_locked_folder_is_told(rt: HostRuntime) {
    fs::write(&rt, "rr_run_locked.script", b"look 0 a\n").expect(&rt, "a script");
    fs::create_dir_all(&rt, "rr_run_locked/1").expect(&rt, "a folder");
    let other = fs::open(&rt, "rr_run_locked/1").expect(&rt, "a folder");
    assert!(rt; other.lock_now().expect(&rt, "a lock"));
    let told = "rr: 2 Device\nrr_run_locked/1: another program has locked it\n";
    assert_ended(&rt, &WORDS, 5, "", told);
    drop(other);
    assert_ended(&rt, &WORDS, 0, "look 0 a free\n", "");
    fs::remove_file(&rt, "rr_run_locked.script").expect(&rt, "the script goes");
    fs::remove_dir_all(&rt, "rr_run_locked").expect(&rt, "the folder goes");
}

#[test]
fn a_locked_folder_is_neither_read_nor_migrated(rt: HostRuntime) {
    fs::create_dir_all(&rt, "rr_read_locked").expect(&rt, "a folder");
    let other = fs::open(&rt, "rr_read_locked").expect(&rt, "a folder");
    assert!(rt; other.lock_now().expect(&rt, "a lock"));
    let told = "rr: 2 Device\nrr_read_locked: another program has locked it\n";
    let migrate = [
        "rr",
        "migrate",
        "rr_read_locked",
        "--node",
        "0",
        "--nodes",
        "1",
    ];
    assert_ended(&rt, &["rr", "verify", "rr_read_locked"], 5, "", told);
    assert_ended(&rt, &["rr", "export", "rr_read_locked"], 5, "", told);
    assert_ended(&rt, &["rr", "show", "rr_read_locked"], 5, "", told);
    assert_ended(&rt, &migrate, 5, "", told);
    drop(other);
    let reader = fs::open(&rt, "rr_read_locked").expect(&rt, "a folder");
    assert!(rt; reader.share_now().expect(&rt, "a lock beside readers"));
    let missing = "rr: 2 Device\nrr_read_locked/a0: No such file or directory (os error 2)\n";
    assert_ended(&rt, &["rr", "show", "rr_read_locked"], 5, "", missing);
    assert_ended(&rt, &migrate, 5, "", told);
    fs::remove_dir_all(&rt, "rr_read_locked").expect(&rt, "the folder goes");
}
