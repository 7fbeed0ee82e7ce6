//! Runs the program `rr` by rows, and says of each row what came otherwise. If anything did, it ends with 1.
//!
//! Its words name files of rows. After the word `cli`, `view` or `run`, the rows of a file are run by the call of that
//! library. RULES.md says what the lines of a row mean.
#![tactic(auto)]

mod check;
mod lines;
mod run;

use crate::check::is_wanted;
use crate::lines::text_of;
use crate::run::{Library, outcome_of, prepare};
use rr_run::{Lockable, MarkWriter};
use std::fs::OpenFile;
use std::io::{ErrorKind, Read, Seek, Write};
use std::os::unix::fs::FileExt;
use std::rt::Files;
use std::sync::Wait;
use std::thread::Threads;
use std::time::Clock;
use std::{env, fs, io};

/// Whether a row gives what it wants; what came otherwise is printed.
fn is_right<
    F: Read + Write + Seek + FileExt + OpenFile + Drop + Send + Lockable,
    R: Files<File = F>
        + Print
        + AllocGlobal
        + Threads
        + Wait
        + Clock
        + Sync
        + MarkWriter<Handle = F>,
>(rt: &R, library: Library, row: &str) -> io::Result<bool>
where
    R::Dir: Send,
{
    prepare(rt, row)?;
    let given = outcome_of(rt, library, row)?;
    is_wanted(rt, row, &given)
}

/// How many rows of a file come otherwise.
fn count_faults<
    F: Read + Write + Seek + FileExt + OpenFile + Drop + Send + Lockable,
    R: Files<File = F>
        + Print
        + AllocGlobal
        + Threads
        + Wait
        + Clock
        + Sync
        + MarkWriter<Handle = F>,
>(rt: &R, library: Library, path: &str) -> io::Result<u64>
where
    R::Dir: Send,
{
    let text = fs::read_to_string(rt, path)?;
    let mut rows = 0u64;
    let mut faults = 0u64;
    for row in text.split("\n\n") {
        rows = rows.saturating_add(1);
        if !is_right(rt, library, row)? {
            faults = faults.saturating_add(1);
            println!(rt; "{path}: the row {} came otherwise", text_of(row, "row"))?;
        }
    }
    println!(rt; "{path}: {rows} rows")?;
    Ok(faults)
}

fn main(rt: HostRuntime) -> io::Result<()> {
    let mut library = Library::Cli;
    let mut faults = 0u64;
    for word in env::args(&rt)?.skip(1) {
        match word.as_str() {
            "cli" => library = Library::Cli,
            "view" => library = Library::View,
            "run" => library = Library::Run,
            path => faults = faults.saturating_add(count_faults(&rt, library, path)?),
        }
    }
    if faults == 0 {
        Ok(())
    } else {
        Err(io::Error::new(ErrorKind::Other, "rows came otherwise"))
    }
}
