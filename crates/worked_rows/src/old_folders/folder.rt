//! A folder in files: what `rr` tells of it, and what it makes of it.

use rr_cli::execute;
use rr_stream::{Counted, HostFiles};
use std::alloc::AllocError;
use std::io::Write;
use std::{fs, io};

/// What a run of `rr` gave: its exit status, and the bytes on its standard output and standard error.
#[derive(Drop)]
struct Outcome {
    status: u8,
    out: Vec<u8>,
    err: Vec<u8>,
}

/// Runs `rr` by the words of a line.
fn run(rt: &HostRuntime, line: &str) -> Result<Outcome, AllocError> {
    let words: Vec<&str> = line.split(' ').collect(rt.alloc())?;
    let mut out = Counted::new(Vec::new(rt.alloc()));
    let mut err = Vec::new(rt.alloc());
    let status = execute(
        rt,
        words.as_slice(),
        &mut HostFiles::new(rt),
        &mut Counted::new(&b""[..]),
        &mut out,
        &mut err,
    );
    Ok(Outcome {
        status,
        out: out.into_inner(),
        err,
    })
}

/// Prints a line, how it ended as a run of `rr`, and what that wrote.
fn print_run(rt: &HostRuntime, line: &str) -> io::Result<()> {
    let ran = run(rt, line)?;
    let (printed, told) = (ran.out.len(), ran.err.len());
    println!(rt;
        "{line}: status {}, {printed} bytes of output, {told} bytes of errors",
        ran.status
    )?;
    rt.stdout().write_all(&ran.out)?;
    rt.stdout().write_all(&ran.err)
}

fn show(rt: &HostRuntime, folder: &str) -> io::Result<()> {
    let line = format!(in rt.alloc(); "rr show {folder}")?;
    print_run(rt, line.as_str())
}

fn migrate(rt: &HostRuntime, row: &str) -> io::Result<()> {
    let line = format!(in rt.alloc(); "rr migrate {row}")?;
    print_run(rt, line.as_str())
}

/// The bytes of the file whose path is `folder` and then `end`.
pub fn read_file(rt: &HostRuntime, folder: &str, end: &str) -> io::Result<Vec<u8>> {
    let path = format!(in rt.alloc(); "{folder}{end}")?;
    fs::read(rt, path.as_str())
}

/// Copies the file whose path is `folder` and then `end` to the path that ends in `other` instead.
fn copy_file(rt: &HostRuntime, folder: &str, end: &str, other: &str) -> io::Result<()> {
    let bytes = read_file(rt, folder, end)?;
    let path = format!(in rt.alloc(); "{folder}{other}")?;
    fs::write(rt, path.as_str(), bytes.as_slice())
}

/// Makes the folder, with its areas in two files.
fn make(rt: &HostRuntime, folder: &str) -> io::Result<()> {
    fs::create_dir(rt, folder)?;
    copy_file(rt, folder, ".a0", "/a0")?;
    copy_file(rt, folder, ".a1", "/a1")
}

/// Whether the files whose paths are `folder` and then one of these ends have the same bytes.
fn is_same(rt: &HostRuntime, folder: &str, end: &str, other: &str) -> io::Result<bool> {
    let first = read_file(rt, folder, end)?;
    let second = read_file(rt, folder, other)?;
    Ok(first.as_slice() == second.as_slice())
}

/// Prints whether the area in this file of the folder is what it is to be, by the file of that end.
fn print_area(rt: &HostRuntime, folder: &str, area: &str, wanted: &str) -> io::Result<()> {
    if is_same(rt, folder, area, wanted)? {
        println!(rt; "{folder}{area} is left as it is to be")
    } else {
        println!(rt; "{folder}{area} is left otherwise")
    }
}

/// The folder of a row.
pub fn folder_of(row: &str) -> &str {
    row.split(' ').next().unwrap_or(row)
}

/// Makes the folder of a row, and prints what `rr show` and then `rr migrate` tell of it, and how its areas are left.
pub fn try_folder(rt: &HostRuntime, row: &str) -> io::Result<()> {
    let folder = folder_of(row);
    make(rt, folder)?;
    show(rt, folder)?;
    migrate(rt, row)?;
    print_area(rt, folder, "/a0", ".a0.after")?;
    print_area(rt, folder, "/a1", ".a1.after")
}
