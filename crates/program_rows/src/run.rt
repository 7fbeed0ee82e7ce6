//! A row's files, its input and its run.

use crate::lines::{line_of, parts_of, plain};
use rr_run::{Lockable, MarkWriter};
use rr_stream::{Counted, HostFiles};
use std::alloc::{AllocError, Global};
use std::fs::OpenFile;
use std::io::{ErrorKind, Read, Seek, Write};
use std::os::unix::fs::FileExt;
use std::rt::Files;
use std::sync::Wait;
use std::thread::Threads;
use std::time::Clock;
use std::{fs, io};

/// The library whose call is made.
#[derive(Clone, Copy, Debug)]
pub enum Library {
    Cli,
    View,
    Run,
}

/// What a run gave: its exit status, standard output and standard error.
#[derive(Drop)]
pub struct Outcome {
    pub status: u8,
    pub out: String,
    pub err: String,
}

/// Makes the folders of a row, and copies its files.
pub fn prepare(rt: &impl Files, row: &str) -> io::Result<()> {
    for line in row.lines() {
        let (word, text) = parts_of(line);
        match word {
            "folder" => fs::create_dir(rt, text)?,
            "copy" => copy(rt, text)?,
            "remove" => fs::remove_file(rt, text)?,
            "remove-folder" => fs::remove_dir(rt, text)?,
            _ => {}
        }
    }
    Ok(())
}

fn copy(rt: &impl Files, text: &str) -> io::Result<()> {
    let (from, to) = parts_of(text);
    fs::copy(rt, from, to)?;
    Ok(())
}

/// The standard input of a row.
fn input_of(alloc: Global, row: &str) -> Result<String, AllocError> {
    let mut input = String::new(alloc);
    for line in row.lines() {
        let (word, text) = parts_of(line);
        match word {
            "in" => {
                input.push_str(plain(alloc, text)?.as_str())?;
                input.push_str("\n")?;
            }
            "in+" => input.push_str(plain(alloc, text)?.as_str())?,
            "repeat" => repeat(alloc, &mut input, text)?,
            _ => {}
        }
    }
    Ok(input)
}

/// Puts a text behind the input as often as the number before it says.
fn repeat(alloc: Global, input: &mut String, text: &str) -> Result<(), AllocError> {
    let (count, text) = parts_of(text);
    let text = plain(alloc, text)?;
    for _ in 0..count.parse::<u32>().unwrap_or(0) {
        input.push_str(text.as_str())?;
    }
    Ok(())
}

/// The bytes as a text.
fn text(bytes: Vec<u8>) -> io::Result<String> {
    String::from_utf8(bytes).map_err(|_| io::Error::from(ErrorKind::InvalidData))
}

/// What the words of a row give with this input.
fn run<
    F: Read + Write + Seek + FileExt + OpenFile + Drop + Send + Lockable,
    R: Files<File = F> + AllocGlobal + Threads + Wait + Clock + Sync + MarkWriter<Handle = F>,
>(rt: &R, library: Library, words: &[String], input: &str) -> io::Result<Outcome>
where
    R::Dir: Send,
{
    let mut files = HostFiles::new(rt);
    let mut input = Counted::new(input.as_bytes());
    let mut out = Counted::new(Vec::new(rt.alloc()));
    let mut err = Vec::new(rt.alloc());
    let status = match library {
        Library::Cli => rr_cli::execute(rt, words, &mut files, &mut input, &mut out, &mut err),
        Library::View => rr_cli::execute_with_views(
            rt, words, &mut files, &mut input, &mut out, &mut err,
        ),
        Library::Run => rr_run::execute(rt, words, &mut files, &mut input, &mut out, &mut err),
    };
    Ok(Outcome {
        status,
        out: text(out.into_inner())?,
        err: text(err)?,
    })
}

/// What a row gives: it has one line `rr WORDS`.
pub fn outcome_of<
    F: Read + Write + Seek + FileExt + OpenFile + Drop + Send + Lockable,
    R: Files<File = F> + AllocGlobal + Threads + Wait + Clock + Sync + MarkWriter<Handle = F>,
>(rt: &R, library: Library, row: &str) -> io::Result<Outcome>
where
    R::Dir: Send,
{
    let input = input_of(rt.alloc(), row)?;
    let mut words = Vec::new(rt.alloc());
    for word in line_of(row, "rr").split(' ') {
        words.push(plain(rt.alloc(), word)?)?;
    }
    run(rt, library, words.as_slice(), input.as_str())
}
