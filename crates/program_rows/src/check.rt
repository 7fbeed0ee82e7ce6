//! Whether a run gave what its row wants.

use crate::lines::{line_of, parts_of, plain, text_of, texts_of};
use crate::run::Outcome;
use std::rt::Files;
use std::{fs, io};

/// Whether a row has lines about parts of the output.
fn wants_parts(row: &str) -> bool {
    row.lines().any(|line| matches!(parts_of(line).0, "has" | "lacks" | "begins" | "ends"))
}

/// Whether a row says only how the error begins.
fn wants_beginning(row: &str) -> bool {
    !line_of(row, "err-begins").is_empty()
}

/// Whether two files have the same bytes.
fn is_same<R: Files + AllocGlobal>(rt: &R, text: &str) -> io::Result<bool> {
    let (one, other) = parts_of(text);
    Ok(fs::read(rt, one)?.as_slice() == fs::read(rt, other)?.as_slice())
}

/// Whether a line about the output, the error or a file holds.
fn holds<R: Files + AllocGlobal>(rt: &R, given: &Outcome, line: &str) -> io::Result<bool> {
    let (word, text) = parts_of(line);
    let part = plain(rt.alloc(), text)?;
    let (out, err, part) = (given.out.as_str(), given.err.as_str(), part.as_str());
    match word {
        "has" => Ok(out.contains(part)),
        "lacks" => Ok(!out.contains(part)),
        "begins" => Ok(out.starts_with(part)),
        "ends" => Ok(out.ends_with(part)),
        "err-begins" => Ok(err.starts_with(part)),
        "same" => is_same(rt, text),
        "there" => fs::exists(rt, text),
        "missing" => Ok(!fs::exists(rt, text)?),
        "#"
        | "row"
        | "folder"
        | "copy"
        | "remove"
        | "remove-folder"
        | "in"
        | "in+"
        | "repeat"
        | "rr"
        | "out"
        | "err"
        | "status" => Ok(true),
        _ => Ok(false),
    }
}

/// Prints what is wrong.
fn told(rt: &impl Print, is_right: bool, what: &str, given: &str) -> io::Result<bool> {
    if !is_right {
        println!(rt; "otherwise: {what}: {given}")?;
    }
    Ok(is_right)
}

/// Whether the lines of a row hold.
fn hold<R: Files + Print + AllocGlobal>(rt: &R, row: &str, given: &Outcome) -> io::Result<bool> {
    let mut are_right = true;
    for line in row.lines() {
        are_right &= told(rt, holds(rt, given, line)?, "the line", line)?;
    }
    Ok(are_right)
}

/// Whether a run gave what its row wants; what came otherwise is printed.
pub fn is_wanted<R: Files + Print + AllocGlobal>(
    rt: &R,
    row: &str,
    given: &Outcome,
) -> io::Result<bool> {
    let out = texts_of(rt.alloc(), row, "out")?;
    let err = texts_of(rt.alloc(), row, "err")?;
    let status = format!(in rt.alloc(); "{}", given.status)?;
    let is_out = wants_parts(row) || given.out.as_str() == out.as_str();
    let is_err = wants_beginning(row) || given.err.as_str() == err.as_str();
    let is_status = status.as_str() == text_of(row, "status");
    let mut is_right = hold(rt, row, given)?;
    is_right &= told(rt, is_out, "the output", given.out.as_str())?;
    is_right &= told(rt, is_err, "the error", given.err.as_str())?;
    is_right &= told(rt, is_status, "the status", status.as_str())?;
    Ok(is_right)
}
