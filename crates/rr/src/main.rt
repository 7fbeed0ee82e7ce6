//! The program `rr`: its words, its streams and its threads, handed to `rr_run`.
#![tactic(auto)]

use rr_explain::{ReasonsFirst, Shown};
use rr_run::run;
use rr_shell::Prompted;
use rr_stream::{Counted, HostFiles, Watched};
use std::io::IsTerminal;
use std::process::ExitCode;
use std::{env, io};

fn words_of(rt: &HostRuntime) -> io::Result<Vec<String>> {
    let words = env::args(rt)?.collect(rt.alloc())?;
    Ok(words)
}

// Whether the words ask for JSON: then a program reads what is told, in the order of a pipe.
fn is_json(words: &io::Result<Vec<String>>) -> bool {
    match words {
        Ok(words) => words.iter().any(|word| word.as_str() == "--json"),
        Err(_) => false,
    }
}

fn main(rt: HostRuntime) -> ExitCode {
    let words = words_of(&rt);
    let is_seen = rt.stderr().is_terminal() && !is_json(&words);
    let mut err = ReasonsFirst::new(Shown::new(rt.stderr()), is_seen);
    let people = if rt.stderr().is_terminal() {
        Some(rt.stderr())
    } else {
        None
    };
    // A shell's prompt is for people who type, and see the answers.
    let typing = if rt.stdin().is_terminal()
        && rt.stdout().is_terminal()
        && rt.stderr().is_terminal()
    {
        Some(Shown::new(rt.stderr()))
    } else {
        None
    };
    let status = run(
        &rt,
        words,
        &mut HostFiles::new(&rt),
        &mut Prompted::new(Counted::new(rt.stdin()), typing),
        &mut Watched::new(Counted::new(rt.stdout()), people),
        &mut err,
    );
    err.finish();
    ExitCode::from(status)
}
