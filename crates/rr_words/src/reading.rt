//! The reading of words.

ghost use Rattle.std.specs.Prelude.{◌≡◌, IfOk, map};
ghost use Rattle.clap.specs.Kinds.{FailsBy};
ghost use Rattle.rr_words.specs.Tasks.{faults_of, task_of, task_in};

use crate::lines::command_line;
use crate::tasks::{Task, task_by};
use clap::Error;
use std::alloc::Global;
use std::convert::AsStr;

/// What the words ask for. The first word is the program's name.
///
/// # Errors
/// What `clap` answers to words that are no command, and to words that ask for help or the version.
pub fn read_words<'a, S: AsStr>(alloc: Global, words: &'a [S]) -> Result<Task<'a>, Error>
    ensures task { IfOk result (λ a. task_in a ≡ task_of (map S.text words.entry.now)) }
    ensures faults { FailsBy (faults_of (map S.text words.entry.now)) result }
{
    let matches = command_line(alloc)?.try_get_matches_from(words)?;
    match matches.subcommand() {
        Some((name, below)) => Ok(task_by(alloc, name, below)?),
        None => Ok(Task::Simulate(None)),
    }
}
