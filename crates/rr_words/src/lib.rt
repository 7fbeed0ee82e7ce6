//! What the words of `rr` ask for. `read_words` reads them by the command line (`lines.rt`). It gives the task (`tasks.rt`), or
//! what `clap` answers.
//!
//! # Example
//!
//! This is in `crates/first_pages/src/words.rt`:
//!
//! ```rust
//! use rr_words::{Task, read_words};
//! use std::alloc::Global;
//!
//! /// Whether these words ask for the report of a schedule in a file. The first word is the program.
//! pub fn is_simulation(alloc: Global, words: &[&str]) -> bool {
//!     matches!(read_words(alloc, words), Ok(Task::Simulate(Some(_))))
//! }
//! ```
#![tactic(auto)]

mod helps;
mod lines;
mod reading;
mod tasks;

pub use lines::{LAST_CLIENT, LAST_LINE, LEAST_TICK, MAX_FAULTS, MAX_STEPS, MOST_TICK};
pub use reading::read_words;
pub use tasks::{
    CutWords, Exported, FinishView, Form, RandomWords, ReplaceWords, ShellWords, Task, View,
};
