//! Faults of texts, told to people. After parsing was refused, `print_schedule_fault`, `print_tape_fault` or
//! `print_script_fault` prints one line. It says where the text is at fault, what is there, and what may be there. `Shown` is a writer to
//! people, to whose terminal no control byte of a name comes. `ReasonsFirst` is one that prints a refusal behind its reason. `ShellWord`
//! is a word with which a line of a shell begins: how it is used, and which was meant by a slip.
//!
//! # Example
//!
//! This is in `crates/first_pages/src/explain.rt`:
//!
//! ```rust
//! use rr_explain::print_schedule_fault;
//! use rr_text::Schedule;
//! use std::alloc::Global;
//! use std::io;
//! use std::io::Write;
//!
//! /// Prints where the text of a schedule is at fault, and what may be there. Of a schedule it prints nothing.
//! pub fn print_fault<W: Write>(alloc: Global, err: &mut W, text: &[u8]) -> io::Result<()> {
//!     match Schedule::parse(alloc, text) {
//!         Ok(_) => Ok(()),
//!         Err(refusal) => print_schedule_fault(err, "run.schedule", text, &refusal),
//!     }
//! }
//! ```
#![tactic(auto)]

mod awaited;
mod fault;
mod faults;
mod names;
mod reasons_first;
mod recorded;
mod shell_word;

pub use faults::{print_schedule_fault, print_script_fault, print_tape_fault};
pub use names::{Shown, print_given};
pub use reasons_first::ReasonsFirst;
pub use shell_word::{ShellWord, push_help_lines, push_word_help, shell_words};
