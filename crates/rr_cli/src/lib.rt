//! The commands of `rr`, except `rr run` and `rr shell` (`rr_run`). `run` takes the words and the streams of a program, and gives
//! its exit status. `execute` does it for words that could be read: `read_words` names the task, and a module here does it.
//! `execute_with_views` does so with views of the run of a schedule too: `rr sim --explain`, `--json` and `--finish`, `rr stats`,
//! `rr check`; and with those of a tape: `rr audit --explain`, `rr stats`. A text that is a schedule or a tape is told by itself
//! (`recognising`).
//!
//! `page_of` makes the page of a run or of a tape: a file that a browser opens without a network, with its picture and with the lines
//! that `rr sim --explain --json` prints. `web/` has the page's own parts.
//!
//! # Example
//!
//! This is in `crates/worked_rows/src/old_folders/folder.rt`:
//!
//! ```rust
//! /// Runs `rr` by the words of a line.
//! fn run(rt: &HostRuntime, line: &str) -> Result<Outcome, AllocError> {
//!     let words: Vec<&str> = line.split(' ').collect(rt.alloc())?;
//!     let mut out = Counted::new(Vec::new(rt.alloc()));
//!     let mut err = Vec::new(rt.alloc());
//!     let status = execute(
//!         rt,
//!         words.as_slice(),
//!         &mut HostFiles::new(rt),
//!         &mut Counted::new(&b""[..]),
//!         &mut out,
//!         &mut err,
//!     );
//!     Ok(Outcome {
//!         status,
//!         out: out.into_inner(),
//!         err,
//!     })
//! }
//! ```
#![tactic(auto)]

mod area_objects;
mod audit;
mod audit_objects;
mod bare;
mod exporting;
mod finishing;
mod folder_faults;
mod folders;
mod input;
mod migrate;
mod page;
mod page_script;
mod parts;
mod picture;
mod program;
mod random_objects;
mod random_schedule;
mod recognising;
mod refusals;
mod run_script;
mod show;
mod streams;
mod sweep;
mod taped;
mod verification;
mod viewing;
mod views;
mod words;

pub use folder_faults::{end_by_unlocked, print_folder_fault};
pub use migrate::migrate_disk;
pub use page::page_of;
pub use program::{execute, run};
pub use random_schedule::{nodes_of, number_in};
pub use refusals::{TextKind, end_by_fault, end_by_refusal, print_refusal, status};
pub use rr_audit::audit_on;
pub use rr_sim::{random_run, report_on};
pub use rr_words::{
    CutWords, FinishView, Form, RandomWords, ReplaceWords, ShellWords, Task, View, read_words,
};
pub use show::{show_disk, show_disk_in};
pub use streams::{end_by_stream, end_by_text, end_by_unprinted, end_without_words};
pub use viewing::execute_with_views;
pub use words::end_by_words;
