//! `rr run`, `rr shell` and `rr replace`: nodes in threads, over the files of folders, by a script, by lines as they come, or until a lost one
//! can be replaced. This crate alone
//! brings threads to the program. `run` takes the words and streams of `main`. It passes every other command to `rr_cli`.
//!
//! # Example
//!
//! This is in `crates/rr/src/main.rt`:
//!
//! ```rust
//! fn main(rt: HostRuntime) -> ExitCode {
//!     let words = words_of(&rt);
//!     let is_seen = rt.stderr().is_terminal() && !is_json(&words);
//!     let mut err = ReasonsFirst::new(Shown::new(rt.stderr()), is_seen);
//!     let people = if rt.stderr().is_terminal() {
//!         Some(rt.stderr())
//!     } else {
//!         None
//!     };
//!     // A shell's prompt is for people who type, and see the answers.
//!     let typing = if rt.stdin().is_terminal()
//!         && rt.stdout().is_terminal()
//!         && rt.stderr().is_terminal()
//!     {
//!         Some(Shown::new(rt.stderr()))
//!     } else {
//!         None
//!     };
//!     let status = run(
//!         &rt,
//!         words,
//!         &mut HostFiles::new(&rt),
//!         &mut Prompted::new(Counted::new(rt.stdin()), typing),
//!         &mut Watched::new(Counted::new(rt.stdout()), people),
//!         &mut err,
//!     );
//!     err.finish();
//!     ExitCode::from(status)
//! }
//! ```
#![tactic(auto)]

mod answer_objects;
mod asking;
mod beside;
mod board;
mod closed;
mod console;
mod deciding;
mod defaults;
mod disputes;
mod ending;
mod failures;
mod founding;
mod fronts;
mod leaving_out;
mod news;
mod post;
mod program;
mod replacing;
mod reused;
mod script_run;
mod shell_run;
mod teller;
mod ticking;
mod used;
mod watcher;

pub use program::{execute, run};
pub use rr_folders::{Lockable, MarkWriter};
