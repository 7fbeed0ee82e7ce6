//! The core of a node, a state machine without input and output, and its recovery. A program that runs it does five things:
//!
//! 1. recovers it: an opening reads what a crash left of its disk, formats a fresh one, or brings one of version 1 up to
//!    version 2, and a core starts from the promise of what it found. `recover` does all of this; `Opening::start` and `step`
//!    make one device call at a time;
//! 2. tells it what happened: `step` takes an `Input`. It stages facts and owes messages;
//! 3. flushes what is staged: `take_group`, a flush of `rr_journal`, and `mark`;
//! 4. carries each message that may leave by then (`next_message`) to its addressee, which hears it (`Input::Hear`). It comes as
//!    a `Cleared`, which nothing else makes;
//! 5. tells clients the replies (`next_ack`).
//!
//! `crates/one_node` is such a program, and docs/PROGRAMS.md shows its middle.
//!
//! Inside, what an input does is in `input.rt`: for a message in `hear.rt`, for Ask and Decision in `decisions.rt`, and what is due
//! behind it in `due.rt`. All of it works on a `Step`, which borrows the `State`. Look-ups see the node as the step has left it by
//! then, and changes are collected beside it. `State::absorb` takes on all of these or none, and a refused step is dropped.
//!
//! This is how it flushes and sends:
//!
//! ```rust
//! /// Makes the staged facts safe, and marks them. It tells whether there were any.
//! fn flush<D: Disk>(
//!     alloc: Global,
//!     core: &mut Core,
//!     journal: &mut Journal<D>,
//! ) -> Result<bool, Refusal> {
//!     let Some(group) = core.take_group()? else {
//!         return Ok(false);
//!     };
//!     let job = match journal.begin(alloc, group) {
//!         Ok(job) => job,
//!         Err((refusal, _)) => return Err(refusal),
//!     };
//!     // Each step is a device call: write, sync, write, sync.
//!     let synced = job
//!         .step(journal)?
//!         .step(journal)?
//!         .step(journal)?
//!         .step(journal)?;
//!     match core.mark(synced) {
//!         Ok(()) => Ok(true),
//!         Err((refusal, _)) => Err(refusal),
//!     }
//! }
//!
//! /// Sends what may leave. With a single node each message is for the node itself.
//! fn send(core: &mut Core) -> Result<(), Refusal> {
//!     for _ in 0..64 {
//!         let Some(cleared) = core.next_message() else {
//!             break;
//!         };
//!         core.step(&Input::Hear(cleared.message()))?;
//!     }
//!     Ok(())
//! }
//! ```
#![tactic(auto)]

mod absorb;
mod cleared;
mod copies;
mod decisions;
mod due;
mod entering;
mod estimates;
mod group;
mod hear;
mod input;
mod known;
mod leaving;
mod lookup;
mod mark;
mod node_core;
mod opening;
mod over;
mod owing;
mod prefix;
mod proposing;
mod questions;
mod recovery;
mod restating;
mod rows;
mod start;
mod state;
mod step;
mod steps;
mod submit;
mod tally;
mod tick;

pub use cleared::Cleared;
pub use mark::Mark;
pub use node_core::Core;
pub use opening::Opening;
pub use recovery::recover;
pub use start::started;
pub use state::State;
pub use step::{Changes, Step};
pub use steps::Progress;
