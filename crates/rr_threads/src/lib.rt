//! Nodes in threads. `run_clients` opens the disks, runs the nodes and your clients, and returns once every `Client::run` has.
//! `run_script` does it for a script, and `run_switched` while a host stops and starts nodes by their `Switches`. A client asks by
//! its `Handle`: `submit`, `look`, `sync`, `list`, `ask`, `fate`, `snapshot`. Each node has three threads, and one for each client: one submits, hears,
//! marks, takes groups, sends and ticks; one flushes; one publishes. Nodes send to one another through inboxes.
//!
//! `rr_client` does this for nodes over folders, and counts in milliseconds. A client of your own kind looks so; this one is of the tests
//! in `crates/turnstile_tests`, which give it to `run_clients`:
//!
//! ```rust
//! /// A client that asks the line at `place`, at most `times` times, until the answer says that the name is its own.
//! #[derive(Drop)]
//! pub struct Asker<'s> {
//!     pub shared: &'s Shared,
//!     pub place: usize,
//!     pub times: u32,
//!     /// Whether it asks only once the node flushes.
//!     pub waits: bool,
//! }
//!
//! /// Whether an answer says that client 7 has the name, or that the node has claimed it.
//! fn is_right(answer: &Answer) -> bool {
//!     match answer {
//!         Answer::Acknowledged { reply, .. } => matches!(reply, Reply::Claimed),
//!         Answer::Bound { owner, .. } => *owner == 7,
//!         _ => false,
//!     }
//! }
//!
//! impl<'s> Client for Asker<'s> {
//!     fn run<W: WindowName, T: Turnstile, R: Wait>(
//!         &mut self,
//!         handle: &mut Handle<'_, '_, W, T, R>,
//!     ) -> Result<(), Refusal> {
//!         let shared = self.shared;
//!         let Some(line) = shared.lines.get(self.place) else {
//!             return Ok(());
//!         };
//!         if self.waits {
//!             shared.wait_for(handle.rt(), &shared.first_calls, OPENING_CALLS + 1);
//!         }
//!         for _ in 0..self.times {
//!             if is_right(&handle.ask_within(TURNS, line)) {
//!                 shared.right.fetch_add(1, Ordering::SeqCst);
//!                 break;
//!             }
//!             if handle.is_over() {
//!                 break;
//!             }
//!             rest(handle.rt());
//!         }
//!         Ok(())
//!     }
//! }
//! ```
#![tactic(auto)]

mod agreeing;
mod beginning;
mod client;
mod course;
mod desk;
mod disputing;
mod failing;
mod fate;
mod flushing;
mod lives;
mod node_loop;
mod node_run;
mod pacing;
mod publishing;
mod ready;
mod recorder;
mod rest;
mod reused;
mod run;
mod running;
mod script_run;
mod shared;
mod snapshotting;
mod summary;
mod switches;
mod switching;
mod wires;
mod wiring;

pub use client::{Client, Handle};
pub use desk::Written;
pub use disputing::Dispute;
pub use fate::Fate;
pub use recorder::Recorder;
pub use reused::Reused;
pub use run::{run_clients, run_switched, usual_tick};
pub use script_run::{Ran, run_script, run_script_ticking, run_script_told};
pub use switches::Switches;
