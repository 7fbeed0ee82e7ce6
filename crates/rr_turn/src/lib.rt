//! What a node's threads share, and what each does in a turn; `rr_threads` has the loops.
//! - `recover_through` opens a node's disk. `Locked` is a core under its lock: clients and the node's loop call `step`, and the loop
//!   `mark`, `take_group` and `next_message`. `carry` flushes a group, and a `Follower` shows what is decided. The calls named `.._on`
//!   also note their event on the tape (`Recording`).
//! - A turn is a function over what it calls: a node's loop has `turn`, its flusher `flush_group`, its publisher `publish_next`. While a
//!   node is down its thread has `stay_down`. A client that waits for a reply calls `await_receipt`.
//!
//! # Example
//!
//! This is in `crates/rr_threads/src/node_loop.rt`:
//!
//! ```rust
//! /// Runs the turns of a node, until it goes down. By a refusal it fails.
//! fn run_turns<W: WindowName, T: Turnstile, R: Wait + Clock>(
//!     rt: &R,
//!     shared: &Shared<'_, T>,
//!     desk: &Desk<W>,
//!     lane: &mut Lane<'_, W, T, R>,
//! ) -> Result<(), Refusal> {
//!     let mut clockwork = begin(rt, shared, desk, lane)?;
//!     let (node, order) = (&desk.locked, shared.running.order());
//!     let (chase, wires) = (&mut lane.chase, &mut lane.wires);
//!     for _ in rt.forever() {
//!         if desk.is_ending(shared) {
//!             break;
//!         }
//!         if clockwork.standstill.is_idle() {
//!             keep_pace(&mut clockwork.standstill, shared.pace(desk.node));
//!         }
//!         turn(rt, order, node, chase, wires, &mut clockwork, BATCH, ROOM)?;
//!     }
//!     Ok(())
//! }
//! ```
#![tactic(auto)]

mod among;
mod bells;
mod chase;
mod down;
mod ending;
mod flusher;
mod flushing;
mod following;
mod handing;
mod hearing;
mod kept;
mod links;
mod locked;
mod looking;
mod opening;
mod placed;
mod publishing;
mod recorded;
mod recording;
mod sending;
mod sent;
mod settling;
mod standstill;
mod submitting;
mod ticking;
mod ticks;
mod turning;
mod turnstile;
mod waiting;

pub use bells::{Bell, Bells, FlusherBell, FlusherRung, PublisherBell, PublisherRung, Rung};
pub use chase::{Chase, Hearing};
pub use down::{DownEnds, Next, stay_down};
pub use ending::{Ending, Failure};
pub use flusher::Unflushed;
pub use flushing::{FlusherEnds, flush_group};
pub use following::Follower;
pub use hearing::hear_kept;
pub use kept::Kept;
pub use links::Links;
pub use locked::Locked;
pub use opening::recover_through;
pub use publishing::{Counters, publish_next};
pub use recorded::{ack_on, hear_on, input_on, mark_on, send_on, take_on};
pub use recording::Recording;
pub use sent::{Sent, send};
pub use settling::{Course, settle};
pub use standstill::Standstill;
pub use ticking::Clockwork;
pub use ticks::Ticks;
pub use turning::turn;
pub use turnstile::{Open, Place, Turnstile};
pub use waiting::{Awaited, ClientEnds, await_receipt};
