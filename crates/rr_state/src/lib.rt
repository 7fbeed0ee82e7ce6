//! What a node knows: the parts of its state, on which a step works.
//! - Failure detectors. The heartbeat detector has time-outs that grow (Aguilera, Chen and Toueg 2000): a node is suspected once
//!   more ticks than its time-out have come since its last beat, and a beat of a suspected node raises its time-out by one. The
//!   reduction makes a detector complete (Chandra and Toueg 1996). When a node tells whom it suspects, these are suspected too,
//!   and the node itself, which spoke, is not. `Heartbeat` is told by `tick` and `heard`, and asked by `suspects`. `Suspects`,
//!   the reduction, is told by `receive`, and asked by `output`.
//! - An instance over its rounds. A `Row` says where it stands and which facts back its messages. `first` or `promised` makes it,
//!   `after` takes a fact on, and `with_estimate`, `with_ack`, `with_nack` an answer. Its `Tally` is what the coordinator heard:
//!   `pick`, `is_acknowledged` and `is_answered` say whether a majority has spoken.
//! - The tables of all instances and requests. `Instances` has the rows and the promise of the marked facts: `absorb` puts rows, then
//!   `mark` marks facts. `Pool` has the commands that wait for an instance, `Waiting` the requests that wait for their
//!   acknowledgement. Of both, `push` adds, `take_back` undoes a push, and `remove` takes one out. No call costs more for what it
//!   leaves alone.
//! - What a node owes and has promised. `Unmarked` has the facts: `push_all` stages them, `run` makes a group of the oldest,
//!   `put_back` or `drop_running` ends it. `Outbox` has the messages: `owe_all` adds, `leaving_place` finds the oldest that is
//!   free or whose fact is marked, `at` lends it, and `remove` takes it away.
//!
//! # Example
//!
//! This is in `crates/first_pages/src/state.rt`:
//!
//! ```rust
//! use rr_state::Heartbeat;
//! use rr_types::{NodeId, NodeSet};
//!
//! /// Whom a node suspects behind five ticks, in which it has heard from one node alone: all but this one.
//! pub fn suspected(heartbeat: &mut Heartbeat, heard: NodeId) -> NodeSet {
//!     for _tick in 0..5 {
//!         heartbeat.tick();
//!         heartbeat.heard(heard);
//!     }
//!     heartbeat.suspects()
//! }
//! ```
#![tactic(auto)]

mod arrivals;
mod backing;
mod heartbeat;
mod instances;
mod marks;
mod open_instances;
mod opening;
mod outbox;
mod owed;
mod pool;
mod row;
mod rows;
mod same;
mod suspects;
mod tally;
mod unmarked;
mod waiting;
mod watch;

ghost use Rattle.std.specs.Prelude.{ℕ, List};
ghost use Rattle.rr_state.specs.Rule.{Event, FollowsTheRule};
ghost use Rattle.rr_state.specs.Receipts.{Receipt, IsWhatWasTold, IsCompleteOver, InventsNothing};
ghost use Rattle.rr_model.specs.NodeState.{Vote};
ghost use Rattle.rr_state.specs.Votes.{KeepsFirsts};

pub use arrivals::Values;
pub use backing::Backing;
pub use heartbeat::Heartbeat;
pub use instances::Instances;
pub use open_instances::OpenInstances;
pub use outbox::Outbox;
pub use owed::Owed;
pub use pool::Pool;
pub use row::Row;
pub use rows::is_any_decided;
pub use same::are_same_facts;
pub use suspects::Suspects;
pub use tally::{Tally, Vote};
pub use unmarked::Unmarked;
pub use waiting::Waiting;
/// What a detector of n nodes suspects after a list of ticks and beats is what the rule of time-outs says.
pub fn suspects_by_the_rule()
    ensures { (n q : ℕ) (events : List Event) → FollowsTheRule n q events }
{}
/// Laws of the reduction over any list of receipts: which nodes the output has at its end; who is named and
/// stays silent is in it; who isn't named and wasn't in it before stays out.
pub fn laws_of_receipts()
    ensures output_is_what_was_told { (set node : ℕ) (receipts : List Receipt) → IsWhatWasTold set node receipts }
    ensures it_is_complete { (set node : ℕ) (receipts : List Receipt) → IsCompleteOver set node receipts }
    ensures it_invents_nothing { (set node : ℕ) (receipts : List Receipt) → InventsNothing set node receipts }
{}
/// Of each sender the first estimate is kept, and nothing else, whatever comes in which order.
pub fn keeps_the_first_of_each_sender()
    ensures { (votes : List Vote) → KeepsFirsts votes }
{}
