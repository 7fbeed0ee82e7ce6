//! Schedules that are drawn on, event by event, where an event does something at that moment.
//! - `lively_run` draws a schedule in which something happens and gives it with its report, `lively_schedule` gives it alone. An event is
//!   drawn among those that do something at that moment, or with a fault. It is made before the next is drawn.
//! - `finish_run` lets a schedule go on, without faults and without clients, until nothing is left to do. It gives the lines of the
//!   events that it added, with the report of both.
//!
//! # Example
//!
//! This is in `crates/first_pages/src/lively.rt`:
//!
//! ```rust
//! use rr_lively::{DEFAULT_FAULTS, Recipe, lively_schedule};
//! use rr_stream::Sink;
//! use rr_types::Nodes;
//! use std::alloc::{AllocError, Global};
//!
//! /// The text of a schedule of some hundred events in which something happens. The sink is told how far it is drawn.
//! pub fn drawn<O: Sink>(
//!     alloc: Global,
//!     nodes: Nodes,
//!     progress: &mut O,
//! ) -> Result<Vec<u8>, AllocError> {
//!     let recipe = Recipe {
//!         nodes,
//!         seed: 1,
//!         steps: 100,
//!         faults: DEFAULT_FAULTS,
//!     };
//!     lively_schedule(alloc, recipe, progress)
//! }
//! ```
#![tactic(auto)]

mod choosing;
mod faults;
mod finish;
mod going;
mod known;
mod lively;
mod memory;
mod plan;
mod random_run;
mod run;
mod stances;

pub use finish::{Ending, Finish, finish_run};
pub use lively::{DEFAULT_FAULTS, Recipe, lively_run, lively_schedule};
pub use run::may_stay;
