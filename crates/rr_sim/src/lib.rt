//! The simulator: a schedule of what happens to a cluster goes in, the report of its run comes out. `simulate` runs a schedule
//! that is a value, `report_on` one while its text is read; `random` draws one. A `Cluster` takes one event at a time.
//!
//! `sweep` crashes a copy of the node's disk after each device call of a run, in five ways, and opens it alone: all else of the node is
//! lost in the crash, and no other node hears of it. `Sweeping::new` and `step` do it event by event, and `push_sweep_lines`
//! prints the lines.
//!
//! So a program looks at the disk of a node behind a run:
//!
//! ```rust
//! /// The bytes of both areas of node 0 behind a schedule.
//! pub fn areas_behind(alloc: Global, schedule: &Schedule) -> Result<[Vec<u8>; 2], Refusal> {
//!     let mut nodes = nodes_after(alloc, schedule.nodes().count(), schedule)?;
//!     nodes.truncate(1);
//!     match nodes.pop() {
//!         None => Err(Refusal::BadNodes),
//!         Some(node) => {
//!             let mut disk = node.into_disk(alloc);
//!             let first = disk.read(alloc, Area::First, 0, u64::MAX)?;
//!             let second = disk.read(alloc, Area::Second, 0, u64::MAX)?;
//!             Ok([first, second])
//!         }
//!     }
//! }
//! ```
#![tactic(auto)]

mod chosen;
mod cluster;
mod ending;
mod opening;
mod random_events;
mod random_text;
mod simulator;
mod sweeping;
mod telling;
mod text;
mod whole;

pub use chosen::decided_list;
pub use cluster::{Cluster, shown};
pub use random_events::{MAX_STEPS, random};
pub use random_text::random_run;
pub use rr_node::Stance;
pub use rr_text::{BoundNames, Event, Fill, Happening, MAX_EVENTS, Report, ReportLine, Schedule};
pub use simulator::{accepted, nodes_after, simulate};
pub use sweeping::{SweepLine, Sweeping};
pub use telling::{report_on, tell_read};
pub use text::push_sweep_lines;
pub use whole::{MAX_SWEPT_EVENTS, sweep, swept_too_far};
