//! The journal of a node: its facts on a disk of two areas, in groups behind a snapshot. The formatted area of the
//! greatest epoch is active.
//! 1. `Opening::step` reads what a crash left. It formats a blank disk, and migrates an area of version 1. `Journal::open`
//!    makes all steps.
//! 2. `Journal::begin` begins a flush. Four calls of `Job::step` append the group to the active area, and the last gives a
//!    `Synced`.
//! 3. `Journal::begin_snapshot` begins a switch. `SwitchJob::step` writes a snapshot to the other area, which is active from
//!    then on.
//!
//! After a failed device call, take the disk (`into_disk`) and open it again.
//!
//! What the two areas mean, and where they are damaged, is an `Image`: an opening reads it of both. `inspect` and `inspect_bytes` read
//! each area as the node that its snapshot names, and write nothing.
//!
//! Bytes behind a closed gate mean nothing. So until the gate is written, what a crash may leave holds the facts from
//! before the flush. From the last sync on it holds these and the group's; in between, one or the other. A snapshot
//! has the promise of the same facts, so each crash in a switch leaves what was there before it.
//!
//! # Example
//!
//! This is in `crates/first_pages/src/journal.rt`:
//!
//! ```rust
//! use rr_disk::Disk;
//! use rr_journal::Journal;
//! use rr_types::{Group, Refusal};
//! use std::alloc::Global;
//!
//! /// Appends a group of facts to a journal, and says how many facts it has by then. `Journal::open` opened it.
//! pub fn append<D: Disk>(
//!     alloc: Global,
//!     journal: &mut Journal<D>,
//!     group: Group,
//! ) -> Result<u64, Refusal> {
//!     match journal.begin(alloc, group) {
//!         Ok(job) => {
//!             // Each step is a device call: write, sync, write, sync.
//!             let _synced = job
//!                 .step(journal)?
//!                 .step(journal)?
//!                 .step(journal)?
//!                 .step(journal)?;
//!             Ok(journal.facts())
//!         }
//!         Err((refusal, _)) => Err(refusal),
//!     }
//! }
//! ```
#![tactic(auto)]

mod call;
mod content;
mod entries;
mod image;
mod inspection;
mod job;
mod journal;
mod opened;
mod opening;
mod promised;
mod rewrite;
mod snapshot;
mod stage;
mod switch;
mod switch_call;
mod synced;
mod trust;

pub use content::Content;
pub use image::{Image, read_image};
pub use inspection::{AreaReport, inspect, inspect_bytes};
pub use job::{Body, BodyOut, BodySafe, GateSet, Job};
pub use journal::{Journal, frame};
pub use opened::Opened;
pub use opening::{Opening, Progress, Stepped};
pub use switch::{SwitchJob, Switching};
pub use synced::Synced;
