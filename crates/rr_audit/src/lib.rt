//! The auditor of tapes: whether what a tape records is what nodes of the world do, event by event. `audit` says yes or
//! no of a tape, and `examine` also what the world gives instead of an event. `audit_on` does the same while the text
//! is read, and `watch_tape` while its progress is told. A `Replay` takes one event at a time, and tells what a node flushes.
//! `as_scheduled` and `as_reported` say what an event of a tape is in a schedule and in a report.
//!
//! So a program audits the text of a tape:
//!
//! ```rust
//! use rr_audit::{Verdict, examine};
//! use rr_text::Tape;
//! use rr_types::Refusal;
//! use std::alloc::Global;
//! use std::io;
//!
//! /// Prints what an audit of a tape's text finds.
//! pub fn print_audit(rt: &HostRuntime, text: &[u8]) -> io::Result<()> {
//!     match audit_text(rt.alloc(), text) {
//!         Ok(verdict) => print_verdict(rt, verdict),
//!         Err(refusal) => println!(rt; "{refusal}"),
//!     }
//! }
//!
//! /// Prints a verdict.
//! fn print_verdict(rt: &HostRuntime, verdict: Verdict) -> io::Result<()> {
//!     match verdict {
//!         Verdict::Yes(count) => println!(rt; "nodes can do these {count} events"),
//!         Verdict::No(number, node, _) => {
//!             let index = node.index();
//!             println!(rt; "event {number} isn't what node {index} does next")
//!         }
//!     }
//! }
//!
//! /// Audits the tape that has this text.
//! fn audit_text(alloc: Global, text: &[u8]) -> Result<Verdict, Refusal> {
//!     let tape = Tape::parse(alloc, text)?;
//!     examine(alloc, &tape)
//! }
//! ```
#![tactic(auto)]

mod auditing;
mod given;
mod paper;
mod progress;
mod reading;
mod replay;
mod replay_node;
mod rows;
mod same;

pub use auditing::{Verdict, audit, examine, watch_tape};
pub use given::Given;
pub use reading::audit_on;
pub use replay::Replay;
pub use replay_node::ReplayNode;
pub use rows::{as_reported, as_scheduled};
