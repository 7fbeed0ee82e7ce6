//! A node over its disk, one event at a time: at most one device call an event. `Node::new` is down; `Restart` and `Device`
//! events open its disk, and from then on it takes the events of a node that is up. `fail` and `crash` happen to it.
//!
//! # Example
//!
//! This is in `crates/first_pages/src/node.rt`:
//!
//! ```rust
//! use rr_node::{Node, Stance};
//! use rr_types::{NodeEvent, Refusal};
//! use std::alloc::Global;
//!
//! /// Starts a node that is down. It is opening then: each device call of that is an event of its own.
//! pub fn start(alloc: Global, node: &mut Node) -> Result<Stance, Refusal> {
//!     node.step(alloc, &NodeEvent::Restart)?;
//!     Ok(node.stance())
//! }
//! ```
#![tactic(auto)]

mod doing;
mod event;
mod laws;
mod node;
mod serving;

pub use event::{Act, BoundNames, Outcome, Stance};
pub use laws::laws_of_seats;
pub use node::Node;
