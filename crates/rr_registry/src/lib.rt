//! The replicated registry of names, with the replies to its commands. `apply` and `apply_all` take the commands in the order
//! of the list. Each request is applied once: a repeat changes nothing, and `reply` gives the kept reply. `entry` and `entries`
//! look names up.
//!
//! Below it are maps in which a key may have a place before it has a value (`Numbered`). `make_place` comes first and may need
//! memory. `put` then writes the value and needs none. `insert` does both, and `drop_free_place` takes a place without a value away.
//!
//! # Example
//!
//! This is in `crates/first_pages/src/registry.rt`:
//!
//! ```rust
//! use rr_registry::Registry;
//! use rr_types::{Command, Reply};
//! use std::alloc::AllocError;
//!
//! /// Applies a command twice. The second time changes nothing, and has the same reply.
//! pub fn apply_twice(registry: &mut Registry, command: &Command) -> Result<bool, AllocError> {
//!     let reply = registry.apply(command)?;
//!     let repeated = registry.apply(command)?;
//!     Ok(matches!(reply, Reply::Claimed) && matches!(repeated, Reply::Claimed))
//! }
//! ```
#![tactic(auto)]

mod entries;
mod holding;
mod names;
mod numbered;
mod places;
mod registry;
mod tables;

pub use entries::Entries;
pub use holding::{Holding, binding_of};
pub use names::MAX_BOUND;
pub use numbered::Numbered;
pub use places::{drop_free_place, insert, make_place, put, value_at, value_of};
pub use registry::Registry;
