//! The handle of a node for C: a pointer to a node in a box, or none; and what it can be asked.
//!
//! # Example
//!
//! This is in `crates/first_pages/src/handle.rt`:
//!
//! ```rust
//! use rr_handle::RrNode;
//! use rr_types::Refusal;
//! use std::alloc::Global;
//!
//! /// Marks what is synced, and begins the next flush. It says how many bytes the caller is to write next.
//! pub fn next_write(alloc: Global, node: &mut RrNode) -> Result<usize, Refusal> {
//!     match node.due(alloc, 4096)? {
//!         None => Ok(0),
//!         Some((write, _bytes)) => Ok(write.len),
//!     }
//! }
//! ```
#![tactic(auto)]

mod asks;
mod filled;
mod filling;
mod handle;
mod held;
mod numbers;
mod parts;
mod reads;

pub use asks::DueWrite;
pub use filled::{fill, put};
pub use handle::RrNode;
pub use numbers::{code, reply_number};
pub use reads::{Standing, Status};
