//! A node for a host that has its own network, disk and clock. It makes no call of its own: it asks for one write at a time, and the host makes
//! it, syncs it and says so.
//!
//! # Example
//!
//! This is in `crates/first_pages/src/host.rt`:
//!
//! ```rust
//! use rr_host::Host;
//! use rr_types::Refusal;
//!
//! /// Tells a node that is up that the write that was due is made and synced. What that made safe is marked, and the next flush begins. It says how many
//! /// bytes the host is to write next.
//! pub fn written(host: &mut Host) -> Result<usize, Refusal> {
//!     host.done(true)?;
//!     host.mark()?;
//!     host.flush()?;
//!     match host.due() {
//!         None => Ok(0),
//!         Some(write) => Ok(write.bytes().len()),
//!     }
//! }
//! ```
#![tactic(auto)]

mod chase;
mod disk;
mod doing;
mod flush;
mod host;
mod placed;
mod reading;
mod standstill;
mod up;

pub use disk::{HostDisk, Written};
pub use host::Host;
pub use reading::{Status, holding, name_of, next_about, standing};
pub use up::Leaving;
