//! Disks of two areas: what their device calls do, how often they were made and how often they failed, and
//! what a crash may leave. A disk in memory, a disk of two files, and a disk whose calls fail on demand.
//!
//! After a write (`write_at`) its range is loose: until the next `sync`, a crash may leave any bytes there. After a sync
//! nothing is loose, and the present lengths are safe. A crash cuts an area no shorter than its safe length. It keeps each
//! byte below the cut that isn't loose.
//!
//! # Example
//!
//! This is in `crates/first_pages/src/disk.rt`:
//!
//! ```rust
//! use rr_disk::{Area, Disk};
//! use rr_types::Refusal;
//!
//! /// Appends bytes to area 0, and makes them safe: no crash takes them away. It gives the new length.
//! pub fn append<D: Disk>(disk: &mut D, bytes: &[u8]) -> Result<u64, Refusal> {
//!     let end = disk.len(Area::First);
//!     disk.write_at(Area::First, end, bytes)?;
//!     disk.sync()?;
//!     Ok(disk.len(Area::First))
//! }
//! ```
#![tactic(auto)]

mod area;
mod area_file;
mod cell;
mod cells;
mod disk;
mod failing;
mod file;
mod held;
mod loose;
mod memory;
mod reopen;
mod strip;

pub use area::Area;
pub use area_file::{AreaFile, OpenedFile};
pub use cell::Cell;
pub use disk::Disk;
pub use failing::FailingDisk;
pub use file::{FileDisk, make_folder};
pub use memory::MemDisk;
pub use reopen::Reopen;
