//! The bytes on a disk and between nodes: commands, facts, groups, snapshots and messages, each with one spelling in a version.
//!
//! Numbers are big-endian. Bytes of versions 1 and 2 are read, and version 2 is written. A decoder answers with a
//! value exactly where the bytes are its spelling in the version, and otherwise with the offset of the first field
//! that is cut short or holds no lawful value.
//! `encode_fact`, `encode_group` and `encode_snapshot` write what lies on a disk; `decode_fact`, `decode_group` and
//! `decode_snapshot` read a whole value. `encode` and `decode` do so with a message, and a `MessageLog` keeps the bytes of many.
//!
//! # Example
//!
//! This is in `crates/first_pages/src/frame.rt`:
//!
//! ```rust
//! use rr_frame::encode_fact;
//! use rr_types::{Command, Fact, Instance, Refusal, Round};
//! use std::alloc::Global;
//!
//! /// The bytes of the fact that a node has adopted this command in round 1.
//! pub fn adoption(alloc: Global, instance: Instance, command: Command) -> Result<Vec<u8>, Refusal> {
//!     encode_fact(alloc, &Fact::Adopt(instance, Round::at(1), command))
//! }
//! ```
#![tactic(auto)]

mod command;
mod decoding;
mod encoding;
mod fact;
mod group;
mod heading;
mod log;
mod number;
mod reader;
mod snapshot;
mod spellings;
mod stop;
mod version;

pub use command::{put_command, read_command};
pub use decoding::decode;
pub use encoding::encode;
pub use fact::{decode_fact, encode_fact, put_estimate, put_fact, read_estimate, read_fact};
pub use group::{decode_group, encode_group, read_group};
pub use heading::{Heading, snapshot_heading};
pub use log::MessageLog;
pub use number::{put_u8, put_u16, put_u32, put_u64};
pub use reader::Reader;
pub use snapshot::{Snapshot, decode_snapshot, encode_snapshot, read_snapshot};
pub use stop::{Fault, Stop};
pub use version::{Version, read_version};
