//! A registry that survives crashes, in your own program: begin here. `run_cluster` opens a cluster in a folder, or makes it there, runs
//! its nodes in threads, and has each of your guests ask a node as a client (`Caller`), by the calls of `Names`: `claim`, `update`,
//! `release`, `transfer`, `look`, `list`, `sync`, `watch`, `changes` and `changes_within`. It takes request numbers by itself, and times
//! are milliseconds. Once all guests are done, it closes the folder and gives them back, each with what it gave. A guest's `Host` prints,
//! reads the clock, and stops and starts nodes. So does an `Overseer` in the thread that calls `run_overseen`.
//!
//! Names belong to clients, which are numbers. Let no two programs be one client. A guest that is the same client later has its
//! names still.
//!
//! `crates/one_cluster` is this program:
//!
//! ```rust
//! use rr_client::{
//!     Caller, ClusterError, Guest, GuestRuntime, Host, Names, Options, Place, Turnstile, WindowName,
//!     run_cluster,
//! };
//! use rr_types::{Name, Nodes, Reply, Value};
//! use std::fs;
//! use std::sync::Wait;
//!
//! /// Someone who claims a desk, and counts the desks where it has one already.
//! #[derive(Drop)]
//! struct Clerk {
//!     desk: Name,
//!     desks: Option<usize>,
//! }
//!
//! impl Guest for Clerk {
//!     fn run<W: WindowName, T: Turnstile, R: Wait, H: GuestRuntime>(
//!         &mut self,
//!         names: &mut Caller<'_, '_, '_, W, T, R>,
//!         _host: &Host<'_, H>,
//!     ) -> Result<(), ClusterError> {
//!         if let Reply::Taken(_) = names.claim(&self.desk, &Value::new(b"room-4")?)? {
//!             names.sync()?;
//!             self.desks = Some(names.list(b"desk-")?.len());
//!         }
//!         Ok(())
//!     }
//! }
//!
//! fn main(rt: HostRuntime) -> anyhow::Result<()> {
//!     let _ = fs::remove_dir_all(&rt, "one_cluster.nodes"); // to begin anew; a registry keeps its folder
//!     for life in ["at first", "behind a restart"] {
//!         let mut places = Vec::new(rt.alloc());
//!         for (node, desk) in [(0u8, b"desk-0"), (1, b"desk-1"), (2, b"desk-2")] {
//!             let guest = Clerk {
//!                 desk: Name::new(desk)?,
//!                 desks: None,
//!             };
//!             let client = u32::from(node);
//!             places.push(Place {
//!                 node,
//!                 client,
//!                 guest,
//!             })?;
//!         }
//!         let (nodes, options) = (Nodes::new(3)?, Options::usual());
//!         for back in run_cluster(&rt, nodes, "one_cluster.nodes", &options, places)? {
//!             match back.into_guest()?.desks {
//!                 None => println!(rt; "{life}: a clerk has claimed its desk")?,
//!                 Some(desks) => println!(rt; "{life}: a clerk has one of {desks} desks")?,
//!             }
//!         }
//!     }
//!     Ok(())
//! }
//! ```
#![tactic(auto)]

mod beside;
mod cluster;
mod collecting;
mod error;
mod guest;
mod host;
mod names;
mod numbers;
mod options;
mod patience;
mod promises;
mod seated;
mod waiting;

pub use cluster::{run_cluster, run_overseen};
pub use error::ClusterError;
pub use guest::{Guest, Overseer, Place, Returned};
pub use host::{GuestRuntime, Host, Standing, Turned};
pub use names::{Awaited, Names};
pub use options::Options;
pub use rr_turn::Turnstile;
pub use rr_window::{Change, Sight, WindowName};
pub use seated::Caller;
