//! The folders of a cluster: node P's is `DIR/P`, and `DIR/cluster` says which cluster they are. A node whose disk is lost, blank or
//! not as far as it was has forgotten promises, and must not be taken for a fresh one.
//! - Judging reads and writes no file. The file `cluster` says how many nodes there are and which of them have been formatted (`Cluster`).
//!   The file `node` in a node's folder says whose it is, and how far its disk came. By these, `judge` says whether folders as they
//!   were found may be opened.
//! - `open_folders` locks them, judges what it finds, and writes what is missing where a cluster begins. `survey_folders` and `enter`
//!   are its two halves. `Locks` holds their locks, and reserves request numbers in a locked folder. `lock_node` locks a single node's
//!   folder. `Shares` are the locks of those who only read, which keep off whoever runs nodes.
//! - `read_disk` reads what a folder holds, and `verify` says whether those of a cluster agree. `verdict_text` prints that, and
//!   `export` the registry of what they decided. `sift_cluster` says which of them a start would refuse, and `use_readings` sets these aside. None
//!   of them writes.
//!
//! # Example
//!
//! This is in `crates/first_pages/src/folders.rt`:
//!
//! ```rust
//! use rr_folders::{Closed, survey_folders};
//! use rr_types::{NodeSet, Nodes};
//!
//! /// Whether a cluster of these nodes would begin in a folder, which is made if it is missing. `open_folders` opens it.
//! pub fn is_fresh(rt: &HostRuntime, nodes: Nodes, dir: &str) -> Result<bool, Closed> {
//!     let survey = survey_folders(rt, nodes, dir, NodeSet::empty())?;
//!     Ok(survey.is_fresh())
//! }
//! ```
#![tactic(auto)]

mod closed;
mod cluster;
mod cluster_parse;
mod cluster_text;
mod decided;
mod difference;
mod exporting;
mod faults;
mod fields;
mod folder;
mod folder_home;
mod forming;
mod front;
mod home;
mod judged;
mod judging;
mod lock;
mod mark_file;
mod marked;
mod noted;
mod number_file;
mod opening;
mod plain;
mod reading;
mod reason;
mod renewal;
mod replacing;
mod requests;
mod returning;
mod seen;
mod sifting;
mod telling;
mod tip;
mod trouble;
mod verdict;
mod verify_folder;

pub use closed::{Closed, print_closed};
pub use cluster::Cluster;
pub use decided::{decided_text, longest_decided};
pub use exporting::export;
pub use faults::print_fault;
pub use fields::Form;
pub use folder::{
    Folders, NodeDisk, NodeHome, Survey, enter, judge_folders, open_folders, survey_folders,
};
pub use folder_home::FolderHome;
pub use forming::{try_dir, try_folder};
pub use home::{Home, HomeDisk};
pub use judged::{Judged, judge_cluster};
pub use judging::Fault;
pub use lock::{Lockable, Locks};
pub use mark_file::{FolderMark, MarkKeeper, MarkWriter};
pub use marked::MarkedDisk;
pub use number_file::{NumberFile, Unreserved, reserve};
pub use opening::{NodeFile, NodeFiles};
pub use plain::{read_only_disk, see_plain};
pub use reading::{Shares, lock_node, share_cluster, share_node};
pub use reason::{Reasons, ToldFile};
pub use renewal::{Bound, Renewal, renewed_folders, write_renewal};
pub use replacing::{Replaced, Replacement, plan_replacement, replace_folder};
pub use requests::{Block, greatest_in, reserve_in, see_in};
pub use sifting::{Sifted, sift_cluster, use_readings};
pub use telling::verdict_text;
pub use verdict::{Verdict, crashed_folders_agree, verify};
pub use verify_folder::{Reading, read_disk};
