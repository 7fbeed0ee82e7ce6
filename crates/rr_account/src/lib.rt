//! The account of a run: what came of each event of its schedule, and its report. `account_on` makes one from bytes, `watch`
//! from a schedule, `account_of_tape` from a tape. `explanation`, `json_report` and `json_explanation` print it. `statistics_of` counts, for
//! `statistics_table` or `json_statistics`. `difference_of` says where two texts first differ, and `push_difference` tells it
//! in words.
//!
//! # Example
//!
//! This is in `crates/first_pages/src/account.rt`:
//!
//! ```rust
//! use rr_account::{account_on, explanation};
//! use rr_stream::Sink;
//! use rr_types::Refusal;
//! use std::alloc::Global;
//!
//! /// What came of each event of a schedule, in words. The sink is told how far the run is.
//! pub fn told<O: Sink>(alloc: Global, text: &[u8], progress: &mut O) -> Result<Vec<u8>, Refusal> {
//!     let account = account_on(alloc, text, progress)?;
//!     explanation(alloc, &account)
//! }
//! ```
#![tactic(auto)]

mod account;
mod beside;
mod decisions;
mod difference;
mod event_sort;
mod explaining;
mod heard;
mod json;
mod kind;
mod note;
mod outcome;
mod paging;
mod reasons;
mod rounds;
mod seen;
mod statistics;
mod table;
mod taped;
mod watching;

pub use account::Account;
pub use difference::{Difference, difference_of, push_difference};
pub use explaining::explanation;
pub use json::{json_explanation, json_report};
pub use outcome::{Idle, Outcome};
pub use paging::{page_data, tape_page_data};
pub use statistics::{EventCount, MessageCount, RefusalCount, Statistics, statistics_of};
pub use table::{json_statistics, statistics_table};
pub use taped::account_of_tape;
pub use watching::{account_on, watch};
