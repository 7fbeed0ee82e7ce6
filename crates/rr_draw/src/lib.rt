//! A space-time diagram of a schedule's run, as an SVG text. Time goes down, and each node has a line. `picture_of` reads the
//! bytes of a schedule, runs it, and draws the events that a `Cut` names. `tape_picture` draws those of a tape.
//!
//! # Example
//!
//! This is in `crates/first_pages/src/draw.rt`:
//!
//! ```rust
//! use rr_draw::{Cut, picture_of};
//! use rr_stream::Sink;
//! use rr_types::Refusal;
//! use std::alloc::Global;
//!
//! /// A picture of the first hundred lines of a schedule, as SVG. The sink is told how far the run is.
//! pub fn picture<O: Sink>(alloc: Global, text: &[u8], progress: &mut O) -> Result<Vec<u8>, Refusal> {
//!     let cut = Cut {
//!         from: 1,
//!         to: 100,
//!         node: None,
//!         instance: None,
//!         requests: true,
//!     };
//!     picture_of(alloc, text, &cut, progress)
//! }
//! ```
#![tactic(auto)]

mod arrow;
mod cut;
mod drawing;
mod escape;
mod fate;
mod glyphs;
mod labels;
mod lane;
mod picture;
mod scene;
mod style;
mod taped;
mod words;

pub use cut::Cut;
pub use escape::{push_escaped, push_script_data};
pub use picture::picture_of;
pub use taped::tape_picture;
