//! The texts that are lists of lines: schedules and their reports, tapes, scripts and their answers.
//! - `Schedule::parse` reads a whole schedule. `first_line`, and then `next_event` again and again, read it line by line.
//!   `Schedule::text` and `Report::text` print.
//! - A tape says what a cluster did whose nodes keep everything, event by event. `Tape::parse` reads a whole one, `next_tape_event` a line
//!   behind `first_line`, and `Tape::text` prints one.
//! - A script says what clients ask of nodes in threads. `Script::parse` reads it, and `lines` gives what is asked. `Answers::new` and
//!   `text` print what was answered.
//!
//! # Example
//!
//! This is in `crates/first_pages/src/text.rt`:
//!
//! ```rust
//! use rr_text::Schedule;
//! use rr_types::Refusal;
//! use std::alloc::Global;
//!
//! /// How many events the text of a schedule has. A text that is none is refused, with the line that is at fault.
//! pub fn count_events(alloc: Global, text: &[u8]) -> Result<usize, Refusal> {
//!     let schedule = Schedule::parse(alloc, text)?;
//!     Ok(schedule.events().len())
//! }
//! ```
#![tactic(auto)]

mod answer;
mod answer_text;
mod command_laws;
mod event;
mod kind;
mod message_read;
mod report;
mod schedule;
mod script;
mod script_law;
mod script_line;
mod script_parse;
mod script_text;
mod sent_read;
mod tape;
mod tape_event;
mod tape_law;
mod tape_parse;
mod tape_text;
mod text_law;
pub mod text_parse;
pub mod text_read;
pub mod text_report;
pub mod text_schedule;
pub mod text_word;

pub use answer::{Answer, Answers};
pub use command_laws::command_law;
pub use event::{Event, Fill, Happening};
pub use kind::EventKind;
pub use report::{BoundNames, Report, ReportLine};
pub use schedule::{MAX_EVENTS, Schedule};
pub use script::Script;
pub use script_line::ScriptLine;
pub use tape::Tape;
pub use tape_event::{Recorded, TapeEvent};
pub use tape_parse::next_tape_event;
pub use text_law::one_fault;
