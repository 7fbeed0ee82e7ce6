//! The talk of a shell. Its lines are what they ask for (`read_shell_line`), and what is said to them, in words or with JSON.
//! `talk` hears a line, asks nodes that run what the line asks (`Asked`), and says the answer. It has no threads but for a watch, which
//! says changes while the next line is heard.
//!
//! # Example
//!
//! This is in `crates/first_pages/src/shell.rt`:
//!
//! ```rust
//! use rr_shell::{LineFault, ShellLine, read_shell_line};
//! use rr_types::{Name, Nodes, Op, Value, made_of};
//!
//! /// Whether a line asks a shell over these nodes for a look. A line that asks for nothing is told as a fault.
//! pub fn is_look(nodes: Nodes, line: &[u8]) -> Result<bool, LineFault> {
//!     made_of!(Name, Op, Value); // so that the check knows what a line is made of
//!     let asked = read_shell_line(nodes, line)?;
//!     Ok(matches!(asked, ShellLine::Look(_)))
//! }
//! ```
#![tactic(auto)]

mod answering;
mod hearing;
mod line_read;
mod line_text;
mod listing;
mod looking;
mod object_text;
mod outcome;
mod prompting;
mod said_text;
mod saying;
mod shell_line;
mod sign;
mod status;
mod talking;
mod troubles;
mod watching;

pub use answering::{Asked, Hint, is_sight_at};
pub use hearing::{Heard, hear};
pub use line_read::read_shell_line;
pub use listing::{Listing, is_listing_at};
pub use outcome::{Outcome, push_used_text};
pub use prompting::{Prompted, Prompting};
pub use said_text::{
    say_answer, say_changed, say_fault, say_freed, say_help, say_late, say_listing, say_move,
    say_outcome, say_snapshot, say_start, say_status, say_stop, say_sync, say_trouble,
    say_watching,
};
pub use shell_line::{LineFault, MAX_LINE, ShellLine};
pub use status::{NodeStatus, NodeTrouble, is_nearly_full, left_behind};
pub use talking::{Stop, talk};
pub use troubles::{Trouble, answer_trouble, listing_trouble, outcome_trouble, sync_trouble};
