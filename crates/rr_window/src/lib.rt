//! What threads hand to one another: a window on a list, inboxes, and hand-overs.
//!
//! **A window** is on one list of commands that only grows: one publisher adds to it, and readers look at the registry
//! of what is published, without waiting for anybody. `open` makes a window and `split` its ends. The publisher calls `append` and
//! then `publish`, and hands out receipts. A reader takes a seat (`Seats::take`), and calls `look` and `list`, and `learn` of
//! receipts. By a `Watch` it learns of each change. At the end the publisher is closed (`close`).
//! Contracts see a window's list as its commands. Nothing stores them: readers are served the registry of a beginning
//! of the list, and that beginning's length.
//!
//! **An inbox** is a queue into which many put messages and from which one takes them, first in first out. `Outlet::new` makes
//! one, and `Outlet::port` an end that puts into it. `hand_over` makes both ends of a hand-over of one value at a time from one
//! thread to another. Each end carries what it knows of all that was ever put there (`View`). That exists in proofs alone and
//! takes no bytes.
//!
//! # Example
//!
//! This is in `crates/first_pages/src/window.rt`:
//!
//! ```rust
//! use rr_types::{Command, Name, Refusal};
//! use rr_window::{Publisher, Seat, Sight, WindowName};
//! use std::sync::Wait;
//!
//! /// Publishes a command, and looks at a name from a seat. `open` and `split` make the ends of a window.
//! pub fn publish_and_look<W: WindowName, R: Wait>(
//!     rt: &R,
//!     publisher: &mut Publisher<W>,
//!     seat: &mut Seat<W>,
//!     command: Command,
//!     name: &Name,
//! ) -> Result<Sight, Refusal> {
//!     if publisher.count() > 1_000_000 {
//!         return Err(Refusal::ListFull);
//!     }
//!     publisher.append(command)?;
//!     publisher.publish(rt)?;
//!     seat.look(name)
//! }
//! ```
#![tactic(auto)]

mod addition;
mod change;
mod handing;
mod inbox;
mod list;
mod listing;
mod publisher;
mod receipt;
mod rule;
mod seat;
mod served;
mod sight;
mod trace;
mod view;
mod watch;

pub use change::Change;
pub use crossbeam_channel::TrySendError;
pub use handing::{Giver, Taker, hand_over};
pub use inbox::{Outlet, Port, ROOM};
pub use list::{NewList, WindowName};
pub use publisher::{Publisher, SEATS, Window, open};
pub use receipt::{Receipt, Told};
pub use seat::{Seat, Seats};
pub use sight::Sight;
pub use watch::Watch;
