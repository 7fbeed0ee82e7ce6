//! The vocabulary of a replicated name registry: nodes, rounds and instances, names and values,
//! bindings, commands and replies, facts, promises, messages, inputs and events, and the refusals of every call.
//!
//! Each type keeps its range: a `Round` is always a number from 1 to 2,147,483,647. Contracts
//! see numbers as numbers, names and values as lists of bytes, and the rest as the record or the variant.
//!
//! # Example
//!
//! This is in `crates/first_pages/src/types.rt`:
//!
//! ```rust
//! use rr_types::{Command, Name, Op, Refusal, RequestNo, Value};
//!
//! /// The command by which client 7 claims a name for `room-4`, as its request 1. Bytes that are no name are refused.
//! pub fn claim_of(name: &[u8]) -> Result<Command, Refusal> {
//!     Ok(Command {
//!         request: RequestNo { client: 7, seq: 1 },
//!         op: Op::Claim(Name::new(name)?, Value::new(b"room-4")?),
//!     })
//! }
//! ```
#![tactic(auto)]

mod binding;
mod command;
mod event;
mod fact;
mod input;
mod kept;
mod limit_law;
mod made_of;
mod message;
mod name;
mod node;
mod promise;
mod refusal;
mod round;
mod short;
mod standing;
mod summary;

pub use binding::Binding;
pub use command::{Command, Op, OpKind, Operand, Reply, ReplyKind, RequestNo, Shape};
pub use event::NodeEvent;
pub use fact::{Estimate, Fact, GROUP, Group};
pub use input::Input;
pub use kept::Kept;
pub use limit_law::limits;
pub use message::{Body, Message, MessageKind};
pub use name::{MAX_NAME, MAX_VALUE, Name, Value, is_name_byte, is_value_byte};
pub use node::{MAX_NODES, NodeId, NodeSet, Nodes, coordinator, majority};
pub use promise::{Entry, OpenStanding, Promise, Standing};
pub use refusal::Refusal;
pub use round::{INSTANCES, Instance, MAX_ROUND, OPEN_INSTANCES, Round};
pub use summary::NodeSummary;
