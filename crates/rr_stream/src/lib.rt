//! The streams and files of a program. `Counted` makes a stream of one of the standard library, and counts its failed calls.
//! `print_all` prints a text and flushes it, `read_all` reads what an input has left, `tell_step` says how far a long work is.
//!
//! A `FileReader` reads a file whole, by its path; a contract over any of them can say of which file some bytes are. `HostFiles`
//! reads those of the host, of which nothing is known, and `NamedText` is one text as a file.
//!
//! # Example
//!
//! This is in `crates/first_pages/src/stream.rt`:
//!
//! ```rust
//! use rr_stream::{Sink, Source, print_all, read_all};
//! use std::alloc::Global;
//! use std::io;
//!
//! /// Copies what an input has left to an output. `Counted::new` makes either of a stream of the standard library.
//! pub fn copy<I: Source, O: Sink>(alloc: Global, input: &mut I, out: &mut O) -> io::Result<()> {
//!     let bytes = read_all(alloc, input)?;
//!     print_all(out, bytes.as_slice())
//! }
//! ```
#![tactic(auto)]

mod counted;
mod host;
mod named;
mod progress;
mod reader;
mod stream;
mod watched;
mod whole;

pub use counted::Counted;
pub use host::HostFiles;
pub use named::NamedText;
pub use progress::tell_step;
pub use reader::FileReader;
pub use stream::{Sink, Source};
pub use watched::Watched;
pub use whole::{print_all, read_all};
