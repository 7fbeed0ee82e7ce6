//! What an audit finds, in a line.

use rr_audit::{Verdict, examine};
use rr_text::Tape;
use rr_types::Refusal;
use std::alloc::Global;
use std::io;

/// Prints what an audit of a tape's text finds.
pub fn print_audit(rt: &HostRuntime, text: &[u8]) -> io::Result<()> {
    match audit_text(rt.alloc(), text) {
        Ok(verdict) => print_verdict(rt, verdict),
        Err(refusal) => println!(rt; "{refusal}"),
    }
}

/// Prints a verdict.
fn print_verdict(rt: &HostRuntime, verdict: Verdict) -> io::Result<()> {
    match verdict {
        Verdict::Yes(count) => println!(rt; "nodes can do these {count} events"),
        Verdict::No(number, node, _) => {
            let index = node.index();
            println!(rt; "event {number} isn't what node {index} does next")
        }
    }
}

/// Audits the tape that has this text.
fn audit_text(alloc: Global, text: &[u8]) -> Result<Verdict, Refusal> {
    let tape = Tape::parse(alloc, text)?;
    examine(alloc, &tape)
}
