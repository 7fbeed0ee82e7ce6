//! The marks of a picture.

ghost use Rattle.std.specs.Prelude.{◌≡◌};
ghost use Rattle.rr_draw.specs.Fates.{class_of};

use rr_types::{Fact, Instance, MessageKind};
use std::io;
use std::io::Write;

/// The class of a message, by which it has its colour.
pub(crate) fn class_of(kind: MessageKind) -> &'static str
    ensures { result.now ≡ class_of kind }
{
    match kind {
        MessageKind::Estimate => "e",
        MessageKind::Proposal => "p",
        MessageKind::Ack => "a",
        MessageKind::Decision => "d",
        MessageKind::Request => "q",
        MessageKind::Nack | MessageKind::Beat | MessageKind::Suspects | MessageKind::Ask => "o",
    }
}

/// The kind of a fact by number, its instance and its round.
fn named(fact: &Fact) -> (u8, u32, Option<u32>) {
    match fact {
        Fact::Enter(instance, estimate) => {
            (0, instance.number(), Some(estimate.round().number()))
        }
        Fact::Propose(instance, round, _) => (1, instance.number(), Some(round.number())),
        Fact::Adopt(instance, round, _) => (2, instance.number(), Some(round.number())),
        Fact::Decide(instance, _) => (3, instance.number(), None),
    }
}

/// How many facts of a kind are named.
const NAMED: u64 = 3;

/// Appends the short names of the facts of a kind, of one instance or of all: what they are, their instances and their rounds.
/// Of many the first are named and the others counted.
pub(crate) fn push_facts(
    out: &mut Vec<u8>,
    facts: &[Fact],
    kind: u8,
    one: Option<Instance>,
) -> io::Result<()> {
    let mut count = 0u64;
    for fact in facts {
        let (its, instance, round) = named(fact);
        let is_wanted = match one {
            Some(one) => one.number() == instance,
            None => true,
        };
        if its != kind || !is_wanted {
            continue;
        }
        if count == 0 {
            let word = match kind {
                0 => "Enter",
                1 => "Propose",
                2 => "Adopt",
                _ => "Decide",
            };
            write!(out, "{word}")?;
        }
        if count < NAMED {
            write!(out, " {instance}")?;
            if let Some(round) = round {
                write!(out, ".{round}")?;
            }
        }
        count = count.saturating_add(1);
    }
    if count > NAMED {
        let others = count - NAMED;
        write!(out, " +{others}")?;
    }
    Ok(())
}

/// Appends a mark of those that the picture defines.
pub(crate) fn push_mark(out: &mut Vec<u8>, id: &str, x: u64, y: u64) -> io::Result<()> {
    write!(out, "<use href=\"#{id}\" x=\"{x}\" y=\"{y}\"/>")
}
