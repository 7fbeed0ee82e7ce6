//! How many rounds the decided instances of a run took.

ghost use Rattle.std.specs.Prelude.{◌≡◌, ◌<◌, ◌==◌, if◌then◌else◌, ℕ, map, max, length, slice_index, IfOk};
ghost use Rattle.std.specs.List.{range_with_len, sum_by};
ghost use Rattle.std.specs.Option.{option_map_or};
ghost use Rattle.rr_account.specs.Counts.{round_in, round_told, highest_round, rounds_taken, stopped};

use rr_text::ReportLine;
use rr_types::{Body, Instance, Round};
use std::alloc::{AllocError, Global};

// The round of a message in an instance, where it names both.
fn round_in(body: &Body) -> Option<(Instance, Round)>
    ensures { (i : ℕ) → option_map_or (λ it. if it.0 == i then it.1 else 0) result 0 ≡ round_in i body.now }
{
    match body {
        Body::Estimate(instance, estimate) => Some((*instance, estimate.round())),
        Body::Proposal(instance, round, _)
        | Body::Ack(instance, round)
        | Body::Nack(instance, round) => Some((*instance, *round)),
        Body::Decision(_, _) | Body::Request(_) | Body::Beat | Body::Suspects(_) | Body::Ask(_) =>
            None,
    }
}

// A round of an instance is noted, if that is one of these.
fn raise(highest: &mut [u32], instance: Instance, round: Round)
    ensures { (i : ℕ) → i < length highest.old → slice_index highest.new i ≡ max (slice_index highest.old i) (if instance == i then round else 0) }
{
    let at = instance.number() as usize;
    if at < highest.len() {
        highest[at] = highest[at].max(round.number());
    }
}

// The round is noted that a line of a report tells of.
fn note_round(highest: &mut [u32], line: &ReportLine)
    ensures { (i : ℕ) → i < length highest.old → slice_index highest.new i ≡ max (slice_index highest.old i) (round_told i line.now) }
{
    if let ReportLine::Send { message, .. } = line {
        if let Some((instance, round)) = round_in(&message.body) {
            raise(highest, instance, round);
        }
    }
}

// The highest round of each of the first instances, so many, in the messages of which lines tell.
fn highest_rounds(
    alloc: Global,
    instances: usize,
    lines: &[ReportLine],
) -> Result<Vec<u32>, AllocError>
    ensures { IfOk result (λ highest. highest.items ≡ map (λ i. highest_round i lines.now) (range_with_len 0 instances)) }
{
    let mut highest = vec![in alloc; 0u32; instances]?;
    for line in lines {
        note_round(highest.as_mut_slice(), line);
    }
    Ok(highest)
}

// The sum of rounds, which stops at the greatest number of 64 bits.
fn sum_of(rounds: &[u32]) -> u64
    ensures { result ≡ stopped (sum_by (λ n. n) rounds.now) }
{
    let mut sum = 0u64;
    for round in rounds {
        sum = sum.saturating_add(u64::from(*round));
    }
    sum
}

/// How many rounds the first instances took, so many, by the messages of which lines tell: of each its highest round.
pub(crate) fn rounds_taken(
    alloc: Global,
    instances: usize,
    lines: &[ReportLine],
) -> Result<u64, AllocError>
    ensures { IfOk result (λ rounds. rounds ≡ stopped (rounds_taken instances lines.now)) }
{
    let highest = highest_rounds(alloc, instances, lines)?;
    Ok(sum_of(highest.as_slice()))
}
