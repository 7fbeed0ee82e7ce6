//! Facts as bytes.

ghost use Rattle.std.specs.Prelude.{◌≡◌, ◌++◌, length, OnOk, IfOk, IfErr, Ok};
ghost use Rattle.rr_types.specs.declared.fact.Fact.{Fact};
ghost use Rattle.rr_frame.specs.Reading.{Gives};
ghost use Rattle.rr_frame.specs.Refused.{answer_of};
ghost use Rattle.rr_frame.specs.FactFormat.{estimate_bytes, fact_bytes, IsLawfulEstimate, IsLawfulFact, IsLawfulFactIn, estimate_at, fact_with, fact_at, fact_in};

use crate::command::{put_command, read_command};
use crate::number::{put_u8, put_u32};
use crate::reader::Reader;
use crate::stop::Fault;
use crate::version::Version;
use rr_types::{Estimate, Fact, Instance, Refusal};
use std::alloc::{AllocError, Global};

/// Reads an estimate of a version. A fault is the first field that is cut short or holds no lawful value.
#[tactic(auto, unfolding(crate::specs::FactFormat::estimate_at))]
pub fn read_estimate(version: Version, reader: &mut Reader<'_>) -> Result<Estimate, Fault>
    ensures { Gives result reader.new (estimate_at version reader.old) }
{
    let round = reader.round()?;
    let here = reader.fault();
    let stamp = reader.u32()?;
    if stamp >= round.number() {
        return Err(here);
    }
    let command = read_command(version, reader)?;
    match Estimate::new(round, stamp, command) {
        Some(estimate) => Ok(estimate),
        None => Err(here),
    }
}

#[tactic(auto, unfolding(crate::specs::FactFormat::fact_with))]
fn read_fact_with(
    version: Version,
    kind: u8,
    instance: Instance,
    reader: &mut Reader<'_>,
) -> Result<Fact, Fault>
    ensures { Gives result reader.new (fact_with version kind instance reader.old) }
{
    match kind {
        1 => {
            let estimate = read_estimate(version, reader)?;
            Ok(Fact::Enter(instance, estimate))
        }
        2 => {
            let round = reader.round()?;
            let command = read_command(version, reader)?;
            Ok(Fact::Propose(instance, round, command))
        }
        3 => {
            let round = reader.round()?;
            let command = read_command(version, reader)?;
            Ok(Fact::Adopt(instance, round, command))
        }
        _ => {
            let command = read_command(version, reader)?;
            Ok(Fact::Decide(instance, command))
        }
    }
}

/// Reads a fact of a version. A fault is the first field that is cut short or holds no lawful value.
#[tactic(auto, unfolding(crate::specs::FactFormat::fact_at))]
pub fn read_fact(version: Version, reader: &mut Reader<'_>) -> Result<Fact, Fault>
    ensures { Gives result reader.new (fact_at version reader.old) }
{
    let here = reader.fault();
    let kind = reader.u8()?;
    if kind == 0 || kind > 4 {
        return Err(here);
    }
    let instance = reader.instance(version)?;
    read_fact_with(version, kind, instance, reader)
}

/// Puts an estimate behind the other bytes.
#[tactic(auto, unfolding(crate::specs::FactFormat::estimate_bytes))]
pub fn put_estimate(out: &mut Vec<u8>, estimate: &Estimate) -> Result<(), AllocError>
    ensures ok { OnOk result (out.new.items ≡ out.old.items ++ estimate_bytes estimate.now) }
    ensures lawful { OnOk result (IsLawfulEstimate estimate.now) }
{
    put_u32(out, estimate.round().number())?;
    put_u32(out, estimate.stamp())?;
    put_command(out, estimate.command_ref())?;
    Ok(())
}

/// Puts a fact behind the other bytes.
#[tactic(auto, unfolding(crate::specs::FactFormat::fact_bytes))]
pub fn put_fact(out: &mut Vec<u8>, fact: &Fact) -> Result<(), AllocError>
    ensures ok { OnOk result (out.new.items ≡ out.old.items ++ fact_bytes fact.now) }
    ensures lawful { OnOk result (IsLawfulFact fact.now) }
{
    match fact {
        Fact::Enter(instance, estimate) => {
            put_u8(out, 1)?;
            put_u32(out, instance.number())?;
            put_estimate(out, estimate)?;
            Ok(())
        }
        Fact::Propose(instance, round, command) => {
            put_u8(out, 2)?;
            put_u32(out, instance.number())?;
            put_u32(out, round.number())?;
            put_command(out, command)?;
            Ok(())
        }
        Fact::Adopt(instance, round, command) => {
            put_u8(out, 3)?;
            put_u32(out, instance.number())?;
            put_u32(out, round.number())?;
            put_command(out, command)?;
            Ok(())
        }
        Fact::Decide(instance, command) => {
            put_u8(out, 4)?;
            put_u32(out, instance.number())?;
            put_command(out, command)?;
            Ok(())
        }
    }
}

/// The one spelling of a fact, in version 2.
pub fn encode_fact(alloc: Global, fact: &Fact) -> Result<Vec<u8>, Refusal>
    ensures ok { IfOk result (λ v. v.items ≡ fact_bytes fact.now) }
    ensures lawful { OnOk result (IsLawfulFact fact.now) }
    ensures err { IfErr result (λ e. e ≡ Refusal.OutOfMemory) }
{
    let mut out = Vec::new(alloc);
    match put_fact(&mut out, fact) {
        Ok(()) => Ok(out),
        Err(_) => Err(Refusal::OutOfMemory),
    }
}

#[tactic(auto, unfolding(crate::specs::FactFormat::fact_in))]
fn read_whole(version: Version, bytes: &[u8]) -> Result<Fact, Refusal>
    ensures { result ≡ answer_of (fact_in version bytes.now) }
{
    let mut reader = Reader::new(bytes);
    match read_fact(version, &mut reader) {
        Err(fault) => Err(fault.refusal(bytes.len())),
        Ok(_) if reader.left() > 0 => Err(reader.fault().refusal(bytes.len())),
        Ok(fact) => Ok(fact),
    }
}

/// The fact that all these bytes spell in a version. Other bytes are `Malformed` at the first byte of the first field
/// that is cut short or holds no lawful value, or at the first byte behind the fact.
pub fn decode_fact(version: Version, bytes: &[u8]) -> Result<Fact, Refusal>
    // What is read is spelled so.
    ensures found { IfOk result (λ f. IsLawfulFactIn version f × (bytes.now ≡ fact_bytes f)) }
    // What is spelled so is read.
    ensures only { (f : Fact) → IsLawfulFactIn version f → bytes.now ≡ fact_bytes f → result ≡ Ok f }
    // Which answer it is.
    ensures exact { result ≡ answer_of (fact_in version bytes.now) }
{
    read_whole(version, bytes)
}
