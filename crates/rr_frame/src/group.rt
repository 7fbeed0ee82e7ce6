//! Groups as bytes.

ghost use Rattle.std.specs.Prelude.{◌≡◌, ◌++◌, length, OnOk, IfOk, IfErr, Ok, Err};
ghost use Rattle.std.specs.List.{flat_map, AllByRecursion};
ghost use Rattle.rr_types.specs.Groups.{Grouped};
ghost use Rattle.rr_frame.specs.Reading.{Reads, Decodes};
ghost use Rattle.rr_frame.specs.FactFormat.{fact_bytes, IsLawfulFact};
ghost use Rattle.rr_frame.specs.GroupFormat.{group_bytes, IsLawfulGroup, IsLawfulGroupIn, facts_at, group_at, group_in};

use crate::fact::{put_fact, read_fact};
use crate::number::{put_u16, put_u64};
use crate::reader::Reader;
use crate::stop::Stop;
use crate::version::Version;
use rr_types::{Command, Fact, GROUP, Group, Op, Refusal, made_of};
use std::alloc::{AllocError, Global};

// The bytes in front of a group's facts: its serial and their number.
const FRONT: usize = 8 + 2;

// The most bytes of a fact: kind, instance, round, stamp, and a command whose name and value have 64 bytes each.
const LARGEST_FACT: usize = 1 + 4 + 4 + 4 + (4 + 8 + 1 + 65 + 65);

fn read_facts(
    alloc: Global,
    version: Version,
    count: u16,
    reader: &mut Reader<'_>,
) -> Result<Vec<Fact>, Stop>
    ensures read { Reads (λ v. v.items) result reader.new (facts_at version count reader.old) }
    ensures count { IfOk result (λ v. length v.items ≡ count) }
{
    made_of!(Command, Op);
    let mut facts = Vec::with_capacity(alloc, usize::from(count))?;
    for _ in 0..count {
        let fact = read_fact(version, reader)?;
        facts.push(fact)?;
    }
    Ok(facts)
}

/// Reads a group of a version. A fault is the first field that is cut short or holds no lawful value.
#[tactic(auto, unfolding(crate::specs::GroupFormat::group_at))]
pub fn read_group(alloc: Global, version: Version, reader: &mut Reader<'_>) -> Result<Group, Stop>
    ensures { Reads (λ g. g) result reader.new (group_at version reader.old) }
{
    let serial = reader.u64()?;
    let here = reader.fault();
    let count = reader.u16()?;
    if count == 0 || usize::from(count) > GROUP || serial > u64::MAX - u64::from(count) {
        return Err(Stop::Malformed(here));
    }
    let facts = read_facts(alloc, version, count, reader)?;
    match Group::new(serial, facts) {
        Ok(group) => Ok(group),
        Err(_) => Err(Stop::Malformed(here)),
    }
}

fn put_facts(out: &mut Vec<u8>, facts: &[Fact]) -> Result<(), AllocError>
    ensures ok { OnOk result (out.new.items ≡ out.old.items ++ flat_map fact_bytes facts.now) }
    ensures lawful { OnOk result (AllByRecursion IsLawfulFact facts.now) }
{
    for fact in facts {
        put_fact(out, fact)?;
    }
    Ok(())
}

#[tactic(auto, unfolding(crate::specs::GroupFormat::group_bytes))]
fn put_group(out: &mut Vec<u8>, group: &Group) -> Result<(), AllocError>
    ensures ok { OnOk result (out.new.items ≡ out.old.items ++ group_bytes group.now) }
    ensures lawful { OnOk result (IsLawfulGroup group.now) }
{
    let facts = group.facts();
    put_u64(out, group.serial())?;
    put_u16(out, facts.len() as u16)?;
    put_facts(out, facts)?;
    Ok(())
}

/// The one spelling of a group, in version 2.
pub fn encode_group(alloc: Global, group: &Group) -> Result<Vec<u8>, Refusal>
    ensures ok { IfOk result (λ v. v.items ≡ group_bytes group.now) }
    ensures lawful { OnOk result (IsLawfulGroup group.now) }
    ensures err { IfErr result (λ e. e ≡ Refusal.OutOfMemory) }
{
    // room for all of it, so that it doesn't move while it grows
    let mut out = Vec::with_capacity(alloc, FRONT + LARGEST_FACT * group.facts().len())?;
    put_group(&mut out, group)?;
    Ok(out)
}

#[tactic(auto, unfolding(crate::specs::GroupFormat::group_in))]
fn read_whole(alloc: Global, version: Version, bytes: &[u8]) -> Result<Group, Refusal>
    ensures { Decodes result (group_in version bytes.now) }
{
    let mut reader = Reader::new(bytes);
    match read_group(alloc, version, &mut reader) {
        Err(stop) => Err(stop.refusal(bytes.len())),
        Ok(_) if reader.left() > 0 => Err(reader.fault().refusal(bytes.len())),
        Ok(group) => Ok(group),
    }
}

/// The group that all these bytes spell in a version. Other bytes are `Malformed` at the first byte of the first field
/// that is cut short or holds no lawful value, or at the first byte behind the group.
pub fn decode_group(alloc: Global, version: Version, bytes: &[u8]) -> Result<Group, Refusal>
    // What is read is spelled so.
    ensures found { IfOk result (λ g. IsLawfulGroupIn version g × (bytes.now ≡ group_bytes g)) }
    // What is spelled so is read, unless memory runs out.
    ensures only { (g : Grouped) → IsLawfulGroupIn version g → bytes.now ≡ group_bytes g → Decodes result (Ok g) }
    // Which answer it is, unless memory runs out.
    ensures exact { Decodes result (group_in version bytes.now) }
{
    read_whole(alloc, version, bytes)
}
