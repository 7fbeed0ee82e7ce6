//! With what a node begins anew whose disk is lost: the decisions of the others, up to so far that it can have had no fact above.

ghost use Rattle.std.specs.Prelude.{◌≡◌, ◌+◌, ◌≤◌, ◌<◌, ◌^◌, ◌++◌, [], true, None, List, ℕ, length, IfOk, IfSome, OnOk};
ghost use Rattle.rr_types.specs.Limits.{open_count};
ghost use Rattle.rr_types.specs.declared.command.Command.{Command as Decided};
ghost use Rattle.rr_types.specs.declared.fact.Fact.{Fact as Stated};
ghost use Rattle.rr_types.specs.Promises.{all_fit};
ghost use Rattle.rr_disk.specs.Crash.{Images, restarted};
ghost use Rattle.rr_journal.specs.Held.{Holds};
ghost use Rattle.rr_journal.specs.Journals.{IsOver, once_flushed};
ghost use Rattle.rr_journal.specs.Moments.{IsAt, body_due, group_safe};
ghost use Rattle.rr_journal.specs.OpeningTable.{contents};
ghost use Rattle.rr_model.specs.LostDisks.{decisions_from, decisions_of};
ghost use Rattle.rr_model.specs.RenewedDisks.{Turn, Renewed, AreTurns, IsIdle, MayTurn, lives_then};
ghost use Rattle.rr_folders.specs.declared.verify_folder.Reading.{Reading as Folded};
ghost use Rattle.rr_folders.specs.Agreement.{longest_decided};
ghost use Rattle.rr_folders.specs.Renewal.{end_in, end_of, AreDisksOf, AreDisksOfSome, GoesBehind, HoldsNow};

use crate::decided::{entries_of, longest_decided};
use crate::verify_folder::{Folder, Reading};
use rr_disk::Disk;
use rr_journal::{Body, Job, Journal, Synced};
use rr_types::{
    Command, Fact, Group, Instance, Kept, NodeId, Nodes, OPEN_INSTANCES, Op, Refusal, made_of,
};
use std::alloc::{AllocError, Global};
use std::marker::Model;

/// The most facts of a group.
const GROUP: usize = 64;

/// A law on the folders of the others, where the disk of node P is lost. A majority of them was read while P was down, and they were read again
/// later, with nothing of P between. If the longest decided list of the later ones is longer by eight than all that the first kept facts of, then
/// P's disk may be made anew with that list.
pub fn renewed_folders()
    ensures may_be_made_anew { (n p : ℕ) (before after : List Turn) (first later : List Folded) → AreTurns n (before ++ after)
        → ((lives_then n before).life p).state ≡ None → IsIdle p after
        → AreDisksOfSome n (lives_then n before) first → AreDisksOf (lives_then n (before ++ after)) later
        → end_of first + open_count ≤ length (longest_decided later)
        → MayTurn n (lives_then n (before ++ after)) (Renewed p (longest_decided later)) }
{}

// From which instance on entries say nothing.
fn end_in(entries: &[Kept]) -> u64
    ensures end { result ≡ end_in entries.now }
    ensures few { result ≤ 1048576 }
{
    let mut end = 0u64;
    for entry in entries {
        end = end.max(u64::from(entry.instance.number()) + 1);
    }
    end
}

// From which instance on none of these folders keeps a fact.
fn end_of(readings: &[Reading]) -> u64
    ensures end { result ≡ end_of readings.now }
    ensures few { result ≤ 1048576 }
{
    let mut end = 0u64;
    for reading in readings {
        end = end.max(end_in(entries_of(reading)));
    }
    end
}

/// How many instances have to be decided before a node begins anew whose disk is lost: what it can have had a fact of, by the folders of a
/// majority. Only `Bound::of` gives this.
#[derive(Clone, Copy, Debug)]
pub struct Bound {
    least: u64,
}

/// The list with which a lost node begins anew. Only `Bound::renewal` gives this.
#[derive(Drop)]
pub struct Renewal {
    commands: Vec<Command>,
}

impl Model for Renewal {
    ghost use Rattle.std.specs.Prelude.{List};
    ghost use Rattle.rr_types.specs.declared.command.Command.{Command};

    ghost Value = { List Command };

    ghost view = { λ r. r.commands.items };
}

impl Bound {
    /// By what was read of the folders of a majority without that node, each of which holds facts: up to the eighth instance above the highest
    /// of which one of them keeps a fact.
    pub fn of(readings: &[Reading]) -> Bound
        ensures { result.least ≡ end_of readings.now + open_count }
    {
        Bound {
            least: end_of(readings) + OPEN_INSTANCES as u64,
        }
    }

    /// How many instances have to be decided.
    pub fn least(&self) -> u64
        ensures { result ≡ self.now.least }
    {
        self.least
    }

    /// The longest decided list of folders, with which the node may begin anew. None: it is too short.
    ///
    /// # Errors
    /// Memory alone.
    pub fn renewal(
        &self,
        alloc: Global,
        readings: &[Reading],
    ) -> Result<Option<Renewal>, AllocError>
        ensures list { IfOk result (λ r. IfSome r (λ commands. commands ≡ longest_decided readings.now)) }
        ensures long { IfOk result (λ r. IfSome r (λ commands. self.now.least ≤ length commands)) }
        ensures short { IfOk result (λ r. r ≡ None → length (longest_decided readings.now) < self.now.least) }
    {
        let commands = longest_decided(alloc, readings)?;
        if (commands.len() as u64) < self.least {
            Ok(None)
        } else {
            Ok(Some(Renewal { commands }))
        }
    }
}

impl Renewal {
    /// How many commands it has.
    pub fn count(&self) -> u64
        ensures { result ≡ length self.now }
    {
        self.commands.len() as u64
    }

    /// Its commands.
    pub(crate) fn commands(&self) -> &[Command]
        ensures { result.now ≡ self.now }
    {
        self.commands.as_slice()
    }
}

/// Whether a folder has decided just the commands of a list.
pub(crate) fn is_decided(folder: &Folder, renewal: &Renewal) -> bool {
    let entries = folder.promise.entries();
    let commands = renewal.commands();
    entries.len() == commands.len()
        && entries.iter().zip(commands.iter()).all(|(entry, command)| match entry.decision() {
            Some(decided) => decided.is_same(command),
            None => false,
        })
}

// The decisions of these commands, for instances from this number on.
fn decisions(alloc: Global, first: u64, commands: &[Command]) -> Result<Vec<Fact>, Refusal>
    ensures { IfOk result (λ v. v.items ≡ decisions_from first commands.now) }
{
    made_of!(Command, Op);
    let mut facts = Vec::new(alloc);
    let mut number = first;
    for command in commands {
        let Some(instance) = instance_at(number) else {
            return Err(Refusal::TooLarge);
        };
        facts.push(Fact::Decide(instance, *command))?;
        number += 1;
    }
    Ok(facts)
}

// The instance of this number.
fn instance_at(number: u64) -> Option<Instance>
    ensures { IfSome result (λ i. i ≡ number) }
{
    let number = u32::try_from(number).ok()?;
    Instance::new(number)
}

// Makes the four device calls of a flush.
fn flush<D: Disk>(journal: &mut Journal<D>, job: Job<Body>) -> Result<Synced, Refusal>
    ensures done { OnOk result (journal.new ≡ record (once_flushed job journal.old) { disk = journal.new.disk }) }
    ensures tells { D.tells journal.old.disk → D.tells journal.new.disk }
    ensures table { D.tells journal.old.disk → (start : Images) (facts : List Stated)
        → IsAt body_due (Holds job.nodes job.node) job start facts (D.areas journal.old.disk)
        → OnOk result (D.areas journal.new.disk ≡ group_safe job start) }
{
    let out = job.step(journal)?;
    let safe = out.step(journal)?;
    let set = safe.step(journal)?;
    set.step(journal)
}

// Flushes a group.
fn carry<D: Disk>(alloc: Global, journal: &mut Journal<D>, group: Group) -> Result<(), Refusal>
    ensures goes_on { OnOk result ((journal.new.nodes ≡ journal.old.nodes) × (journal.new.node ≡ journal.old.node) × (journal.new.next ≡ group.serial + length group.facts)) }
    ensures tells { D.tells journal.old.disk → D.tells journal.new.disk }
    ensures table { D.tells journal.old.disk → (start : Images) (facts : List Stated) → D.areas journal.old.disk ≡ restarted start → IsOver journal.old start facts
        → all_fit journal.old.nodes journal.old.node [] (facts ++ group.facts) ≡ true → group.serial ≡ length facts
        → OnOk result (HoldsNow D.areas journal.new (facts ++ group.facts)) }
{
    match journal.begin(alloc, group) {
        Err((refusal, _)) => Err(refusal),
        Ok(job) => match flush(journal, job) {
            Ok(_) => Ok(()),
            Err(refusal) => Err(refusal),
        },
    }
}

// Appends the decisions of these commands, for instances from the number of the next fact on.
fn append<D: Disk>(
    alloc: Global,
    journal: &mut Journal<D>,
    commands: &[Command],
) -> Result<(), Refusal>
    ensures goes_on { OnOk result (GoesBehind journal.old journal.new (length commands.now)) }
    ensures tells { D.tells journal.old.disk → D.tells journal.new.disk }
    ensures table { D.tells journal.old.disk → (facts : List Stated) → HoldsNow D.areas journal.old facts → length facts ≡ journal.old.next
        → all_fit journal.old.nodes journal.old.node [] (facts ++ decisions_from journal.old.next commands.now) ≡ true
        → OnOk result (HoldsNow D.areas journal.new (facts ++ decisions_from journal.old.next commands.now)) }
{
    let serial = journal.facts();
    let facts = decisions(alloc, serial, commands)?;
    match Group::new(serial, facts) {
        Ok(group) => carry(alloc, journal, group),
        Err(_) => Err(Refusal::TooLarge),
    }
}

// Appends the decisions of all these commands, a group after another.
fn append_all<D: Disk>(
    alloc: Global,
    journal: &mut Journal<D>,
    commands: &[Command],
) -> Result<(), Refusal>
    ensures own { OnOk result ((journal.new.nodes ≡ journal.old.nodes) × (journal.new.node ≡ journal.old.node)) }
    ensures tells { D.tells journal.old.disk → D.tells journal.new.disk }
    ensures table { D.tells journal.old.disk → HoldsNow D.areas journal.old [] → journal.old.next ≡ 0
        → OnOk result (HoldsNow D.areas journal.new (decisions_of commands.now)) }
{
    let mut rest = commands;
    while !rest.is_empty() {
        let (now, more) = rest.split_at(rest.len().min(GROUP));
        append(alloc, journal, now)?;
        rest = more;
    }
    Ok(())
}

/// Writes the decisions of a list to a disk that isn't formatted, that of this node. Then each image that a crash may leave of it holds just
/// these decisions, as the facts of the node.
///
/// # Errors
/// Those of an opening and of a flush: `OutOfMemory`, `Device`, `Damaged`, of a disk that holds no facts, and `TooLarge`.
pub fn write_renewal<D: Disk + Drop>(
    alloc: Global,
    nodes: Nodes,
    node: NodeId,
    disk: D,
    renewal: &Renewal,
) -> Result<D, Refusal>
    requires exists { node < nodes }
    ensures holds { D.tells disk → length (D.areas disk).first.cells < 2 ^ 64 → length (D.areas disk).second.cells < 2 ^ 64
        → Holds nodes node (contents (D.areas disk)) []
        → IfOk result (λ d. (images : Images) × (D.areas d ≡ restarted images) × Holds nodes node images (decisions_of renewal.now)) }
{
    let mut journal = match Journal::open(alloc, nodes, node, disk) {
        Ok((journal, _)) => journal,
        Err((refusal, _)) => return Err(refusal),
    };
    append_all(alloc, &mut journal, renewal.commands())?;
    Ok(journal.into_disk())
}
