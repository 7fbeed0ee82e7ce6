//! The row of an instance.

ghost use Rattle.std.specs.Prelude.{◌≡◌, ◌-◌, ◌<◌, ◌≤◌, ◌^◌, true, None, Some, MatchOption, IfOk, IsOk, IsTrue, OnOk, OnErr};
ghost use Rattle.rr_types.specs.declared.promise.Standing.TheVariants as stands;
ghost use Rattle.rr_types.specs.Facts.{instance_of, after_fact};
ghost use Rattle.rr_types.specs.Standings.{round_of, IsInRound};
ghost use Rattle.rr_types.specs.Nodes.{with_member};
ghost use Rattle.rr_types.specs.Limits.{last_round};
ghost use Rattle.rr_model.specs.NodeState.{is_decided, decided_command};
ghost use Rattle.rr_model.specs.NodeState as model;
ghost use Rattle.rr_model.specs.NodeParts.{backing_after, row_after, fresh_row};
ghost use Rattle.rr_model.specs.NodeStep.{promised_row, with_vote};
ghost use Rattle.rr_state.specs.Rows.{is_short, is_decide};

use crate::backing::{Backing, ShortBacking};
use crate::tally::Tally;
use rr_types::{
    Command, Estimate, Fact, Instance, Kept, NodeId, Op, OpenStanding, Standing, made_of,
};
use std::alloc::{AllocError, Global};
use std::marker::Model;

/// A decided instance without answers: its command and its facts' numbers.
#[derive(Debug, Drop)]
struct ShortRow {
    command: Command,
    backing: ShortBacking,
}

/// All that a row says of its instance.
#[derive(Debug, Drop)]
struct FullRow {
    standing: Standing,
    backing: Backing,
    tally: Tally,
}

/// How a row is kept. Nearly all rows of a node have decided, and a short one takes half the room.
#[derive(Debug, Drop)]
enum Form {
    Short(ShortRow),
    Full(Box<FullRow>),
}

/// An instance that the facts name: where it stands, what backs it, what was heard of its round. An open one has its parts
/// in a box.
#[derive(Debug, Drop)]
pub struct Row {
    pub instance: Instance,
    form: Form,
}

impl Model for Row {
    ghost use Rattle.rr_model.specs.NodeState as model;
    ghost use Rattle.rr_state.specs.Rows.{row_in};

    ghost Value = { model.Row };

    ghost view = { λ r. row_in r.instance r.form };
}

/// The number of the last fact below this end; 0 where there is none.
fn last_below(end: u64) -> u128
    ensures { result ≡ end - 1 }
{
    if end == 0 { 0 } else { (end - 1) as u128 }
}

impl Row {
    /// The row that says all this of an instance, in a box.
    fn full(alloc: Global, instance: Instance, parts: FullRow) -> Result<Row, AllocError>
        ensures ok { IfOk result (λ r. r ≡ record { instance = instance; standing = parts.standing; backing = parts.backing; tally = parts.tally }) }
    {
        let parts = Box::new(alloc, parts)?;
        Ok(Row {
            instance,
            form: Form::Full(parts),
        })
    }

    /// The row of an instance that has decided. It needs memory only for a fact number of 2^32 or more.
    fn decided(
        alloc: Global,
        instance: Instance,
        command: &Command,
        backing: Backing,
    ) -> Result<Row, AllocError>
        ensures ok { IfOk result (λ r. r ≡ record { instance = instance; standing = stands.Decided command.now; backing = backing; tally = model.no_votes }) }
        ensures short { IsTrue (is_short backing) → IsOk result }
    {
        match ShortBacking::of(&backing) {
            Some(backing) => Ok(Row {
                instance,
                form: Form::Short(ShortRow {
                    command: *command,
                    backing,
                }),
            }),
            None => {
                let parts = FullRow {
                    standing: Standing::Decided(*command),
                    backing,
                    tally: Tally::new(alloc),
                };
                Row::full(alloc, instance, parts)
            }
        }
    }

    /// The same as `first`, in a box.
    fn first_in_box(alloc: Global, number: u128, fact: &Fact) -> Result<Option<Row>, AllocError>
        ensures ok { IfOk result (λ row. MatchOption row (after_fact None fact.now ≡ None) (λ r. (after_fact None fact.now ≡ Some r.standing) × (r ≡ row_after number fact.now r.standing (fresh_row (instance_of fact.now) r.standing)))) }
    {
        match Standing::first(fact) {
            Some(standing) => {
                let parts = FullRow {
                    standing,
                    backing: Backing::none().after(number, fact),
                    tally: Tally::new(alloc),
                };
                let row = Row::full(alloc, fact.instance(), parts)?;
                Ok(Some(row))
            }
            None => Ok(None),
        }
    }

    /// The row of an instance after the first fact about it, which has this number; `None` where that names no standing.
    /// A Decide needs memory only from number 2^32 on.
    pub fn first(alloc: Global, number: u128, fact: &Fact) -> Result<Option<Row>, AllocError>
        ensures ok { IfOk result (λ row. MatchOption row (after_fact None fact.now ≡ None) (λ r. (after_fact None fact.now ≡ Some r.standing) × (r ≡ row_after number fact.now r.standing (fresh_row (instance_of fact.now) r.standing)))) }
        ensures short { IsTrue (is_decide fact.now) → number < 2 ^ 32 → IsOk result }
    {
        match fact {
            Fact::Decide(instance, command) => {
                let backing = Backing::none().after(number, fact);
                let row = Row::decided(alloc, *instance, command, backing)?;
                Ok(Some(row))
            }
            Fact::Enter(..) | Fact::Propose(..) | Fact::Adopt(..) => {
                Row::first_in_box(alloc, number, fact)
            }
        }
    }

    /// The row of an instance that a promise names: all its facts lie below this number. A decided one needs memory only
    /// above 2^32.
    pub fn promised(alloc: Global, next: u64, entry: &Kept) -> Result<Row, AllocError>
        ensures ok { IfOk result (λ r. r ≡ promised_row next entry.now) }
        ensures short { is_decided (promised_row next entry.now) ≡ true → next ≤ 2 ^ 32 → IsOk result }
    {
        let last = last_below(next);
        let backing = Backing {
            entered: last,
            proposed: last,
            adopted: last,
            decided: last,
        };
        match entry.decision() {
            Some(command) => Row::decided(alloc, entry.instance, command, backing),
            None => {
                let parts = FullRow {
                    standing: entry.standing(),
                    backing,
                    tally: Tally::new(alloc),
                };
                Row::full(alloc, entry.instance, parts)
            }
        }
    }

    /// Where the instance stands.
    pub fn standing(&self) -> Standing
        ensures { result ≡ self.now.standing }
    {
        match &self.form {
            Form::Short(parts) => Standing::Decided(parts.command),
            Form::Full(parts) => parts.standing,
        }
    }

    /// The command that the instance has decided, lent.
    pub fn decided_command(&self) -> Option<&Command>
        ensures { MatchOption result (decided_command self.now ≡ None) (λ v. decided_command self.now ≡ Some v.now) }
    {
        match &self.form {
            Form::Short(parts) => Some(&parts.command),
            Form::Full(parts) => match &parts.standing {
                Standing::Decided(command) => Some(command),
                Standing::Open(_) => None,
            },
        }
    }

    /// Where the instance stands while it hasn't decided, and what was heard of its round, lent.
    pub fn open(&self) -> Option<(&OpenStanding, &Tally)>
        ensures { MatchOption result (is_decided self.now ≡ true) (λ o. (self.now.standing ≡ stands.Open o.0.now) × (self.now.tally ≡ o.1.now)) }
    {
        match &self.form {
            Form::Short(_) => None,
            Form::Full(parts) => match &parts.standing {
                Standing::Decided(_) => None,
                Standing::Open(at) => Some((at, &parts.tally)),
            },
        }
    }

    /// The numbers of the facts that back the instance's messages.
    pub fn backing(&self) -> Backing
        ensures { result ≡ self.now.backing }
    {
        match &self.form {
            Form::Short(parts) => parts.backing.numbers(),
            Form::Full(parts) => parts.backing,
        }
    }

    /// A copy of what was heard.
    fn copied_tally(&self, alloc: Global) -> Result<Tally, AllocError>
        ensures ok { IfOk result (λ t. t ≡ self.now.tally) }
    {
        match &self.form {
            Form::Short(_) => Ok(Tally::new(alloc)),
            Form::Full(parts) => parts.tally.try_clone(alloc),
        }
    }

    /// A copy of where the row stands and what backs it in a box, with this of what was heard.
    fn parts(&self, alloc: Global, tally: Tally) -> Result<Box<FullRow>, AllocError>
        ensures ok { IfOk result (λ parts. (parts.value.standing ≡ self.now.standing) × (parts.value.backing ≡ self.now.backing) × (parts.value.tally ≡ tally)) }
    {
        made_of!(Command, Op);
        match &self.form {
            Form::Short(parts) => {
                let parts = FullRow {
                    standing: Standing::Decided(parts.command),
                    backing: parts.backing.numbers(),
                    tally,
                };
                let parts = Box::new(alloc, parts)?;
                Ok(parts)
            }
            Form::Full(parts) => {
                let parts = FullRow {
                    standing: parts.standing,
                    backing: parts.backing,
                    tally,
                };
                let parts = Box::new(alloc, parts)?;
                Ok(parts)
            }
        }
    }

    /// The row of an instance with these parts.
    fn of(instance: Instance, parts: Box<FullRow>) -> Row
        ensures { result ≡ record { instance = instance; standing = parts.value.standing; backing = parts.value.backing; tally = parts.value.tally } }
    {
        Row {
            instance,
            form: Form::Full(parts),
        }
    }

    /// The row with an estimate kept; the first of a sender is kept.
    pub fn with_estimate(
        &self,
        alloc: Global,
        sender: NodeId,
        estimate: &Estimate,
    ) -> Result<Row, AllocError>
        ensures ok { IfOk result (λ r. r ≡ record self.now { tally = record self.now.tally { estimates = with_vote (record { sender = sender; stamp = estimate.now.stamp; command = estimate.now.command }) self.now.tally.estimates } }) }
    {
        let tally = self.copied_tally(alloc)?;
        let mut parts = self.parts(alloc, tally)?;
        parts.tally.keep_estimate(sender, estimate)?;
        Ok(Row::of(self.instance, parts))
    }

    /// The row with an acknowledgement kept.
    pub fn with_ack(&self, alloc: Global, sender: NodeId) -> Result<Row, AllocError>
        ensures ok { IfOk result (λ r. r ≡ record self.now { tally = record self.now.tally { acks = with_member self.now.tally.acks sender } }) }
    {
        let tally = self.copied_tally(alloc)?;
        let mut parts = self.parts(alloc, tally)?;
        parts.tally.keep_ack(sender);
        Ok(Row::of(self.instance, parts))
    }

    /// The row with a refusal kept.
    pub fn with_nack(&self, alloc: Global, sender: NodeId) -> Result<Row, AllocError>
        ensures ok { IfOk result (λ r. r ≡ record self.now { tally = record self.now.tally { nacks = with_member self.now.tally.nacks sender } }) }
    {
        let tally = self.copied_tally(alloc)?;
        let mut parts = self.parts(alloc, tally)?;
        parts.tally.keep_nack(sender);
        Ok(Row::of(self.instance, parts))
    }

    /// Whether the instance has decided.
    pub fn is_decided(&self) -> bool
        ensures { result ≡ is_decided self.now }
    {
        match &self.form {
            Form::Short(_) => true,
            Form::Full(parts) => matches!(&parts.standing, Standing::Decided(_)),
        }
    }

    /// The present round; 0 where the instance has decided.
    pub fn round(&self) -> u32
        ensures value { result ≡ round_of (Some self.now.standing) }
        ensures range { result ≤ last_round }
    {
        match &self.form {
            Form::Short(_) => 0,
            Form::Full(parts) => parts.standing.round(),
        }
    }

    /// The same as `after`, in a box. A tally that the fact drops isn't copied.
    fn after_in_box(&self, alloc: Global, number: u128, fact: &Fact) -> Result<Row, AllocError>
        requires { IsInRound (Some self.now.standing) fact.now }
        ensures ok { IfOk result (λ r. (after_fact (Some self.now.standing) fact.now ≡ Some r.standing) × (r ≡ row_after number fact.now r.standing self.now)) }
    {
        let tally = match fact {
            // The answers to a round don't count in the next one, and a decided instance needs none.
            Fact::Enter(..) | Fact::Decide(..) => Tally::new(alloc),
            Fact::Propose(..) | Fact::Adopt(..) => self.copied_tally(alloc)?,
        };
        let mut parts = self.parts(alloc, tally)?;
        parts.standing.take_on(fact);
        parts.backing = parts.backing.after(number, fact);
        Ok(Row::of(self.instance, parts))
    }

    /// The row after a fact about its instance, which has this number. A Decide needs memory only where a number is 2^32 or
    /// more.
    pub fn after(&self, alloc: Global, number: u128, fact: &Fact) -> Result<Row, AllocError>
        requires { IsInRound (Some self.now.standing) fact.now }
        ensures ok { IfOk result (λ r. (after_fact (Some self.now.standing) fact.now ≡ Some r.standing) × (r ≡ row_after number fact.now r.standing self.now)) }
        ensures short { IsTrue (is_decide fact.now) → IsTrue (is_short (backing_after number fact.now self.now.backing)) → IsOk result }
    {
        match fact {
            Fact::Decide(_, command) => {
                let backing = self.backing().after(number, fact);
                Row::decided(alloc, self.instance, command, backing)
            }
            Fact::Enter(..) | Fact::Propose(..) | Fact::Adopt(..) => {
                self.after_in_box(alloc, number, fact)
            }
        }
    }

    /// The row takes a fact about its instance on, which has this number. It is as `after` says; where memory is refused it
    /// is as it was.
    pub fn take_on(&mut self, alloc: Global, number: u128, fact: &Fact) -> Result<(), AllocError>
        requires { IsInRound (Some self.old.standing) fact.now }
        ensures ok { OnOk result ((after_fact (Some self.old.standing) fact.now ≡ Some self.new.standing) × (self.new ≡ row_after number fact.now self.new.standing self.old)) }
        ensures err { OnErr result (self.new ≡ self.old) }
    {
        match fact {
            Fact::Propose(..) | Fact::Adopt(..) => {
                if let Form::Full(parts) = &mut self.form {
                    parts.standing.take_on(fact);
                    parts.backing = parts.backing.after(number, fact);
                    return Ok(());
                }
            }
            Fact::Enter(..) | Fact::Decide(..) => (),
        }
        *self = self.after(alloc, number, fact)?;
        Ok(())
    }
}
