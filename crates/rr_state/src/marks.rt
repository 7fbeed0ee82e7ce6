//! The promise of the marked facts, and its decided prefix.

ghost use Rattle.std.specs.Prelude.{◌≡◌, ◌<◌, ◌≤◌, ◌++◌, ℕ, [], Some, None, length, slice_get, option_map, true, false, is_some, IsTrue, IfSome, IfOk, OnOk, MatchOption};
ghost use Rattle.std.specs.List.{All};
ghost use Rattle.rr_types.specs.declared.promise.Standing.TheVariants as stands;
ghost use Rattle.rr_types.specs.Facts.{instance_of, decision_of, after_fact};
ghost use Rattle.rr_types.specs.Promises.{standing_in, set_entry, take_on, take_on_all, IsAscending, decided_from};
ghost use Rattle.rr_types.specs.Standings.{IsInRound};
ghost use Rattle.rr_types.specs.Limits.{instance_count};
ghost use Rattle.rr_state.specs.Listed.{KeepsPromised, AllInRound};
ghost use Rattle.rr_state.specs.Marked.{marked_in, tree_in, decided_entries, has_mark_place, AreMarks, HaveMoved, IsNext, IsBegun, IsCounted, HaveMarkPlaces, facts_from, decision_after, decided_by};

use crate::row::Row;
use crate::rows::Rows;
use rr_registry::{insert, make_place, value_of};
use rr_types::{Command, Entry, Fact, INSTANCES, Instance, Kept, Op, Standing, made_of};
use std::alloc::{AllocError, Global};
use std::collections::BTreeMap;

/// Where each instance stands by the marked facts, and how many commands the decided prefix has. The first so many instances of
/// the prefix have moved: they have decided by their rows, which have the commands. Only other instances have places for
/// an entry, in a tree.
#[derive(Drop)]
pub(crate) struct Marks {
    moved: u32,
    entries: BTreeMap<u32, Option<Entry>>,
    prefix: u32,
}

impl Marks {
    /// Nothing is marked.
    pub(crate) fn new(alloc: Global) -> Marks
        ensures moved { result.moved ≡ 0 }
        ensures value { tree_in result ≡ [] }
        ensures marks { AreMarks result }
        ensures prefix { result.prefix ≡ 0 }
    {
        Marks {
            moved: 0,
            entries: BTreeMap::new(alloc),
            prefix: 0,
        }
    }

    /// The command of the instance with this number, if it has moved.
    fn moved<'a>(&self, rows: &'a Rows, number: u32) -> Option<&'a Command>
        requires { HaveMoved rows.now self.now }
        ensures { MatchOption result (self.now.moved ≤ number) (λ v. standing_in (marked_in rows.now self.now) number ≡ Some (stands.Decided v.now)) }
    {
        if number >= self.moved {
            return None;
        }
        match rows.decided_command(number) {
            Some(command) => Some(command),
            None => None,
        }
    }

    /// The entry that an instance has in the tree.
    fn entry(&self, number: u32) -> Option<&Entry>
        requires { AreMarks self.now }
        ensures { MatchOption result (standing_in (tree_in self.now) number ≡ None) (λ e. standing_in (tree_in self.now) number ≡ Some e.now.standing) }
    {
        made_of!(Command, Op, Standing);
        match value_of(&self.entries, &number) {
            Some(entry) => Some(entry),
            None => None,
        }
    }

    /// Makes a place for an instance.
    pub(crate) fn make_place(&mut self, instance: Instance) -> Result<(), AllocError>
        ensures value { tree_in self.new ≡ tree_in self.old }
        ensures marks { AreMarks self.old → AreMarks self.new }
        ensures moved { self.new.moved ≡ self.old.moved }
        ensures prefix { self.new.prefix ≡ self.old.prefix }
        ensures made { OnOk result (IsTrue (has_mark_place self.new instance)) }
        ensures stay { (i : ℕ) → IsTrue (has_mark_place self.old i) → IsTrue (has_mark_place self.new i) }
    {
        made_of!(Command, Op, Standing);
        let number = instance.number();
        if number >= self.moved && !self.entries.contains_key(&number) {
            make_place(&mut self.entries, number)?;
        }
        Ok(())
    }

    /// The same for the instance of each of these rows.
    pub(crate) fn make_places(&mut self, rows: &[Row]) -> Result<(), AllocError>
        ensures value { tree_in self.new ≡ tree_in self.old }
        ensures marks { AreMarks self.old → AreMarks self.new }
        ensures moved { self.new.moved ≡ self.old.moved }
        ensures prefix { self.new.prefix ≡ self.old.prefix }
        ensures made { OnOk result (All (λ r. IsTrue (has_mark_place self.new r.instance)) rows.now) }
        ensures stay { (i : ℕ) → IsTrue (has_mark_place self.old i) → IsTrue (has_mark_place self.new i) }
    {
        for row in rows {
            self.make_place(row.instance)?;
        }
        Ok(())
    }

    /// Sets where an instance of the tree stands, and makes a place for it where it has none.
    fn insert(&mut self, entry: &Kept) -> Result<(), AllocError>
        requires marks { AreMarks self.old }
        requires behind { self.old.moved ≤ entry.now.instance }
        ensures value { OnOk result (tree_in self.new ≡ set_entry entry.now.instance entry.now.standing (tree_in self.old)) }
        ensures marks { AreMarks self.new }
        ensures moved { self.new.moved ≡ self.old.moved }
        ensures prefix { self.new.prefix ≡ self.old.prefix }
        ensures made { OnOk result (IsTrue (has_mark_place self.new entry.now.instance)) }
        ensures stay { (i : ℕ) → IsTrue (has_mark_place self.old i) → IsTrue (has_mark_place self.new i) }
    {
        made_of!(Command, Op, Standing);
        let instance = entry.instance;
        let standing = entry.standing();
        let value = Entry { instance, standing };
        insert(&mut self.entries, instance.number(), value)?;
        Ok(())
    }

    /// Takes a fact about an instance behind the prefix on.
    fn take_on(&mut self, fact: &Fact)
        requires marks { AreMarks self.old }
        requires behind { self.old.prefix ≤ instance_of fact.now }
        requires round { IsInRound (standing_in (tree_in self.old) (instance_of fact.now)) fact.now }
        requires place { has_mark_place self.old (instance_of fact.now) ≡ false → after_fact (standing_in (tree_in self.old) (instance_of fact.now)) fact.now ≡ None }
        ensures value { tree_in self.new ≡ take_on (tree_in self.old) fact.now }
        ensures marks { AreMarks self.new }
        ensures moved { self.new.moved ≡ self.old.moved }
        ensures prefix { self.new.prefix ≡ self.old.prefix }
        ensures places { (i : ℕ) → has_mark_place self.new i ≡ has_mark_place self.old i }
    {
        let instance = fact.instance();
        if let Some(place) = self.entries.get_mut(&instance.number()) {
            match place {
                Some(entry) => entry.standing.take_on(fact),
                None => {
                    if let Some(standing) = Standing::first(fact) {
                        *place = Some(Entry { instance, standing });
                    }
                }
            }
        }
    }

    /// Takes those of the facts on that are about instances behind the prefix, oldest first.
    #[tactic(auto, using(crate::proofs::MarkLemmas::take_on_end))]
    fn take_on_all(&mut self, facts: &[Fact])
        requires marks { AreMarks self.old }
        requires rounds { AllInRound (tree_in self.old) (facts_from self.old.prefix facts.now) }
        requires places { HaveMarkPlaces self.old (take_on_all (tree_in self.old) (facts_from self.old.prefix facts.now)) }
        ensures value { tree_in self.new ≡ take_on_all (tree_in self.old) (facts_from self.old.prefix facts.now) }
        ensures marks { AreMarks self.new }
        ensures moved { self.new.moved ≡ self.old.moved }
        ensures prefix { self.new.prefix ≡ self.old.prefix }
        ensures places { (i : ℕ) → has_mark_place self.new i ≡ has_mark_place self.old i }
    {
        for fact in facts {
            if fact.instance().number() >= self.prefix {
                self.take_on(fact);
            }
        }
    }

    /// The command that the instance with this number has decided, lent.
    fn decision<'a>(&'a self, rows: &'a Rows, number: u32) -> Option<&'a Command>
        requires marks { AreMarks self.now }
        requires moved { HaveMoved rows.now self.now }
        ensures value { option_map (λ v. v.now) result ≡ decision_of (standing_in (marked_in rows.now self.now) number) }
        ensures range { IfSome result (λ _. number < instance_count) }
    {
        match self.moved(rows, number) {
            Some(command) => Some(command),
            None => match self.entry(number) {
                Some(entry) => match &entry.standing {
                    Standing::Decided(command) => Some(command),
                    Standing::Open(_) => None,
                },
                None => None,
            },
        }
    }

    /// Whether an instance has decided by its entry in the tree.
    fn has_decided(&self, number: u32) -> bool
        requires { AreMarks self.now }
        ensures value { result ≡ is_some (decision_of (standing_in (tree_in self.now) number)) }
        ensures range { IsTrue result → number < instance_count }
    {
        match self.entry(number) {
            Some(entry) => matches!(&entry.standing, Standing::Decided(_)),
            None => false,
        }
    }

    /// The first place from the present count on that hasn't decided by the tree.
    fn prefix_end(&self) -> u32
        requires marks { AreMarks self.now }
        requires small { self.now.prefix ≤ instance_count }
        ensures decided { (i : ℕ) → self.now.prefix ≤ i → i < result → is_some (decision_of (standing_in (tree_in self.now) i)) ≡ true }
        ensures end { decision_of (standing_in (tree_in self.now) result) ≡ None }
        ensures range { (self.now.prefix ≤ result) × (result ≤ instance_count) }
    {
        for place in self.prefix..INSTANCES {
            if !self.has_decided(place) {
                return place;
            }
        }
        INSTANCES
    }

    /// The command of the first instance in the tree, if that is the next of the prefix and its row has decided the same.
    fn next_command<'a>(&'a self, rows: &Rows) -> Option<&'a Command>
        requires { AreMarks self.now }
        ensures { IfSome result (λ v. IsNext rows.now self.now v.now) }
    {
        match self.entries.first_key_value() {
            Some((number, Some(entry))) => {
                if *number != self.moved || *number >= self.prefix {
                    return None;
                }
                match (&entry.standing, rows.decided_command(*number)) {
                    (Standing::Decided(command), Some(of_row)) if command.is_same(of_row) => {
                        Some(command)
                    }
                    _ => None,
                }
            }
            Some((_, None)) => None,
            None => None,
        }
    }

    /// Takes entries of the prefix that are next in turn out of the tree, as far as their rows have decided the same. It needs
    /// no memory.
    fn close_up(&mut self, rows: &Rows)
        requires marks { AreMarks self.old }
        requires moved { HaveMoved rows.now self.old }
        ensures value { marked_in rows.now self.new ≡ marked_in rows.now self.old }
        ensures marks { AreMarks self.new }
        ensures moved { HaveMoved rows.now self.new }
        ensures prefix { self.new.prefix ≡ self.old.prefix }
        ensures places { (i : ℕ) → has_mark_place self.new i ≡ has_mark_place self.old i }
    {
        made_of!(Command, Op, Standing);
        while let Some(_command) = self.next_command(rows) {
            match self.entries.pop_first() {
                Some(_) => self.moved += 1,
                None => return,
            }
        }
    }

    /// Counts the decided prefix on from the present count. It needs no memory.
    fn count_on(&mut self, rows: &Rows)
        requires marks { AreMarks self.old }
        requires moved { HaveMoved rows.now self.old }
        requires small { self.old.prefix ≤ instance_count }
        requires begun { IsBegun rows.now self.old }
        ensures value { marked_in rows.now self.new ≡ marked_in rows.now self.old }
        ensures marks { AreMarks self.new }
        ensures moved { HaveMoved rows.now self.new }
        ensures counted { IsCounted rows.now self.new }
        ensures places { (i : ℕ) → has_mark_place self.new i ≡ has_mark_place self.old i }
    {
        self.prefix = self.prefix_end();
        self.close_up(rows);
    }

    /// Marks facts, each of whose instances has a place. It needs no memory. What an instance of the prefix has decided stays, so
    /// facts about it change nothing in the end, and are left out.
    pub(crate) fn mark(&mut self, rows: &Rows, facts: &[Fact])
        requires marks { AreMarks self.old }
        requires moved { HaveMoved rows.now self.old }
        requires counted { IsCounted rows.now self.old }
        requires rounds { AllInRound (marked_in rows.now self.old) facts.now }
        requires places { HaveMarkPlaces self.old (take_on_all (marked_in rows.now self.old) facts.now) }
        requires keeps { KeepsPromised (marked_in rows.now self.old) (take_on_all (marked_in rows.now self.old) facts.now) }
        ensures value { marked_in rows.now self.new ≡ take_on_all (marked_in rows.now self.old) facts.now }
        ensures marks { AreMarks self.new }
        ensures moved { HaveMoved rows.now self.new }
        ensures counted { IsCounted rows.now self.new }
        ensures places { (i : ℕ) → has_mark_place self.new i ≡ has_mark_place self.old i }
    {
        let is_longer = decided_by(facts, self.prefix).is_some();
        self.take_on_all(facts);
        if is_longer {
            self.count_on(rows);
        }
    }

    /// Marks the entries of a promise where nothing is marked. Where memory is refused, some are marked.
    pub(crate) fn restore(&mut self, rows: &Rows, promise: &[Kept]) -> Result<(), AllocError>
        requires marks { AreMarks self.old }
        requires moved { self.old.moved ≡ 0 }
        requires prefix { self.old.prefix ≡ 0 }
        requires empty { tree_in self.old ≡ [] }
        requires ascending { IsAscending promise.now }
        ensures value { OnOk result (marked_in rows.now self.new ≡ promise.now) }
        ensures marks { AreMarks self.new }
        ensures moved { OnOk result (HaveMoved rows.now self.new) }
        ensures counted { OnOk result (IsCounted rows.now self.new) }
        ensures made { OnOk result (All (λ e. IsTrue (has_mark_place self.new e.instance)) promise.now) }
    {
        for entry in promise {
            // An entry leaves the tree before the next one comes, so that the tree stays small.
            self.insert(entry)?;
            self.count_on(rows);
        }
        Ok(())
    }

    /// How many commands the decided prefix has.
    pub(crate) fn prefix_len(&self, rows: &Rows) -> usize
        requires { IsCounted rows.now self.now }
        ensures { result ≡ length (decided_from 0 (marked_in rows.now self.now)) }
    {
        self.prefix as usize
    }

    /// The command at a place of the decided prefix.
    pub(crate) fn command_at(&self, rows: &Rows, place: usize) -> Option<Command>
        requires marks { AreMarks self.now }
        requires moved { HaveMoved rows.now self.now }
        requires counted { IsCounted rows.now self.now }
        ensures { result ≡ slice_get (decided_from 0 (marked_in rows.now self.now)) place }
    {
        if place >= self.prefix as usize {
            return None;
        }
        match self.decision(rows, place as u32) {
            Some(command) => Some(*command),
            None => None,
        }
    }

    /// The command that the instance with this number has decided once these facts are marked, lent.
    fn decision_after<'a>(
        &'a self,
        rows: &'a Rows,
        facts: &'a [Fact],
        number: u32,
    ) -> Option<&'a Command>
        requires marks { AreMarks self.now }
        requires moved { HaveMoved rows.now self.now }
        requires counted { IsCounted rows.now self.now }
        requires keeps { KeepsPromised (marked_in rows.now self.now) (take_on_all (marked_in rows.now self.now) facts.now) }
        ensures value { option_map (λ v. v.now) result ≡ decision_of (standing_in (take_on_all (marked_in rows.now self.now) facts.now) number) }
        ensures range { IfSome result (λ _. number < instance_count) }
    {
        // The instance behind the prefix decides by these facts or not at all, and needs no look-up.
        if number != self.prefix {
            if let Some(command) = self.decision(rows, number) {
                return Some(command);
            }
        }
        decided_by(facts, number)
    }

    /// The commands that come behind the decided prefix once these facts are marked.
    pub(crate) fn commands_after(
        &self,
        alloc: Global,
        rows: &Rows,
        facts: &[Fact],
    ) -> Result<Vec<Command>, AllocError>
        requires marks { AreMarks self.now }
        requires moved { HaveMoved rows.now self.now }
        requires counted { IsCounted rows.now self.now }
        requires keeps { KeepsPromised (marked_in rows.now self.now) (take_on_all (marked_in rows.now self.now) facts.now) }
        ensures ok { IfOk result (λ more. decided_from 0 (take_on_all (marked_in rows.now self.now) facts.now) ≡ decided_from 0 (marked_in rows.now self.now) ++ more.items) }
    {
        made_of!(Op);
        let mut found = Vec::new(alloc);
        for place in self.prefix..INSTANCES {
            match self.decision_after(rows, facts, place) {
                Some(command) => found.push(*command)?,
                None => return Ok(found),
            }
        }
        match self.decision_after(rows, facts, INSTANCES) {
            None => Ok(found),
            Some(_) => unreachable!(),
        }
    }

    /// The entries of the instances that have moved.
    fn moved_entries(&self, alloc: Global, rows: &Rows) -> Result<Vec<Kept>, AllocError>
        requires { AreMarks self.now }
        ensures ok { IfOk result (λ entries. entries.items ≡ decided_entries rows.now 0 self.now.moved) }
    {
        made_of!(Command, Op, Standing);
        let mut entries = Vec::new(alloc);
        for place in 0..self.moved {
            if let Some(command) = rows.decided_command(place) {
                match Instance::new(place) {
                    Some(instance) => entries.push(Kept::decided(instance, command))?,
                    None => unreachable!(),
                }
            }
        }
        Ok(entries)
    }

    /// The promise of the marked facts.
    pub(crate) fn promise(&self, alloc: Global, rows: &Rows) -> Result<Vec<Kept>, AllocError>
        requires { AreMarks self.now }
        ensures ok { IfOk result (λ entries. entries.items ≡ marked_in rows.now self.now) }
        ensures ascending { IfOk result (λ entries. IsAscending entries.items) }
    {
        made_of!(Command, Op, Standing);
        let mut promise = self.moved_entries(alloc, rows)?;
        let mut rest = self.entries.iter();
        while let Some((_, place)) = rest.next() {
            if let Some(entry) = place {
                let kept = Kept::new(alloc, entry.instance, &entry.standing)?;
                promise.push(kept)?;
            }
        }
        Ok(promise)
    }
}

/// The command that facts have decided for the instance with this number, lent: a command is large.
#[tactic(auto, using(crate::proofs::MarkLemmas::decided_more, crate::proofs::MarkLemmas::decided_end))]
fn decided_by(facts: &[Fact], number: u32) -> Option<&Command>
    ensures value { option_map (λ v. v.now) result ≡ decided_by None number facts.now }
    ensures range { IfSome result (λ _. number < instance_count) }
{
    let mut decided = None;
    for fact in facts {
        if fact.instance().number() == number {
            decided = decision_after(decided, fact);
        }
    }
    decided
}

/// The command that an instance has decided after a fact about it.
fn decision_after<'a>(decided: Option<&'a Command>, fact: &'a Fact) -> Option<&'a Command>
    ensures { option_map (λ v. v.now) result ≡ decision_after (option_map (λ v. v.now) decided.entry) fact.now }
{
    match fact {
        Fact::Enter(..) => None,
        Fact::Propose(..) | Fact::Adopt(..) => decided,
        Fact::Decide(_, command) => Some(command),
    }
}
