//! Readers of a window.

ghost use Rattle.std.specs.Prelude.{◌≡◌, ◌⊎◌, ◌+◌, ◌-◌, ◌<◌, ◌≤◌, None, [], length, IfOk, OnOk, OnErr, IfErr, IfSome};
ghost use mathlib.Core.List.{IsPrefix};
ghost use Rattle.rr_types.specs.declared.refusal.Refusal.TheVariants.{NoGuard, OutOfMemory, SeatsTaken};
ghost use Rattle.rr_types.specs.Registry.{registry_of, holding_of};
ghost use Rattle.rr_window.specs.Lists.{beginning};
ghost use Rattle.rr_window.specs.Windows.{IsServed};
ghost use Rattle.rr_window.specs.Sights.{sight_of, bindings_with};
ghost use Rattle.rr_window.specs.Watches.{IsWatched, kept_traces};

use crate::change::Change;
use crate::list::{Beginning, WindowName};
use crate::receipt::Receipt;
use crate::served::{Served, WindowRule};
use crate::sight::Sight;
use crate::trace::{Trace, changes_behind};
use crate::watch::Watch;
use core::mem::replace_with;
use left_right::reader::{Factory, Reader};
use rr_types::{Binding, Name, Refusal};
use std::alloc::{AllocError, Global};
use std::collections::VecDeque;
use std::marker::Model;

/// The places of a window's readers, at most 64 at a time. Threads may share it.
#[derive(Drop)]
pub struct Seats<W: WindowName> {
    // None where the count of those who share the window is full.
    factory: Option<Factory<Served, (), WindowRule<W>>>,
    empty: Beginning,
}

impl<W: WindowName> Model for Seats<W> {
    ghost use Rattle.std.specs.Prelude.{◌≡◌, List, []};
    ghost use Rattle.rr_types.specs.declared.command.Command.{Command};
    ghost use Rattle.rr_window.specs.Lists.{beginning};

    ghost Value = { List Command };

    ghost view = { λ s. s.empty.list };

    ghost invariant = { λ s. s.empty ≡ beginning W.book [] };
}

impl<W: WindowName> Seats<W> {
    pub(crate) fn new(
        factory: Option<Factory<Served, (), WindowRule<W>>>,
        empty: Beginning,
    ) -> Seats<W>
        requires { empty ≡ beginning W.book [] }
    {
        Seats { factory, empty }
    }

    /// A reader's place, which has seen nothing yet. It is `SeatsTaken` where it finds each place in use.
    pub fn take(&self) -> Result<Seat<W>, Refusal>
        ensures ok { IfOk result (λ seat. seat ≡ []) }
        ensures err { IfErr result (λ e. e ≡ SeatsTaken) }
    {
        let Some(factory) = &self.factory else {
            return Err(Refusal::SeatsTaken);
        };
        match factory.reader() {
            Ok(reader) => Ok(Seat {
                reader,
                known: self.empty.again(),
            }),
            Err(_) => Err(Refusal::SeatsTaken),
        }
    }
}

/// A reader's place, which one thread uses. Contracts see the longest list that it has seen or learned.
#[derive(Drop)]
pub struct Seat<W: WindowName> {
    reader: Reader<Served, (), WindowRule<W>>,
    known: Beginning,
}

impl<W: WindowName> Model for Seat<W> {
    ghost use Rattle.std.specs.Prelude.{◌≡◌, List};
    ghost use Rattle.rr_types.specs.declared.command.Command.{Command};

    ghost Value = { List Command };

    ghost view = { λ s. s.known.list };

    ghost invariant = { λ s. s.known.book ≡ W.book };
}

// Looks at a name in what is served now.
fn look_at<W: WindowName>(
    reader: Reader<Served, (), WindowRule<W>>,
    name: &Name,
    known: &Beginning,
) -> (
    Reader<Served, (), WindowRule<W>>,
    Result<(Sight, Beginning), Refusal>,
)
    requires { known.now.book ≡ W.book }
    ensures own { IfOk result.1 (λ r. r.1.book ≡ W.book) }
    ensures entry { IfOk result.1 (λ r. r.0 ≡ sight_of (holding_of (registry_of r.1.list) name.now)) }
    ensures later { IfOk result.1 (λ r. IsPrefix known.now.list r.1.list) }
    ensures err { IfErr result.1 (λ e. e ≡ NoGuard) }
{
    let reading = match reader.enter_as::<WindowRule<W>>() {
        Ok(reading) => reading,
        Err(reader) => return (reader, Err(Refusal::NoGuard)),
    };
    let seen = look_in(reading.get(), name, known);
    (reading.leave(), seen)
}

// The beginning that is served, where that is no shorter than what is known.
fn seen_in<'a>(served: &'a Served, known: &Beginning) -> Result<&'a Beginning, Refusal>
    requires { IsServed known.now.book served.now }
    ensures seen { IfOk result (λ seen. seen.now ≡ served.now.beginning) }
    ensures later { IfOk result (λ seen. IsPrefix known.now.list seen.now.list) }
    ensures err { IfErr result (λ e. e ≡ NoGuard) }
{
    let seen = served.beginning();
    // A window never serves less than was published before, but no clause of `left_right` says so.
    if seen.count() < known.count() {
        return Err(Refusal::NoGuard);
    }
    known.begins(seen);
    Ok(seen)
}

// Looks at a name in what is served, where that is no shorter than what is known.
fn look_in(served: &Served, name: &Name, known: &Beginning) -> Result<(Sight, Beginning), Refusal>
    requires { IsServed known.now.book served.now }
    ensures own { IfOk result (λ r. r.1.book ≡ known.now.book) }
    ensures entry { IfOk result (λ r. r.0 ≡ sight_of (holding_of (registry_of r.1.list) name.now)) }
    ensures later { IfOk result (λ r. IsPrefix known.now.list r.1.list) }
    ensures err { IfErr result (λ e. e ≡ NoGuard) }
{
    let seen = seen_in(served, known)?;
    let sight = match served.entry(name) {
        None => Sight::Free,
        Some(holding) => Sight::Bound(holding.owner(), holding.value()),
    };
    Ok((sight, seen.again()))
}

// Lists bindings of what is served now.
fn list_at<W: WindowName>(
    reader: Reader<Served, (), WindowRule<W>>,
    alloc: Global,
    prefix: &[u8],
    known: &Beginning,
) -> (
    Reader<Served, (), WindowRule<W>>,
    Result<(Vec<Binding>, Beginning), Refusal>,
)
    requires { known.now.book ≡ W.book }
    ensures own { IfOk result.1 (λ r. r.1.book ≡ W.book) }
    ensures bindings { IfOk result.1 (λ r. r.0.items ≡ bindings_with prefix.now (registry_of r.1.list)) }
    ensures later { IfOk result.1 (λ r. IsPrefix known.now.list r.1.list) }
    ensures err { IfErr result.1 (λ e. (e ≡ OutOfMemory) ⊎ (e ≡ NoGuard)) }
{
    let reading = match reader.enter_as::<WindowRule<W>>() {
        Ok(reading) => reading,
        Err(reader) => return (reader, Err(Refusal::NoGuard)),
    };
    let seen = list_in(alloc, reading.get(), prefix, known);
    (reading.leave(), seen)
}

// Lists bindings of what is served, where that is no shorter than what is known.
fn list_in(
    alloc: Global,
    served: &Served,
    prefix: &[u8],
    known: &Beginning,
) -> Result<(Vec<Binding>, Beginning), Refusal>
    requires { IsServed known.now.book served.now }
    ensures own { IfOk result (λ r. r.1.book ≡ known.now.book) }
    ensures bindings { IfOk result (λ r. r.0.items ≡ bindings_with prefix.now (registry_of r.1.list)) }
    ensures later { IfOk result (λ r. IsPrefix known.now.list r.1.list) }
    ensures err { IfErr result (λ e. (e ≡ OutOfMemory) ⊎ (e ≡ NoGuard)) }
{
    let seen = seen_in(served, known)?;
    let bindings = served.bindings_with(alloc, prefix)?;
    Ok((bindings, seen.again()))
}

// Tells the changes of what is served now, behind a position.
fn watch_at<W: WindowName>(
    reader: Reader<Served, (), WindowRule<W>>,
    alloc: Global,
    prefix: &[u8],
    position: &Beginning,
    known: &Beginning,
) -> (
    Reader<Served, (), WindowRule<W>>,
    Result<(Option<Vec<Change>>, Beginning), Refusal>,
)
    requires known { known.now.book ≡ W.book }
    requires position { position.now.book ≡ W.book }
    ensures own { IfOk result.1 (λ r. r.1.book ≡ W.book) }
    ensures told { IfOk result.1 (λ r. IfSome r.0 (λ changes. IsWatched prefix.now position.now.list r.1.list changes.items)) }
    ensures late { IfOk result.1 (λ r. r.0 ≡ None → length position.now.list + 1024 < length r.1.list) }
    ensures later { IfOk result.1 (λ r. IsPrefix known.now.list r.1.list) }
    ensures err { IfErr result.1 (λ e. (e ≡ OutOfMemory) ⊎ (e ≡ NoGuard)) }
{
    let reading = match reader.enter_as::<WindowRule<W>>() {
        Ok(reading) => reading,
        Err(reader) => return (reader, Err(Refusal::NoGuard)),
    };
    let seen = watch_in(alloc, reading.get(), prefix, position, known);
    (reading.leave(), seen)
}

// Tells the changes of what is served behind a position, where that is no shorter than what is known. None: not all are kept.
fn watch_in(
    alloc: Global,
    served: &Served,
    prefix: &[u8],
    position: &Beginning,
    known: &Beginning,
) -> Result<(Option<Vec<Change>>, Beginning), Refusal>
    requires served { IsServed known.now.book served.now }
    requires position { position.now.book ≡ known.now.book }
    ensures own { IfOk result (λ r. r.1.book ≡ known.now.book) }
    ensures told { IfOk result (λ r. IfSome r.0 (λ changes. IsWatched prefix.now position.now.list r.1.list changes.items)) }
    ensures late { IfOk result (λ r. r.0 ≡ None → length position.now.list + 1024 < length r.1.list) }
    ensures later { IfOk result (λ r. IsPrefix known.now.list r.1.list) }
    ensures err { IfErr result (λ e. (e ≡ OutOfMemory) ⊎ (e ≡ NoGuard)) }
{
    let seen = seen_in(served, known)?;
    if seen.count() < position.count() {
        return Err(Refusal::NoGuard);
    }
    let changes = changes_between(alloc, prefix, position, seen, served.recent())?;
    Ok((changes, seen.again()))
}

// Tells the changes of what is seen behind a position. None: the traces that are kept don't reach back to it.
#[tactic(auto, using(crate::proofs::Watching::is_late))]
fn changes_between(
    alloc: Global,
    prefix: &[u8],
    position: &Beginning,
    seen: &Beginning,
    recent: &VecDeque<Trace>,
) -> Result<Option<Vec<Change>>, AllocError>
    requires one { seen.now.book ≡ position.now.book }
    requires shorter { length position.now.list ≤ length seen.now.list }
    requires recent { recent.now.items ≡ kept_traces seen.now.book seen.now.list }
    ensures told { IfOk result (λ r. IfSome r (λ changes. IsWatched prefix.now position.now.list seen.now.list changes.items)) }
    ensures late { IfOk result (λ r. r ≡ None → length position.now.list + 1024 < length seen.now.list) }
{
    if seen.count() - position.count() > recent.len() as u64 {
        return Ok(None);
    }
    let changes = changes_within(alloc, prefix, position, seen, recent)?;
    Ok(Some(changes))
}

// Tells the changes of what is seen behind a position, to which the traces that are kept reach back.
fn changes_within(
    alloc: Global,
    prefix: &[u8],
    position: &Beginning,
    seen: &Beginning,
    recent: &VecDeque<Trace>,
) -> Result<Vec<Change>, AllocError>
    requires one { seen.now.book ≡ position.now.book }
    requires shorter { length position.now.list ≤ length seen.now.list }
    requires recent { recent.now.items ≡ kept_traces seen.now.book seen.now.list }
    requires reach { length seen.now.list - length position.now.list ≤ length recent.now.items }
    ensures { IfOk result (λ changes. IsWatched prefix.now position.now.list seen.now.list changes.items) }
{
    position.begins(seen);
    changes_behind(alloc, prefix, position.count(), recent)
}

impl<W: WindowName> Seat<W> {
    /// Who has a name, in a beginning of the published list that begins with all that this seat has seen and learned.
    /// That beginning is then what it has seen. It waits for nobody and takes no memory.
    /// It is `NoGuard` where the window gave no guard, as after its end; then the seat knows what it knew.
    pub fn look(&mut self, name: &Name) -> Result<Sight, Refusal>
        ensures entry { IfOk result (λ sight. sight ≡ sight_of (holding_of (registry_of self.new) name.now)) }
        ensures later { OnOk result (IsPrefix self.old self.new) }
        ensures kept { OnErr result (self.new ≡ self.old) }
        ensures err { IfErr result (λ e. e ≡ NoGuard) }
    {
        let known = self.known.again();
        let looked = replace_with(&mut self.reader, (name, known), |reader, with| {
            look_at(reader, with.0, &with.1)
        });
        let (sight, seen) = looked?;
        self.known = seen;
        Ok(sight)
    }

    /// The bindings whose names begin with these bytes, in byte order. They are those of a beginning of the published list that
    /// begins with all that this seat has seen and learned. That beginning is then what it has seen. It waits for nobody.
    ///
    /// # Errors
    /// `OutOfMemory`. `NoGuard`, where the window gave no guard, as after its end. Then the seat knows what it knew.
    pub fn list(&mut self, alloc: Global, prefix: &[u8]) -> Result<Vec<Binding>, Refusal>
        ensures bindings { IfOk result (λ bindings. bindings.items ≡ bindings_with prefix.now (registry_of self.new)) }
        ensures later { OnOk result (IsPrefix self.old self.new) }
        ensures kept { OnErr result (self.new ≡ self.old) }
        ensures err { IfErr result (λ e. (e ≡ OutOfMemory) ⊎ (e ≡ NoGuard)) }
    {
        let known = self.known.again();
        let listed = replace_with(&mut self.reader, (prefix, known), |reader, with| {
            list_at(reader, alloc, with.0, &with.1)
        });
        let (bindings, seen) = listed?;
        self.known = seen;
        Ok(bindings)
    }

    /// How many commands the longest list has that this seat has seen or learned.
    pub fn count(&self) -> u64
        ensures { result ≡ length self.now }
    {
        self.known.count()
    }

    /// From now on this seat sees no less than the receipt's list. It waits for nobody and takes no memory.
    pub fn learn(&mut self, receipt: &Receipt<W>)
        ensures before { IsPrefix self.old self.new }
        ensures told { IsPrefix receipt.now.list self.new }
        ensures one { (self.new ≡ self.old) ⊎ (self.new ≡ receipt.now.list) }
    {
        let told = receipt.told().beginning();
        if self.known.count() < told.count() {
            self.known.begins(told);
            self.known = told.again();
        } else {
            told.begins(&self.known);
        }
    }

    /// A watch of the published list: from what this seat has seen and learned on, `changes` tells of it.
    pub fn watch(&self) -> Watch<W>
        ensures { result ≡ self.now }
    {
        Watch::from(self.known.again())
    }

    /// The changes that were published since those that the watch was told before, of names that begin with these bytes: each once, in
    /// the order of the list. They are those of a beginning of the published list that begins with all that this seat has seen and
    /// learned, which is then what it has seen. It waits for nobody.
    ///
    /// None: more than 1,024 commands were published since. The watch then goes on behind them, and a list tells what they left.
    ///
    /// # Errors
    /// As of `list`. Then the watch is where it was, too.
    pub fn changes(
        &mut self,
        alloc: Global,
        prefix: &[u8],
        watch: &mut Watch<W>,
    ) -> Result<Option<Vec<Change>>, Refusal>
        ensures told { IfOk result (λ r. IfSome r (λ changes. IsWatched prefix.now watch.old self.new changes.items)) }
        ensures late { IfOk result (λ r. r ≡ None → length watch.old + 1024 < length self.new) }
        ensures reached { OnOk result (watch.new ≡ self.new) }
        ensures later { OnOk result (IsPrefix self.old self.new) }
        ensures kept { OnErr result ((self.new ≡ self.old) × (watch.new ≡ watch.old)) }
        ensures err { IfErr result (λ e. (e ≡ OutOfMemory) ⊎ (e ≡ NoGuard)) }
    {
        let known = self.known.again();
        let position = watch.position().again();
        let watched = replace_with(
            &mut self.reader,
            (prefix, position, known),
            |reader, with| watch_at(reader, alloc, with.0, &with.1, &with.2),
        );
        let (changes, seen) = watched?;
        *watch = Watch::from(seen.again());
        self.known = seen;
        Ok(changes)
    }

    pub(crate) fn known(&self) -> &Beginning
        ensures { result.now ≡ beginning W.book self.now }
    {
        &self.known
    }
}
