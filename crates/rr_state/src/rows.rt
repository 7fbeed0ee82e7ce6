//! The rows of the instances that the facts name, and what these have decided.

ghost use Rattle.std.specs.Prelude.{◌≡◌, ◌<◌, ◌≤◌, ◌&&◌, ℕ, List, [], ◌∷◌, map, option_map, Some, None, nat_lt, IsTrue, IfSome, IfOk, OnOk, OnErr, MatchOption};
ghost use Rattle.std.specs.List.{list_any, All};
ghost use Rattle.std.specs.Ordering.{nat_cmp};
ghost use Rattle.rr_types.specs.declared.command.RequestNo.{RequestNo};
ghost use Rattle.rr_types.specs.Limits.{instance_count};
ghost use Rattle.rr_registry.specs.Kept.{request_cmp};
ghost use Rattle.rr_model.specs.NodeState.{row_of, put_row, is_decided, decided_command};
ghost use Rattle.rr_model.specs.NodeState as model;
ghost use Rattle.rr_model.specs.NodeStep.{promised_row};
ghost use Rattle.rr_registry.specs.Places.{filled, has_place};
ghost use Rattle.rr_state.specs.Listed.{put_rows, decision_at, KeepsDecisions};
ghost use Rattle.rr_state.specs.Rowed.{EachKeeps, rows_in, AreKeyed, AscendFrom, AreInstances, has_decided, has_request_place, HavePlaces, IsNoted};

use crate::row::Row;
use rr_registry::{Numbered, drop_free_place, make_place, put, value_at};
use rr_types::{Command, Instance, Kept, Op, RequestNo};
use std::alloc::{AllocError, Global};
use std::collections::BTreeMap;
use std::marker::Model;
use std::mem;

/// The rows, each at its instance; the requests that they have decided; and the number above the highest instance
/// that has decided, or 0.
#[derive(Drop)]
pub(crate) struct Rows {
    rows: Numbered<Row>,
    requests: BTreeMap<RequestNo, Option<()>>,
    end: u32,
}

impl Model for Rows {
    ghost use Rattle.std.specs.Prelude.{List};
    ghost use Rattle.rr_model.specs.NodeState as model;
    ghost use Rattle.rr_registry.specs.Places.{filled};
    ghost use Rattle.rr_state.specs.Rowed.{EachKeeps, rows_in, IsTable};

    ghost Value = { List model.Row };

    ghost view = { λ t. rows_in (filled t.rows) };

    ghost invariant = { λ t. IsTable (filled t.rows) (filled t.requests.entries) t.end };
}

/// Makes a place for the row of each of these instances.
fn make_row_places(map: &mut Numbered<Row>, rows: &[Row]) -> Result<(), AllocError>
    ensures filled { filled map.new ≡ filled map.old }
    ensures made { OnOk result (All (λ r. IsTrue (has_place nat_cmp map.new r.instance)) rows.now) }
    ensures instances { OnOk result (All (λ r. r.instance < instance_count) rows.now) }
{
    for row in rows {
        map.make_place(row.instance.number())?;
    }
    Ok(())
}

/// Makes a place for the request that a row has decided.
fn make_request_place(
    map: &mut BTreeMap<RequestNo, Option<()>>,
    row: &Row,
) -> Result<(), AllocError>
    ensures filled { filled map.new.entries ≡ filled map.old.entries }
    ensures made { OnOk result (IsTrue (has_request_place map.new.entries row.now)) }
    ensures stay { (q : RequestNo) → IsTrue (has_place request_cmp map.old.entries q) → IsTrue (has_place request_cmp map.new.entries q) }
{
    match row.decided_command() {
        Some(command) => {
            make_place(map, command.request)?;
            Ok(())
        }
        None => Ok(()),
    }
}

/// Makes a place for the request of each decision of these rows.
fn make_request_places(
    map: &mut BTreeMap<RequestNo, Option<()>>,
    rows: &[Row],
) -> Result<(), AllocError>
    ensures filled { filled map.new.entries ≡ filled map.old.entries }
    ensures made { OnOk result (All (λ r. IsTrue (has_request_place map.new.entries r)) rows.now) }
    ensures stay { (q : RequestNo) → IsTrue (has_place request_cmp map.old.entries q) → IsTrue (has_place request_cmp map.new.entries q) }
{
    for row in rows {
        make_request_place(map, row)?;
    }
    Ok(())
}

/// Makes a place for each of these rows, and for the request of each of their decisions.
fn make_places(
    map: &mut Numbered<Row>,
    requests: &mut BTreeMap<RequestNo, Option<()>>,
    rows: &[Row],
) -> Result<(), AllocError>
    ensures rows { filled map.new ≡ filled map.old }
    ensures requests { filled requests.new.entries ≡ filled requests.old.entries }
    ensures row_places { OnOk result (All (λ r. IsTrue (has_place nat_cmp map.new r.instance)) rows.now) }
    ensures request_places { OnOk result (All (λ r. IsTrue (has_request_place requests.new.entries r)) rows.now) }
    ensures instances { OnOk result (All (λ r. r.instance < instance_count) rows.now) }
{
    make_row_places(map, rows)?;
    make_request_places(requests, rows)
}

/// Takes away what places of these rows' requests are free.
fn drop_request_places(requests: &mut BTreeMap<RequestNo, Option<()>>, rows: &[Row])
    ensures { filled requests.new.entries ≡ filled requests.old.entries }
{
    for row in rows {
        drop_request_place(requests, decided_request(row));
    }
}

/// Puts a row, whose instance has a place. It needs no memory.
fn put_row(map: &mut Numbered<Row>, row: Row)
    requires place { IsTrue (has_place nat_cmp map.old row.instance) }
    requires keyed { AreKeyed (filled map.old) }
    ensures rows { rows_in (filled map.new) ≡ put_row row (rows_in (filled map.old)) }
    ensures keyed { AreKeyed (filled map.new) }
    ensures places { (i : ℕ) → has_place nat_cmp map.new i ≡ has_place nat_cmp map.old i }
{
    let number = row.instance.number();
    map.put(number, row);
}

/// Puts rows whose instances have places. It needs no memory.
fn put_all(map: &mut Numbered<Row>, rows: Vec<Row>)
    requires places { All (λ r. IsTrue (has_place nat_cmp map.old r.instance)) rows.items }
    requires keyed { AreKeyed (filled map.old) }
    ensures rows { rows_in (filled map.new) ≡ put_rows (rows_in (filled map.old)) rows.items }
    ensures keyed { AreKeyed (filled map.new) }
{
    for row in rows {
        put_row(map, row);
    }
}

/// The instances of these rows.
fn instances_of(alloc: Global, rows: &[Row]) -> Result<Vec<Instance>, AllocError>
    ensures ok { IfOk result (λ instances. instances.items ≡ map (λ r. r.instance) rows.now) }
{
    let mut instances = Vec::new(alloc);
    for row in rows {
        instances.push(row.instance)?;
    }
    Ok(instances)
}

/// The request that a row has decided.
fn decided_request(row: &Row) -> Option<RequestNo>
    ensures { result ≡ option_map (λ v. v.request) (decided_command row.now) }
{
    match row.decided_command() {
        Some(command) => Some(command.request),
        None => None,
    }
}

/// Takes away the place of a request, if it is free.
#[inline(never)]
fn drop_request_place(map: &mut BTreeMap<RequestNo, Option<()>>, request: Option<RequestNo>)
    ensures { filled map.new.entries ≡ filled map.old.entries }
{
    if let Some(request) = request {
        drop_free_place(map, &request);
    }
}

/// Whether one of these rows has decided.
pub fn is_any_decided(rows: &[Row]) -> bool
    ensures { result ≡ list_any (λ r. is_decided r) rows.now }
{
    for row in rows {
        if row.is_decided() {
            return true;
        }
    }
    false
}

/// Takes the request that an instance has decided, which has a place, into the table, and gives the table's end. It
/// needs no memory.
fn note_request(
    requests: &mut BTreeMap<RequestNo, Option<()>>,
    end: u32,
    instance: Instance,
    request: Option<RequestNo>,
) -> u32
    requires place { IfSome request (λ q. IsTrue (has_place request_cmp requests.old.entries q)) }
    ensures noted { (rows : List model.Row) → option_map (λ v. v.request) (decision_at rows instance) ≡ request → IsNoted rows (instance ∷ []) (filled requests.old.entries) (filled requests.new.entries) end result }
    ensures places { (q : RequestNo) → has_place request_cmp requests.new.entries q ≡ has_place request_cmp requests.old.entries q }
{
    match request {
        None => end,
        Some(request) => {
            let number = instance.number();
            put(requests, request, Some(()));
            if end <= number { number + 1 } else { end }
        }
    }
}

/// Takes the request that an instance has decided into the table, and gives the table's end. Where memory is refused the
/// table is as it was.
fn insert_request(
    requests: &mut BTreeMap<RequestNo, Option<()>>,
    end: u32,
    instance: Instance,
    request: Option<RequestNo>,
) -> Result<u32, AllocError>
    ensures noted { IfOk result (λ higher. (rows : List model.Row) → option_map (λ v. v.request) (decision_at rows instance) ≡ request → IsNoted rows (instance ∷ []) (filled requests.old.entries) (filled requests.new.entries) end higher) }
    ensures kept { OnErr result (requests.new.entries ≡ requests.old.entries) }
{
    match request {
        None => Ok(end),
        Some(request) => {
            let number = instance.number();
            match requests.insert(request, Some(())) {
                Ok(_) => Ok(if end <= number { number + 1 } else { end }),
                Err(_) => Err(AllocError),
            }
        }
    }
}

/// Takes what an instance has decided into the table: its request, which has a place, and the table's end, which
/// it gives. It needs no memory.
fn note_decision(
    rows: &Numbered<Row>,
    requests: &mut BTreeMap<RequestNo, Option<()>>,
    end: u32,
    instance: Instance,
) -> u32
    requires keyed { AreKeyed (filled rows.now) }
    requires places { HavePlaces requests.old.entries (rows_in (filled rows.now)) }
    ensures noted { IsNoted (rows_in (filled rows.now)) (instance ∷ []) (filled requests.old.entries) (filled requests.new.entries) end result }
    ensures places { (q : RequestNo) → has_place request_cmp requests.new.entries q ≡ has_place request_cmp requests.old.entries q }
{
    match rows.get(instance.number()) {
        None => end,
        Some(row) => note_request(requests, end, instance, decided_request(row)),
    }
}

/// The same for each of these instances.
fn note_decisions(
    rows: &Numbered<Row>,
    requests: &mut BTreeMap<RequestNo, Option<()>>,
    end: u32,
    instances: &[Instance],
) -> u32
    requires keyed { AreKeyed (filled rows.now) }
    requires places { HavePlaces requests.old.entries (rows_in (filled rows.now)) }
    ensures noted { IsNoted (rows_in (filled rows.now)) instances.now (filled requests.old.entries) (filled requests.new.entries) end result }
{
    let mut higher = end;
    for instance in instances {
        higher = note_decision(rows, requests, higher, *instance);
    }
    higher
}

impl Rows {
    /// No row.
    pub(crate) fn new(alloc: Global) -> Rows
        ensures { result ≡ [] }
    {
        Rows {
            rows: Numbered::new(alloc),
            requests: BTreeMap::new(alloc),
            end: 0,
        }
    }

    /// The row of the instance with this number, if it is one.
    pub(crate) fn row(&self, number: u32) -> Option<&Row>
        ensures row { MatchOption result (row_of self.now number ≡ None) (λ r. row_of self.now number ≡ Some r.now) }
        ensures ascend { AscendFrom 0 self.now }
        ensures instances { AreInstances self.now }
    {
        match self.rows.get(number) {
            Some(row) => Some(row),
            None => None,
        }
    }

    /// The command that the instance with this number has decided, lent.
    pub(crate) fn decided_command(&self, number: u32) -> Option<&Command>
        ensures { MatchOption result (decision_at self.now number ≡ None) (λ v. decision_at self.now number ≡ Some v.now) }
    {
        match self.row(number) {
            Some(row) => row.decided_command(),
            None => None,
        }
    }

    /// Whether some instance has decided a command with this request number.
    pub(crate) fn has_decided(&self, request: RequestNo) -> bool
        ensures { result ≡ list_any (has_decided request) self.now }
    {
        value_at(&self.requests, &request).is_some()
    }

    /// Whether an instance above this one has decided.
    pub(crate) fn has_decided_above(&self, instance: Instance) -> bool
        ensures { result ≡ list_any (λ r. nat_lt instance r.instance && is_decided r) self.now }
    {
        if self.end == 0 {
            return false;
        }
        instance.number() < self.end - 1
    }

    /// Puts a row, or after an error none. No decision may change.
    fn put(&mut self, row: Row) -> Result<(), AllocError>
        requires { KeepsDecisions self.old (put_rows self.old (row ∷ [])) }
        ensures ok { OnOk result (self.new ≡ put_rows self.old (row ∷ [])) }
        ensures kept { OnErr result (self.new ≡ self.old) }
        ensures ascend { OnOk result (AscendFrom 0 self.new) }
        ensures instances { OnOk result (AreInstances self.new) }
    {
        let instance = row.instance;
        let request = decided_request(&row);
        // With its place made, the row can't be refused once the request is in.
        self.rows.make_place(instance.number())?;
        self.end = insert_request(&mut self.requests, self.end, instance, request)?;
        self.rows.put(instance.number(), row);
        Ok(())
    }

    /// Puts the rows of a promise's entries, one after another; after an error, some of them. No decision may change.
    #[tactic(auto, using(crate::proofs::OpenLemmas::restore_more, crate::proofs::OpenLemmas::keeps_here, crate::proofs::OpenLemmas::keeps_more, crate::proofs::OpenLemmas::restore_end))]
    pub(crate) fn restore(
        &mut self,
        alloc: Global,
        promise: &[Kept],
        next: u64,
    ) -> Result<(), AllocError>
        requires keeps { EachKeeps self.old (map (promised_row next) promise.now) }
        requires ascend { AscendFrom 0 self.old }
        requires instances { AreInstances self.old }
        ensures ok { OnOk result (self.new ≡ put_rows self.old (map (promised_row next) promise.now)) }
        ensures ascend { OnOk result (AscendFrom 0 self.new) }
        ensures instances { OnOk result (AreInstances self.new) }
    {
        for entry in promise {
            let row = Row::promised(alloc, next, entry)?;
            self.put(row)?;
        }
        Ok(())
    }

    /// Puts these rows, all of them or, after an error, none, and leaves the vector empty. No decision may change.
    pub(crate) fn absorb(&mut self, alloc: Global, rows: &mut Vec<Row>) -> Result<(), AllocError>
        requires { KeepsDecisions self.old (put_rows self.old rows.old.items) }
        ensures ok { OnOk result (self.new ≡ put_rows self.old rows.old.items) }
        ensures taken { rows.new.items ≡ [] }
        ensures kept { OnErr result (self.new ≡ self.old) }
        ensures ascend { OnOk result (AscendFrom 0 self.new) }
        ensures instances { OnOk result (AreInstances self.new) }
    {
        if rows.len() == 1 {
            let row = rows.swap_remove(0);
            return self.put(row);
        }
        let rows = mem::replace(rows, Vec::new(alloc));
        self.absorb_all(alloc, rows)
    }

    /// The same of any number of rows.
    #[inline(never)]
    fn absorb_all(&mut self, alloc: Global, rows: Vec<Row>) -> Result<(), AllocError>
        requires { KeepsDecisions self.old (put_rows self.old rows.items) }
        ensures ok { OnOk result (self.new ≡ put_rows self.old rows.items) }
        ensures kept { OnErr result (self.new ≡ self.old) }
        ensures ascend { OnOk result (AscendFrom 0 self.new) }
        ensures instances { OnOk result (AreInstances self.new) }
    {
        let instances = instances_of(alloc, &rows)?;
        match make_places(&mut self.rows, &mut self.requests, &rows) {
            Ok(()) => {
                put_all(&mut self.rows, rows);
                self.end = note_decisions(&self.rows, &mut self.requests, self.end, &instances);
                Ok(())
            }
            Err(refusal) => {
                drop_request_places(&mut self.requests, &rows);
                Err(refusal)
            }
        }
    }
}
