use rr_registry::{Holding, MAX_BOUND, Registry};
use rr_types::{Command, Name, Op, Reply, RequestNo, Value};
use std::process::Abort;

fn command(client: u32, seq: u64, op: Op) -> Command {
    Command {
        request: RequestNo { client, seq },
        op,
    }
}

fn named(rt: &impl Abort, name: &[u8]) -> Name {
    Name::new(name).expect(rt, "a name")
}

fn valued(rt: &impl Abort, value: &[u8]) -> Value {
    Value::new(value).expect(rt, "a value")
}

fn claim(rt: &impl Abort, name: &[u8], value: &[u8]) -> Op {
    Op::Claim(named(rt, name), valued(rt, value))
}

fn update(rt: &impl Abort, name: &[u8], value: &[u8]) -> Op {
    Op::Update(named(rt, name), valued(rt, value))
}

fn release(rt: &impl Abort, name: &[u8]) -> Op {
    Op::Release(named(rt, name))
}

fn transfer(rt: &impl Abort, name: &[u8], owner: u32) -> Op {
    Op::Transfer(named(rt, name), owner)
}

/// Asserts that a name has this owner and value.
fn assert_holding(rt: &impl Abort, holding: &Holding, owner: u32, value: &[u8]) {
    assert_eq!(rt; holding.owner(), owner);
    assert!(rt; holding.value() == valued(rt, value));
}

/// Asserts that one name is bound, to this owner and value.
fn assert_one_entry(rt: &impl Abort, registry: &Registry, name: &[u8], owner: u32, value: &[u8]) {
    let mut entries = registry.entries();
    match entries.next() {
        Some((bound, holding)) => {
            assert!(rt; bound == named(rt, name));
            assert_holding(rt, &holding, owner, value);
        }
        None => assert!(rt; false, "no name is bound"),
    }
    assert!(rt; entries.next().is_none());
    match registry.entry(&named(rt, name)) {
        Some(holding) => assert_holding(rt, &holding, owner, value),
        None => assert!(rt; false, "the name isn't bound"),
    }
}

/// Asserts that a request of a client has had this reply.
fn assert_replied(
    rt: &impl Abort,
    registry: &Registry,
    (client, seq): (u32, u64),
    wanted: Option<Reply>,
) {
    let found = registry.reply(RequestNo { client, seq });
    assert_eq!(rt; found, wanted, "to {client}.{seq}");
}

#[test]
fn a_taken_name_and_a_repeated_number(rt: HostRuntime) {
    let mut registry = Registry::new(rt.alloc());
    let commands = [
        command(7, 1, claim(&rt, b"a", b"x")),
        command(7, 1, claim(&rt, b"b", b"y")),
        command(8, 1, claim(&rt, b"a", b"z")),
    ];
    registry.apply_all(&commands).expect(&rt, "memory");
    assert_replied(&rt, &registry, (7, 1), Some(Reply::Claimed));
    assert_replied(&rt, &registry, (8, 1), Some(Reply::Taken(7)));
    assert_replied(&rt, &registry, (8, 2), None);
    assert!(rt; registry.entry(&named(&rt, b"b")).is_none());
    assert_one_entry(&rt, &registry, b"a", 7, b"x");
}

/// Applies an operation as request SEQ of a client, and asserts that this is the reply.
fn assert_applied(
    rt: &impl Abort,
    registry: &mut Registry,
    (client, seq): (u32, u64),
    op: Op,
    wanted: Reply,
) {
    let reply = registry.apply(&command(client, seq, op));
    assert_eq!(rt; reply.expect(rt, "memory"), wanted, "to {client}.{seq}");
}

#[test]
fn updates_and_releases(rt: HostRuntime) {
    let registry = &mut Registry::new(rt.alloc());
    assert_applied(
        &rt,
        registry,
        (7, 1),
        claim(&rt, b"a", b"x"),
        Reply::Claimed,
    );
    assert_applied(
        &rt,
        registry,
        (8, 1),
        update(&rt, b"a", b"y"),
        Reply::NotOwner,
    );
    assert_applied(
        &rt,
        registry,
        (7, 2),
        update(&rt, b"a", b"z"),
        Reply::Updated,
    );
    assert_applied(&rt, registry, (8, 2), release(&rt, b"a"), Reply::NotOwner);
    assert_applied(&rt, registry, (7, 3), release(&rt, b"a"), Reply::Released);
    assert_applied(&rt, registry, (8, 3), release(&rt, b"a"), Reply::Unknown);
    assert_applied(&rt, registry, (7, 2), release(&rt, b"a"), Reply::Updated);
    assert!(rt; registry.entries().next().is_none());
}

#[test]
fn transfers(rt: HostRuntime) {
    let registry = &mut Registry::new(rt.alloc());
    assert_applied(
        &rt,
        registry,
        (7, 1),
        claim(&rt, b"a", b"x"),
        Reply::Claimed,
    );
    assert_applied(
        &rt,
        registry,
        (7, 2),
        transfer(&rt, b"a", 9),
        Reply::Transferred,
    );
    assert_applied(
        &rt,
        registry,
        (7, 3),
        update(&rt, b"a", b"z"),
        Reply::NotOwner,
    );
    assert_applied(
        &rt,
        registry,
        (9, 1),
        update(&rt, b"a", b"z"),
        Reply::Updated,
    );
    assert_applied(
        &rt,
        registry,
        (9, 2),
        transfer(&rt, b"b", 7),
        Reply::Unknown,
    );
    assert_one_entry(&rt, registry, b"a", 9, b"z");
}

/// The name with this number.
fn name_of(number: u64) -> [u8; 3] {
    [
        b'a' + (number / 256 % 16) as u8,
        b'a' + (number / 16 % 16) as u8,
        b'a' + (number % 16) as u8,
    ]
}

#[test]
fn a_full_registry(rt: HostRuntime) {
    let mut registry = Registry::new(rt.alloc());
    for number in 0..4096u64 {
        let op = claim(&rt, &name_of(number), b"");
        assert_applied(&rt, &mut registry, (7, number), op, Reply::Claimed);
    }
    let op = claim(&rt, b"further", b"");
    assert_applied(&rt, &mut registry, (7, 4096), op, Reply::Full);
    let mut entries = registry.entries();
    for _ in 0..MAX_BOUND {
        assert!(rt; entries.next().is_some());
    }
    assert!(rt; entries.next().is_none());
}
