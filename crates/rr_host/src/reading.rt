//! What a host reads of a node that is up: by what is decided and safe there.

ghost use Rattle.std.specs.Prelude.{◌≡◌, ◌<◌, ◌≤◌, max, ℕ, true, false, length, slice_get, IfSome};
ghost use Rattle.std.specs.Str.{bytes_eq};
ghost use Rattle.rr_types.specs.Registry.{registry_of, holding_of};
ghost use Rattle.rr_model.specs.NodeState.{decided_prefix};
ghost use Rattle.rr_host.specs.Readings.{name_in};

use rr_core::Core;
use rr_registry::Holding;
use rr_types::{Name, Op};

/// How a node stands.
#[derive(Clone, Copy, Debug)]
pub struct Status {
    /// How many commands are decided and safe here.
    pub decided: u64,
    /// How many of its facts are safe.
    pub facts: u64,
    /// The nodes that it suspects to be down, by bits.
    pub suspects: u8,
}

/// How a node stands.
pub fn standing(core: &Core) -> Status
    ensures decided { result.decided ≡ length (decided_prefix core.now) }
    ensures facts { result.facts ≡ core.now.marked_end }
    ensures suspects { result.suspects ≡ core.now.suspects }
{
    Status {
        decided: core.decided_count() as u64,
        facts: core.facts(),
        suspects: core.suspects().bits(),
    }
}

/// Who has a name.
pub fn holding(core: &Core, name: &Name) -> Option<Holding>
    ensures { result ≡ holding_of (registry_of (decided_prefix core.now)) name.now }
{
    for (bound, holding) in core.bindings() {
        if is_same(&bound, name) {
            return Some(holding);
        }
    }
    None
}

/// Whether two names are one.
fn is_same(name: &Name, other: &Name) -> bool
    ensures { result ≡ bytes_eq other.now name.now }
{
    other.as_bytes() == name.as_bytes()
}

/// The name that an operation is of.
pub fn name_of(op: &Op) -> &Name
    ensures { result.now ≡ name_in op.now }
{
    match op {
        Op::Claim(name, _) => name,
        Op::Update(name, _) => name,
        Op::Release(name) => name,
        Op::Transfer(name, _) => name,
    }
}

/// The first place of the decided list, from one on, whose command is of this name; the length of the list where there is none.
pub fn next_about(core: &Core, from: usize, name: &Name) -> usize
    ensures within { result ≤ max from (length (decided_prefix core.now)) }
    ensures before { (k : ℕ) → k < result → from ≤ k → IfSome (slice_get (decided_prefix core.now) k) (λ c. bytes_eq name.now (name_in c.op) ≡ false) }
    ensures found { result < length (decided_prefix core.now) → IfSome (slice_get (decided_prefix core.now) result) (λ c. bytes_eq name.now (name_in c.op) ≡ true) }
{
    let end = core.decided_count();
    for place in from..end {
        if let Some(command) = core.decided_at(place) {
            if is_same(name_of(&command.op), name) {
                return place;
            }
        }
    }
    end
}
