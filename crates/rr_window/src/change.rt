//! Changes of names.

ghost use Rattle.std.specs.Prelude.{◌≡◌};
ghost use Rattle.rr_window.specs.Changes.{is_same_holding, change_to, change_between, changed_name};

use rr_registry::Holding;
use rr_types::{Binding, Name, Value, made_of};

/// A change of a name.
#[derive(Clone, Copy, Debug)]
pub enum Change {
    /// It is bound so from now on: it was free, or had another owner or another value.
    Bound(Binding),
    /// It is free from now on.
    Freed(Name),
}

impl Change {
    /// The name that changed.
    pub fn name(&self) -> &Name
        ensures { result.now ≡ changed_name self.now }
    {
        match self {
            Change::Bound(binding) => &binding.name,
            Change::Freed(name) => name,
        }
    }
}

// Whether a name has the same owner and value, or nobody has it both times.
fn is_same_holding(before: &Option<Holding>, after: &Option<Holding>) -> bool
    ensures { result ≡ is_same_holding before.now after.now }
{
    match (before, after) {
        (None, None) => true,
        (Some(one), Some(other)) => {
            one.owner() == other.owner() && one.value().as_bytes() == other.value().as_bytes()
        }
        _ => false,
    }
}

// The change of a name to this: it is bound so, or freed.
fn change_to(name: &Name, after: &Option<Holding>) -> Change
    ensures { result ≡ change_to name.now after.now }
{
    match after {
        None => Change::Freed(*name),
        Some(holding) => Change::Bound(Binding {
            name: *name,
            owner: holding.owner(),
            value: holding.value(),
        }),
    }
}

/// The change of a name from who had it to who has it, if there is one.
pub(crate) fn change_between(
    name: &Name,
    before: Option<Holding>,
    after: Option<Holding>,
) -> Option<Change>
    ensures { result ≡ change_between name.now before after }
{
    made_of!(Binding, Name, Value);
    if is_same_holding(&before, &after) {
        None
    } else {
        Some(change_to(name, &after))
    }
}
