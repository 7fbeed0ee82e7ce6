//! Where two promises decide an instance differently.

ghost use Rattle.std.specs.Prelude.{◌≡◌, Some};
ghost use Rattle.rr_types.specs.Facts.{decision_of};
ghost use Rattle.rr_types.specs.Promises.{IsAscending};
ghost use Rattle.rr_folders.specs.Agreement.{difference, first_difference};

use rr_types::{Command, Instance, Kept, Op, Standing, made_of};

/// An instance that is decided differently, and both commands.
#[derive(Clone, Copy, Debug)]
pub struct Difference {
    pub instance: Instance,
    pub one: Command,
    pub other: Command,
}

// The difference of where two entries stand, of an instance, if both have decided and not alike.
fn difference_at(instance: Instance, one: &Kept, other: &Kept) -> Option<Difference>
    ensures { result ≡ difference instance (decision_of (Some one.now.standing)) (decision_of (Some other.now.standing)) }
{
    made_of!(Command, Op);
    match (one.decision(), other.decision()) {
        (Some(one), Some(other)) => {
            if one.is_same(other) {
                None
            } else {
                Some(Difference {
                    instance,
                    one: *one,
                    other: *other,
                })
            }
        }
        _ => None,
    }
}

/// The lowest instance that two promises decide differently, with both commands.
pub(crate) fn first_difference(one: &[Kept], other: &[Kept]) -> Option<Difference>
    requires one { IsAscending one.now }
    requires other { IsAscending other.now }
    ensures { result ≡ first_difference one.now other.now }
{
    made_of!(Command, Op, Standing);
    let mut one = one;
    let mut other = other;
    while let Some((entry, one_rest)) = one.split_first() {
        match other.split_first() {
            None => return None,
            Some((beside, other_rest)) => {
                if entry.instance.number() < beside.instance.number() {
                    one = one_rest;
                } else if beside.instance.number() < entry.instance.number() {
                    other = other_rest;
                } else {
                    match difference_at(entry.instance, entry, beside) {
                        Some(found) => return Some(found),
                        None => {
                            one = one_rest;
                            other = other_rest;
                        }
                    }
                }
            }
        }
    }
    None
}
