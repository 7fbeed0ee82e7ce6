//! The bindings of a registry, as a list shows them.

ghost use Rattle.std.specs.Prelude.{◌≡◌, IfOk};
ghost use Rattle.rr_window.specs.Sights.{begins_with, bindings_with};

use rr_registry::{Entries, binding_of};
use rr_types::{Binding, Name};
use std::alloc::{AllocError, Global};

fn begins_with(prefix: &[u8], name: &Name) -> bool
    ensures { result ≡ begins_with prefix.now name.now }
{
    name.as_bytes().starts_with(prefix)
}

/// Of the bindings that are left, those whose names begin with these bytes, in their order.
pub(crate) fn bindings_with(
    alloc: Global,
    prefix: &[u8],
    left: Entries<'_>,
) -> Result<Vec<Binding>, AllocError>
    ensures ok { IfOk result (λ v. v.items ≡ bindings_with prefix.now left.entry) }
{
    let mut bindings = Vec::new(alloc);
    for bound in left {
        if begins_with(prefix, &bound.0) {
            bindings.push(binding_of(&bound))?;
        }
    }
    Ok(bindings)
}
