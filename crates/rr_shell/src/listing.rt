//! What a node tells of the bound names.

ghost use Rattle.std.specs.Prelude.{◌≡◌};
ghost use Rattle.rr_shell.specs.Listings.{begins_with, begin_with, ascend_from, ascend, is_list_of, is_listing_at};

use rr_text::BoundNames;
use rr_types::{Binding, Name, NodeId};
use std::cmp::Ordering;

/// What a node tells of the bound names with a prefix, or of all.
#[derive(Debug, Drop)]
pub struct Listing {
    pub node: NodeId,
    /// The names, in byte order. None: the look at them got no guard of the window, so it saw nothing.
    pub names: Option<BoundNames>,
}

fn begins_with(prefix: &Option<Name>, name: &Name) -> bool
    ensures { result ≡ begins_with prefix.now name.now }
{
    match prefix {
        Some(prefix) => name.as_bytes().starts_with(prefix.as_bytes()),
        None => true,
    }
}

fn begin_with(prefix: &Option<Name>, names: &[Binding]) -> bool
    ensures { result ≡ begin_with prefix.now names.now }
{
    names
        .iter()
        .all(|binding| begins_with(prefix, &binding.name))
}

fn ascend_from(first: &Name, rest: &[Binding]) -> bool
    ensures { result ≡ ascend_from first.now rest.now }
{
    let mut last = first;
    for binding in rest {
        match last.cmp(&binding.name) {
            Ordering::Less => last = &binding.name,
            Ordering::Equal | Ordering::Greater => return false,
        }
    }
    true
}

fn ascend(names: &[Binding]) -> bool
    ensures { result ≡ ascend names.now }
{
    match names {
        [] => true,
        [first, rest @ ..] => ascend_from(&first.name, rest),
    }
}

fn is_list_of(prefix: &Option<Name>, names: &Option<BoundNames>) -> bool
    ensures { result ≡ is_list_of prefix.now names.now }
{
    match names {
        Some(names) => begin_with(prefix, names.as_slice()) && ascend(names.as_slice()),
        None => true,
    }
}

/// Whether a listing is this node's of the names with this prefix, or of all.
pub fn is_listing_at(node: NodeId, prefix: &Option<Name>, listing: &Listing) -> bool
    ensures { result ≡ is_listing_at node prefix.now listing.now }
{
    listing.node.index() == node.index() && is_list_of(prefix, &listing.names)
}
