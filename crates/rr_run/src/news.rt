//! What a node's client tells a shell that watches: each change, through a ring that keeps their order.

ghost use Rattle.std.specs.Prelude.{◌≡◌, ◌++◌, [], true, IfOk, IfSome};
ghost use Rattle.rtrb.specs.Ring.{received};
ghost use Rattle.rr_shell.specs.Watches.{bytes_of, IsPiece};
ghost use Rattle.rr_run.specs.News.{told_by};

use rr_types::{Name, NodeId};
use rr_window::Change;
use rtrb::{Consumer, Protocol};
use std::alloc::Global;

/// What one look for changes has told.
#[derive(Drop)]
pub(crate) struct News {
    pub(crate) prefix: Option<Name>,
    pub(crate) changes: Vec<Change>,
}

/// The rule of a ring of news: together they are the changes of one piece of a list.
pub(crate) struct Tells;

impl Protocol<News> for Tells {
    ghost use Rattle.std.specs.Prelude.{◌++◌};
    ghost use Rattle.rr_shell.specs.Watches.{bytes_of, IsPiece};
    ghost use Rattle.rr_run.specs.News.{told_by};

    ghost allows = { λ before news. IsPiece (bytes_of news.prefix) (told_by before ++ news.changes.items) };
}

/// Where a shell hears the news of a node.
#[derive(Drop)]
pub(crate) struct Ear {
    pub(crate) node: NodeId,
    pub(crate) news: Consumer<News, Global, Tells>,
}

/// The same, where nothing was heard yet.
#[derive(Drop)]
pub(crate) struct NewEar {
    pub(crate) ear: Ear,
    ghost fresh: { received ear.news ≡ [] },
}

// Whether two prefixes are one.
fn is_same_prefix(one: &Option<Name>, other: &Option<Name>) -> bool
    ensures same { result ≡ true → one.now ≡ other.now }
    ensures other { one.now ≡ other.now → result ≡ true }
{
    match (one, other) {
        (None, None) => true,
        (Some(one), Some(other)) => one.as_bytes() == other.as_bytes(),
        _ => false,
    }
}

/// The changes that come next, of the names that begin so. None: nothing came, or another's.
pub(crate) fn next_changes(
    news: &mut Consumer<News, Global, Tells>,
    prefix: &Option<Name>,
) -> Option<Vec<Change>>
    ensures more { IfSome result (λ changes. told_by (received news.new) ≡ told_by (received news.old) ++ changes.items) }
    ensures piece { IfSome result (λ changes. IsPiece (bytes_of prefix.now) (told_by (received news.new))) }
{
    let Ok(next) = news.pop() else {
        return None;
    };
    let News {
        prefix: own,
        changes,
    } = next;
    if is_same_prefix(&own, prefix) {
        Some(changes)
    } else {
        None
    }
}
