//! A watch that a node's client keeps for a shell.

ghost use Rattle.std.specs.Prelude.{◌≡◌, ◌++◌, [], length, drop, IfOk, IfSome};
ghost use mathlib.Core.List.{IsPrefix};
ghost use Rattle.rtrb.specs.Ring.{sent};
ghost use Rattle.rr_window.specs.Changes.{changes_with};
ghost use Rattle.rr_shell.specs.Watches.{bytes_of};
ghost use Rattle.rr_run.specs.News.{told_by};

use crate::asking::bytes_of;
use crate::news::{Ear, NewEar, News, Tells};
use rr_threads::Handle;
use rr_turn::Turnstile;
use rr_types::{Name, Refusal, made_of};
use rr_window::{Watch, WindowName};
use rtrb::{Producer, RingBuffer};
use std::alloc::Global;
use std::sync::Wait;

/// Any name. A look at it shows what the node has published by now.
const ANY: &[u8] = b"any";

/// A watch: of which names, from which list on, up to which it has told, and to whom.
#[derive(Drop)]
pub(crate) struct Watcher<W: WindowName> {
    prefix: Option<Name>,
    begun: Watch<W>,
    reached: Watch<W>,
    news: Producer<News, Global, Tells>,
    ghost reaches: { reached ≡ begun ++ drop (length begun) reached },
    ghost tells: { told_by (sent news) ≡ changes_with (bytes_of prefix) begun (drop (length begun) reached) },
}

/// Begins a watch of the names that begin so, or of all, from what the node has published by now on.
///
/// # Errors
/// `OutOfMemory`.
pub(crate) fn begin_watch<W: WindowName, T: Turnstile, R: Wait>(
    alloc: Global,
    handle: &mut Handle<'_, '_, W, T, R>,
    prefix: &Option<Name>,
) -> Result<(Watcher<W>, NewEar), Refusal>
    ensures prefix { IfOk result (λ r. r.0.prefix ≡ prefix.now) }
    ensures begun { IfOk result (λ r. r.0.begun ≡ handle.new.known) }
    ensures later { IsPrefix handle.old.known handle.new.known }
    ensures node { IfOk result (λ r. r.1.ear.node ≡ handle.old.node) }
{
    made_of!(Name);
    let any = Name::new(ANY)?;
    let _seen = handle.look(&any);
    let (news, heard) = RingBuffer::with_protocol::<Global, Tells>(alloc, 1)?;
    let watcher = Watcher {
        prefix: *prefix,
        begun: handle.watch(),
        reached: handle.watch(),
        news,
    };
    let ear = Ear {
        node: handle.node(),
        news: heard,
    };
    Ok((watcher, NewEar { ear }))
}

impl<W: WindowName> Watcher<W> {
    /// Tells what the node has published since. None: changes were missed, or the last ones weren't heard.
    ///
    /// # Errors
    /// `OutOfMemory`.
    pub(crate) fn tell<T: Turnstile, R: Wait>(
        self,
        alloc: Global,
        handle: &mut Handle<'_, '_, W, T, R>,
    ) -> Result<Option<Watcher<W>>, Refusal>
        ensures same { IfOk result (λ r. IfSome r (λ w. (w.prefix ≡ self.prefix) × (w.begun ≡ self.begun))) }
        ensures reached { IfOk result (λ r. IfSome r (λ w. w.reached ≡ handle.new.known)) }
    {
        made_of!(Name);
        let Watcher {
            prefix,
            begun,
            mut reached,
            mut news,
        } = self;
        if news.is_full() {
            return Ok(None);
        }
        let changes = match handle.changes(alloc, bytes_of(&prefix), &mut reached) {
            Ok(Some(changes)) => changes,
            Ok(None) => return Ok(None),
            Err(Refusal::OutOfMemory) => return Err(Refusal::OutOfMemory),
            Err(_) => return Ok(None),
        };
        match news.push(News { prefix, changes }) {
            Ok(()) => Ok(Some(Watcher {
                prefix,
                begun,
                reached,
                news,
            })),
            Err(_) => Ok(None),
        }
    }
}
