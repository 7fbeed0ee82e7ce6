//! The list of a window as proofs know it. Nothing stores its commands: what is there at run time is its length.

ghost use Rattle.std.specs.Prelude.{◌≡◌, ◌+◌, ◌^◌, ◌<◌, ◌≤◌, ◌++◌, ◌∷◌, [], length, IfSome};
ghost use mathlib.Core.List.{IsPrefix};
ghost use Rattle.rr_window.specs.Lists.{head_of, beginning};

use logbook::{Gain, Offer, Plain, Play, Rule, Seen, Start, Word};
use rr_types::Command;
use std::marker::{Brand, Model, PhantomData};

/// The rule of a window's list: its word holds the list's length.
pub struct Counted;

impl Rule<Command, u64> for Counted {
    ghost use Rattle.std.specs.Prelude.{[]};
    ghost use base.Fml.{ftrue};
    ghost use Rattle.rr_window.specs.Lists.{IsCounted};

    ghost holds = { λ cells list. IsCounted cells list };

    ghost first = { [] };

    ghost hinted = { λ n list. Unit {0} };

    ghost shows = { λ list. [] };

    ghost keeps = { λ names list. ftrue };

    ghost moves = { λ ask before after answer. Unit {0} };
}

/// A step on the list trades nothing for it.
pub struct Nothing;

impl Gain<Command, u64> for Nothing {
    ghost use base.Fml.{ftrue};

    ghost after = { λ names about answer. ftrue };
}

/// The step that adds a command to the list.
pub struct Add;

impl Play<Command, u64> for Add {
    ghost use Rattle.rr_window.specs.Lists.{Adds};

    ghost then = { Adds };
}

impl Plain<Command, Command, u64> for Add {
    ghost use Rattle.std.specs.Prelude.{None};

    ghost ask = { λ command. command };

    ghost state = { λ command. None };
}

/// Which window it is. All that belongs to one window has one name as its type parameter, so that nobody learns
/// the receipt of another window. A program picks the name where it opens the window.
pub trait WindowName {
    ghost use Rattle.logbook.specs.Pages.{Book};

    /// The log that the window with this name keeps its list by.
    ghost book: { Book };
}

impl WindowName for Brand {
    ghost book = { record { number = 0; log_name = 0; cells_name = 0 } };
}

/// An empty list, on which no window has been opened yet. Contracts see which list it is.
#[derive(Drop)]
pub struct NewList {
    word: Word<Command, u64, Counted>,
    seen: Seen<Command, u64, Counted>,
}

impl Model for NewList {
    ghost use Rattle.std.specs.Prelude.{◌≡◌, []};
    ghost use Rattle.logbook.specs.Pages.{Book};
    ghost use Rattle.rr_window.specs.Lists.{head_of};

    ghost Value = { Book };

    ghost view = { λ l. l.seen.book };

    ghost invariant = { λ l. (l.seen.log ≡ []) × (l.word ≡ head_of l.seen.book) };
}

impl NewList {
    /// A list of its own. It takes no memory.
    pub fn new() -> NewList {
        let (seen, mut first, _second) = Seen::open(Start::alone(), 0, 0);
        NewList {
            word: Word::tracked(0, &mut first),
            seen,
        }
    }

    /// The list's length under the window's name, and its beginning that is empty.
    pub(crate) fn named<W: WindowName>(self) -> (Length<W>, Beginning)
        requires { self ≡ W.book }
        ensures { result.1 ≡ beginning W.book [] }
    {
        let NewList { word, seen } = self;
        (
            Length {
                word,
                of: PhantomData,
            },
            Beginning { count: 0, seen },
        )
    }
}

/// The list's length. Who owns it alone makes the list longer.
#[derive(Drop)]
pub struct Length<W: WindowName> {
    word: Word<Command, u64, Counted>,
    of: PhantomData<W>,
    ghost word_is: { word ≡ head_of W.book },
}

/// A beginning of a window's list. Contracts see its commands; what is stored is how many there are.
#[derive(Drop)]
pub struct Beginning {
    count: u64,
    seen: Seen<Command, u64, Counted>,
}

impl Model for Beginning {
    ghost use Rattle.std.specs.Prelude.{◌≡◌, length};
    ghost use Rattle.rr_window.specs.Lists.{Beginning, beginning};

    ghost Value = { Beginning };

    ghost view = { λ b. beginning b.seen.book b.seen.log };

    ghost invariant = { λ b. b.count ≡ length b.seen.log };
}

impl Beginning {
    /// How many commands it has.
    pub fn count(&self) -> u64
        ensures { result ≡ length self.now.list }
    {
        self.count
    }

    /// The same beginning once more.
    pub fn again(&self) -> Beginning
        ensures { result ≡ self.now }
    {
        Beginning {
            count: self.count,
            seen: self.seen.again(),
        }
    }

    /// Of two beginnings of one list the shorter begins the longer. Nothing is done at run time.
    pub fn begins(&self, other: &Beginning)
        requires one { other.now.book ≡ self.now.book }
        requires shorter { length self.now.list ≤ length other.now.list }
        ensures { IsPrefix self.now.list other.now.list }
    {
        let mut both = self.seen.again();
        both.learn(&other.seen);
    }

    /// The list with one more command, or nothing where the list is longer already.
    pub fn with<W: WindowName>(
        &self,
        list_length: &Length<W>,
        command: &Command,
    ) -> Option<Beginning>
        requires own { self.now.book ≡ W.book }
        requires room { length self.now.list + 1 < 2 ^ 64 }
        ensures { IfSome result (λ b. b ≡ beginning W.book (self.now.list ++ command.now ∷ [])) }
    {
        let mut seen = self.seen.again();
        let mut offer: Offer<Command, u64, Counted, Nothing> = seen.plain::<Nothing, Command, Add>(
            command,
        );
        let mut pen = seen.no_pen();
        let count = self.count;
        let found = list_length
            .word
            .compare_exchange::<Add, Nothing>(count, count + 1, &mut seen, &mut offer, &mut pen);
        if found != count {
            return None;
        }
        Some(Beginning {
            count: count + 1,
            seen,
        })
    }
}
