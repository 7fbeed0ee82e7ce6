//! The words with which a line of a shell begins: how each is used, what it does, and which was meant where none stands.

ghost use Rattle.std.specs.Prelude.{◌≡◌, ◌++◌, OnOk};
ghost use Rattle.std.specs.List.{flat_map};
ghost use Rattle.rr_types.specs.Commands.{find_by, op_form};
ghost use Rattle.rr_explain.specs.ShellWords.{shell_words, word_text, shell_word_at, word_form, word_about, word_example, small_letter, behind_front, is_same_word, is_swapped, behind_first, is_slip_at, is_slip, nearest_of, nearest_word, word_help, help_line};

use rr_text::text_word::{push_byte, push_bytes};
use rr_types::OpKind;
use std::alloc::AllocError;

/// A word with which a line of a shell begins.
#[derive(Clone, Copy, Debug)]
pub enum ShellWord {
    /// That of an operation.
    Op(OpKind),
    Look,
    List,
    Watch,
    Sync,
    At,
    Stop,
    Start,
    Snapshot,
    Status,
    Again,
    Help,
    Quit,
    Exit,
}

/// All of them, in the order in which they are told.
pub fn shell_words() -> [ShellWord; 17]
    ensures { result ≡ shell_words }
{
    [
        ShellWord::Op(OpKind::Claim),
        ShellWord::Op(OpKind::Update),
        ShellWord::Op(OpKind::Release),
        ShellWord::Op(OpKind::Transfer),
        ShellWord::Look,
        ShellWord::List,
        ShellWord::Watch,
        ShellWord::Sync,
        ShellWord::At,
        ShellWord::Stop,
        ShellWord::Start,
        ShellWord::Snapshot,
        ShellWord::Status,
        ShellWord::Again,
        ShellWord::Help,
        ShellWord::Quit,
        ShellWord::Exit,
    ]
}

fn op_form(kind: OpKind) -> &'static str
    ensures { result.now ≡ op_form kind }
{
    match kind {
        OpKind::Claim => "claim NAME [VALUE]",
        OpKind::Update => "update NAME [VALUE]",
        OpKind::Release => "release NAME",
        OpKind::Transfer => "transfer NAME OWNER",
    }
}

impl ShellWord {
    /// The word itself.
    pub fn word(self) -> &'static str
        ensures { result.now ≡ word_text self }
    {
        match self {
            ShellWord::Op(kind) => kind.word(),
            ShellWord::Look => "look",
            ShellWord::List => "list",
            ShellWord::Watch => "watch",
            ShellWord::Sync => "sync",
            ShellWord::At => "at",
            ShellWord::Stop => "stop",
            ShellWord::Start => "start",
            ShellWord::Snapshot => "snapshot",
            ShellWord::Status => "status",
            ShellWord::Again => "again",
            ShellWord::Help => "help",
            ShellWord::Quit => "quit",
            ShellWord::Exit => "exit",
        }
    }

    /// Which word a text is.
    pub fn of_word(text: &[u8]) -> Option<ShellWord>
        ensures { result ≡ shell_word_at text.now }
    {
        found_in(text, &shell_words())
    }

    /// The word that was meant by a text: the first that it is but for capitals and one slip, as a letter too many.
    pub fn nearest(text: &[u8]) -> Option<ShellWord>
        ensures { result ≡ nearest_word text.now }
    {
        nearest_in(text, &shell_words())
    }

    /// How a line that begins with it is written.
    pub fn form(self) -> &'static str
        ensures { result.now ≡ word_form self }
    {
        match self {
            ShellWord::Op(kind) => op_form(kind),
            ShellWord::Look => "look NAME",
            ShellWord::List => "list [PREFIX]",
            ShellWord::Watch => "watch [PREFIX]",
            ShellWord::At => "at NODE",
            ShellWord::Stop => "stop NODE",
            ShellWord::Start => "start NODE",
            ShellWord::Snapshot => "snapshot NODE",
            ShellWord::Help => "help [COMMAND]",
            ShellWord::Sync
            | ShellWord::Status
            | ShellWord::Again
            | ShellWord::Quit
            | ShellWord::Exit => self.word(),
        }
    }

    /// What a line that begins with it does.
    #[tactic(auto, unfolding(crate::specs::ShellWords::word_about))]
    pub fn about(self) -> &'static str
        ensures { result.now ≡ word_about self }
    {
        match self {
            ShellWord::Op(OpKind::Claim) => {
                "takes a free name for this client, with a value or the empty one"
            }
            ShellWord::Op(OpKind::Update) => {
                "sets the value of a name of this client; without VALUE the empty one"
            }
            ShellWord::Op(OpKind::Release) => "gives up a name of this client, which is free then",
            ShellWord::Op(OpKind::Transfer) => {
                "hands a name of this client to the client with the number OWNER"
            }
            ShellWord::Look => {
                "tells who has a name and its value, as the node that is asked knows it"
            }
            ShellWord::List => "lists the names that are taken, or those that begin with PREFIX",
            ShellWord::Watch => "tells each change of these names, until the next line",
            ShellWord::Sync => "waits until looks here have all that was answered anywhere before",
            ShellWord::At => "asks this node from now on",
            ShellWord::Stop => "takes a node down, as by a crash; the others go on",
            ShellWord::Start => "starts a node that is down, from its folder",
            ShellWord::Snapshot => "has a node write a snapshot of its facts",
            ShellWord::Status => "tells of each node whether it is up, and what it knows",
            ShellWord::Again => {
                "asks the last unacknowledged command once more, so that it counts once"
            }
            ShellWord::Help => "tells all commands, or how one is used",
            ShellWord::Quit => "ends the shell",
            ShellWord::Exit => "ends the shell, as quit does",
        }
    }

    /// A line that begins with it, as an example.
    #[tactic(auto, unfolding(crate::specs::ShellWords::word_example))]
    pub fn example(self) -> &'static str
        ensures { result.now ≡ word_example self }
    {
        match self {
            ShellWord::Op(OpKind::Claim) => "claim printer room-4",
            ShellWord::Op(OpKind::Update) => "update printer room-5",
            ShellWord::Op(OpKind::Release) => "release printer",
            ShellWord::Op(OpKind::Transfer) => "transfer printer 9",
            ShellWord::Look => "look printer",
            ShellWord::List => "list room-",
            ShellWord::Watch => "watch room-",
            ShellWord::At => "at 1",
            ShellWord::Stop => "stop 2",
            ShellWord::Start => "start 2",
            ShellWord::Snapshot => "snapshot 0",
            ShellWord::Help => "help claim",
            ShellWord::Sync
            | ShellWord::Status
            | ShellWord::Again
            | ShellWord::Quit
            | ShellWord::Exit => self.word(),
        }
    }
}

/// Appends how a word is used, and what for.
///
/// # Errors
/// Bytes of the text may then stand at the end.
pub fn push_word_help(out: &mut Vec<u8>, word: ShellWord) -> Result<(), AllocError>
    ensures ok { OnOk result (out.new.items ≡ out.old.items ++ word_help word) }
{
    push_bytes(out, word.form().as_bytes())?;
    push_bytes(out, b": ")?;
    push_bytes(out, word.about().as_bytes())
}

/// Appends a line for each of these words: how it is used, and what for.
///
/// # Errors
/// Bytes of the lines may then stand at the end.
pub fn push_help_lines(out: &mut Vec<u8>, words: &[ShellWord]) -> Result<(), AllocError>
    ensures ok { OnOk result (out.new.items ≡ out.old.items ++ flat_map help_line words.now) }
{
    for word in words {
        push_word_help(out, *word)?;
        push_byte(out, b'\n')?;
    }
    Ok(())
}

// Which of these words a text is.
fn found_in(text: &[u8], words: &[ShellWord]) -> Option<ShellWord>
    ensures { result ≡ find_by word_text text.now words.now }
{
    for word in words {
        if text == word.word().as_bytes() {
            return Some(*word);
        }
    }
    None
}

// The first of these words that a text is, but for capitals and one slip.
fn nearest_in(text: &[u8], words: &[ShellWord]) -> Option<ShellWord>
    ensures { result ≡ nearest_of text.now words.now }
{
    for word in words {
        if is_slip(text, word.word().as_bytes()) {
            return Some(*word);
        }
    }
    None
}

fn small_letter(byte: u8) -> u8
    ensures { result ≡ small_letter byte }
{
    if byte >= b'A' && byte <= b'Z' {
        byte + 32
    } else {
        byte
    }
}

// What is left of two texts behind the front in which they are the same, but for capitals in the first.
fn behind_front<'a, 'b>(text: &'a [u8], word: &'b [u8]) -> (&'a [u8], &'b [u8])
    ensures { (result.0.now, result.1.now) ≡ behind_front text.now word.now }
{
    match text {
        [] => (text, word),
        [first, rest @ ..] => match word {
            [] => (text, word),
            [letter, letters @ ..] => {
                if small_letter(*first) == *letter {
                    behind_front(rest, letters)
                } else {
                    (text, word)
                }
            }
        },
    }
}

// Whether a text is a word, but for capitals.
fn is_same_word(text: &[u8], word: &[u8]) -> bool
    ensures { result ≡ is_same_word text.now word.now }
{
    let (left, more) = behind_front(text, word);
    left.is_empty() && more.is_empty()
}

// Whether the first two letters of a text are those of a word the other way round, and all else is the same.
fn is_swapped(text: &[u8], word: &[u8]) -> bool
    ensures { result ≡ is_swapped text.now word.now }
{
    match text {
        [] | [_] => false,
        [first, second, rest @ ..] => match word {
            [] | [_] => false,
            [letter, next, letters @ ..] => {
                small_letter(*first) == *next
                    && small_letter(*second) == *letter
                    && is_same_word(rest, letters)
            }
        },
    }
}

fn behind_first(text: &[u8]) -> &[u8]
    ensures { result.now ≡ behind_first text.now }
{
    match text {
        [] => text,
        [_, rest @ ..] => rest,
    }
}

// Whether one slip at most, at the front, leads from a word to a text.
fn is_slip_at(text: &[u8], word: &[u8]) -> bool
    ensures { result ≡ is_slip_at text.now word.now }
{
    is_same_word(behind_first(text), word)
        || is_same_word(text, behind_first(word))
        || is_same_word(behind_first(text), behind_first(word))
        || is_swapped(text, word)
}

fn is_slip(text: &[u8], word: &[u8]) -> bool
    ensures { result ≡ is_slip text.now word.now }
{
    let (text, word) = behind_front(text, word);
    is_slip_at(text, word)
}
