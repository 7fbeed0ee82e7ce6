//! Request numbers that are unique over a program's restarts, whatever the clock does. The file `DIR/requests` holds the first
//! number that is not reserved, in decimal, and a line feed.

ghost use Rattle.std.specs.Prelude.{◌≡◌, ◌+◌, ◌^◌, ◌<◌, ◌≤◌, ◌⊎◌, max, true, false, Some, List, IfOk, IfErr, IfSome, IsOk, IsErr, OnOk};
ghost use Rattle.rr_folders.specs.Requests.{stored_number, greater, greatest_with, greatest_at, greatest_in};
ghost use Rattle.rr_folders.specs.NumberCalls.{NumberCall, bytes_of, free_by, number_text, replaced, IsCutShort, IsAsked, Sees, Reserves, ReservesNone};

use crate::number_file::NumberFile;
use rr_text::text_read::{cut, number};
use rr_text::text_word::{push_byte, push_number};
use rr_types::{Command, Kept, Refusal};
use std::alloc::Global;
use std::io;
use std::io::ErrorKind;
use std::marker::Model;

/// How many numbers are reserved at a time.
const BLOCK: u64 = 1_048_576;

/// Request numbers that are reserved and not used: from the next one on, below the end. It can't be copied, so that none is given
/// twice.
#[derive(Debug, Drop)]
pub struct Block {
    next: u64,
    end: u64,
}

impl Model for Block {
    ghost use Rattle.rr_folders.specs.Requests.{Reserved};

    ghost Value = { Reserved };

    ghost view = { λ b. record { next = b.next; end = b.end } };
}

impl Block {
    // The block that begins with this number, unless numbers are out.
    pub(crate) fn from(first: u64) -> Option<Block>
        ensures some { IfSome result (λ b. (b.next ≡ first) × (b.end ≡ first + 1048576)) }
        ensures none { result ≡ None → 2 ^ 64 ≤ first + 1048576 }
    {
        match first.checked_add(BLOCK) {
            Some(end) => Some(Block { next: first, end }),
            None => None,
        }
    }

    /// A block without numbers, behind which the next one begins at this number or later.
    pub fn behind(least: u64) -> Block
        ensures { result ≡ record { next = least; end = least } }
    {
        Block {
            next: least,
            end: least,
        }
    }

    /// The number that is taken next, if the block has any left. A block behind this one begins there or later.
    pub fn next(&self) -> u64
        ensures { result ≡ self.now.next }
    {
        self.next
    }

    /// The next number, which then is used; none where all are.
    pub fn take(&mut self) -> Option<u64>
        ensures some { IfSome result (λ n. (n ≡ self.old.next) × (n < self.old.end) × (self.new ≡ record { next = n + 1; end = self.old.end })) }
        ensures none { result ≡ None → (self.old.end ≤ self.old.next) × (self.new ≡ self.old) }
    {
        if self.next < self.end {
            let number = self.next;
            self.next += 1;
            Some(number)
        } else {
            None
        }
    }

    /// Leaves out the numbers below this one. It is false where the block has none from there on; then nothing has changed.
    pub fn begin_at(&mut self, least: u64) -> bool
        ensures some { result ≡ true → (least < self.old.end) × (self.new ≡ record { next = max self.old.next least; end = self.old.end }) }
        ensures none { result ≡ false → (self.old.end ≤ least) × (self.new ≡ self.old) }
    {
        if least >= self.end {
            return false;
        }
        self.next = self.next.max(least);
        true
    }
}

fn greater(most: Option<u64>, number: u64) -> Option<u64>
    ensures { result ≡ Some (greater most number) }
{
    match most {
        Some(most) => Some(most.max(number)),
        None => Some(number),
    }
}

// The greatest number of a client, behind this command too.
fn greatest_with(client: u32, most: Option<u64>, command: &Command) -> Option<u64>
    ensures { result ≡ greatest_with client most command.now }
{
    if command.request.client == client {
        greater(most, command.request.seq)
    } else {
        most
    }
}

// The greatest number of a client, behind what is known of an instance too.
fn greatest_at(client: u32, most: Option<u64>, entry: &Kept) -> Option<u64>
    ensures { result ≡ greatest_at client most entry.now }
{
    if let Some(command) = entry.decision() {
        return greatest_with(client, most, command);
    }
    match entry.open() {
        Some(standing) => {
            let most = greatest_with(client, most, standing.estimate_ref());
            match standing.proposal_ref() {
                Some(command) => greatest_with(client, most, command),
                None => most,
            }
        }
        None => unreachable!(),
    }
}

/// The greatest request number of a client that these facts name. None: they name none.
pub fn greatest_in(client: u32, entries: &[Kept]) -> Option<u64>
    ensures { result ≡ greatest_in client entries.now }
{
    let mut most = None;
    for entry in entries {
        most = greatest_at(client, most, entry);
    }
    most
}

// The number that the bytes of the file hold.
fn stored_number(bytes: &[u8]) -> Option<u64>
    ensures { result ≡ stored_number bytes.now }
{
    let (word, rest) = cut(bytes, b'\n')?;
    match rest {
        [] => number(word),
        [_, ..] => None,
    }
}

// The bytes of the file that hold a number.
fn number_text(alloc: Global, stored: u64) -> Result<Vec<u8>, Refusal>
    ensures ok { IfOk result (λ v. v.items ≡ number_text stored) }
    ensures err { IfErr result (λ e. e ≡ Refusal.OutOfMemory) }
{
    let mut text = Vec::new(alloc);
    push_number(&mut text, stored)?;
    push_byte(&mut text, b'\n')?;
    Ok(text)
}

// The first number that is not reserved, by what a read found.
pub(crate) fn free_by(found: &Option<Vec<u8>>) -> Option<u64>
    ensures { result ≡ free_by (bytes_of found.now) }
{
    match found {
        Some(bytes) => stored_number(bytes.as_slice()),
        None => Some(0),
    }
}

// Puts a text in the file's place. A crash leaves the file as it was or with the text, never with part of it.
fn replace<N: NumberFile>(file: &mut N, text: &[u8]) -> io::Result<()>
    ensures ok { IsOk result → IsAsked N.gives (replaced text.now) file.old file.new }
    ensures err { IsErr result → (calls : List NumberCall) × IsCutShort text.now calls × IsAsked N.gives calls file.old file.new }
{
    file.write_fresh(text)?;
    file.sync_fresh()?;
    file.rename_fresh()?;
    file.sync_folder()
}

/// Sees that a block of request numbers can be had by this file. Nothing is written, and none is reserved.
///
/// # Errors
/// `Malformed`, where the file holds no number. `TooLarge`, where numbers are out. `OutOfMemory`, `Device`.
pub fn see_in<N: NumberFile>(file: &mut N) -> Result<(), Refusal>
    ensures ok { OnOk result (Sees N.gives false file.old file.new) }
    ensures err { IfErr result (λ e. (e ≡ Refusal.OutOfMemory) ⊎ (e ≡ Refusal.Device) ⊎ Sees N.gives true file.old file.new) }
{
    let found = match file.read() {
        Ok(found) => found,
        Err(error) if error.kind() == ErrorKind::OutOfMemory => return Err(Refusal::OutOfMemory),
        Err(_) => return Err(Refusal::Device),
    };
    match free_by(&found) {
        None => Err(Refusal::Malformed(0)),
        Some(first) => match Block::from(first) {
            Some(_) => Ok(()),
            None => Err(Refusal::TooLarge),
        },
    }
}

/// Reserves the next block of request numbers, from `least` on, by this file. No earlier block has any of them, since the file says
/// so, and lasts, before the block is given.
///
/// # Errors
/// `OutOfMemory`: nothing was written. `Malformed`, where the file holds no number: it is left as it is. `TooLarge`, where numbers are
/// out. `Device`, where a call failed; the file may hold either number then.
pub fn reserve_in<N: NumberFile>(alloc: Global, file: &mut N, least: u64) -> Result<Block, Refusal>
    ensures ok { IfOk result (λ b. Reserves N.gives least b file.old file.new) }
    ensures err { IfErr result (λ e. ReservesNone N.gives least file.old file.new e) }
{
    let found = match file.read() {
        Ok(found) => found,
        Err(error) if error.kind() == ErrorKind::OutOfMemory => return Err(Refusal::OutOfMemory),
        Err(_) => return Err(Refusal::Device),
    };
    let Some(first) = free_by(&found) else {
        return Err(Refusal::Malformed(0));
    };
    let Some(block) = Block::from(first.max(least)) else {
        return Err(Refusal::TooLarge);
    };
    let text = number_text(alloc, block.end)?;
    match replace(file, text.as_slice()) {
        Ok(()) => Ok(block),
        Err(_) => Err(Refusal::Device),
    }
}
