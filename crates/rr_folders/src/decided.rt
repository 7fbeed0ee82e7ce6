//! What folders have decided.

ghost use Rattle.std.specs.Prelude.{◌≡◌, [], ◌∷◌, ◌++◌, length, codes, decimal, IfOk};
ghost use Rattle.rr_types.specs.Promises.{decided_from};
ghost use Rattle.rr_text.specs.ReportTexts.{line, decided_lines};
ghost use Rattle.rr_folders.specs.Agreement.{decided_of, longest_decided};
ghost use Rattle.rr_folders.specs.Renewal.{entries_of};

use crate::verify_folder::Reading;
use rr_text::text_report::push_decided_list;
use rr_types::{Command, Kept, Op, made_of};
use std::alloc::{AllocError, Global};

/// How many instances these entries decide from 0 on without a gap.
pub(crate) fn decided_count(entries: &[Kept]) -> usize
    ensures { result ≡ length (decided_from 0 entries.now) }
{
    made_of!(Command, Op);
    for (place, entry) in entries.iter().enumerate() {
        if entry.instance.number() as usize != place {
            return place;
        }
        match entry.decision() {
            Some(_) => {}
            None => return place,
        }
    }
    entries.len()
}

// The commands that these entries decide from instance 0 on without a gap.
fn decided_commands(alloc: Global, entries: &[Kept]) -> Result<Vec<Command>, AllocError>
    ensures { IfOk result (λ v. v.items ≡ decided_from 0 entries.now) }
{
    made_of!(Command, Op);
    let mut commands = Vec::new(alloc);
    for (place, entry) in entries.iter().enumerate() {
        if entry.instance.number() as usize != place {
            break;
        }
        match entry.decision() {
            Some(command) => commands.push(*command)?,
            None => break,
        }
    }
    Ok(commands)
}

/// The entries of a folder; none where it holds no facts.
pub(crate) fn entries_of(reading: &Reading) -> &[Kept]
    ensures entries { result.now ≡ entries_of reading.now }
    ensures decided { decided_from 0 result.now ≡ decided_of reading.now }
{
    match reading {
        Reading::Facts(folder) => folder.promise.entries(),
        Reading::Blank => &[],
        Reading::Refused(_) => &[],
    }
}

/// The longest of the lists that folders have decided, the first one among those as long.
///
/// # Errors
/// Memory alone.
pub fn longest_decided(alloc: Global, readings: &[Reading]) -> Result<Vec<Command>, AllocError>
    ensures { IfOk result (λ v. v.items ≡ longest_decided readings.now) }
{
    let mut longest: &[Kept] = &[];
    for reading in readings {
        let entries = entries_of(reading);
        if decided_count(longest) < decided_count(entries) {
            longest = entries;
        }
    }
    decided_commands(alloc, longest)
}

/// A decided list, as a report ends with it: `decided N`, then N lines `I C.S OP`.
///
/// # Errors
/// `OutOfMemory`.
pub fn decided_text(alloc: Global, commands: &[Command]) -> Result<Vec<u8>, AllocError>
    ensures ok { IfOk result (λ v. v.items ≡ line (codes "decided" ∷ decimal (length commands.now) ∷ []) ++ decided_lines 0 commands.now) }
{
    let mut text = Vec::new(alloc);
    push_decided_list(&mut text, commands)?;
    Ok(text)
}
