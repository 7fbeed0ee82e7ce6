//! How long a submit waits.

/// How many milliseconds there are at most from one look for a reply to the next.
const LOOK: u64 = 50;

/// How many looks follow one another at once.
const BUSY: u64 = 10;

/// The most looks of a submit, whatever the time.
const MOST: u64 = 10_000_000;

/// How many looks take so many milliseconds. A client is woken between two looks only by what it waits for, or as a snapshot is
/// written.
pub(crate) fn looks_in(millis: u64) -> u32 {
    let looks = (millis / LOOK).saturating_add(BUSY + 1);
    looks.min(MOST) as u32
}
