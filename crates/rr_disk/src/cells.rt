//! Work on rows of bytes, of which some are loose.

ghost use Rattle.std.specs.Prelude.{◌≡◌, ℕ, ◌+◌, ◌<◌, ◌≤◌, ◌++◌, length, take, drop, get_or, set, min, Bool, if◌then◌else◌, vec_len, vec_capacity};
ghost use Rattle.rr_disk.specs.Crash.{filled, left_of, loose_count};
ghost use Rattle.rr_disk.specs.Strips.{IsRanged, cells_from, is_loose};

use crate::loose::Loose;

/// The bytes from an offset on, where there are any.
pub fn behind(bytes: &[u8], at: u64) -> &[u8]
    ensures { result.now ≡ drop at bytes.now }
{
    if at < bytes.len() as u64 {
        &bytes[at as usize..]
    } else {
        &[]
    }
}

/// The first `count` bytes, or all if there are fewer.
pub fn front(bytes: &[u8], count: u64) -> &[u8]
    ensures { result.now ≡ take count bytes.now }
{
    if count < bytes.len() as u64 {
        &bytes[..count as usize]
    } else {
        bytes
    }
}

/// Writes the bytes over what is there and past the end. There is room for them.
pub fn write_over(row: &mut Vec<u8>, at: usize, bytes: &[u8])
    requires starts { at ≤ vec_len row.old }
    requires room { at + length bytes.now ≤ vec_capacity row.old }
    ensures items { row.new.items ≡ take at row.old.items ++ bytes.now ++ drop (at + length bytes.now) row.old.items }
{
    if at + bytes.len() <= row.len() {
        row[at..at + bytes.len()].copy_from_slice(bytes);
    } else {
        row.truncate(at);
        match row.extend_from_slice(bytes) {
            Ok(()) => {}
            Err(_) => unreachable!(),
        }
    }
}

/// Gives the loose bytes those of the fill in turn, repeated, from the byte with number `skip` on. With an empty
/// fill they keep their own. Answers how many were loose.
pub fn fill_within(bytes: &mut Vec<u8>, loose: &Loose, fill: &[u8], skip: u64) -> u64
    requires { IsRanged loose.now }
    ensures bytes { bytes.new.items ≡ left_of fill.now skip (cells_from (is_loose loose.now) 0 bytes.old.items) }
    ensures count { result ≡ loose_count (cells_from (is_loose loose.now) 0 bytes.old.items) }
{
    let high = loose.high().min(bytes.len());
    let mut count: u64 = 0;
    for k in loose.low().min(high)..high {
        count += fill_at(bytes, k, loose.has(k), fill, skip as u128 + count as u128);
    }
    count
}

// Gives the byte at a place, where it is loose, the one with this number of a fill that is repeated. Answers 1, or
// 0 where it isn't loose.
fn fill_at(bytes: &mut Vec<u8>, k: usize, loose: bool, fill: &[u8], number: u128) -> u64
    requires { k < vec_len bytes.old }
    ensures bytes { bytes.new.items ≡ set bytes.old.items k (if loose then filled fill.now number (get_or bytes.old.items k 0) else get_or bytes.old.items k 0) }
    ensures count { result ≡ (if loose then 1 else 0) }
    ensures one { result ≤ 1 }
    ensures len { vec_len bytes.new ≡ vec_len bytes.old }
{
    if loose {
        bytes[k] = fill_byte(fill, number, bytes[k]);
        1
    } else {
        0
    }
}

/// The byte with this number of a fill that is repeated, or the other where it is empty.
pub fn fill_byte(fill: &[u8], number: u128, own: u8) -> u8
    ensures { result ≡ filled fill.now number own }
{
    if fill.is_empty() {
        own
    } else {
        fill[(number % fill.len() as u128) as usize]
    }
}
