//! Crashes of a node: which are tried.

ghost use Rattle.std.specs.Prelude.{◌≡◌, ◌≤◌, ◌∷◌, [], IfOk};
ghost use Rattle.rr_disk.specs.Crash.{restarted, crash_images};

use rand_core::utils::NextWord;
use rand_pcg::Pcg32;
use rr_disk::{Area, Disk, MemDisk};
use std::alloc::{AllocError, Global};

/// The bytes that loose places take: an open gate's, and a closed one's.
const FILLS: [u8; 2] = [0xA5, 0];

/// How many pairs of cuts are drawn before the first device call of an opening, and after each call: 10,000 for nine
/// calls.
const DRAWN: u32 = 1_000;

/// A crash after `calls` device calls: how many bytes each area keeps at most, and the byte that replaces loose ones.
#[derive(Clone, Copy)]
pub struct Crash {
    pub calls: u32,
    pub cut_0: u32,
    pub cut_1: u32,
    pub fill: u8,
}

impl Crash {
    /// A disk as the crash leaves it.
    pub fn leaves(self, alloc: Global, disk: &MemDisk) -> Result<MemDisk, AllocError>
        ensures { IfOk result (λ left. left ≡ record disk.now { areas = restarted (crash_images self.cut_0 self.cut_1 (self.fill ∷ []) disk.now.areas) }) }
    {
        let mut left = disk.copied(alloc)?;
        left.crash(u64::from(self.cut_0), u64::from(self.cut_1), &[self.fill]);
        Ok(left)
    }
}

/// Which pairs of cuts are tried after a device call.
#[derive(Clone, Copy)]
pub enum Cuts {
    /// Every pair, each cut from 0 to one past the end of its area.
    Every,
    /// Pairs of this range that are drawn.
    Drawn,
}

impl Cuts {
    /// The crashes to try on a disk after `calls` device calls.
    pub fn crashes(
        self,
        alloc: Global,
        generator: &mut Pcg32,
        calls: u32,
        disk: &MemDisk,
    ) -> Result<Vec<Crash>, AllocError> {
        let ends = [past(disk, Area::First), past(disk, Area::Second)];
        match self {
            Cuts::Every => every_crash(alloc, calls, ends),
            Cuts::Drawn => drawn_crashes(alloc, generator, calls, ends),
        }
    }
}

/// A cut that is one past the end of an area.
fn past(disk: &MemDisk, area: Area) -> u32 {
    u32::try_from(disk.len(area))
        .unwrap_or(u32::MAX)
        .saturating_add(1)
}

fn every_crash(alloc: Global, calls: u32, ends: [u32; 2]) -> Result<Vec<Crash>, AllocError> {
    let mut crashes = Vec::new(alloc);
    for cut_0 in 0..=ends[0] {
        for cut_1 in 0..=ends[1] {
            push_crashes(&mut crashes, calls, cut_0, cut_1)?;
        }
    }
    Ok(crashes)
}

fn drawn_crashes(
    alloc: Global,
    generator: &mut Pcg32,
    calls: u32,
    ends: [u32; 2],
) -> Result<Vec<Crash>, AllocError> {
    let mut crashes = Vec::new(alloc);
    for _ in 0..DRAWN {
        let cut_0 = drawn_cut(generator, ends[0]);
        let cut_1 = drawn_cut(generator, ends[1]);
        push_crashes(&mut crashes, calls, cut_0, cut_1)?;
    }
    Ok(crashes)
}

/// A drawn cut, at most this one.
fn drawn_cut(generator: &mut Pcg32, end: u32) -> u32
    ensures { result ≤ end }
{
    let word = generator.next_word();
    (u64::from(word) % (u64::from(end) + 1)) as u32
}

/// Appends the crashes of a pair of cuts, one with each fill.
fn push_crashes(
    crashes: &mut Vec<Crash>,
    calls: u32,
    cut_0: u32,
    cut_1: u32,
) -> Result<(), AllocError> {
    for fill in FILLS {
        crashes.push(Crash {
            calls,
            cut_0,
            cut_1,
            fill,
        })?;
    }
    Ok(())
}
