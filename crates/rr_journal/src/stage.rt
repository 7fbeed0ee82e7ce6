//! The six device calls by which an area is written anew: a snapshot's frame behind a gate that is closed before and
//! opened after. Where the area begins with a closed gate they are four.

ghost use Rattle.std.specs.Prelude.{◌≡◌, ◌≤◌, OnOk, OnErr, IfErr};
ghost use Rattle.rr_types.specs.declared.refusal.Refusal.TheVariants.{Device};
ghost use Rattle.rr_types.specs.Counts.{counted, Grew};
ghost use Rattle.rr_journal.specs.Calls.{after_call};
ghost use Rattle.rr_journal.specs.OpeningTable.{IsLeftBy};
ghost use Rattle.rr_journal.specs.Stages.{first_stage, stage_behind, call_at, Gave};

use crate::content::OPEN_GATE;
use rr_disk::{Area, Disk};
use rr_types::Refusal;

/// How far the writing of an area has come: the device call that is due.
#[derive(Clone, Copy, Debug)]
pub enum Stage {
    /// A closed gate will be written at the front of the area.
    Closing,
    /// A sync will make that safe.
    SettlingClosed,
    /// The snapshot's frame will be written behind the closed gate.
    WritingBody,
    /// A sync will make that safe.
    SettlingBody,
    /// The gate will be opened.
    OpeningGate,
    /// A sync will make that safe, and the area formatted.
    SettlingGate,
}

impl Stage {
    /// The first stage, by whether the area has to be closed before.
    pub fn first(closes: bool) -> Stage
        ensures { result ≡ first_stage closes }
    {
        // An opening trusts the frame behind an open gate. So the gate is closed, and that made safe, before the frame
        // is overwritten.
        if closes {
            Stage::Closing
        } else {
            Stage::WritingBody
        }
    }

    /// The stage behind the device call of this one; `None` behind the last.
    pub fn next(self) -> Option<Stage>
        ensures { result ≡ stage_behind self }
    {
        match self {
            Stage::Closing => Some(Stage::SettlingClosed),
            Stage::SettlingClosed => Some(Stage::WritingBody),
            Stage::WritingBody => Some(Stage::SettlingBody),
            Stage::SettlingBody => Some(Stage::OpeningGate),
            Stage::OpeningGate => Some(Stage::SettlingGate),
            Stage::SettlingGate => None,
        }
    }

    /// Makes the device call that is due where this is written behind the gate of the area.
    ///
    /// # Errors
    /// `Device`.
    pub fn call<D: Disk>(self, disk: &mut D, area: Area, body: &[u8]) -> Result<(), Refusal>
        ensures gave { Gave D.write_gives D.sync_gives (call_at area body.now self) disk.old result disk.new }
        ensures cause { IfErr result (λ e. (e ≡ Device) × Grew (D.faults disk.old) (D.faults disk.new)) }
        ensures call { D.calls disk.new ≡ counted (D.calls disk.old) }
        ensures faults { D.faults disk.old ≤ D.faults disk.new }
        ensures tells { D.tells disk.old → D.tells disk.new }
        ensures ok { D.tells disk.old → OnOk result (D.areas disk.new ≡ after_call (call_at area body.now self) (D.areas disk.old)) }
        ensures err { D.tells disk.old → OnErr result (IsLeftBy (call_at area body.now self) (D.areas disk.old) (D.areas disk.new)) }
    {
        match self {
            Stage::Closing => disk.write_at(area, 0, &[0]),
            Stage::WritingBody => disk.write_at(area, 1, body),
            Stage::OpeningGate => disk.write_at(area, 0, &[OPEN_GATE]),
            Stage::SettlingClosed | Stage::SettlingBody | Stage::SettlingGate => disk.sync(),
        }
    }
}
