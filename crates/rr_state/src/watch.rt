//! What the detector knows of one node.

ghost use Rattle.std.specs.Prelude.{◌≡◌};
ghost use Rattle.rr_model.specs.NodeDetector.{new_watch, counted, is_late, ticked, beaten};

use std::marker::Model;

/// What the heartbeat detector knows of a node.
#[derive(Clone, Copy, Debug)]
pub struct Watch {
    pub ticks: u32,
    pub time_out: u32,
}

impl Model for Watch {
    ghost use Rattle.rr_model.specs.NodeState as model;

    ghost Value = { model.Watch };

    ghost view = { λ w. record { ticks = w.ticks; time_out = w.time_out } };

    ghost inverse = { λ w. record { ticks = w.ticks; time_out = w.time_out } };
}

/// One more; counts stop at the greatest number of their type.
fn counted(count: u32) -> u32
    ensures { result ≡ counted count }
{
    count.saturating_add(1)
}

impl Watch {
    /// What is known of a node at the start: four ticks without a beat are borne.
    pub fn new() -> Watch
        ensures { result ≡ new_watch }
    {
        Watch {
            ticks: 0,
            time_out: 4,
        }
    }

    /// Whether more ticks have come since the last beat than are borne.
    pub fn is_late(self) -> bool
        ensures { result ≡ is_late self }
    {
        self.time_out < self.ticks
    }

    /// After a tick.
    pub fn ticked(self) -> Watch
        ensures { result ≡ ticked self }
    {
        Watch {
            ticks: counted(self.ticks),
            time_out: self.time_out,
        }
    }

    /// After a beat: a beat of a node that was late raises its time-out by one.
    pub fn beaten(self) -> Watch
        ensures { result ≡ beaten self }
    {
        let time_out = if self.is_late() {
            counted(self.time_out)
        } else {
            self.time_out
        };
        Watch { ticks: 0, time_out }
    }
}
