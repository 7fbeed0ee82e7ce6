//! The kinds of what happens at a node, each with its word.

ghost use Rattle.std.specs.Prelude.{◌≡◌};
ghost use Rattle.rr_text.specs.Reading.{keyword_text};

/// What an event does.
#[derive(Clone, Copy, Debug)]
pub enum EventKind {
    Submit,
    Hear,
    Suspect,
    Tick,
    Advance,
    Take,
    Device,
    Fail,
    Mark,
    Send,
    Ack,
    Snap,
    Crash,
    Restart,
}

impl EventKind {
    /// Its word in texts.
    pub fn word(self) -> &'static str
        ensures { result.now ≡ keyword_text self }
    {
        match self {
            EventKind::Submit => "submit",
            EventKind::Hear => "hear",
            EventKind::Suspect => "suspect",
            EventKind::Tick => "tick",
            EventKind::Advance => "advance",
            EventKind::Take => "take",
            EventKind::Device => "dev",
            EventKind::Fail => "fail",
            EventKind::Mark => "mark",
            EventKind::Send => "send",
            EventKind::Ack => "ack",
            EventKind::Snap => "snap",
            EventKind::Crash => "crash",
            EventKind::Restart => "restart",
        }
    }
}
