//! What comes of an event of a schedule.

/// What came of an event.
#[derive(Clone, Copy)]
pub enum Outcome {
    /// It was done, and the report has no line of it.
    Quiet,
    /// The report has a line of it.
    Told,
    /// It came to nothing, for this reason.
    Idle(Idle),
}

/// Why an event that wasn't refused came to nothing.
#[derive(Clone, Copy)]
pub enum Idle {
    /// No message with this number is on the wire; the second number is how many were sent.
    NoMessage(u32, u64),
    /// This message is for the node of this number.
    OtherAddressee(u32, u8),
    /// No fact is staged.
    NothingStaged,
    /// No device call is due.
    NoCallDue,
    /// No group is synced that isn't marked.
    NothingSynced,
    /// No message may leave.
    NothingToSend,
    /// No request that waits is decided.
    NothingToAcknowledge,
}
