//! The two areas of a disk.

/// One of the two areas of a disk.
#[derive(Clone, Copy, Debug, PartialEq, Eq)]
pub enum Area {
    /// Area 0.
    First,
    /// Area 1.
    Second,
}
