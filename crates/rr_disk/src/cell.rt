//! One position of an area.

/// One position of an area: the byte that a read gives there, and whether a crash may put another there.
#[derive(Clone, Copy, Debug)]
pub struct Cell {
    /// The byte that a read gives.
    pub byte: u8,
    /// Whether a crash may leave another byte.
    pub loose: bool,
}
