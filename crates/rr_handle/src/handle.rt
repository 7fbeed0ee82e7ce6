//! The handle.

ghost use Rattle.std.specs.Prelude.{◌≡◌, true};

use crate::held::Held;

/// A node of the caller, or none. Zeroed, it is closed.
#[repr(C)]
#[derive(Drop)]
pub struct RrNode {
    pub(crate) is_open: bool,
    pub(crate) held: Held,
    ghost full: { is_open ≡ true → held.is_full ≡ true },
}
