//! Bindings.

use crate::name::{Name, Value};

/// A bound name: who has it, and its value.
#[derive(Clone, Copy, Debug)]
pub struct Binding {
    pub name: Name,
    pub owner: u32,
    pub value: Value,
}
