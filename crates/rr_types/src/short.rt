//! At most 64 bytes, kept in place.

ghost use Rattle.std.specs.Prelude.{◌≡◌, ◌≤◌, length};

use std::marker::Model;

/// At most 64 bytes. Behind them the array holds zeros, so that equal bytes are equal fields.
#[derive(Clone, Copy, Debug)]
pub struct Short {
    len: u8,
    bytes: [u8; 64],
}

impl Model for Short {
    ghost use Rattle.std.specs.Prelude.{ℕ, ◌-◌, ◌++◌, List, length, take, replicate};
    ghost use Rattle.rr_types.specs.Short.{IsPadded, inverse-view};

    ghost Value = { List ℕ };

    ghost view = { λ s. take s.len s.bytes };

    ghost invariant = { λ s. IsPadded s.len s.bytes };

    ghost inverse = { λ text. record { len = length text; bytes = text ++ replicate (64 - length text) 0 } };

    ghost inverse_ok = { λ s h. inverse-view s h };
}

impl Short {
    pub fn new(text: &[u8]) -> Short
        requires { length text.now ≤ 64 }
        ensures { result ≡ text.now }
    {
        let mut bytes = [0u8; 64];
        let len = text.len();
        bytes[..len].copy_from_slice(text);
        Short {
            len: len as u8,
            bytes,
        }
    }

    pub fn as_bytes(&self) -> &[u8]
        ensures value { result.now ≡ self.now }
        ensures short { length result.now ≤ 64 }
    {
        let bytes = &self.bytes;
        &bytes[..self.len as usize]
    }
}
