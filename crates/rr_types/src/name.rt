//! Names and values: short texts that are copied like numbers.

ghost use Rattle.std.specs.Prelude.{◌≡◌, ◌↔◌, IsOk, IfOk, IfErr};
ghost use Rattle.std.specs.List.{list_all};
ghost use Rattle.rr_types.specs.Names.{IsName, IsValue, is_name_byte, is_value_byte};

use crate::refusal::Refusal;
use crate::short::Short;
use std::cmp::Ordering;
use std::marker::Model;

/// The most bytes of a name.
pub const MAX_NAME: usize = 64;

/// The most bytes of a value.
pub const MAX_VALUE: usize = 64;

/// A name: 1 to 64 bytes of `a` to `z`, `0` to `9` and hyphen.
#[derive(Clone, Copy, Debug)]
pub struct Name {
    text: Short,
}

impl Model for Name {
    ghost use Rattle.std.specs.Prelude.{ℕ, List};
    ghost use Rattle.rr_types.specs.Names.{IsName};

    ghost Value = { List ℕ };

    ghost view = { λ n. n.text };

    ghost invariant = { λ n. IsName n.text };

    ghost inverse = { λ bytes. record { text = bytes } };
}

impl Name {
    /// The name with these bytes; bytes that are no name are `BadName`.
    pub fn new(bytes: &[u8]) -> Result<Name, Refusal>
        ensures valid { IsOk result ↔ IsName bytes.now }
        ensures value { IfOk result (λ n. n ≡ bytes.now) }
        ensures refused { IfErr result (λ e. e ≡ Refusal.BadName) }
    {
        if bytes.is_empty() || bytes.len() > MAX_NAME || !has_only_name_bytes(bytes) {
            return Err(Refusal::BadName);
        }
        Ok(Name {
            text: Short::new(bytes),
        })
    }

    /// Its bytes.
    pub fn as_bytes(&self) -> &[u8]
        ensures value { result.now ≡ self.now }
        ensures name { IsName result.now }
    {
        let text = &self.text;
        text.as_bytes()
    }
}

impl PartialEq for Name {
    ghost use Rattle.std.specs.Str.{bytes_eq};
    ghost use Rattle.std.proofs.Common.{rules};

    ghost eq = { λ a b. bytes_eq a b };

    ghost laws = { Prim.search rules };

    fn eq(&self, other: &Name) -> bool {
        self.as_bytes() == other.as_bytes()
    }
}

impl Eq for Name {
    ghost use Rattle.std.proofs.Common.{rules};

    ghost laws = { Prim.search rules };
}

/// Names are ordered by their bytes.
impl Ord for Name {
    ghost use Rattle.std.specs.Ordering.{nat_cmp};
    ghost use Rattle.std.specs.Cmp.Lexicographic.{slice_cmp};
    ghost use Rattle.std.proofs.Common.{rules};
    ghost use Rattle.std.specs.Cmp.Rules.{comparing};

    ghost cmp = { slice_cmp nat_cmp };

    ghost total = { Prim.search (comparing, rules) };

    ghost matches_partial_cmp = { Prim.search (comparing, rules) };

    ghost matches_eq = { Prim.search (comparing, rules) };

    fn cmp(&self, other: &Name) -> Ordering {
        self.as_bytes().cmp(other.as_bytes())
    }
}

impl PartialOrd for Name {
    ghost use Rattle.std.specs.Ordering.{nat_cmp, as_partial_cmp};
    ghost use Rattle.std.specs.Cmp.Lexicographic.{slice_cmp};
    ghost use Rattle.std.proofs.Common.{rules};
    ghost use Rattle.std.specs.Cmp.{partial_order_from_own_ties};
    ghost use Rattle.std.specs.Cmp.Rules.{comparing};

    ghost partial_cmp = { as_partial_cmp (slice_cmp nat_cmp) };

    ghost laws = { partial_order_from_own_ties (Prim.search (comparing, rules)) (Prim.search (comparing, rules)) };

    fn partial_cmp(&self, other: &Name) -> Option<Ordering> {
        Some(self.cmp(other))
    }
}

/// Whether a name may have this byte.
pub fn is_name_byte(byte: u8) -> bool
    ensures { result ≡ is_name_byte byte }
{
    matches!(byte, b'a'..=b'z' | b'0'..=b'9' | b'-')
}

fn has_only_name_bytes(bytes: &[u8]) -> bool
    ensures { result ≡ list_all is_name_byte bytes.now }
{
    bytes.iter().all(|byte| is_name_byte(*byte))
}

/// A value: 0 to 64 bytes from 21 to 7E hex.
#[derive(Clone, Copy, Debug)]
pub struct Value {
    text: Short,
}

impl Model for Value {
    ghost use Rattle.std.specs.Prelude.{ℕ, List};
    ghost use Rattle.rr_types.specs.Names.{IsValue};

    ghost Value = { List ℕ };

    ghost view = { λ v. v.text };

    ghost invariant = { λ v. IsValue v.text };

    ghost inverse = { λ bytes. record { text = bytes } };
}

impl Value {
    /// The value with these bytes; bytes that are no value are `BadValue`.
    pub fn new(bytes: &[u8]) -> Result<Value, Refusal>
        ensures valid { IsOk result ↔ IsValue bytes.now }
        ensures value { IfOk result (λ v. v ≡ bytes.now) }
        ensures refused { IfErr result (λ e. e ≡ Refusal.BadValue) }
    {
        if bytes.len() > MAX_VALUE || !has_only_value_bytes(bytes) {
            return Err(Refusal::BadValue);
        }
        Ok(Value {
            text: Short::new(bytes),
        })
    }

    /// Its bytes.
    pub fn as_bytes(&self) -> &[u8]
        ensures value { result.now ≡ self.now }
        ensures valid { IsValue result.now }
    {
        let text = &self.text;
        text.as_bytes()
    }
}

impl PartialEq for Value {
    ghost use Rattle.std.specs.Str.{bytes_eq};
    ghost use Rattle.std.proofs.Common.{rules};

    ghost eq = { λ a b. bytes_eq a b };

    ghost laws = { Prim.search rules };

    fn eq(&self, other: &Value) -> bool {
        self.as_bytes() == other.as_bytes()
    }
}

/// Whether a value may have this byte.
pub fn is_value_byte(byte: u8) -> bool
    ensures { result ≡ is_value_byte byte }
{
    matches!(byte, 0x21..=0x7E)
}

fn has_only_value_bytes(bytes: &[u8]) -> bool
    ensures { result ≡ list_all is_value_byte bytes.now }
{
    bytes.iter().all(|byte| is_value_byte(*byte))
}
