//! Numbers behind other bytes.

ghost use Rattle.std.specs.Prelude.{◌≡◌, ◌++◌, OnOk};
ghost use Rattle.rr_frame.specs.Numbers.{number_bytes};

use byteorder::{BigEndian, ByteOrder};
use std::alloc::AllocError;

/// Puts one byte behind the others.
#[tactic(auto, unfolding(crate::specs::Numbers::number_bytes))]
pub fn put_u8(out: &mut Vec<u8>, number: u8) -> Result<(), AllocError>
    ensures { OnOk result (out.new.items ≡ out.old.items ++ number_bytes 1 number) }
{
    out.push(number)?;
    Ok(())
}

/// Puts a number of two bytes behind the others.
#[tactic(auto, unfolding(crate::specs::Numbers::number_bytes))]
pub fn put_u16(out: &mut Vec<u8>, number: u16) -> Result<(), AllocError>
    ensures { OnOk result (out.new.items ≡ out.old.items ++ number_bytes 2 number) }
{
    let mut bytes = [0; 2];
    BigEndian::write_u16(&mut bytes, number);
    out.extend_from_slice(&bytes)?;
    Ok(())
}

/// Puts a number of four bytes behind the others.
#[tactic(auto, unfolding(crate::specs::Numbers::number_bytes))]
pub fn put_u32(out: &mut Vec<u8>, number: u32) -> Result<(), AllocError>
    ensures { OnOk result (out.new.items ≡ out.old.items ++ number_bytes 4 number) }
{
    let mut bytes = [0; 4];
    BigEndian::write_u32(&mut bytes, number);
    out.extend_from_slice(&bytes)?;
    Ok(())
}

/// Puts a number of eight bytes behind the others.
#[tactic(auto, unfolding(crate::specs::Numbers::number_bytes))]
pub fn put_u64(out: &mut Vec<u8>, number: u64) -> Result<(), AllocError>
    ensures { OnOk result (out.new.items ≡ out.old.items ++ number_bytes 8 number) }
{
    let mut bytes = [0; 8];
    BigEndian::write_u64(&mut bytes, number);
    out.extend_from_slice(&bytes)?;
    Ok(())
}
