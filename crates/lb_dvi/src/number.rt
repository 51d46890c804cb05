//! Numbers as a DVI file has them: the high byte first, and those with a sign in two's complement.
ghost use Rattle.std.specs.Prelude.{◌≡◌, ◌++◌, ◌<◌, OnOk};
ghost use Rattle.lb_model_paper.specs.Dvi.{move, signed, unit, word, half};
ghost use Rattle.lb_model_paper.specs.Dvi as dvi;

use byteorder::{BigEndian, ByteOrder};
use std::alloc::AllocError;

/// The unit of length is `NUMERATOR / DENOMINATOR` of 1/10 micrometre, which is a scaled point.
const NUMERATOR: u32 = 25_400_000;

const DENOMINATOR: u32 = 473_628_672;

/// The magnification in 1/1000: pages are set at their size.
const MAGNIFICATION: u32 = 1000;

pub fn push_half(out: &mut Vec<u8>, number: u16) -> Result<(), AllocError>
    ensures { OnOk result (out.new.items ≡ out.old.items ++ half number) }
{
    let mut bytes = [0; 2];
    BigEndian::write_u16(&mut bytes, number);
    out.extend_from_slice(&bytes)
}

pub fn push_word(out: &mut Vec<u8>, number: u32) -> Result<(), AllocError>
    ensures { OnOk result (out.new.items ≡ out.old.items ++ word number) }
{
    let mut bytes = [0; 4];
    BigEndian::write_u32(&mut bytes, number);
    out.extend_from_slice(&bytes)
}

pub fn push_signed(out: &mut Vec<u8>, number: i32) -> Result<(), AllocError>
    ensures { OnOk result (out.new.items ≡ out.old.items ++ signed number) }
{
    push_word(out, number.cast_unsigned())
}

/// The unit of length and the magnification.
pub fn push_unit(out: &mut Vec<u8>) -> Result<(), AllocError>
    ensures { OnOk result (out.new.items ≡ out.old.items ++ unit) }
{
    push_word(out, NUMERATOR)?;
    push_word(out, DENOMINATOR)?;
    push_word(out, MAGNIFICATION)
}

/// A move by a distance in scaled points, in as few bytes as hold it, where `first` is the command
/// with one byte. Nothing where the distance is 0.
pub fn push_move(out: &mut Vec<u8>, first: u8, distance: i32) -> Result<(), AllocError>
    requires { first < 252 }
    ensures { OnOk result (out.new.items ≡ out.old.items ++ move first distance) }
{
    if distance == 0 {
        return Ok(());
    }
    let size = fewest_bytes(distance);
    out.push(first + (size as u8 - 1))?;
    let mut bytes = [0; 4];
    BigEndian::write_u32(&mut bytes, distance.cast_unsigned());
    out.extend_from_slice(&bytes[4 - size..])
}

/// The fewest bytes that hold a number with its sign.
fn fewest_bytes(number: i32) -> usize
    ensures value { result ≡ dvi.fewest_bytes number }
    ensures low { 0 < result }
    ensures high { result < 5 }
{
    match number {
        -0x80..=0x7f => 1,
        -0x8000..=0x7fff => 2,
        -0x80_0000..=0x7f_ffff => 3,
        _ => 4,
    }
}
