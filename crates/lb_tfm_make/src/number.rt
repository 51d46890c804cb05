//! Words of a file, the high byte first.
ghost use Rattle.std.specs.Prelude.{◌≡◌};
ghost use Rattle.lb_tfm_make.specs.FontBytes as bytes;

use byteorder::{BigEndian, ByteOrder};

pub type Word = [u8; 4];

pub fn word(number: u32) -> Word
    ensures { result ≡ bytes.number_word number }
{
    let mut bytes = [0; 4];
    BigEndian::write_u32(&mut bytes, number);
    bytes
}

/// A fix-word, in two's complement.
pub fn fix_word(fix: i32) -> Word
    ensures { result ≡ bytes.fix_word fix }
{
    word(fix.cast_unsigned())
}

/// Two counts.
pub fn counts(first: u16, second: u16) -> Word
    ensures { result ≡ bytes.count_word first second }
{
    let mut bytes = [0; 4];
    BigEndian::write_u16(&mut bytes, first);
    BigEndian::write_u16(&mut bytes[2..], second);
    bytes
}
