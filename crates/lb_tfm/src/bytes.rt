//! The numbers of a file, the high byte first.
ghost use Rattle.std.specs.Prelude.{◌≡◌, ◌+◌, ◌*◌, ◌<◌, length};
ghost use Rattle.lb_model_paper.specs.FontFiles.{byte_at, half_at, word_at};

use byteorder::{BigEndian, ByteOrder};

/// The two bytes at place `k`, counted in pairs of bytes.
pub fn half(bytes: &[u8], k: usize) -> u16
    requires { 2 * k + 1 < length bytes.now }
    ensures { result ≡ half_at bytes.now k }
{
    BigEndian::read_u16(&bytes[2 * k..])
}

/// The byte `n` of a word, from 0 to 3.
pub fn byte(bytes: &[u8], word: u32, n: usize) -> u8
    requires { 4 * word + n < length bytes.now }
    ensures { result ≡ byte_at bytes.now word n }
{
    bytes[4 * word as usize + n]
}

pub fn word(bytes: &[u8], word: u32) -> u32
    requires { 4 * word + 3 < length bytes.now }
    ensures { result ≡ word_at bytes.now word }
{
    BigEndian::read_u32(&bytes[4 * word as usize..])
}
