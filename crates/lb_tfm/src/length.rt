//! Fix-words at a size, in scaled points (sections 571 and 572 of tex.web).
ghost use Rattle.std.specs.Prelude.{◌≡◌, ◌+◌, ◌*◌, ◌<◌, ◌≤◌, length};
ghost use Rattle.lb_model_paper.specs.FontFiles as file;

use crate::bytes::byte;

/// The power of two that a size is divided by, so that it is below 2^23.
fn divisor(size: u32) -> u32
    ensures { result ≡ file.divisor size }
{
    match size {
        0..=0x7f_ffff => 1,
        0x80_0000..=0xff_ffff => 2,
        0x100_0000..=0x1ff_ffff => 4,
        0x200_0000..=0x3ff_ffff => 8,
        _ => 16,
    }
}

/// The product of a size below 2^23 and the last three bytes of a fix-word.
fn product(z: u32, beta: u32, b: u8, c: u8, d: u8) -> u32
    requires small { z < 8388608 }
    requires some { 0 < beta }
    ensures value { result ≡ file.product z beta b c d }
    ensures small { result < 2147483648 }
{
    ((u32::from(d) * z / 256 + u32::from(c) * z) / 256 + u32::from(b) * z) / beta
}

/// The fix-word of these bytes at a size, where `a` is 0 or 255.
fn scaled(size: u32, a: u8, b: u8, c: u8, d: u8) -> i32
    requires { size < 134217728 }
    ensures { result ≡ file.scaled size a b c d }
{
    let divisor = divisor(size);
    let z = size / divisor;
    let product = product(z, 16 / divisor, b, c, d) as i32;
    if a == 255 {
        product - (16 * divisor * z) as i32
    } else {
        product
    }
}

/// The fix-word at a place of the file.
pub fn scaled_at(bytes: &[u8], size: u32, word: u32) -> i32
    requires small { size < 134217728 }
    requires within { 4 * word + 3 < length bytes.now }
    ensures { result ≡ file.scaled_at bytes.now size word }
{
    scaled(
        size,
        byte(bytes, word, 0),
        byte(bytes, word, 1),
        byte(bytes, word, 2),
        byte(bytes, word, 3),
    )
}

/// A slant, with 16 binary places of the 20.
pub fn slant(word: u32) -> i32
    ensures { result ≡ file.slant word }
{
    word.cast_signed() >> 4
}
