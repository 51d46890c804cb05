//! Numbers in decimal.
ghost use Rattle.std.specs.Prelude.{◌≡◌, IfOk};
ghost use Rattle.std.specs.Fmt.{signed_decimal};

use itoa::Buffer;
use lb_base::{Bytes, NoMemory};
use std::alloc::Global;

/// A number in decimal, as `\number` prints it.
pub fn decimal(alloc: Global, number: i32) -> Result<Bytes, NoMemory>
    ensures { IfOk result (λ text. text ≡ signed_decimal number) }
{
    Bytes::from_slice(alloc, Buffer::new().format(number).as_bytes())
}
