//! The characters of a file.
ghost use Rattle.std.specs.Prelude.{◌≡◌, ◌≤◌};
ghost use Rattle.lb_model_paper.specs.FontFiles as file;
ghost use Rattle.lb_tfm.specs.Wholes.{IsWhole};

use crate::bytes::byte;
use crate::sections::first_info;
use lb_base::font::Counts;

/// Whether the font has a character of this code.
pub fn exists(bytes: &[u8], counts: Counts, code: u8) -> bool
    requires { IsWhole bytes.now counts }
    ensures { result ≡ file.exists bytes.now counts code }
{
    let code = u16::from(code);
    counts.bc <= code && code <= counts.ec && byte(bytes, info_of(counts, code), 0) > 0
}

/// The word of a character.
pub fn info_of(counts: Counts, code: u16) -> u32
    requires { counts.bc ≤ code }
    ensures { result ≡ file.info_of counts code }
{
    first_info(counts) + u32::from(code - counts.bc)
}
