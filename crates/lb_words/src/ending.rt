//! The ending of a file's name.
ghost use Rattle.std.specs.Prelude.{◌≡◌, IfOk, false};
ghost use Rattle.lb_model_grammar.specs.Words.{has_dot, with_ending};

use lb_base::{Bytes, Name, NoMemory};
use std::alloc::Global;

// Whether there is a dot behind the last slash.
fn has_dot(name: &[u8]) -> bool
    ensures { result ≡ has_dot false name.now }
{
    let mut seen = false;
    for c in name {
        seen = match *c {
            b'/' => false,
            b'.' => true,
            _ => seen,
        };
    }
    seen
}

/// The name of a file, to which `.tex` is added where its last part has no dot.
pub fn with_ending(alloc: Global, mut name: Bytes) -> Result<Name, NoMemory>
    ensures { IfOk result (λ file. file ≡ with_ending name) }
{
    if !has_dot(name.as_slice()) {
        name.extend_from_slice(b".tex")?;
    }
    Name::from_slice(alloc, name.as_slice())
}
