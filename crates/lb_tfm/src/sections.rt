//! The counts of a file, and where its sections begin.
ghost use Rattle.std.specs.Prelude.{◌≡◌, ◌<◌, ◌≤◌, length};
ghost use Rattle.lb_model_paper.specs.FontFiles as file;

use crate::bytes::half;
use lb_base::font::Counts;

/// The counts in the first six words.
pub fn counts(bytes: &[u8]) -> Counts
    requires { 24 ≤ length bytes.now }
    ensures { result ≡ file.counts_of bytes.now }
{
    Counts {
        lf: half(bytes, 0),
        lh: half(bytes, 1),
        bc: half(bytes, 2),
        ec: half(bytes, 3),
        nw: half(bytes, 4),
        nh: half(bytes, 5),
        nd: half(bytes, 6),
        ni: half(bytes, 7),
        nl: half(bytes, 8),
        nk: half(bytes, 9),
        ne: half(bytes, 10),
        np: half(bytes, 11),
    }
}

/// The word of the first character.
pub fn first_info(counts: Counts) -> u32
    ensures { result ≡ file.first_info counts }
{
    6 + u32::from(counts.lh)
}

pub fn first_width(counts: Counts) -> u32
    ensures { result ≡ file.first_width counts }
{
    first_info(counts) + (u32::from(counts.ec) + 1).saturating_sub(u32::from(counts.bc))
}

pub fn first_height(counts: Counts) -> u32
    ensures { result ≡ file.first_height counts }
{
    first_width(counts) + u32::from(counts.nw)
}

pub fn first_depth(counts: Counts) -> u32
    ensures { result ≡ file.first_depth counts }
{
    first_height(counts) + u32::from(counts.nh)
}

pub fn first_italic(counts: Counts) -> u32
    ensures { result ≡ file.first_italic counts }
{
    first_depth(counts) + u32::from(counts.nd)
}

pub fn first_step(counts: Counts) -> u32
    ensures { result ≡ file.first_step counts }
{
    first_italic(counts) + u32::from(counts.ni)
}

pub fn first_kern(counts: Counts) -> u32
    ensures { result ≡ file.first_kern counts }
{
    first_step(counts) + u32::from(counts.nl)
}

pub fn first_extensible(counts: Counts) -> u32
    ensures { result ≡ file.first_extensible counts }
{
    first_kern(counts) + u32::from(counts.nk)
}

pub fn first_parameter(counts: Counts) -> u32
    ensures { result ≡ file.first_parameter counts }
{
    first_extensible(counts) + u32::from(counts.ne)
}

/// Where the words of the file end.
pub fn end(counts: Counts) -> u32
    ensures { result ≡ file.end_of counts }
{
    first_parameter(counts) + u32::from(counts.np)
}
