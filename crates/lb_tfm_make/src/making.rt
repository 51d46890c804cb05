//! Fonts that are made.
ghost use Rattle.std.specs.Prelude.{◌≡◌, ◌+◌, ◌≤◌, ◌<◌, ◌++◌, length, IfOk, IfErr, OnOk};
ghost use Rattle.std.specs.List.{concat};
ghost use Rattle.lb_tfm_make.specs.FontBytes as bytes;
ghost use Rattle.lb_tfm_make.specs.FontSpecs.{IsValid};
ghost use Rattle.lb_tfm_make.specs.MadeFonts.{IsMadeOf, IsStop};

use crate::codes::{first_code, last_code};
use crate::number::{Word, counts};
use crate::programs::{lefts, step_words};
use crate::sections::body;
use crate::spec::FontSpec;
use crate::stop::MakeStop;
use crate::widths::distinct_widths;
use lb_base::Bytes;
use std::alloc::{AllocError, Global};

/// The most distinct widths, since the index of a width is a byte.
const MOST_WIDTHS: usize = 255;

/// The TFM file of a description. Each font that it gives has the metrics of the description's rows
/// and its steps, at every size.
pub fn make(alloc: Global, spec: &FontSpec) -> Result<Bytes, MakeStop>
    requires { IsValid spec.now }
    ensures made { IfOk result (λ made. IsMadeOf spec.now made) }
    ensures bytes { IfOk result (λ made. made ≡ bytes.file_of spec.now) }
    ensures few { OnOk result (length (bytes.distinct_widths spec.now.widths) ≤ 255) }
    ensures stop { IfErr result (λ stop. IsStop spec.now stop) }
{
    let widths = distinct_widths(alloc, spec.widths.as_slice())?;
    if widths.len() > MOST_WIDTHS {
        return Err(MakeStop::TooManyWidths);
    }
    let bytes = file(alloc, spec, &widths)?;
    Ok(bytes)
}

/// The file of a description with these distinct widths.
fn file(alloc: Global, spec: &FontSpec, widths: &[i32]) -> Result<Bytes, AllocError>
    requires valid { IsValid spec.now }
    requires few { length widths.now ≤ 255 }
    requires widths { widths.now ≡ bytes.distinct_widths spec.now.widths }
    ensures bytes { IfOk result (λ made. made ≡ bytes.file_of spec.now) }
    ensures last { OnOk result (bytes.last_code 0 spec.now.widths < 256) }
    ensures check { OnOk result (spec.now.check < 4294967296) }
{
    let starts = lefts(alloc, spec.widths.as_slice(), spec.steps.as_slice())?;
    let steps = step_words(alloc, spec.steps.as_slice(), &starts)?;
    let body = body(alloc, spec, widths, &starts, &steps)?;
    let mut out = Vec::new(alloc);
    push_counts(&mut out, spec, widths.len(), steps.len(), body.len())?;
    push_words(&mut out, &body)?;
    Ok(Bytes::from_vec(out))
}

/// Adds the counts of a file with so many distinct widths, steps, and words behind the counts.
fn push_counts(
    out: &mut Vec<u8>,
    spec: &FontSpec,
    widths: usize,
    steps: usize,
    words: usize,
) -> Result<(), AllocError>
    requires some { 0 < length spec.now.widths }
    requires few { widths ≤ 255 }
    requires widths { widths + 1 ≡ length (bytes.width_section spec.now) }
    requires steps { steps ≡ length (bytes.step_section spec.now) }
    requires words { words ≡ length (bytes.joined (bytes.sections spec.now)) }
    requires short { words < 32762 }
    requires low { steps ≤ words }
    ensures { OnOk result (out.new.items ≡ out.old.items ++ concat (bytes.count_words spec.now)) }
{
    let rows = spec.widths.as_slice();
    out.extend_from_slice(&counts(6 + words as u16, 2))?;
    out.extend_from_slice(&counts(u16::from(first_code(rows)), u16::from(last_code(rows))))?;
    out.extend_from_slice(&counts(1 + widths as u16, 2))?;
    out.extend_from_slice(&counts(2, 1))?;
    out.extend_from_slice(&counts(steps as u16, 0))?;
    out.extend_from_slice(&counts(0, 7))
}

fn push_words(out: &mut Vec<u8>, words: &[Word]) -> Result<(), AllocError>
    ensures { OnOk result (out.new.items ≡ out.old.items ++ concat words.now) }
{
    for word in words {
        out.extend_from_slice(word)?;
    }
    Ok(())
}
