//! The bytes before the first page.
ghost use Rattle.std.specs.Prelude.{◌≡◌, ◌∷◌, ◌++◌, IfOk, OnOk};
ghost use Rattle.lb_model_paper.specs.Dvi.{comment, four_digits, preamble, two_digits};

use crate::number::push_unit;
use lb_base::{Bytes, Moment, NoMemory};
use std::alloc::{AllocError, Global};

const PRE: u8 = 247;

const VERSION: u8 = 2;

const LENGTH: usize = 42;

const COMMENT_LENGTH: u8 = 27;

/// The bytes before the first page: the version, the unit of length, and when the file was made.
pub fn preamble(alloc: Global, moment: Moment) -> Result<Bytes, NoMemory>
    ensures { IfOk result (λ bytes. bytes ≡ preamble moment) }
{
    let mut out = Vec::with_capacity(alloc, LENGTH)?;
    out.push(PRE)?;
    out.push(VERSION)?;
    push_unit(&mut out)?;
    out.push(COMMENT_LENGTH)?;
    push_comment(&mut out, moment)?;
    Ok(Bytes::from_vec(out))
}

fn push_comment(out: &mut Vec<u8>, moment: Moment) -> Result<(), AllocError>
    ensures { OnOk result (out.new.items ≡ out.old.items ++ comment moment) }
{
    out.extend_from_slice(b" TeX output ")?;
    push_date(out, moment)?;
    out.push(b':')?;
    push_two_digits(out, moment.minutes / 60)?;
    push_two_digits(out, moment.minutes % 60)
}

/// The year, the month and the day.
fn push_date(out: &mut Vec<u8>, moment: Moment) -> Result<(), AllocError>
    ensures { OnOk result (out.new.items ≡ out.old.items ++ four_digits moment.year ++ 46 ∷ two_digits moment.month ++ 46 ∷ two_digits moment.day) }
{
    push_two_digits(out, moment.year / 100)?;
    push_two_digits(out, moment.year)?;
    out.push(b'.')?;
    push_two_digits(out, u16::from(moment.month))?;
    out.push(b'.')?;
    push_two_digits(out, u16::from(moment.day))
}

/// The last two digits of a number.
fn push_two_digits(out: &mut Vec<u8>, number: u16) -> Result<(), AllocError>
    ensures { OnOk result (out.new.items ≡ out.old.items ++ two_digits number) }
{
    out.push(b'0' + (number / 10 % 10) as u8)?;
    out.push(b'0' + (number % 10) as u8)?;
    Ok(())
}
