//! The codes of the characters of a description.
ghost use Rattle.std.specs.Prelude.{◌≡◌, ◌<◌, length};
ghost use Rattle.lb_tfm_make.specs.FontBytes as bytes;
ghost use Rattle.lb_tfm_make.specs.FontSpecs as spec;

use crate::spec::CharWidth;

/// The row of a code.
pub fn row_of(rows: &[CharWidth], code: u8) -> Option<CharWidth>
    ensures { result ≡ spec.row_of rows.now code }
{
    for row in rows {
        if row.code == code {
            return Some(*row);
        }
    }
    None
}

pub fn first_code(rows: &[CharWidth]) -> u8
    requires { 0 < length rows.now }
    ensures { result ≡ bytes.first_code rows.now }
{
    rows[0].code
}

pub fn last_code(rows: &[CharWidth]) -> u8
    requires { 0 < length rows.now }
    ensures { result ≡ bytes.last_code 0 rows.now }
{
    rows[rows.len() - 1].code
}
