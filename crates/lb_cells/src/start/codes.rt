//! The values of codes at the start (TeXbook, chapters 7 and 12, and appendix B).
ghost use Rattle.std.specs.Prelude.{◌≡◌, OnOk, pos};
ghost use Rattle.lb_model.specs.StartState.{is_lower, is_upper, start_category, start_lower, start_space_factor, start_upper};
ghost use Rattle.lb_maps.specs.CellMap.{at};
ghost use Rattle.lb_cells.specs.StartEntries.{code_over, codes_below};

use lb_base::{Category, NoMemory};
use lb_maps::CellMap;
use lb_values::{Cell, Value};

/// Gives each code its category, its forms in lower and upper case, and its space factor.
pub fn fill_codes(entries: &mut CellMap<Value>) -> Result<(), NoMemory>
    ensures { OnOk result (at entries.new ≡ codes_below 256 (at entries.old)) }
{
    for code in 0..=255 {
        fill_code(entries, code)?;
    }
    Ok(())
}

// The four values of one code.
fn fill_code(entries: &mut CellMap<Value>, code: u8) -> Result<(), NoMemory>
    ensures { OnOk result (at entries.new ≡ code_over code (at entries.old)) }
{
    entries.insert(Cell::Cat(code), Value::Category(category(code)))?;
    entries.insert(Cell::Lc(code), Value::Code(lower(code)))?;
    entries.insert(Cell::Uc(code), Value::Code(upper(code)))?;
    entries.insert(Cell::Sf(code), Value::Number(space_factor(code)))?;
    Ok(())
}

fn is_upper(code: u8) -> bool
    ensures { result ≡ is_upper code }
{
    64 < code && code < 91
}

fn is_lower(code: u8) -> bool
    ensures { result ≡ is_lower code }
{
    96 < code && code < 123
}

// What a character of the code is to the reader of lines.
#[tactic(auto, unfolding(lb_model::specs::StartState::start_category))]
fn category(code: u8) -> Category
    ensures { result ≡ start_category code }
{
    if is_upper(code) || is_lower(code) {
        return Category::Letter;
    }
    match code {
        b'\\' => Category::Escape,
        b'{' => Category::BeginGroup,
        b'}' => Category::EndGroup,
        b'$' => Category::MathShift,
        b'&' => Category::AlignmentTab,
        b'\r' => Category::EndOfLine,
        b'#' => Category::Parameter,
        b'^' => Category::Superscript,
        b'_' => Category::Subscript,
        0 => Category::Ignored,
        b' ' | b'\t' => Category::Space,
        b'~' | 12 => Category::Active,
        b'%' => Category::Comment,
        127 => Category::Invalid,
        _ => Category::Other,
    }
}

// The lower-case form of a letter, and 0 of what is none.
#[tactic(auto, unfolding(lb_model::specs::StartState::start_lower))]
fn lower(code: u8) -> u8
    ensures { result ≡ start_lower code }
{
    if is_upper(code) {
        code + 32
    } else if is_lower(code) {
        code
    } else {
        0
    }
}

// The upper-case form of a letter, and 0 of what is none.
#[tactic(auto, unfolding(lb_model::specs::StartState::start_upper))]
fn upper(code: u8) -> u8
    ensures { result ≡ start_upper code }
{
    if is_lower(code) {
        code - 32
    } else if is_upper(code) {
        code
    } else {
        0
    }
}

// How much wider than a space between words one behind the code is, in thousandths.
#[tactic(auto, unfolding(lb_model::specs::StartState::start_space_factor))]
fn space_factor(code: u8) -> i32
    ensures { result ≡ pos (start_space_factor code) }
{
    if is_upper(code) {
        return 999;
    }
    match code {
        b'.' | b'?' | b'!' => 3000,
        b':' => 2000,
        b';' => 1500,
        b',' => 1250,
        b')' | b'\'' | b']' => 0,
        _ => 1000,
    }
}
