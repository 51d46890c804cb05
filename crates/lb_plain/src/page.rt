//! The pages of plain chapters. Lengths are in scaled points, 65536 to the point.
ghost use Rattle.std.specs.Prelude.{◌≡◌, ◌≤◌, ◌<◌, ◌^◌, ◌+◌, ◌*◌, ◌++◌, [], length, IfOk, IfSome, OnOk, IsTrue, decimal, string_bytes};
ghost use Rattle.std.specs.List.{AllByRecursion};
ghost use Rattle.lb_model_paper.specs.Dvi.{IsDrawable};
ghost use Rattle.lb_model_book.specs.PlainForm.{is_plain_text, lines_with_text};
ghost use Rattle.lb_model_book.specs.PlainPages as pages;
ghost use Rattle.lb_plain.specs.Marks.{IsRoman, character_marks};

use lb_base::{FontId, Mark, MarkList, Name, NoMemory, PageCode};
use lb_tokens::split_line;
use std::alloc::Global;

const SIZE: u32 = 655360;

const SPACE: u32 = 196608;

const CHARACTER: u32 = 327680;

const LEFT: u32 = 983040;

const FIRST_BASELINE: u32 = 2621440;

const LINE: u32 = 786432;

const HEIGHT: u32 = 38862848;

const WIDTH: u32 = 22609920;

/// The page of a chapter's text as page `number`; None where no line has text.
pub fn plain_page(alloc: Global, text: &[u8], number: u32) -> Result<Option<PageCode>, NoMemory>
    requires plain { IsTrue (is_plain_text text.now) }
    requires number { number < 2 ^ 31 }
    ensures page { IfOk result (λ page. page ≡ pages.plain_page text.now number) }
    ensures drawable { IfOk result (λ page. IfSome page IsDrawable) }
    ensures marks { IfOk result (λ page. IfSome page (λ page. length page.marks ≤ 2410)) }
    ensures font { IfOk result (λ page. IfSome page (λ page. AllByRecursion IsRoman page.marks)) }
{
    let font = roman(alloc)?;
    let mut marks = MarkList::new(alloc);
    let count = push_lines(&mut marks, &font, text)?;
    if count == 0 {
        return Ok(None);
    }
    push_number(alloc, &mut marks, &font, number)?;
    Ok(Some(PageCode {
        number: number as i32,
        marks,
        height: HEIGHT as i32,
        width: WIDTH as i32,
    }))
}

// The test font at 10pt.
fn roman(alloc: Global) -> Result<FontId, NoMemory>
    ensures { IfOk result (λ font. font ≡ pages.roman) }
{
    Ok(FontId {
        name: Name::from_slice(alloc, b"cmr10")?,
        size: SIZE as i32,
        check: 0,
        design: SIZE,
    })
}

// Puts the lines that have text on a page, and tells how many there are.
fn push_lines(marks: &mut MarkList, font: &FontId, text: &[u8]) -> Result<u32, NoMemory>
    requires font { font.now ≡ pages.roman }
    requires plain { IsTrue (is_plain_text text.now) }
    ensures marks { OnOk result (marks.new ≡ marks.old ++ pages.lines_marks 0 (lines_with_text text.now)) }
    ensures count { IfOk result (λ count. count ≡ length (lines_with_text text.now)) }
{
    let mut rest = text;
    let mut count = 0;
    while !rest.is_empty() {
        let (line, next) = split_line(rest);
        push_line(marks, font, count, line)?;
        count += u32::from(!line.is_empty());
        rest = next;
    }
    Ok(count)
}

// Puts a line on a page, below so many others.
fn push_line(marks: &mut MarkList, font: &FontId, above: u32, line: &[u8]) -> Result<(), NoMemory>
    requires font { font.now ≡ pages.roman }
    requires above { above ≤ 40 }
    requires short { length line.now ≤ 60 }
    ensures { OnOk result (marks.new ≡ marks.old ++ pages.line_marks above line.now) }
{
    push_row(marks, font, LEFT, FIRST_BASELINE + LINE * above, line)
}

// Puts the page's number in the middle below its lines.
fn push_number(
    alloc: Global,
    marks: &mut MarkList,
    font: &FontId,
    number: u32,
) -> Result<(), NoMemory>
    requires font { font.now ≡ pages.roman }
    ensures { OnOk result (marks.new ≡ marks.old ++ pages.number_marks number) }
{
    let digits = decimal(alloc, number)?;
    let row = digits.as_bytes();
    let width = CHARACTER * row.len() as u32;
    push_row(marks, font, (WIDTH - width) / 2, HEIGHT, row)
}

fn decimal(alloc: Global, number: u32) -> Result<String, NoMemory>
    ensures { IfOk result (λ text. string_bytes text ≡ decimal number) }
{
    format!(in alloc; "{number}")
}

// Puts a row of characters on a page, the first of them at (start, v).
fn push_row(
    marks: &mut MarkList,
    font: &FontId,
    start: u32,
    v: u32,
    row: &[u8],
) -> Result<(), NoMemory>
    requires font { font.now ≡ pages.roman }
    requires fits { start + 327680 * length row.now < 2 ^ 31 }
    requires low { v < 2 ^ 31 }
    ensures { OnOk result (marks.new ≡ marks.old ++ pages.row_marks start v [] row.now) }
{
    let mut h = start;
    for code in row {
        push_character(marks, font, h, v, *code)?;
        h += advance(*code);
    }
    Ok(())
}

// Puts a character on a page. A space leaves no mark.
fn push_character(
    marks: &mut MarkList,
    font: &FontId,
    h: u32,
    v: u32,
    code: u8,
) -> Result<(), NoMemory>
    requires font { font.now ≡ pages.roman }
    requires right { h < 2 ^ 31 }
    requires low { v < 2 ^ 31 }
    ensures { OnOk result (marks.new ≡ marks.old ++ character_marks h v code) }
{
    if code == b' ' {
        return Ok(());
    }
    marks.push(Mark::Char {
        h: h as i32,
        v: v as i32,
        font: font.clone()?,
        code,
        width: CHARACTER as i32,
    })
}

// The width of a character.
fn advance(code: u8) -> u32
    ensures value { result ≡ pages.advance code }
    ensures most { result ≤ 327680 }
{
    if code == b' ' { SPACE } else { CHARACTER }
}
