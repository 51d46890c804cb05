//! The main file of a book.
ghost use Rattle.std.specs.Prelude.{◌≡◌, IfOk};
ghost use Rattle.lb_model.specs.Lines.{lines_of};
ghost use Rattle.lb_model_book.specs.PlainForm.{names_of_main, names_to_end};
ghost use Rattle.lb_plain.specs.Parts.{is_opening};

use crate::own_lines::{included_name, is_own_line};
use lb_base::{Name, NameList, NoMemory};
use lb_tokens::split_line;
use std::alloc::Global;

/// The chapters of a main file that has a class line, a begin line, include lines and an end line,
/// and no other line.
pub fn names_of_main(alloc: Global, text: &[u8]) -> Result<Option<NameList>, NoMemory>
    ensures { IfOk result (λ names. names ≡ names_of_main (lines_of text.now)) }
{
    if text.is_empty() {
        return Ok(None);
    }
    let (class_line, behind_class) = split_line(text);
    if behind_class.is_empty() {
        return Ok(None);
    }
    let (begin_line, rest) = split_line(behind_class);
    if !is_opening(class_line, begin_line) {
        return Ok(None);
    }
    names_to_end(alloc, rest)
}

// Whether two lines are the class line and the begin line.
fn is_opening(class_line: &[u8], begin_line: &[u8]) -> bool
    ensures { result ≡ is_opening class_line.now begin_line.now }
{
    is_own_line(b"\\documentclass{book}", class_line)
        && is_own_line(b"\\begin{document}", begin_line)
}

// The names of include lines behind which the end line is the last line.
fn names_to_end(alloc: Global, text: &[u8]) -> Result<Option<NameList>, NoMemory>
    ensures { IfOk result (λ names. names ≡ names_to_end (lines_of text.now)) }
{
    let mut names = NameList::new(alloc);
    let mut rest = text;
    while !rest.is_empty() {
        let (line, next) = split_line(rest);
        if next.is_empty() {
            if !is_own_line(b"\\end{document}", line) {
                return Ok(None);
            }
            return Ok(Some(names));
        }
        let Some(name) = included_name(line) else {
            return Ok(None);
        };
        names.push(Name::from_slice(alloc, name)?)?;
        rest = next;
    }
    Ok(None)
}
