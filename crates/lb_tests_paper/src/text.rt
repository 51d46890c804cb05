//! Commands on the current font: `word STEPS CODE..` sets a word, with at most so many ligature and
//! kerning steps, `words N CODE..` sets it N times, with a space behind each, and `space FACTOR` sets
//! a space.
use lb_base::{KernOrigin, Node, NodeList, Order};
use lb_tests_lists::fault::show_fault;
use lb_tests_lists::number::{byte, count, length, steps};
use lb_tests_lists::stop::Stop;
use lb_text::{Word, add_char, add_space, finish_word};
use lb_tfm::Font;
use sqlite_items::Items;
use std::alloc::Global;
use std::fmt::Write;

/// Shows what comes of a command, or answers false if it is none of these.
pub fn show(
    alloc: Global,
    words: &[&str],
    font: &Option<Font>,
    out: &mut String,
) -> Result<bool, Stop> {
    match words {
        ["word", most, codes @ ..] => show_word(alloc, given(font)?, steps(most)?, codes, out)?,
        ["words", times, codes @ ..] => show_words(alloc, given(font)?, count(times)?, codes, out)?,
        ["space", factor] => show_space(alloc, given(font)?, length(factor)?, out)?,
        _ => return Ok(false),
    }
    Ok(true)
}

fn given(font: &Option<Font>) -> Result<&Font, Stop> {
    font.as_ref().ok_or(Stop::Command)
}

fn show_word(
    alloc: Global,
    font: &Font,
    most: u64,
    codes: &[&str],
    out: &mut String,
) -> Result<(), Stop> {
    let mut word = Word::new(alloc);
    spell(&mut word, font, codes, out)?;
    let mut list: NodeList = Items::new(alloc);
    let mut left = most;
    if let Err(stop) = finish_word(alloc, &mut word, font, &mut list, &mut left) {
        return show_fault(&stop, out);
    }
    for node in list.as_slice() {
        show_node(node, out)?;
    }
    writeln!(out, "steps left {left}")?;
    Ok(())
}

/// Puts characters behind a word, and shows those that the font lacks.
fn spell(word: &mut Word, font: &Font, codes: &[&str], out: &mut String) -> Result<(), Stop> {
    for code in codes {
        let code = byte(code)?;
        if !add_char(word, font, code)? {
            write!(out, "lacks {code} ")?;
        }
    }
    Ok(())
}

fn show_words(
    alloc: Global,
    font: &Font,
    times: usize,
    codes: &[&str],
    out: &mut String,
) -> Result<(), Stop> {
    let mut word = Word::new(alloc);
    let mut list: NodeList = Items::new(alloc);
    let mut left = u64::MAX;
    for _ in 0..times {
        spell(&mut word, font, codes, out)?;
        if let Err(stop) = finish_word(alloc, &mut word, font, &mut list, &mut left) {
            return show_fault(&stop, out);
        }
        if let Err(stop) = add_space(&mut list, font, 1000) {
            return show_fault(&stop, out);
        }
    }
    let (nodes, taken) = (list.len(), u64::MAX - left);
    writeln!(out, "{nodes} nodes in {taken} steps")?;
    Ok(())
}

/// A node that a word can have.
fn show_node(node: &Node, out: &mut String) -> Result<(), Stop> {
    match node {
        Node::Char { code, metrics, .. } => {
            let width = metrics.width;
            write!(out, "char {code} wide {width}, ")?;
        }
        Node::Lig(ligature) => {
            let ligature = ligature.get();
            let (code, width) = (ligature.code, ligature.metrics.width);
            let letters = ligature.letters.as_slice();
            write!(out, "lig {code} wide {width} for {letters:?}, ")?;
        }
        Node::Kern {
            width,
            origin: KernOrigin::Font,
        } => write!(out, "fontkern {width}, ")?,
        Node::Disc(parts) => {
            let parts = parts.get();
            let (before, after) = (parts.pre_break.len(), parts.post_break.len());
            let unbroken = parts.no_break.len();
            write!(out, "disc {before} {after} {unbroken}, ")?;
        }
        _ => return Err(Stop::Command),
    }
    Ok(())
}

fn show_space(alloc: Global, font: &Font, factor: i32, out: &mut String) -> Result<(), Stop> {
    if factor <= 0 || factor > 32_767 {
        return Err(Stop::Command);
    }
    let mut list: NodeList = Items::new(alloc);
    if let Err(stop) = add_space(&mut list, font, factor) {
        return show_fault(&stop, out);
    }
    for node in list.as_slice() {
        let Node::Glue(glue) = node else {
            return Err(Stop::Command);
        };
        let (width, stretch, shrink) = (glue.width, glue.stretch, glue.shrink);
        let finite = glue.stretch_order == Order::Finite && glue.shrink_order == Order::Finite;
        writeln!(
            out,
            "glue {width} plus {stretch} minus {shrink} finite {finite}"
        )?;
    }
    Ok(())
}
