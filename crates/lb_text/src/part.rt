//! The parts of a word, and the nodes that they become.
ghost use Rattle.std.specs.Prelude.{◌≡◌, ◌++◌, [], true, if◌then◌else◌, IfOk, OnOk};
ghost use Rattle.lb_model_paper.specs.Words as words;
ghost use Rattle.lb_model_paper.specs.Fonts as fonts;
ghost use Rattle.lb_base.specs.declared.font.WordPart.TheVariants.{Letter, Ligature as LigaturePart};
ghost use Rattle.lb_text.specs.Stops.{Begins};

use lb_base::{
    Bytes, Discretionary, Ligature, Listed, Metrics, NoMemory, Node, NodeList, Side, WordPart,
};
use lb_tfm::Font;
use sqlite_items::{Boxed, Items};
use std::alloc::Global;

/// Behind this character a line can be broken.
const HYPHEN: u8 = 45;

/// What a font sees of a part.
pub fn side_of(part: &WordPart) -> Side
    ensures { result ≡ words.side_of part.now }
{
    match part {
        WordPart::Edge => Side::Edge,
        WordPart::Letter(code) => Side::Char(*code),
        WordPart::Ligature { code, .. } => Side::Char(*code),
    }
}

/// The characters that a part stands for. Those of a ligature are not copied.
pub fn into_letters(alloc: Global, part: WordPart) -> Result<Bytes, NoMemory>
    ensures { IfOk result (λ letters. letters ≡ words.letters_of part) }
{
    match part {
        WordPart::Edge => Ok(Listed::new(alloc)),
        WordPart::Letter(code) => Listed::from_slice(alloc, &[code]),
        WordPart::Ligature { letters, .. } => Ok(letters),
    }
}

/// Puts the characters that a part stands for behind some others.
fn push_letters(letters: &mut Bytes, part: &WordPart) -> Result<(), NoMemory>
    ensures { OnOk result (letters.new ≡ letters.old ++ words.letters_of part.now) }
{
    match part {
        WordPart::Edge => Ok(()),
        WordPart::Letter(code) => letters.push(*code),
        WordPart::Ligature { letters: more, .. } => letters.extend_from_slice(more.as_slice()),
    }
}

/// The ligature that stands for these characters and, where the next part is not kept, for those of
/// that part.
pub fn join(
    code: u8,
    keep_right: bool,
    mut letters: Bytes,
    next: &WordPart,
) -> Result<WordPart, NoMemory>
    ensures { IfOk result (λ part. part ≡ LigaturePart code (letters ++ (if keep_right then [] else words.letters_of next.now))) }
{
    if !keep_right {
        push_letters(&mut letters, next)?;
    }
    Ok(WordPart::Ligature { code, letters })
}

fn metrics_of(font: &Font, code: u8) -> Metrics
    ensures { result ≡ words.known (fonts.metrics_of font.now code) }
{
    font.metrics(code).unwrap_or(Metrics {
        width: 0,
        height: 0,
        depth: 0,
        italic: 0,
    })
}

fn ends_in_hyphen(letters: &[u8]) -> bool
    ensures { result ≡ words.is_hyphen_last letters.now }
{
    match letters.last() {
        None => false,
        Some(code) => *code == HYPHEN,
    }
}

/// Puts an empty discretionary behind a list.
fn push_break(alloc: Global, list: &mut NodeList) -> Result<(), NoMemory>
    ensures ok { OnOk result (list.new ≡ list.old ++ words.break_behind true) }
    ensures begins { Begins list.old list.new }
{
    let parts = Discretionary {
        pre_break: Items::new(alloc),
        post_break: Items::new(alloc),
        no_break: Items::new(alloc),
    };
    list.push(Node::Disc(Boxed::new(alloc, parts)?))
}

/// Puts the nodes of a part behind a list.
pub fn push_part(
    alloc: Global,
    list: &mut NodeList,
    font: &Font,
    part: WordPart,
) -> Result<(), NoMemory>
    ensures ok { OnOk result (list.new ≡ list.old ++ words.nodes_of font.now part) }
    ensures begins { Begins list.old list.new }
{
    match part {
        WordPart::Edge => Ok(()),
        WordPart::Letter(code) => push_letter(alloc, list, font, code),
        WordPart::Ligature { code, letters } => push_ligature(alloc, list, font, code, letters),
    }
}

fn push_letter(alloc: Global, list: &mut NodeList, font: &Font, code: u8) -> Result<(), NoMemory>
    ensures ok { OnOk result (list.new ≡ list.old ++ words.nodes_of font.now (Letter code)) }
    ensures begins { Begins list.old list.new }
{
    let metrics = metrics_of(font, code);
    list.push(Node::Char {
        code,
        metrics,
        font: font.id().clone()?,
    })?;
    if code == HYPHEN {
        return push_break(alloc, list);
    }
    Ok(())
}

fn push_ligature(
    alloc: Global,
    list: &mut NodeList,
    font: &Font,
    code: u8,
    letters: Bytes,
) -> Result<(), NoMemory>
    ensures ok { OnOk result (list.new ≡ list.old ++ words.nodes_of font.now (LigaturePart code letters)) }
    ensures begins { Begins list.old list.new }
{
    let hyphen = ends_in_hyphen(letters.as_slice());
    let ligature = Ligature {
        font: font.id().clone()?,
        code,
        metrics: metrics_of(font, code),
        letters,
    };
    list.push(Node::Lig(Boxed::new(alloc, ligature)?))?;
    if hyphen {
        return push_break(alloc, list);
    }
    Ok(())
}
