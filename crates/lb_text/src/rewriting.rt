//! The rewriting of a word by the ligature and kerning steps of its font, from the left.
ghost use Rattle.std.specs.Prelude.{◌≡◌, ◌∷◌, ◌++◌, ◌+◌, ◌≤◌, [], List, length, map, reverse, IfOk, IfErr, OnOk, Some};
ghost use Rattle.lb_base.specs.declared.font.WordPart.TheVariants.{Edge, Letter};
ghost use Rattle.lb_base.specs.declared.node.Node.{Node};
ghost use Rattle.lb_model_paper.specs.Fonts as fonts;
ghost use Rattle.lb_model_paper.specs.Words as words;
ghost use Rattle.lb_text.specs.Stops as stops;
ghost use Rattle.lb_text.specs.Stops.{Begins, IsCursorStop, cursor_of};

use crate::part::{into_letters, join, push_part, side_of};
use lb_base::{KernOrigin, Kind, LigStep, Listed, NoMemory, Node, NodeList, Stop, WordPart};
use lb_tfm::Font;
use std::alloc::Global;

/// Puts the parts of a word on an empty stack, the first on top: its characters, and the right edge.
fn fill(stack: &mut Vec<WordPart>, codes: &[u8]) -> Result<(), NoMemory>
    ensures { OnOk result (reverse stack.new.items ≡ map Letter codes.now ++ Edge ∷ []) }
{
    stack.clear();
    stack.push(WordPart::Edge)?;
    let mut at = codes.len();
    while at > 0 {
        at -= 1;
        stack.push(WordPart::Letter(codes[at]))?;
    }
    Ok(())
}

/// Goes over the next part, if there is one; the part at the left is done then.
fn pass_one(
    alloc: Global,
    font: &Font,
    list: &mut NodeList,
    stack: &mut Vec<WordPart>,
    left: WordPart,
) -> Result<WordPart, NoMemory>
    ensures ok { IfOk result (λ next. cursor_of list.new next stack.new.items ≡ words.passed_one font.now (cursor_of list.old left stack.old.items) (reverse stack.old.items)) }
    ensures size { length stack.new.items ≤ length stack.old.items }
    ensures begins { Begins list.old list.new }
{
    match stack.pop() {
        None => Ok(left),
        Some(next) => {
            push_part(alloc, list, font, left)?;
            Ok(next)
        }
    }
}

/// Goes over so many parts.
fn pass(
    alloc: Global,
    font: &Font,
    list: &mut NodeList,
    stack: &mut Vec<WordPart>,
    mut left: WordPart,
    count: u8,
) -> Result<WordPart, NoMemory>
    ensures ok { IfOk result (λ next. cursor_of list.new next stack.new.items ≡ words.passed font.now count (cursor_of list.old left stack.old.items)) }
    ensures size { length stack.new.items ≤ length stack.old.items }
    ensures begins { Begins list.old list.new }
{
    let mut more = count;
    while more > 0 {
        left = pass_one(alloc, font, list, stack, left)?;
        more -= 1;
    }
    Ok(left)
}

/// Puts a ligature between two parts, each of which is kept or not, and answers the part that is
/// then at the left.
fn put_ligature(
    alloc: Global,
    stack: &mut Vec<WordPart>,
    code: u8,
    keep_left: bool,
    keep_right: bool,
    left: WordPart,
    next: WordPart,
) -> Result<WordPart, NoMemory>
    ensures size { length stack.new.items ≤ length stack.old.items + 2 }
    ensures ok { (made : List Node) → IfOk result (λ first. cursor_of made first stack.new.items ≡ words.with_ligature keep_left made left (words.joined code keep_left keep_right left next) (words.behind_ligature keep_right next (reverse stack.old.items))) }
{
    if keep_left {
        let ligature = join(code, keep_right, Listed::new(alloc), &next)?;
        if keep_right {
            stack.push(next)?;
        }
        stack.push(ligature)?;
        return Ok(left);
    }
    let ligature = join(code, keep_right, into_letters(alloc, left)?, &next)?;
    if keep_right {
        stack.push(next)?;
    }
    Ok(ligature)
}

/// Does what a step of the font says of the part at the left and the next one.
fn take_step(
    alloc: Global,
    font: &Font,
    list: &mut NodeList,
    stack: &mut Vec<WordPart>,
    left: WordPart,
    next: WordPart,
    step: LigStep,
) -> Result<WordPart, NoMemory>
    ensures ok { IfOk result (λ first. cursor_of list.new first stack.new.items ≡ words.stepped font.now step (cursor_of list.old left (stack.old.items ++ next ∷ [])) next (reverse stack.old.items)) }
    ensures size { length stack.new.items ≤ length stack.old.items + stops.parts_put step }
    ensures begins { Begins list.old list.new }
{
    match step {
        LigStep::Nothing => {
            push_part(alloc, list, font, left)?;
            Ok(next)
        }
        LigStep::Kern(width) => {
            push_part(alloc, list, font, left)?;
            list.push(Node::Kern {
                width,
                origin: KernOrigin::Font,
            })?;
            Ok(next)
        }
        LigStep::Lig {
            code,
            keep_left,
            keep_right,
            pass: count,
        } => {
            let first = put_ligature(alloc, stack, code, keep_left, keep_right, left, next)?;
            pass(alloc, font, list, stack, first, count)
        }
    }
}

/// How many steps are left after this one, if it may still be taken.
fn steps_left(steps: u64, step: LigStep) -> Option<u64>
    ensures { result ≡ stops.steps_left steps step }
{
    match step {
        LigStep::Nothing => Some(steps),
        LigStep::Kern(_) | LigStep::Lig { .. } => steps.checked_sub(1),
    }
}

/// Puts the nodes of the characters behind a list, taking at most so many steps, and answers how
/// many are left.
pub fn rewrite(
    alloc: Global,
    codes: &[u8],
    stack: &mut Vec<WordPart>,
    font: &Font,
    list: &mut NodeList,
    mut steps: u64,
) -> Result<u64, Stop>
    ensures ok { IfOk result (λ left. words.set_from font.now steps (words.word_start list.old codes.now) ≡ Some (list.new, left)) }
    ensures stop { IfErr result (IsCursorStop font.now steps (words.word_start list.old codes.now)) }
    ensures begins { Begins list.old list.new }
{
    fill(stack, codes)?;
    let mut left = WordPart::Edge;
    while let Some(next) = stack.pop() {
        let step = font.step(side_of(&left), side_of(&next));
        let Some(more) = steps_left(steps, step) else {
            return Err(Stop::Fault(Kind::StepLimit));
        };
        left = take_step(alloc, font, list, stack, left, next, step)?;
        steps = more;
    }
    push_part(alloc, list, font, left)?;
    Ok(steps)
}
