//! The glue between lines (TeXbook, chapter 12). Lengths are in scaled points.
ghost use Rattle.std.specs.Prelude.{◌≡◌, ◌++◌, ◌∷◌, [], pos, neg_ℤ, ◌-ℤ◌, ◌≤ℤ◌, OnOk, OnErr, Ok};
ghost use Rattle.lb_base.specs.Answers.{Answers};
ghost use Rattle.lb_base.specs.declared.node.Boxed.{out-Boxed};
ghost use Rattle.lb_model_paper.specs.Lines.{appended, new_depth};
ghost use Rattle.lb_model_paper.specs.Dvi.{is_small};
ghost use Rattle.lb_lines.specs.Glues.{IsGlueFor, IsGlueOf};

use lb_base::{Boxed, Glue, Kind, Node, NodeList, Stop};
use lb_model_paper::paragraph::LineRules;
use sqlite_items::Boxed as Held;
use std::alloc::{AllocError, Global};

/// At this depth so far and below, no glue stands before a box.
const NO_GLUE: i32 = -65_536_000;

/// The largest width of glue.
const WIDEST: i64 = 1_073_741_823;

/// What stands before a box.
#[derive(Drop)]
enum Before {
    Nothing,
    Glue(Glue),
    TooWide,
}

/// What stands before a box of a height, behind a depth.
fn glue_before(rules: &LineRules, prev: i32, height: i32) -> Before
    ensures { IsGlueFor rules.now prev height result }
{
    if prev <= NO_GLUE {
        return Before::Nothing;
    }
    let width = less_height(difference(rules.baselineskip.width, prev), height);
    if width < i64::from(rules.lineskiplimit) {
        return small(rules.lineskip, i64::from(rules.lineskip.width));
    }
    small(rules.baselineskip, width)
}

fn difference(a: i32, b: i32) -> i64
    ensures value { result ≡ a -ℤ b }
    ensures low { neg_ℤ (pos 4294967296) ≤ℤ result }
    ensures high { result ≤ℤ pos 4294967296 }
{
    i64::from(a) - i64::from(b)
}

fn less_height(length: i64, height: i32) -> i64
    requires low { neg_ℤ (pos 4294967296) ≤ℤ length }
    requires high { length ≤ℤ pos 4294967296 }
    ensures { result ≡ length -ℤ height }
{
    length - i64::from(height)
}

/// Glue with another width, if that is small.
fn small(glue: Glue, width: i64) -> Before
    ensures { IsGlueOf (record glue { width = width }) result }
{
    if !is_small(width) {
        return Before::TooWide;
    }
    Before::Glue(Glue {
        width: width as i32,
        stretch: glue.stretch,
        stretch_order: glue.stretch_order,
        shrink: glue.shrink,
        shrink_order: glue.shrink_order,
    })
}

/// Whether a length is below 2^30 in size.
fn is_small(length: i64) -> bool
    ensures { result ≡ is_small length }
{
    -WIDEST <= length && length <= WIDEST
}

/// Puts a box behind a vertical list, with the glue that stands before it: so much that the baselines
/// are `baselineskip` apart, or `lineskip` where that would be less than `lineskiplimit`, and none where
/// the depth so far, `prev`, is −1000pt or less. Answers the new depth so far, that of the box.
///
/// `DimenTooLarge` comes exactly where the glue would be 2^30 scaled points or more in width. After an
/// error the list is as it was.
pub fn append_line(
    alloc: Global,
    list: &mut NodeList,
    line: Boxed,
    rules: &LineRules,
    prev: i32,
) -> Result<i32, Stop>
    ensures depth { Answers (new_depth rules.now line prev) result }
    ensures list { OnOk result (appended rules.now list.old line prev ≡ Ok list.new) }
    ensures err { OnErr result (list.new ≡ list.old) }
{
    let depth = line.depth;
    let before = glue_before(rules, prev, line.height);
    let node = Node::Boxed(Held::new(alloc, line)?);
    match before {
        Before::TooWide => Err(Stop::Fault(Kind::DimenTooLarge)),
        Before::Nothing => {
            list.push(node)?;
            Ok(depth)
        }
        Before::Glue(glue) => {
            push_both(list, Node::Glue(glue), node)?;
            Ok(depth)
        }
    }
}

/// Puts two nodes behind a list, or none.
fn push_both(list: &mut NodeList, first: Node, second: Node) -> Result<(), AllocError>
    ensures ok { OnOk result (list.new ≡ list.old ++ first ∷ second ∷ []) }
    ensures err { OnErr result (list.new ≡ list.old) }
{
    list.push(first)?;
    if let Err(error) = list.push(second) {
        let _first = list.pop();
        return Err(error);
    }
    Ok(())
}
