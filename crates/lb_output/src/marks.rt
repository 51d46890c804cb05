//! The marks of a page.
ghost use Rattle.std.specs.Prelude.{◌≡◌, ◌∷◌, [], option_copied};
ghost use Rattle.lb_model_paper.specs.PageMarks.{first_right, head_marks, last_left, last_right, marks_of_node};
ghost use Rattle.lb_output.specs.FoundMarks.{found_of, past};

use lb_base::{Boxed, HeadMark, Node};

/// What the marks of a page have for heads. The head of an odd page shows its first right part, and
/// that of an even page its last left part; where there is none, either shows what an earlier page had
/// last.
#[derive(Clone, Copy)]
pub struct PageMarks<'a> {
    pub first_right: Option<&'a Boxed>,
    pub last_left: Option<&'a Boxed>,
    pub last_right: Option<&'a Boxed>,
}

/// What the marks among the items of a page have for heads, those in boxes and in the third parts of
/// discretionaries too (The TeXbook, chapter 23). Marks in footnotes and in vertical material do not
/// count. Each item is looked at once, and no memory is taken.
pub fn page_marks(items: &[Node]) -> PageMarks<'_>
    ensures first_right { option_copied result.first_right ≡ first_right (head_marks items.now) }
    ensures last_left { option_copied result.last_left ≡ last_left (head_marks items.now) }
    ensures last_right { option_copied result.last_right ≡ last_right (head_marks items.now) }
{
    let none = PageMarks {
        first_right: None,
        last_left: None,
        last_right: None,
    };
    with_list(none, items)
}

/// What is found with the marks of a list behind it.
#[cycle(marks)]
fn with_list<'a>(before: PageMarks<'a>, nodes: &'a [Node]) -> PageMarks<'a>
    ensures { found_of result ≡ past (found_of before.entry) (head_marks nodes.now) }
{
    let mut found = before;
    for node in nodes {
        found = with_node(found, node);
    }
    found
}

/// What is found with the marks of a node behind it.
#[cycle(marks)]
#[tactic(auto, unfolding(lb_model_paper::specs::PageMarks::marks_of_node))]
fn with_node<'a>(found: PageMarks<'a>, node: &'a Node) -> PageMarks<'a>
    ensures { found_of result ≡ past (found_of found.entry) (marks_of_node head_marks node.now) }
{
    match node {
        Node::Mark(mark) => with_mark(found, mark.get()),
        Node::Boxed(boxed) => with_list(found, boxed.get().items.as_slice()),
        Node::Disc(parts) => with_list(found, parts.get().no_break.as_slice()),
        _ => found,
    }
}

/// What is found with a mark behind it.
#[tactic(auto, unfolding(lb_model_paper::specs::PageMarks::right_of, lb_model_paper::specs::PageMarks::left_of))]
fn with_mark<'a>(found: PageMarks<'a>, mark: &'a HeadMark) -> PageMarks<'a>
    ensures { found_of result ≡ past (found_of found.entry) (mark.now ∷ []) }
{
    let (left, right) = match mark {
        HeadMark::Both { left, right } => (Some(left.get()), right.get()),
        HeadMark::Right(right) => (None, right.get()),
    };
    PageMarks {
        first_right: found.first_right.or(Some(right)),
        last_left: left.or(found.last_left),
        last_right: Some(right),
    }
}
