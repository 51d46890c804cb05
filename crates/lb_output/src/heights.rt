//! The lengths down a page. They are in scaled points.
ghost use Rattle.std.specs.Prelude.{◌≡◌, ◌+ℤ◌, map, pos, IfSome};
ghost use Rattle.std.specs.Option.{is_some};
ghost use Rattle.lb_model_paper.specs.Dvi.{IsSmall, is_small};
ghost use Rattle.lb_model_paper.specs.Nodes.{total};
ghost use Rattle.lb_model_paper.specs.Pages.{foot_size};
ghost use Rattle.lb_model_paper.specs.PageBoxes.{are_small_behind, are_small_heights, feet_lengths, page_height};
ghost use Rattle.lb_output.specs.Heights.{IsAbove, IsFootLength, IsHeights, IsSum, feet_room, lengths_above};

use lb_base::Node;
use lb_model_paper::pages::PageLengths;

/// The largest length that TeX allows (TeXbook, chapter 10): below 2^30 scaled points.
const LARGEST: i64 = 1_073_741_823;

/// What stands between a page and its footnotes: 9pt.
const FEET_SKIP: i64 = 589_824;

/// How high the body is set, how far below its top the footnotes end, and how high the page is.
#[derive(Clone, Copy)]
pub struct Heights {
    pub goal: i32,
    pub used: i32,
    pub page: i32,
}

/// A sum with a length more. None where that is 2^30 or more in size.
fn add(sum: i64, length: i64) -> Option<i64>
    requires { IsSmall sum }
    ensures sum { IfSome result (IsSum sum length) }
    ensures small { is_some result ≡ is_small (sum +ℤ length) }
{
    if length < -2 * LARGEST || length > 2 * LARGEST {
        return None;
    }
    let sum = sum + length;
    if sum < -LARGEST || sum > LARGEST {
        return None;
    }
    Some(sum)
}

/// The lengths above the body of a page together.
fn above_body(lengths: &PageLengths) -> Option<i64>
    ensures sum { IfSome result (IsAbove lengths.now) }
    ensures small { is_some result ≡ are_small_behind (pos 0) (lengths_above lengths.now) }
{
    let Some(margin) = add(0, i64::from(lengths.topmargin)) else {
        return None;
    };
    let Some(head) = add(margin, i64::from(lengths.headheight)) else {
        return None;
    };
    add(head, i64::from(lengths.headsep))
}

/// The height and depth of a footnote. Nothing else has room at the foot of a page.
#[tactic(auto, unfolding(lb_model_paper::specs::Pages::foot_size))]
fn foot_size(node: &Node) -> i64
    ensures value { result ≡ foot_size node.now }
    ensures bounded { IsFootLength result }
{
    match node {
        Node::Ins(footnote) => {
            let footnote = footnote.get();
            i64::from(footnote.height) + i64::from(footnote.depth)
        }
        _ => 0,
    }
}

/// Where the footnotes end, where the body ends at a sum of lengths. None where one of the sums on
/// the way is 2^30 or more in size.
fn end_of_feet(body: i64, feet: &[Node]) -> Option<i64>
    requires { IsSmall body }
    ensures sum { IfSome result (IsSum body (feet_room feet.now)) }
    ensures small { is_some result ≡ are_small_behind body (feet_lengths feet.now) }
{
    if feet.is_empty() {
        return Some(body);
    }
    let Some(start) = add(body, FEET_SKIP) else {
        return None;
    };
    behind_feet(start, feet)
}

/// A sum with the heights and depths of footnotes, one by one.
fn behind_feet(start: i64, feet: &[Node]) -> Option<i64>
    requires { IsSmall start }
    ensures sum { IfSome result (IsSum start (total foot_size feet.now)) }
    ensures small { is_some result ≡ are_small_behind start (map foot_size feet.now) }
{
    let mut sum = start;
    for node in feet {
        let Some(next) = add(sum, foot_size(node)) else {
            return None;
        };
        sum = next;
    }
    Some(sum)
}

/// The lengths below the top of the body.
fn below_body(lengths: &PageLengths) -> i64
    ensures sum { result ≡ lengths.now.textheight +ℤ lengths.now.footskip }
    ensures bounded { IsFootLength result }
{
    i64::from(lengths.textheight) + i64::from(lengths.footskip)
}

/// How high a page is.
fn page_height(lengths: &PageLengths) -> i64
    ensures { result ≡ page_height lengths.now }
{
    i64::from(lengths.headheight) + (i64::from(lengths.headsep) + below_body(lengths))
}

/// The heights of a page. None where a sum of the lengths down the page, its footnotes among them, or
/// its height is 2^30 scaled points or more in size.
pub fn heights_of(lengths: &PageLengths, goal: i64, feet: &[Node]) -> Option<Heights>
    ensures heights { IfSome result (IsHeights lengths.now goal feet.now) }
    ensures small { is_some result ≡ are_small_heights lengths.now goal feet.now }
{
    let Some(above) = above_body(lengths) else {
        return None;
    };
    let Some(body) = add(above, goal) else {
        return None;
    };
    let Some(end) = end_of_feet(body, feet) else {
        return None;
    };
    let Some(_foot) = add(end, i64::from(lengths.footskip)) else {
        return None;
    };
    let Some(page) = add(0, page_height(lengths)) else {
        return None;
    };
    Some(Heights {
        goal: goal as i32,
        used: (end - above) as i32,
        page: page as i32,
    })
}
