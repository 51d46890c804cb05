//! Commands for pages: `pagerules ..`, `page N` and `give N` for the last N nodes of the current list,
//! `ask`, `flush`, `emptypage`, and for the first page that waits `pagemarks` for its marks and `ship ..` for
//! its box.
use crate::trees::{show_box, show_nodes};
use lb_base::{Boxed, Glue, Node, NodeList, Order};
use lb_output::{HeadFoot, PageLengths, PageLook, page_box, page_marks};
use lb_page::{PageList, PagePart, PageRules, contribute, flush, next_page};
use lb_tests_lists::fault::show_fault;
use lb_tests_lists::lists::{order, taken};
use lb_tests_lists::number::{count, length};
use lb_tests_lists::stop::Stop;
use std::alloc::Global;
use std::collections::VecDeque;
use std::fmt::Write;

/// The page, the rules, and the parts that wait to be shipped.
#[derive(Drop)]
pub struct Pages {
    page: PageList,
    rules: PageRules,
    parts: VecDeque<PagePart>,
}

impl Pages {
    pub fn new(alloc: Global) -> Pages {
        Pages {
            page: PageList::new(alloc),
            rules: PageRules {
                textheight: 35_258_368,
                topskip: Glue {
                    width: 655_360,
                    stretch: 0,
                    stretch_order: Order::Finite,
                    shrink: 0,
                    shrink_order: Order::Finite,
                },
                maxdepth: 327_680,
            },
            parts: VecDeque::new(alloc),
        }
    }
}

/// Runs a command, or answers false if it is none of these.
pub fn show(
    alloc: Global,
    words: &[&str],
    pages: &mut Pages,
    list: &mut NodeList,
    out: &mut String,
) -> Result<bool, Stop> {
    match words {
        ["pagerules", rules @ ..] => pages.rules = rules_of(rules)?,
        ["page", nodes] => {
            let nodes = taken(alloc, list, count(nodes)?)?;
            contribute_all(alloc, nodes, pages, out)?;
        }
        ["give", nodes] => {
            let mut nodes = turned(alloc, taken(alloc, list, count(nodes)?)?)?;
            for _ in 0..nodes.len() {
                contribute(&mut pages.page, nodes.pop().ok_or(Stop::Command)?)?;
            }
        }
        ["ask"] => show_next(pages, out)?,
        ["flush"] => show_flushed(pages, out)?,
        ["emptypage"] => {
            pages.page = PageList::new(alloc);
            pages.parts = VecDeque::new(alloc);
        }
        ["pagemarks"] => show_marks(pages.parts.front().ok_or(Stop::Command)?, out)?,
        ["ship", number, style, lengths @ .., digits, marks] => {
            let lengths = lengths_of(lengths)?;
            let digits = taken(alloc, list, count(digits)?)?;
            let right = mark(list, is_right(marks)?)?;
            let left = mark(list, is_left(marks))?;
            let look = PageLook {
                number: length(number)?,
                digits,
                style: style_of(style)?,
                left,
                right,
                lengths,
            };
            let part = pages.parts.pop_front().ok_or(Stop::Command)?;
            show_shipped(page_box(alloc, part, look), out)?;
        }
        _ => return Ok(false),
    }
    Ok(true)
}

fn rules_of(words: &[&str]) -> Result<PageRules, Stop> {
    match *words {
        [
            textheight,
            width,
            stretch,
            stretch_order,
            shrink,
            shrink_order,
            maxdepth,
        ] => Ok(PageRules {
            textheight: length(textheight)?,
            topskip: Glue {
                width: length(width)?,
                stretch: length(stretch)?,
                stretch_order: order(stretch_order)?,
                shrink: length(shrink)?,
                shrink_order: order(shrink_order)?,
            },
            maxdepth: length(maxdepth)?,
        }),
        _ => Err(Stop::Command),
    }
}

fn lengths_of(words: &[&str]) -> Result<PageLengths, Stop> {
    match *words {
        [
            textwidth,
            textheight,
            headheight,
            headsep,
            footskip,
            topmargin,
            odd,
            even,
        ] => {
            Ok(PageLengths {
                textwidth: length(textwidth)?,
                textheight: length(textheight)?,
                headheight: length(headheight)?,
                headsep: length(headsep)?,
                footskip: length(footskip)?,
                topmargin: length(topmargin)?,
                oddsidemargin: length(odd)?,
                evensidemargin: length(even)?,
            })
        }
        _ => Err(Stop::Command),
    }
}

fn style_of(word: &str) -> Result<HeadFoot, Stop> {
    match word {
        "empty" => Ok(HeadFoot::Neither),
        "plain" => Ok(HeadFoot::Foot),
        "headings" | "myheadings" => Ok(HeadFoot::Head),
        _ => Err(Stop::Command),
    }
}

fn is_right(word: &str) -> Result<bool, Stop> {
    match word {
        "none" | "left" => Ok(false),
        "right" | "both" => Ok(true),
        _ => Err(Stop::Command),
    }
}

fn is_left(word: &str) -> bool {
    word == "left" || word == "both"
}

/// The last node of the list, a box, where a mark is asked for.
fn mark(list: &mut NodeList, is_asked: bool) -> Result<Option<Boxed>, Stop> {
    if !is_asked {
        return Ok(None);
    }
    match list.pop().ok_or(Stop::Command)? {
        Node::Boxed(boxed) => Ok(Some(boxed.into_inner())),
        _ => Err(Stop::Command),
    }
}

fn turned(alloc: Global, nodes: NodeList) -> Result<NodeList, Stop> {
    let mut nodes = nodes;
    let mut turned = sqlite_items::Items::new(alloc);
    for _ in 0..nodes.len() {
        turned.push(nodes.pop().ok_or(Stop::Command)?)?;
    }
    Ok(turned)
}

/// Contributes nodes one by one, and asks after each for the pages that end.
fn contribute_all(
    alloc: Global,
    nodes: NodeList,
    pages: &mut Pages,
    out: &mut String,
) -> Result<(), Stop> {
    let mut nodes = turned(alloc, nodes)?;
    let mut given = 0u64;
    for _ in 0..nodes.len() {
        contribute(&mut pages.page, nodes.pop().ok_or(Stop::Command)?)?;
        for _ in 0..u64::MAX {
            match next_page(&mut pages.page, &pages.rules) {
                Ok(Some(part)) => {
                    show_part(&part, out)?;
                    pages.parts.push_back(part)?;
                    given = given.saturating_add(1);
                }
                Ok(None) => break,
                Err(stop) => return show_fault(&stop, out),
            }
        }
    }
    writeln!(out, "pages {given}")?;
    Ok(())
}

fn show_next(pages: &mut Pages, out: &mut String) -> Result<(), Stop> {
    match next_page(&mut pages.page, &pages.rules) {
        Ok(Some(part)) => {
            show_part(&part, out)?;
            pages.parts.push_back(part)?;
        }
        Ok(None) => writeln!(out, "none")?,
        Err(stop) => show_fault(&stop, out)?,
    }
    Ok(())
}

fn show_flushed(pages: &mut Pages, out: &mut String) -> Result<(), Stop> {
    let parts = match flush(&mut pages.page, &pages.rules) {
        Ok(parts) => parts,
        Err(stop) => return show_fault(&stop, out),
    };
    let given = parts.len();
    for part in parts.into_vec() {
        show_part(&part, out)?;
        pages.parts.push_back(part)?;
    }
    writeln!(out, "pages {given}")?;
    Ok(())
}

fn show_part(part: &PagePart, out: &mut String) -> Result<(), Stop> {
    let goal = part.goal;
    write!(out, "part goal {goal} items")?;
    show_nodes(part.items.as_slice(), out)?;
    write!(out, " feet")?;
    show_nodes(part.feet.as_slice(), out)?;
    writeln!(out, "")?;
    Ok(())
}

fn show_marks(part: &PagePart, out: &mut String) -> Result<(), Stop> {
    let marks = page_marks(part.items.as_slice());
    write!(out, "marks first-right ")?;
    show_mark(marks.first_right, out)?;
    write!(out, " last-left ")?;
    show_mark(marks.last_left, out)?;
    write!(out, " last-right ")?;
    show_mark(marks.last_right, out)?;
    writeln!(out, "")?;
    Ok(())
}

/// A part of a mark, or `-` where there is none.
fn show_mark(boxed: Option<&Boxed>, out: &mut String) -> Result<(), Stop> {
    match boxed {
        Some(boxed) => show_box(boxed, out)?,
        None => write!(out, "-")?,
    }
    Ok(())
}

fn show_shipped(shipped: Result<Boxed, lb_base::Stop>, out: &mut String) -> Result<(), Stop> {
    match shipped {
        Ok(boxed) => {
            show_box(&boxed, out)?;
            writeln!(out, "")?;
            Ok(())
        }
        Err(stop) => show_fault(&stop, out),
    }
}
