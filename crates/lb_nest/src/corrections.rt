//! Italic corrections and discretionary hyphens (TeXbook, chapters 4 and 14; tex.web, sections 1112 to 1117).
ghost use Rattle.std.specs.Prelude.{◌≡◌, ◌∷◌, ◌++◌, [], ℕ, IfOk, OnOk};
ghost use Rattle.lb_base.specs.declared.node.KernOrigin.TheVariants.{Explicit};
ghost use Rattle.lb_base.specs.declared.node.Node as node;
ghost use Rattle.lb_base.specs.declared.node.Node.{out-Node};
ghost use Rattle.lb_model.specs.Settings.{Setting};
ghost use Rattle.lb_model_nest.specs.Fonts.{present};
ghost use Rattle.lb_model_nest.specs.Items.{discretionary_hyphen, hyphen_in, hyphen_parts, italic_behind, italic_correction, italic_in};
ghost use Rattle.lb_model_nest.specs.Wholes.{executed};
ghost use Rattle.lb_nest.specs.Leads.{Goes};
ghost use Rattle.lb_nest.specs.Views.{Keeps};
ghost use Rattle.lb_nest.specs.Works.{Works};

use crate::adding::add_all;
use crate::entries::Entry;
use crate::fonts::{Chosen, present_font};
use crate::level::is_vertical;
use crate::nest::Nest;
use crate::paragraphs::begin_in_vertical;
use lb_base::{Discretionary, KernOrigin, Kind, Metrics, NoMemory, Node, NodeList};
use lb_fonts::Font;
use lb_groups::Groups;
use lb_model::Cells;
use lb_model_journal::Event;
use lb_model_nest::Went;
use sqlite_items::{Boxed as Held, Items};
use std::alloc::Global;

/// The code of the hyphen.
const HYPHEN: u8 = 45;

// A kern, which is no font kern, as the only node.
fn kern(alloc: Global, width: i32) -> Result<NodeList, NoMemory>
    ensures { IfOk result (λ nodes. nodes ≡ node.Kern width Explicit ∷ []) }
{
    let mut nodes = Items::new(alloc);
    let origin = KernOrigin::Explicit;
    nodes.push(Node::Kern { width, origin })?;
    Ok(nodes)
}

// The italic correction of a node, if it is a character.
fn italic_in(alloc: Global, node: &Node) -> Result<NodeList, NoMemory>
    ensures { IfOk result (λ nodes. nodes ≡ italic_in (out-Node node.now)) }
{
    match node {
        Node::Char { metrics, .. } => kern(alloc, metrics.italic),
        Node::Lig(ligature) => kern(alloc, ligature.get().metrics.italic),
        _ => Ok(Items::new(alloc)),
    }
}

// The italic correction of the last node of a list, if it is a character.
fn italic_behind(alloc: Global, list: &NodeList) -> Result<NodeList, NoMemory>
    ensures { IfOk result (λ nodes. nodes ≡ italic_behind list.now) }
{
    match list.as_slice().last() {
        None => Ok(Items::new(alloc)),
        Some(last) => italic_in(alloc, last),
    }
}

/// `\/`: the italic correction of the character that stands last. `WrongMode` in a vertical list.
#[tactic(auto, unfolding(lb_model_nest::specs::Items::italic_correction))]
pub fn italic_correction<C: Cells>(
    cells: &mut C,
    groups: &mut Groups,
    left: &mut u64,
    nest: &mut Nest,
) -> Result<Went, NoMemory>
    requires keeps { (p : Setting) → C.agrees cells.old p → Keeps p (C.meaning cells.old p) groups.old nest.old }
    ensures goes { Goes C.Cells italic_correction result cells.new groups.new left.new nest.new cells.old groups.old left.old nest.old }
{
    if is_vertical(nest.level.kind) {
        return Ok(Went::Stopped(Kind::WrongMode));
    }
    let nodes = italic_behind(nest.alloc, &nest.level.nodes)?;
    add_all(cells, groups, left, nest, nodes)
}

// A discretionary with a first part alone.
fn hyphen_parts(alloc: Global, pre_break: NodeList) -> Result<Node, NoMemory>
    ensures { IfOk result (λ node. node ≡ hyphen_parts pre_break) }
{
    let parts = Discretionary {
        pre_break,
        post_break: Items::new(alloc),
        no_break: Items::new(alloc),
    };
    Ok(Node::Disc(Held::new(alloc, parts)?))
}

// Puts a discretionary with a hyphen of these metrics behind the innermost list.
fn push_hyphen(nest: &mut Nest, font: &Font, metrics: Metrics) -> Result<(), NoMemory>
    ensures pushed { OnOk result (nest.new ≡ record nest.old { level = record nest.old.level { nodes = nest.old.level.nodes ++ hyphen_parts (node.Char 45 metrics font.now.id ∷ []) ∷ [] } }) }
    ensures shelf { nest.new.shelf ≡ nest.old.shelf }
{
    let mut nodes = Items::new(nest.alloc);
    nodes.push(Node::Char {
        code: HYPHEN,
        metrics,
        font: font.id().clone()?,
    })?;
    let node = hyphen_parts(nest.alloc, nodes)?;
    nest.push(node)?;
    Ok(())
}

// Adds a discretionary with a hyphen of a font. Where the font lacks one, that is logged.
fn add_hyphen(nest: &mut Nest, font: &Font) -> Result<Went, NoMemory>
    ensures works { (left : ℕ) → Works (hyphen_in font.now) executed result left nest.new left nest.old }
{
    if let Some(metrics) = font.metrics(HYPHEN) {
        push_hyphen(nest, font, metrics)?;
        return Ok(Went::On);
    }
    let name = font.id().name.clone()?;
    nest.entries
        .push(Entry::Event(Event::MissingCharacter(HYPHEN, name)))?;
    let node = hyphen_parts(nest.alloc, Items::new(nest.alloc))?;
    nest.push(node)?;
    Ok(Went::On)
}

// Adds a discretionary with a hyphen of the present font.
fn add_present_hyphen<C: Cells>(
    cells: &mut C,
    groups: &Groups,
    nest: &mut Nest,
) -> Result<Went, NoMemory>
    requires keeps { (p : Setting) → C.agrees cells.old p → Keeps p (C.meaning cells.old p) groups.now nest.old }
    ensures goes { (left : ℕ) → Goes C.Cells (present hyphen_in) result cells.new groups.now left nest.new cells.old groups.now left nest.old }
{
    match present_font(cells, groups, nest)? {
        Chosen::Font(font) => add_hyphen(nest, font.get()),
        Chosen::Stops(went) => Ok(went),
    }
}

/// `\-`: a discretionary with a hyphen of the present font, if that has one. A paragraph begins in a vertical list.
#[tactic(auto, unfolding(lb_model_nest::specs::Items::discretionary_hyphen))]
pub fn discretionary_hyphen<C: Cells>(
    cells: &mut C,
    groups: &mut Groups,
    left: &mut u64,
    nest: &mut Nest,
) -> Result<Went, NoMemory>
    requires keeps { (p : Setting) → C.agrees cells.old p → Keeps p (C.meaning cells.old p) groups.old nest.old }
    ensures goes { Goes C.Cells discretionary_hyphen result cells.new groups.new left.new nest.new cells.old groups.old left.old nest.old }
{
    match begin_in_vertical(cells, groups, left, nest, true)? {
        Went::On => add_present_hyphen(cells, groups, nest),
        went => Ok(went),
    }
}
