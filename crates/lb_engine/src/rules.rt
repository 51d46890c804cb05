//! Rules (TeXbook, chapter 24; tex.web, sections 1056 and 463). Lengths are in scaled points.
ghost use Rattle.lb_base.specs.declared.node.Node.{Rule as RuleNode};
ghost use Rattle.lb_model_engine.specs.Items.{hrule, rule_sizes, vrule};
ghost use Rattle.lb_model_nest.specs.Items.{rule_added};
ghost use Rattle.lb_model_nest.specs.Pages.{added};
ghost use Rattle.lb_model_nest.specs.Paragraphs.{paragraph_ended};
ghost use Rattle.lb_model_nest.specs.Wholes.{and_then};
ghost use Rattle.lb_engine.specs.Leads.{Goes, Holds};
ghost use Rattle.lb_engine.specs.Rules.{across, upright};

use crate::engine::Engine;
use crate::material::{add_node, add_rule};
use crate::paragraphs::{begin_in_vertical, end_paragraph};
use crate::reading::Reading;
use crate::rule_sizes::rule_sizes;
use lb_base::{Kind, NoMemory, Node, RuleSize};
use lb_model::Cells;
use lb_model_nest::Went;
use lb_nest::is_restricted;

/// 0.4pt.
const THICKNESS: i32 = 26_214;

/// The size of a rule as wide as its box, where nothing is given.
const ACROSS: RuleSize = RuleSize {
    width: None,
    height: Some(THICKNESS),
    depth: Some(0),
};

/// The size of a rule as high and as deep as its box, where nothing is given.
const UPRIGHT: RuleSize = RuleSize {
    width: Some(THICKNESS),
    height: None,
    depth: None,
};

// A rule of the size that comes, in a vertical list.
fn add_across<C: Cells>(cells: &mut C, engine: &mut Engine) -> Result<Went, NoMemory>
    requires holds { Holds C.Cells cells.old engine.old }
    ensures goes { Goes C.Cells (rule_sizes across rule_added) result cells.new engine.new cells.old engine.old }
{
    match rule_sizes(cells, engine, ACROSS)? {
        Reading::Of(size) => add_rule(cells, engine, size),
        Reading::Stops(went) => Ok(went),
    }
}

// A rule behind a paragraph, which ends.
fn rule_behind<C: Cells>(cells: &mut C, engine: &mut Engine) -> Result<Went, NoMemory>
    requires holds { Holds C.Cells cells.old engine.old }
    ensures goes { Goes C.Cells (λ w. and_then (paragraph_ended w) (λ v. rule_sizes across rule_added v)) result cells.new engine.new cells.old engine.old }
{
    match end_paragraph(cells, engine)? {
        Went::On => add_across(cells, engine),
        went => Ok(went),
    }
}

/// `\hrule`. `WrongMode` inside a horizontal box.
pub fn hrule<C: Cells>(cells: &mut C, engine: &mut Engine) -> Result<Went, NoMemory>
    requires holds { Holds C.Cells cells.old engine.old }
    ensures goes { Goes C.Cells hrule result cells.new engine.new cells.old engine.old }
{
    if is_restricted(engine.nest.level.kind) {
        return Ok(Went::Stopped(Kind::WrongMode));
    }
    rule_behind(cells, engine)
}

// A rule of the size that comes, in a horizontal list.
fn add_upright<C: Cells>(cells: &mut C, engine: &mut Engine) -> Result<Went, NoMemory>
    requires holds { Holds C.Cells cells.old engine.old }
    ensures goes { Goes C.Cells (rule_sizes upright (λ size u. added (RuleNode size) u)) result cells.new engine.new cells.old engine.old }
{
    match rule_sizes(cells, engine, UPRIGHT)? {
        Reading::Of(size) => add_node(cells, engine, Node::Rule(size)),
        Reading::Stops(went) => Ok(went),
    }
}

/// `\vrule`: it begins a paragraph in a vertical list.
pub fn vrule<C: Cells>(cells: &mut C, engine: &mut Engine) -> Result<Went, NoMemory>
    requires holds { Holds C.Cells cells.old engine.old }
    ensures goes { Goes C.Cells vrule result cells.new engine.new cells.old engine.old }
{
    match begin_in_vertical(cells, engine, true)? {
        Went::On => add_upright(cells, engine),
        went => Ok(went),
    }
}
