//! What the end of a paragraph reads (TeXbook, chapter 14). Lengths are in scaled points, 65536 to the point.
ghost use Rattle.lb_model_nest.specs.Paragraphs.{end_cells, line_cells, line_rules};
ghost use Rattle.lb_nest.specs.Endings.{between_cells, between_lines, demerit_cells, demerits, ending, length_cells, line_lengths, tolerance_cells, tolerances};
ghost use Rattle.lb_nest.specs.Leads.{Looks};

use lb_base::{Glue, NoMemory};
use lb_groups::{Groups, looks};
use lb_model::Cells;
use lb_model_paper::paragraph::{BreakRules, LineRules, Passes, Shape};
use lb_rows::Parameter;
use lb_values::Cell;

/// The width of the lines, the glue at their ends, and that at the end of the last one.
#[derive(Clone, Copy)]
pub(crate) struct LineLengths {
    width: i32,
    left: Glue,
    right: Glue,
    fill: Glue,
}

/// The tolerances of the passes, and the penalties of lines and hyphens.
#[derive(Clone, Copy)]
pub(crate) struct Tolerances {
    pretolerance: i32,
    tolerance: i32,
    line_penalty: i32,
    hyphen_penalty: i32,
}

/// The penalty of a hyphen that stands in the text, and the demerits of neighbouring lines.
#[derive(Clone, Copy)]
pub(crate) struct Demerits {
    ex_hyphen_penalty: i32,
    adj_demerits: i32,
    double_hyphen_demerits: i32,
    final_hyphen_demerits: i32,
}

/// The penalties between lines.
#[derive(Clone, Copy)]
pub(crate) struct BetweenLines {
    club_penalty: i32,
    widow_penalty: i32,
    broken_penalty: i32,
    interline_penalty: i32,
}

/// The shape of the lines, and the glue at the end of the last one.
#[derive(Clone, Copy)]
pub(crate) struct Ending {
    pub shape: Shape,
    pub fill: Glue,
}

fn read_lengths<C: Cells>(cells: &mut C, groups: &Groups) -> Result<LineLengths, NoMemory>
    ensures looks { Looks C.Cells groups.now length_cells line_lengths result cells.new cells.old }
{
    let width = looks::dimension(cells, groups, Cell::Par(Parameter::HSize))?;
    let left = looks::glue(cells, groups, Cell::Par(Parameter::LeftSkip))?;
    let right = looks::glue(cells, groups, Cell::Par(Parameter::RightSkip))?;
    let fill = looks::glue(cells, groups, Cell::Par(Parameter::ParFillSkip))?;
    Ok(LineLengths {
        width,
        left,
        right,
        fill,
    })
}

fn read_tolerances<C: Cells>(cells: &mut C, groups: &Groups) -> Result<Tolerances, NoMemory>
    ensures looks { Looks C.Cells groups.now tolerance_cells tolerances result cells.new cells.old }
{
    let pretolerance = looks::number(cells, groups, Cell::Par(Parameter::Pretolerance))?;
    let tolerance = looks::number(cells, groups, Cell::Par(Parameter::Tolerance))?;
    let line_penalty = looks::number(cells, groups, Cell::Par(Parameter::LinePenalty))?;
    let hyphen_penalty = looks::number(cells, groups, Cell::Par(Parameter::HyphenPenalty))?;
    Ok(Tolerances {
        pretolerance,
        tolerance,
        line_penalty,
        hyphen_penalty,
    })
}

fn read_demerits<C: Cells>(cells: &mut C, groups: &Groups) -> Result<Demerits, NoMemory>
    ensures looks { Looks C.Cells groups.now demerit_cells demerits result cells.new cells.old }
{
    let ex_hyphen_penalty = looks::number(cells, groups, Cell::Par(Parameter::ExHyphenPenalty))?;
    let adj_demerits = looks::number(cells, groups, Cell::Par(Parameter::AdjDemerits))?;
    let double_hyphen_demerits = looks::number(
        cells,
        groups,
        Cell::Par(Parameter::DoubleHyphenDemerits),
    )?;
    let final_hyphen_demerits = looks::number(
        cells,
        groups,
        Cell::Par(Parameter::FinalHyphenDemerits),
    )?;
    Ok(Demerits {
        ex_hyphen_penalty,
        adj_demerits,
        double_hyphen_demerits,
        final_hyphen_demerits,
    })
}

fn read_between_lines<C: Cells>(cells: &mut C, groups: &Groups) -> Result<BetweenLines, NoMemory>
    ensures looks { Looks C.Cells groups.now between_cells between_lines result cells.new cells.old }
{
    let club_penalty = looks::number(cells, groups, Cell::Par(Parameter::ClubPenalty))?;
    let widow_penalty = looks::number(cells, groups, Cell::Par(Parameter::WidowPenalty))?;
    let broken_penalty = looks::number(cells, groups, Cell::Par(Parameter::BrokenPenalty))?;
    let interline_penalty = looks::number(cells, groups, Cell::Par(Parameter::InterLinePenalty))?;
    Ok(BetweenLines {
        club_penalty,
        widow_penalty,
        broken_penalty,
        interline_penalty,
    })
}

/// The parameters of the end of a paragraph.
pub(crate) fn read_ending<C: Cells>(cells: &mut C, groups: &Groups) -> Result<Ending, NoMemory>
    ensures looks { Looks C.Cells groups.now end_cells ending result cells.new cells.old }
{
    let lengths = read_lengths(cells, groups)?;
    let tolerances = read_tolerances(cells, groups)?;
    let demerits = read_demerits(cells, groups)?;
    let between = read_between_lines(cells, groups)?;
    Ok(Ending {
        shape: Shape {
            width: lengths.width,
            left: lengths.left,
            right: lengths.right,
            rules: BreakRules {
                pretolerance: tolerances.pretolerance,
                tolerance: tolerances.tolerance,
                line_penalty: tolerances.line_penalty,
                hyphen_penalty: tolerances.hyphen_penalty,
                ex_hyphen_penalty: demerits.ex_hyphen_penalty,
                adj_demerits: demerits.adj_demerits,
                double_hyphen_demerits: demerits.double_hyphen_demerits,
                final_hyphen_demerits: demerits.final_hyphen_demerits,
                club_penalty: between.club_penalty,
                widow_penalty: between.widow_penalty,
                broken_penalty: between.broken_penalty,
                interline_penalty: between.interline_penalty,
                passes: Passes::Both,
            },
        },
        fill: lengths.fill,
    })
}

/// The parameters of the glue between lines.
pub(crate) fn read_line_rules<C: Cells>(
    cells: &mut C,
    groups: &Groups,
) -> Result<LineRules, NoMemory>
    ensures looks { Looks C.Cells groups.now line_cells line_rules result cells.new cells.old }
{
    let baselineskip = looks::glue(cells, groups, Cell::Par(Parameter::BaselineSkip))?;
    let lineskip = looks::glue(cells, groups, Cell::Par(Parameter::LineSkip))?;
    let lineskiplimit = looks::dimension(cells, groups, Cell::Par(Parameter::LineSkipLimit))?;
    Ok(LineRules {
        baselineskip,
        lineskip,
        lineskiplimit,
    })
}
