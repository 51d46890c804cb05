//! `\chardef`, `\countdef` and their like: names of characters and registers (TeXbook, chapter 24; tex.web, section 1224).
ghost use Rattle.std.specs.Prelude.{◌≡◌, true};
ghost use Rattle.lb_values.specs.declared.value.Value.TheVariants as values;
ghost use Rattle.lb_model_engine.specs.Definitions.{register_meaning, shorthand_row};
ghost use Rattle.lb_model_engine.specs.Reads.{code as code_read, equals as equals_read};
ghost use Rattle.lb_model_nest.specs.Wholes.{change as changed};
ghost use Rattle.lb_engine.specs.Leads.{Goes, Holds};
ghost use Rattle.lb_engine.specs.Names.{is_name};

use crate::engine::Engine;
use crate::groups::change;
use crate::quantities::code;
use crate::reading::Reading;
use crate::spaces::equals;
use crate::unexpanded::control;
use lb_base::NoMemory;
use lb_model::Cells;
use lb_model_nest::Went;
use lb_values::{Cell, Meaning, Reach, Register, RegisterKind, Value};

// What the name of a register means; that of a box is its number, as that of a character is its code.
pub(crate) fn register_meaning(kind: RegisterKind, number: u8) -> Meaning
    ensures { result ≡ register_meaning kind number }
{
    match kind {
        RegisterKind::Count => Meaning::Register(Register::Count(number)),
        RegisterKind::Dimen => Meaning::Register(Register::Dimen(number)),
        RegisterKind::Skip => Meaning::Register(Register::Skip(number)),
        RegisterKind::Toks => Meaning::Register(Register::Toks(number)),
        RegisterKind::Boxed => Meaning::Number(number),
    }
}

// Makes a name mean a register whose number comes.
fn name_number<C: Cells>(
    cells: &mut C,
    engine: &mut Engine,
    kind: RegisterKind,
    name: &Cell,
    reach: Reach,
) -> Result<Went, NoMemory>
    requires name { is_name name.now ≡ true }
    requires holds { Holds C.Cells cells.old engine.old }
    ensures goes { Goes C.Cells (code_read (λ n x. changed reach name.now (values.Meaning (register_meaning kind n)) x)) result
        cells.new engine.new cells.old engine.old }
{
    match code(cells, engine)? {
        Reading::Of(number) => {
            let meaning = register_meaning(kind, number);
            change(cells, engine, name, Value::Meaning(meaning), reach)
        }
        Reading::Stops(went) => Ok(went),
    }
}

// Makes a name mean a register whose number comes behind `=`.
fn name_register<C: Cells>(
    cells: &mut C,
    engine: &mut Engine,
    kind: RegisterKind,
    name: &Cell,
    reach: Reach,
) -> Result<Went, NoMemory>
    requires name { is_name name.now ≡ true }
    requires holds { Holds C.Cells cells.old engine.old }
    ensures goes { Goes C.Cells (equals_read (λ u. code_read (λ n x. changed reach name.now (values.Meaning (register_meaning kind n)) x) u)) result
        cells.new engine.new cells.old engine.old }
{
    match equals(cells, engine)? {
        Reading::Of(()) => name_number(cells, engine, kind, name, reach),
        Reading::Stops(went) => Ok(went),
    }
}

/// `\countdef`, `\dimendef`, `\skipdef`, `\toksdef`; and for the kind of boxes `\chardef`, whose name means a number as well.
#[tactic(auto, unfolding(lb_model_engine::specs::Definitions::shorthand_row))]
pub fn shorthand<C: Cells>(
    cells: &mut C,
    engine: &mut Engine,
    kind: RegisterKind,
    reach: Reach,
) -> Result<Went, NoMemory>
    requires holds { Holds C.Cells cells.old engine.old }
    ensures goes { Goes C.Cells (shorthand_row (register_meaning kind) reach) result cells.new engine.new cells.old engine.old }
{
    match control(cells, engine)? {
        Reading::Of(name) => name_register(cells, engine, kind, &name, reach),
        Reading::Stops(went) => Ok(went),
    }
}
