//! What control sequences and active characters are made to mean.
ghost use Rattle.std.specs.Prelude.{◌≡◌, [], true, IfErr, Some};
ghost use Rattle.lb_base.specs.declared.fault.Kind.TheVariants.{BadCode};
ghost use Rattle.lb_base.specs.declared.fault.Stop.TheVariants.{Memory};
ghost use Rattle.lb_groups.specs.Changes.{Assigns};
ghost use Rattle.lb_model.specs.Ranges.{fits, is_settable};
ghost use Rattle.lb_values.specs.declared.meaning.Meaning.TheVariants as meaning_of;
ghost use Rattle.lb_values.specs.declared.value.Value.TheVariants as value_of;

use lb_base::Stop;
use lb_groups::{Groups, assign};
use lb_model::Cells;
use lb_values::{Cell, MacroDef, Meaning, Reach, Shared, Value};
use std::alloc::Global;

/// Makes a name mean a macro (TeXbook, chapter 20; tex.web, section 1218). The only error is want of memory.
pub fn define<C: Cells>(
    alloc: Global,
    cells: &mut C,
    groups: &mut Groups,
    name: &Cell,
    macro_is: MacroDef,
    reach: Reach,
) -> Result<(), Stop>
    requires settable { is_settable name.now (value_of.Meaning (meaning_of.Macro macro_is)) ≡ true }
    requires fits { fits name.now (value_of.Meaning (meaning_of.Macro macro_is)) ≡ true }
    ensures assigns { Assigns C.Cells [] reach name.now (λ w s. Some (value_of.Meaning (meaning_of.Macro macro_is))) BadCode result cells.new groups.new cells.old groups.old }
    ensures memory { IfErr result (λ e. e ≡ Memory) }
{
    let macro_is = Shared::new(alloc, macro_is)?;
    let_(cells, groups, name, Meaning::Macro(macro_is), reach)
}

/// Makes a name mean what another one means (tex.web, section 1221). The only error is want of memory.
pub fn let_<C: Cells>(
    cells: &mut C,
    groups: &mut Groups,
    name: &Cell,
    meaning: Meaning,
    reach: Reach,
) -> Result<(), Stop>
    requires settable { is_settable name.now (value_of.Meaning meaning) ≡ true }
    requires fits { fits name.now (value_of.Meaning meaning) ≡ true }
    ensures assigns { Assigns C.Cells [] reach name.now (λ w s. Some (value_of.Meaning meaning)) BadCode result cells.new groups.new cells.old groups.old }
    ensures memory { IfErr result (λ e. e ≡ Memory) }
{
    assign(cells, groups, name, Value::Meaning(meaning), reach)?;
    Ok(())
}
