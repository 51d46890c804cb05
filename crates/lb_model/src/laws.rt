//! Laws of the definitions.
ghost use Rattle.std.specs.Prelude.{◌≡◌, ◌↔◌, IsTrue, Bool, ℕ, ℤ, List, Option, Some, Contains, suc, true};
ghost use Rattle.lb_base.specs.declared.token.Tok.{Tok as Token};
ghost use Rattle.lb_rows.specs.declared.command.Command.{Command};
ghost use Rattle.lb_rows.specs.declared.parameter.Parameter.{Parameter};
ghost use Rattle.lb_rows.specs.Commands.{command_name, command_names};
ghost use Rattle.lb_rows.specs.Parameters.{parameter_name, parameter_names};
ghost use Rattle.lb_values.specs.declared.cell.Cell.{Cell};
ghost use Rattle.lb_values.specs.declared.cell.Cell.TheVariants.{Word};
ghost use Rattle.lb_values.specs.declared.meaning.Meaning.{Meaning as Sense};
ghost use Rattle.lb_values.specs.declared.meaning.Meaning.TheVariants.{Row, Register};
ghost use Rattle.lb_values.specs.declared.meaning.Register.TheVariants.{Par};
ghost use Rattle.lb_values.specs.declared.value.Value.{Value as Held};
ghost use Rattle.lb_values.specs.declared.value.Value.TheVariants.{Absent, Meaning};
ghost use Rattle.lb_model.specs.Configs.{Config, taken_by};
ghost use Rattle.lb_model.specs.HeldNumbers.{held_of, number_in};
ghost use Rattle.lb_model.specs.Ranges.{fits};
ghost use Rattle.lb_model.specs.Same.{same_meaning};
ghost use Rattle.lb_model.specs.Settings.{IsState};
ghost use Rattle.lb_model.specs.declared.place.Got.TheVariants.{Tok as GotTok};
ghost use Rattle.lb_model.specs.StartState.{start};

use lb_rows::laws::{each_name_in_one_table, names_and_rows};

/// At the start each cell holds what it may hold.
pub fn start_is_a_state()
    ensures { IsState start }
{}

/// At the start exactly the names of the commands and the parameters have a meaning: each of them that command or parameter.
pub fn start_means_the_rows()
    ensures commands { (command : Command) → start (Word (command_name command)) ≡ Meaning (Row command) }
    ensures parameters { (parameter : Parameter) → start (Word (parameter_name parameter)) ≡ Meaning (Register (Par parameter)) }
    ensures others { (name : List ℕ) → ¬ Contains command_names name → ¬ Contains parameter_names name → start (Word name) ≡ Absent }
{
    names_and_rows();
    each_name_in_one_table();
}

/// What a cell holds once it is set to a number is in its range, and is that number.
pub fn numbers_are_held()
    ensures fits { (cell : Cell) (n : ℤ) (v : Held) → held_of cell n ≡ Some v → fits cell v ≡ true }
    ensures number { (cell : Cell) (n : ℤ) (v : Held) → held_of cell n ≡ Some v → number_in v ≡ Some n }
{}

/// Two meanings, or the want of both, are the same exactly where they are equal.
pub fn meanings_are_compared()
    ensures { (a b : Option Sense) → IsTrue (same_meaning a b) ↔ (a ≡ b) }
{
    names_and_rows();
}

/// A token that is taken takes a step.
#[tactic(auto, using(crate::proofs::TakenLemmas::falls))]
pub fn a_token_takes_a_step()
    ensures { (passes : Bool) (c d : Config) (tok : Token) → taken_by passes c ≡ record { got = GotTok tok; next = d } → c.left ≡ suc d.left }
{}
