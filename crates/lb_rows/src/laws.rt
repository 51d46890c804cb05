//! Laws of the three tables.
ghost use Rattle.std.specs.Prelude.{◌≡◌, List, ℕ, length, nat_eq, Contains};
ghost use Rattle.std.specs.List.{IsDistinct};
ghost use lib.Pointwise.{pointwise};
ghost use Rattle.lb_rows.specs.declared.command.Command.{Command};
ghost use Rattle.lb_rows.specs.declared.parameter.Parameter.{Parameter};
ghost use Rattle.lb_rows.specs.Commands.{command_name, command_names};
ghost use Rattle.lb_rows.specs.Parameters.{parameter_name, parameter_names};
ghost use Rattle.lb_rows.specs.Refusals.{refused_names};

/// How many rows each table has.
pub fn counts()
    ensures commands { length command_names ≡ 142 }
    ensures parameters { length parameter_names ≡ 35 }
    ensures refused { length refused_names ≡ 39 }
{}

/// No name stands twice in a table.
pub fn each_name_once()
    ensures commands { IsDistinct (pointwise nat_eq) command_names }
    ensures parameters { IsDistinct (pointwise nat_eq) parameter_names }
    ensures refused { IsDistinct (pointwise nat_eq) refused_names }
{}

/// No name stands in two tables.
pub fn each_name_in_one_table()
    ensures commands_parameters { (name : List ℕ) → Contains command_names name → ¬ Contains parameter_names name }
    ensures commands_refused { (name : List ℕ) → Contains command_names name → ¬ Contains refused_names name }
    ensures parameters_refused { (name : List ℕ) → Contains parameter_names name → ¬ Contains refused_names name }
{}

/// Commands and their names go together: each name of a command is in the table, and commands of one name are
/// the same. So do parameters and theirs.
pub fn names_and_rows()
    ensures commands_listed { (command : Command) → Contains command_names (command_name command) }
    ensures commands_told { (one other : Command) → command_name one ≡ command_name other → one ≡ other }
    ensures parameters_listed { (parameter : Parameter) → Contains parameter_names (parameter_name parameter) }
    ensures parameters_told { (one other : Parameter) → parameter_name one ≡ parameter_name other → one ≡ other }
{}
