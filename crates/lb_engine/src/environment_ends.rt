//! The ends of environments (source2e, file ltmiscen, on `\end` and `\@checkend`).
ghost use Rattle.std.specs.Prelude.{◌≡◌, ◌∷◌, [], Bool, IfOk, OnOk, is_some, nat_eq, true, if◌then◌else◌};
ghost use Rattle.std.specs.Cmp.Lexicographic.{pointwise};
ghost use Rattle.lb_base.specs.declared.fault.Kind.TheVariants.{EnvironmentMismatch};
ghost use Rattle.lb_base.specs.declared.token.Tok.TheVariants as tokens;
ghost use Rattle.lb_values.specs.declared.cell.Cell.TheVariants as cells_of;
ghost use Rattle.lb_groups.specs.Open.{TellsIn};
ghost use Rattle.lb_model.specs.declared.group.GroupKind.TheVariants.{Semi as ASemi};
ghost use Rattle.lb_model.specs.Kinds.{meaning_of};
ghost use Rattle.lb_model_engine.specs.Environments.{boundary_taken, end_begun, end_checked, end_named, end_row, environment_now, over, over_at};
ghost use Rattle.lb_model_engine.specs.NewNames.{end_name};
ghost use Rattle.lb_model_nest.specs.Groups.{group_closed};
ghost use Rattle.lb_model_nest.specs.Wholes.{Executed, Whole, and_then, put, stop};
ghost use Rattle.lb_model_nest.specs.Words.{word_ended};
ghost use Rattle.lb_nest.specs.Leads.{Looks};
ghost use Rattle.lb_tokens.specs.Layers.{begins_bounded};
ghost use Rattle.lb_engine.specs.Ends.{IsBounded};
ghost use Rattle.lb_engine.specs.Leads.{Goes, Holds, Leads};
ghost use Rattle.lb_engine.specs.Reads.{behind_reading};

use crate::engine::Engine;
use crate::groups::{close_group, put_list};
use crate::named::name;
use crate::paragraphs::end_word;
use crate::reading::Reading;
use lb_base::{Kind, Name, NoMemory, Tok, TokList};
use lb_groups::{Groups, looks};
use lb_model::{Cells, GroupKind};
use lb_model_nest::Went;
use lb_values::Cell;
use std::alloc::Global;

/// The control word of a name comes next.
pub fn put_word<C: Cells>(cells: &C, engine: &mut Engine, name: &Name) -> Result<Went, NoMemory>
    requires holds { Holds C.Cells cells.now engine.old }
    ensures goes { Goes C.Cells (put (tokens.Word name.now ∷ [])) result cells.now engine.new cells.now engine.old }
{
    let mut toks = TokList::new(engine.desk.alloc);
    toks.push(Tok::Word(name.clone()?))?;
    put_list(cells, engine, toks)
}

// The name of the macro that ends an environment.
fn end_name(alloc: Global, name: &Name) -> Result<Name, NoMemory>
    ensures { IfOk result (λ text. text ≡ end_name name.now) }
{
    let end = Name::from_slice(alloc, b"end")?;
    end.with_ending(alloc, name.as_slice())
}

// The name of the innermost environment.
fn environment_now<C: Cells>(
    alloc: Global,
    cells: &mut C,
    groups: &Groups,
) -> Result<Name, NoMemory>
    ensures looks { Looks C.Cells groups.now (cells_of.Env ∷ []) environment_now result cells.new cells.old }
{
    match looks::name(cells, groups, Cell::Env)? {
        Some(name) => Ok(name),
        None => Name::from_slice(alloc, b""),
    }
}

// The group of an environment ends, where the name is that of the innermost one.
fn close_named<C: Cells>(
    cells: &mut C,
    engine: &mut Engine,
    name: &Name,
    innermost: &Name,
) -> Result<Went, NoMemory>
    requires holds { Holds C.Cells cells.old engine.old }
    ensures goes { Goes C.Cells (λ w. if pointwise nat_eq name.now innermost.now then group_closed ASemi w else stop EnvironmentMismatch w) result
        cells.new engine.new cells.old engine.old }
{
    if name.as_slice() == innermost.as_slice() {
        return close_group(cells, engine, GroupKind::Semi);
    }
    Ok(Went::Stopped(Kind::EnvironmentMismatch))
}

// The end of an environment, which has to be the innermost one.
fn check_end<C: Cells>(cells: &mut C, engine: &mut Engine, name: &Name) -> Result<Went, NoMemory>
    requires holds { Holds C.Cells cells.old engine.old }
    ensures goes { Goes C.Cells (end_checked name.now) result cells.new engine.new cells.old engine.old }
{
    let innermost = environment_now(engine.desk.alloc, cells, &engine.desk.groups)?;
    close_named(cells, engine, name, &innermost)
}

// The end of an environment is under way: a boundary stands next, before which its macro comes.
fn bound(engine: &mut Engine, name: &Name) -> Result<(), NoMemory>
    ensures { OnOk result (IsBounded name.now engine.new engine.old) }
{
    engine.ending.push(name.clone()?)?;
    engine.desk.source.put_boundary()?;
    Ok(())
}

// The macro of the end comes next.
fn put_end<C: Cells>(cells: &C, engine: &mut Engine, name: &Name) -> Result<Went, NoMemory>
    requires holds { Holds C.Cells cells.now engine.old }
    ensures goes { Goes C.Cells (put (tokens.Word (end_name name.now) ∷ [])) result cells.now engine.new cells.now engine.old }
{
    let end = end_name(engine.desk.alloc, name)?;
    put_word(cells, engine, &end)
}

// The macro of the end runs, up to a boundary.
fn begin_end<C: Cells>(cells: &C, engine: &mut Engine, name: &Name) -> Result<Went, NoMemory>
    requires holds { Holds C.Cells cells.now engine.old }
    ensures goes { Goes C.Cells (end_begun name.now) result cells.now engine.new cells.now engine.old }
{
    bound(engine, name)?;
    put_end(cells, engine, name)
}

// Whether the end of an environment has a macro.
fn has_end<C: Cells>(
    alloc: Global,
    cells: &mut C,
    groups: &Groups,
    name: &Name,
) -> Result<bool, NoMemory>
    ensures tells { TellsIn C.Cells groups.now (cells_of.Word (end_name name.now)) (λ v. is_some (meaning_of v)) result cells.new cells.old }
{
    let end = end_name(alloc, name)?;
    let meaning = looks::meaning(cells, groups, Cell::Word(end))?;
    Ok(meaning.is_some())
}

// The end of an environment, with a macro or without one.
fn end_by<C: Cells>(
    cells: &mut C,
    engine: &mut Engine,
    name: &Name,
    has_macro: bool,
) -> Result<Went, NoMemory>
    requires holds { Holds C.Cells cells.old engine.old }
    ensures goes { Goes C.Cells (λ w. if has_macro then end_begun name.now w else end_checked name.now w) result cells.new engine.new
        cells.old engine.old }
{
    if has_macro {
        return begin_end(cells, engine, name);
    }
    check_end(cells, engine, name)
}

// The end of an environment of this name.
fn end<C: Cells>(cells: &mut C, engine: &mut Engine, name: &Name) -> Result<Went, NoMemory>
    requires holds { Holds C.Cells cells.old engine.old }
    ensures goes { Goes C.Cells (end_named name.now) result cells.new engine.new cells.old engine.old }
{
    let has_macro = has_end(engine.desk.alloc, cells, &engine.desk.groups, name)?;
    end_by(cells, engine, name, has_macro)
}

/// `\end`.
pub fn end_row<C: Cells>(cells: &mut C, engine: &mut Engine) -> Result<Went, NoMemory>
    requires holds { Holds C.Cells cells.old engine.old }
    ensures goes { Goes C.Cells end_row result cells.new engine.new cells.old engine.old }
{
    match name(cells, engine)? {
        Reading::Of(name) => end(cells, engine, &name),
        Reading::Stops(went) => Ok(went),
    }
}

// The word before a boundary ends, and then the environment.
fn end_bounded<C: Cells>(cells: &mut C, engine: &mut Engine, name: &Name) -> Result<Went, NoMemory>
    requires holds { Holds C.Cells cells.old engine.old }
    ensures goes { Goes C.Cells (λ w. and_then (word_ended w) (end_checked name.now)) result cells.new engine.new cells.old engine.old }
{
    match end_word(cells, engine)? {
        Went::On => check_end(cells, engine, name),
        went => Ok(went),
    }
}

// An environment ends at a boundary, which is taken away.
fn end_at_boundary<C: Cells>(
    cells: &mut C,
    engine: &mut Engine,
    name: &Name,
) -> Result<Went, NoMemory>
    requires bounded { begins_bounded engine.old.desk.source ≡ true }
    requires holds { Holds C.Cells cells.old engine.old }
    ensures goes { Goes C.Cells (λ w. and_then (word_ended (boundary_taken w)) (end_checked name.now)) result cells.new engine.new
        cells.old engine.old }
{
    engine.desk.source.drop_pending()?;
    end_bounded(cells, engine, name)
}

// At a boundary: the environment whose end is under way ends, and the text where there is none.
fn at_boundary<C: Cells>(cells: &mut C, engine: &mut Engine) -> Result<Reading<()>, NoMemory>
    requires bounded { begins_bounded engine.old.desk.source ≡ true }
    requires holds { Holds C.Cells cells.old engine.old }
    ensures leads { (text_ended : Whole → Executed) → Leads C.Cells (λ w. over_at true w.ending text_ended w) (behind_reading (λ done. text_ended)) result
        cells.new engine.new cells.old engine.old }
{
    match engine.ending.pop() {
        Some(name) => {
            let went = end_at_boundary(cells, engine, &name)?;
            Ok(Reading::Stops(went))
        }
        None => Ok(Reading::Of(())),
    }
}

/// Where the feed has no more: at a boundary an environment ends, and this is how that went; else the text ends.
pub fn over<C: Cells>(cells: &mut C, engine: &mut Engine) -> Result<Reading<()>, NoMemory>
    requires holds { Holds C.Cells cells.old engine.old }
    ensures leads { (text_ended : Whole → Executed) → Leads C.Cells (over text_ended) (behind_reading (λ done. text_ended)) result
        cells.new engine.new cells.old engine.old }
{
    if engine.desk.source.is_bounded()? {
        return at_boundary(cells, engine);
    }
    Ok(Reading::Of(()))
}
