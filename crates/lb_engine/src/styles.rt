//! Styles and sizes of fonts, styles and numbers of pages, and the parts of a book (source2e, files ltfssini and ltpage; classes, on `\mainmatter`).
ghost use Rattle.std.specs.Prelude.{◌≡◌, IfSome, pos, true, nat_eq};
ghost use Rattle.std.specs.Cmp.Lexicographic.{pointwise};
ghost use Rattle.std.specs.Map.{lookup};
ghost use Rattle.lb_base.specs.declared.fault.Kind.TheVariants.{BadCode};
ghost use Rattle.lb_rows.specs.declared.parameter.Parameter.TheVariants.{BaselineSkip};
ghost use Rattle.lb_values.specs.declared.cell.Cell.TheVariants.{PageForm, Par, Size};
ghost use Rattle.lb_values.specs.declared.reach.Reach.TheVariants.{Global as AGlobal, Local as ALocal};
ghost use Rattle.lb_values.specs.declared.value.PageStyle.{PageStyle as AStyle};
ghost use Rattle.lb_values.specs.declared.value.Value.{Value as AValue};
ghost use Rattle.lb_values.specs.declared.value.Value.TheVariants as value_of;
ghost use Rattle.lb_model.specs.FontTable.{baselineskip_of};
ghost use Rattle.lb_model.specs.HeldNumbers.{held_of};
ghost use Rattle.lb_model.specs.Kinds.{no_glue};
ghost use Rattle.lb_model.specs.Ranges.{fits, is_settable};
ghost use Rattle.lb_model_nest.specs.Pages.{page_counter};
ghost use Rattle.lb_model_nest.specs.Wholes.{and_then, change, change_or};
ghost use Rattle.lb_model_engine.specs.Counting.{baselines_set, form_value, forms, include, matter, page_styles, pagenumbering, pagestyle, size_row, skip_value, style_row, style_value};
ghost use Rattle.lb_engine.specs.Leads.{Goes, Holds};

use crate::changes::{change_or, set_number};
use crate::engine::Engine;
use crate::groups::change;
use crate::named::name;
use crate::reading::{Reading, number};
use lb_base::{Glue, Kind, Name, NoMemory, Order};
use lb_fonts::baselineskip;
use lb_model::Cells;
use lb_model_nest::Went;
use lb_rows::Parameter;
use lb_values::{Cell, Form, PageStyle, Reach, Value};

/// `\@style`.
pub fn style_row<C: Cells>(cells: &mut C, engine: &mut Engine) -> Result<Went, NoMemory>
    requires holds { Holds C.Cells cells.old engine.old }
    ensures goes { Goes C.Cells style_row result cells.new engine.new cells.old engine.old }
{
    match number(cells, engine)? {
        Reading::Of(number) => set_number(cells, engine, &Cell::Style, number, Reach::Local),
        Reading::Stops(went) => Ok(went),
    }
}

/// `\@matter`.
pub fn matter<C: Cells>(cells: &mut C, engine: &mut Engine) -> Result<Went, NoMemory>
    requires holds { Holds C.Cells cells.old engine.old }
    ensures goes { Goes C.Cells matter result cells.new engine.new cells.old engine.old }
{
    match number(cells, engine)? {
        Reading::Of(number) => set_number(cells, engine, &Cell::Matter, number, Reach::Global),
        Reading::Stops(went) => Ok(went),
    }
}

/// `\@size`.
pub fn size_row<C: Cells>(cells: &mut C, engine: &mut Engine) -> Result<Went, NoMemory>
    requires holds { Holds C.Cells cells.old engine.old }
    ensures goes { Goes C.Cells size_row result cells.new engine.new cells.old engine.old }
{
    match number(cells, engine)? {
        Reading::Of(size) => set_size(cells, engine, size),
        Reading::Stops(went) => Ok(went),
    }
}

// The size, and what lies between baselines at it.
fn set_size<C: Cells>(cells: &mut C, engine: &mut Engine, size: i32) -> Result<Went, NoMemory>
    requires holds { Holds C.Cells cells.old engine.old }
    ensures goes { Goes C.Cells (λ w. and_then (change_or BadCode ALocal Size (held_of Size size) w) (baselines_set size)) result
        cells.new engine.new cells.old engine.old }
{
    match set_number(cells, engine, &Cell::Size, size, Reach::Local)? {
        Went::On => set_baselines(cells, engine, size),
        went => Ok(went),
    }
}

// The glue of this width, in scaled points.
fn glue_of(width: i32) -> Glue
    ensures { result ≡ record no_glue { width = width } }
{
    Glue {
        width,
        stretch: 0,
        stretch_order: Order::Finite,
        shrink: 0,
        shrink_order: Order::Finite,
    }
}

// What lies between baselines at a size.
fn skip_at(size: i32) -> Option<Value>
    ensures value { result ≡ skip_value (baselineskip_of size) }
    ensures fits { IfSome result (λ v. fits (Par BaselineSkip) v ≡ true) }
{
    let width = baselineskip(size)?;
    Some(Value::Glue(glue_of(width)))
}

// What lies between baselines at a size is set.
fn set_baselines<C: Cells>(cells: &mut C, engine: &mut Engine, size: i32) -> Result<Went, NoMemory>
    requires holds { Holds C.Cells cells.old engine.old }
    ensures goes { Goes C.Cells (baselines_set size) result cells.new engine.new cells.old engine.old }
{
    let skip = skip_at(size);
    let cell = Cell::Par(Parameter::BaselineSkip);
    change_or(cells, engine, &cell, skip, Reach::Local)
}

// The style of pages of this name.
fn page_style(name: &[u8]) -> Option<PageStyle>
    ensures { result ≡ lookup (pointwise nat_eq name.now) page_styles }
{
    if name == b"empty".as_slice() {
        Some(PageStyle::Empty)
    } else if name == b"plain".as_slice() {
        Some(PageStyle::Plain)
    } else if name == b"headings".as_slice() {
        Some(PageStyle::Headings)
    } else if name == b"myheadings".as_slice() {
        Some(PageStyle::MyHeadings)
    } else {
        None
    }
}

// The form of numbers of this name.
fn form(name: &[u8]) -> Option<Form>
    ensures { result ≡ lookup (pointwise nat_eq name.now) forms }
{
    if name == b"arabic".as_slice() {
        Some(Form::Arabic)
    } else if name == b"roman".as_slice() {
        Some(Form::LowerRoman)
    } else if name == b"Roman".as_slice() {
        Some(Form::UpperRoman)
    } else if name == b"alph".as_slice() {
        Some(Form::LowerAlph)
    } else if name == b"Alph".as_slice() {
        Some(Form::UpperAlph)
    } else {
        None
    }
}

fn style_value(name: &[u8]) -> Option<Value>
    ensures { result ≡ style_value name.now }
{
    Some(Value::PageStyle(page_style(name)?))
}

fn form_value(name: &[u8]) -> Option<Value>
    ensures { result ≡ form_value name.now }
{
    Some(Value::Form(form(name)?))
}

/// `\pagestyle` and `\thispagestyle`, by the cell that they set.
pub fn pagestyle<C: Cells>(
    cells: &mut C,
    engine: &mut Engine,
    cell: &Cell,
) -> Result<Went, NoMemory>
    requires settable { (v : AValue) → is_settable cell.now v ≡ true }
    requires fits { (style : AStyle) → fits cell.now (value_of.PageStyle style) ≡ true }
    requires holds { Holds C.Cells cells.old engine.old }
    ensures goes { Goes C.Cells (pagestyle cell.now) result cells.new engine.new cells.old engine.old }
{
    match name(cells, engine)? {
        Reading::Of(name) => set_page_style(cells, engine, cell, &name),
        Reading::Stops(went) => Ok(went),
    }
}

// A cell is set to the style of pages of this name.
fn set_page_style<C: Cells>(
    cells: &mut C,
    engine: &mut Engine,
    cell: &Cell,
    name: &Name,
) -> Result<Went, NoMemory>
    requires settable { (v : AValue) → is_settable cell.now v ≡ true }
    requires fits { (style : AStyle) → fits cell.now (value_of.PageStyle style) ≡ true }
    requires holds { Holds C.Cells cells.old engine.old }
    ensures goes { Goes C.Cells (change_or BadCode AGlobal cell.now (style_value name.now)) result cells.new engine.new cells.old engine.old }
{
    let style = style_value(name.as_slice());
    change_or(cells, engine, cell, style, Reach::Global)
}

/// `\pagenumbering`: the pages count from 1 again.
pub fn pagenumbering<C: Cells>(cells: &mut C, engine: &mut Engine) -> Result<Went, NoMemory>
    requires holds { Holds C.Cells cells.old engine.old }
    ensures goes { Goes C.Cells pagenumbering result cells.new engine.new cells.old engine.old }
{
    match name(cells, engine)? {
        Reading::Of(name) => number_pages(cells, engine, &name),
        Reading::Stops(went) => Ok(went),
    }
}

// Pages are numbered in a form, from 1.
fn number_pages<C: Cells>(cells: &mut C, engine: &mut Engine, name: &Name) -> Result<Went, NoMemory>
    requires holds { Holds C.Cells cells.old engine.old }
    ensures goes { Goes C.Cells (λ w. and_then (change_or BadCode AGlobal PageForm (form_value name.now) w)
        (change AGlobal page_counter (value_of.Number (pos 1)))) result cells.new engine.new cells.old engine.old }
{
    let form = form_value(name.as_slice());
    match change_or(cells, engine, &Cell::PageForm, form, Reach::Global)? {
        Went::On => count_from_one(cells, engine),
        went => Ok(went),
    }
}

// The next page is the first.
fn count_from_one<C: Cells>(cells: &mut C, engine: &mut Engine) -> Result<Went, NoMemory>
    requires holds { Holds C.Cells cells.old engine.old }
    ensures goes { Goes C.Cells (change AGlobal page_counter (value_of.Number (pos 1))) result cells.new engine.new cells.old engine.old }
{
    let cell = Cell::Counter(Name::from_slice(engine.desk.alloc, b"page")?);
    change(cells, engine, &cell, Value::Number(1), Reach::Global)
}

/// `\include` where it is executed.
#[tactic(auto, unfolding(lb_model_engine::specs::Counting::include))]
pub fn include<C: Cells>(cells: &mut C, engine: &mut Engine) -> Result<Went, NoMemory>
    requires holds { Holds C.Cells cells.old engine.old }
    ensures goes { Goes C.Cells include result cells.new engine.new cells.old engine.old }
{
    Ok(Went::Stopped(Kind::IncludeInside))
}
