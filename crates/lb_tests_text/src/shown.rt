//! Values as they are shown.
use crate::stop::Stop;
use lb_base::{Category, Glue, NameList, Order};
use lb_values::{Form, Meaning, PageStyle, Register, Value};
use std::fmt::Write;

/// Shows a value on a line.
pub fn show_value(value: &Value, out: &mut String) -> Result<(), Stop> {
    match value {
        Value::Absent => writeln!(out, "absent")?,
        Value::Meaning(meaning) => show_meaning(meaning, out)?,
        Value::Category(category) => {
            let name = category_text(*category);
            writeln!(out, "category {name}")?;
        }
        Value::Code(code) => writeln!(out, "code {code}")?,
        Value::Number(number) => writeln!(out, "number {number}")?,
        Value::Dimen(size) => writeln!(out, "dimension {size}")?,
        Value::Glue(glue) => show_glue(*glue, out)?,
        Value::Text(text) => {
            let count = text.get().len();
            writeln!(out, "text of {count} bytes")?;
        }
        _ => show_names_and_forms(value, out)?,
    }
    Ok(())
}

fn show_names_and_forms(value: &Value, out: &mut String) -> Result<(), Stop> {
    match value {
        Value::Name(name) => {
            write!(out, "name ")?;
            show_bytes(name.as_slice(), out)?;
            writeln!(out)?;
        }
        Value::Names(names) => show_names(names.get(), out)?,
        Value::Form(form) => {
            let name = form_text(*form);
            writeln!(out, "form {name}")?;
        }
        Value::PageStyle(style) => {
            let name = style_text(*style);
            writeln!(out, "style {name}")?;
        }
        Value::Steps(steps) => writeln!(out, "steps {steps}")?,
        _ => writeln!(out, "other")?,
    }
    Ok(())
}

fn show_meaning(meaning: &Meaning, out: &mut String) -> Result<(), Stop> {
    match meaning {
        Meaning::Row(command) => {
            let name = command.name();
            writeln!(out, "command {name}")?;
        }
        Meaning::Register(Register::Par(parameter)) => {
            let name = parameter.name();
            writeln!(out, "parameter {name}")?;
        }
        Meaning::Char(category, code) => {
            let name = category_text(*category);
            writeln!(out, "{name} {code}")?;
        }
        Meaning::Number(code) => writeln!(out, "character {code}")?,
        _ => writeln!(out, "other")?,
    }
    Ok(())
}

fn show_glue(glue: Glue, out: &mut String) -> Result<(), Stop> {
    let width = glue.width;
    let stretch = glue.stretch;
    let stretch_order = order_text(glue.stretch_order);
    let shrink = glue.shrink;
    let shrink_order = order_text(glue.shrink_order);
    writeln!(
        out,
        "glue {width} {stretch} {stretch_order} {shrink} {shrink_order}"
    )?;
    Ok(())
}

fn show_names(names: &NameList, out: &mut String) -> Result<(), Stop> {
    write!(out, "names")?;
    for name in names.as_slice() {
        write!(out, " ")?;
        show_bytes(name.as_slice(), out)?;
    }
    writeln!(out)?;
    Ok(())
}

/// Shows bytes as characters.
pub fn show_bytes(bytes: &[u8], out: &mut String) -> Result<(), Stop> {
    for byte in bytes {
        out.push(char::from(*byte))?;
    }
    Ok(())
}

/// Shows bytes in hexadecimal digits.
pub fn show_hex(bytes: &[u8], out: &mut String) -> Result<(), Stop> {
    for byte in bytes {
        write!(out, "{byte:02x}")?;
    }
    Ok(())
}

pub fn category_text(category: Category) -> &'static str {
    match category {
        Category::Escape => "escape",
        Category::BeginGroup => "begingroup",
        Category::EndGroup => "endgroup",
        Category::MathShift => "math",
        Category::AlignmentTab => "alignment",
        Category::EndOfLine => "endofline",
        Category::Parameter => "parameter",
        Category::Superscript => "superscript",
        Category::Subscript => "subscript",
        Category::Ignored => "ignored",
        Category::Space => "space",
        Category::Letter => "letter",
        Category::Other => "other",
        Category::Active => "active",
        Category::Comment => "comment",
        Category::Invalid => "invalid",
    }
}

fn order_text(order: Order) -> &'static str {
    match order {
        Order::Finite => "finite",
        Order::Fil => "fil",
        Order::Fill => "fill",
        Order::Filll => "filll",
    }
}

fn form_text(form: Form) -> &'static str {
    match form {
        Form::Arabic => "arabic",
        Form::LowerRoman => "roman",
        Form::UpperRoman => "Roman",
        Form::LowerAlph => "alph",
        Form::UpperAlph => "Alph",
    }
}

fn style_text(style: PageStyle) -> &'static str {
    match style {
        PageStyle::Empty => "empty",
        PageStyle::Plain => "plain",
        PageStyle::Headings => "headings",
        PageStyle::MyHeadings => "myheadings",
    }
}
