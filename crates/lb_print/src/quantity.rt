//! Quantities as `\the` prints them.
ghost use Rattle.std.specs.Prelude.{◌≡◌, ◌++◌, IfOk, OnOk};
ghost use Rattle.lb_base.specs.Decimals.{scaled_text};
ghost use Rattle.lb_model_grammar.specs.Printed.{glue_text, part_text, quantity_text, unit_text};

use crate::number::decimal;
use lb_base::{Bytes, Glue, NoMemory, Order, print_scaled};
use lb_model_grammar::Quantity;
use std::alloc::Global;

// Writes scaled points in points. -2^31 has a text too, which arithmetic of dimensions does not come to.
fn push_scaled(size: i32, text: &mut Bytes) -> Result<(), NoMemory>
    ensures { OnOk result (text.new ≡ text.old ++ scaled_text size) }
{
    if size == i32::MIN {
        return text.extend_from_slice(b"-32768.0");
    }
    let mut out = [0; 16];
    let len = print_scaled(size, &mut out);
    text.extend_from_slice(&out[..len])
}

fn unit(order: Order) -> &'static [u8]
    ensures { result.now ≡ unit_text order }
{
    match order {
        Order::Finite => b"pt",
        Order::Fil => b"fil",
        Order::Fill => b"fill",
        Order::Filll => b"filll",
    }
}

// Writes what glue stretches or shrinks by behind its word, where that is not 0.
fn push_part(word: &[u8], size: i32, order: Order, text: &mut Bytes) -> Result<(), NoMemory>
    ensures { OnOk result (text.new ≡ text.old ++ part_text word.now size order) }
{
    if size == 0 {
        return Ok(());
    }
    text.extend_from_slice(word)?;
    push_scaled(size, text)?;
    text.extend_from_slice(unit(order))
}

fn glue_text(alloc: Global, glue: Glue) -> Result<Bytes, NoMemory>
    ensures { IfOk result (λ text. text ≡ glue_text glue) }
{
    let mut text = Bytes::new(alloc);
    push_scaled(glue.width, &mut text)?;
    text.extend_from_slice(b"pt")?;
    push_part(b" plus ", glue.stretch, glue.stretch_order, &mut text)?;
    push_part(b" minus ", glue.shrink, glue.shrink_order, &mut text)?;
    Ok(text)
}

/// A quantity as `\the` prints it: a number in decimal, a dimension in points, and glue with what it stretches and shrinks by where that is
/// not 0. None where there is no quantity.
pub fn quantity_text(alloc: Global, quantity: Quantity) -> Result<Option<Bytes>, NoMemory>
    ensures { IfOk result (λ text. text ≡ quantity_text quantity) }
{
    match quantity {
        Quantity::NotOne => Ok(None),
        Quantity::Number(number) => Ok(Some(decimal(alloc, number)?)),
        Quantity::Dimen(size) => {
            let mut text = Bytes::new(alloc);
            push_scaled(size, &mut text)?;
            text.extend_from_slice(b"pt")?;
            Ok(Some(text))
        }
        Quantity::Skip(glue) => Ok(Some(glue_text(alloc, glue)?)),
    }
}
