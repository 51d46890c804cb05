use super::*;
use lb_base::{Bytes, Category, Glue, Name, NoMemory, Order, Tok};
use lb_model_grammar::Quantity;
use lb_values::Form;
use std::alloc::Global;

// A number in a form, and `none` where there is none.
fn shown(alloc: Global, form: Form, number: i32) -> Result<Bytes, NoMemory> {
    match in_form(alloc, form, number)? {
        Some(text) => Ok(text),
        None => Bytes::from_slice(alloc, b"none"),
    }
}

#[test]
fn forms(rt: HostRuntime) -> Result<(), NoMemory> {
    let alloc = rt.alloc();
    let rows = [
        (0, "0", "", "", "", ""),
        (1, "1", "i", "I", "a", "A"),
        (4, "4", "iv", "IV", "d", "D"),
        (9, "9", "ix", "IX", "i", "I"),
        (26, "26", "xxvi", "XXVI", "z", "Z"),
        (27, "27", "xxvii", "XXVII", "none", "none"),
        (3999, "3999", "mmmcmxcix", "MMMCMXCIX", "none", "none"),
        (100_001, "100001", "none", "none", "none", "none"),
        (-1, "-1", "", "", "none", "none"),
    ];
    for (number, arabic, lower, upper, letter, capital) in rows {
        let text = shown(alloc, Form::Arabic, number)?;
        assert!(rt; text.as_slice() == arabic.as_bytes(), "arabic at {number}");
        let text = shown(alloc, Form::LowerRoman, number)?;
        assert!(rt; text.as_slice() == lower.as_bytes(), "roman at {number}");
        let text = shown(alloc, Form::UpperRoman, number)?;
        assert!(rt; text.as_slice() == upper.as_bytes(), "Roman at {number}");
        let text = shown(alloc, Form::LowerAlph, number)?;
        assert!(rt; text.as_slice() == letter.as_bytes(), "alph at {number}");
        let text = shown(alloc, Form::UpperAlph, number)?;
        assert!(rt; text.as_slice() == capital.as_bytes(), "Alph at {number}");
    }
    let most = shown(alloc, Form::LowerRoman, 100_000)?;
    assert!(rt; most.len() == 100);
    Ok(())
}

// A quantity as text, and `none` where there is none.
fn quantity(alloc: Global, quantity: Quantity) -> Result<Bytes, NoMemory> {
    match quantity_text(alloc, quantity)? {
        Some(text) => Ok(text),
        None => Bytes::from_slice(alloc, b"none"),
    }
}

#[test]
fn quantities(rt: HostRuntime) -> Result<(), NoMemory> {
    let alloc = rt.alloc();
    let glue = Glue {
        width: -98_304,
        stretch: 65_536,
        stretch_order: Order::Fil,
        shrink: 32_768,
        shrink_order: Order::Finite,
    };
    let plain = Glue {
        width: 65_536,
        stretch: 0,
        stretch_order: Order::Fill,
        shrink: 0,
        shrink_order: Order::Finite,
    };
    let rows = [
        (Quantity::NotOne, "none"),
        (Quantity::Number(i32::MIN), "-2147483648"),
        (Quantity::Dimen(6554), "0.1pt"),
        (Quantity::Dimen(i32::MIN), "-32768.0pt"),
        (Quantity::Skip(glue), "-1.5pt plus 1.0fil minus 0.5pt"),
        (Quantity::Skip(plain), "1.0pt"),
    ];
    for (given, want) in rows {
        let text = quantity(alloc, given)?;
        assert!(rt; text.as_slice() == want.as_bytes(), "{want}");
    }
    Ok(())
}

#[test]
fn tokens_as_text(rt: HostRuntime) -> Result<(), NoMemory> {
    let alloc = rt.alloc();
    let word = Tok::Word(Name::from_slice(alloc, b"TeX")?);
    let text = characters_of(alloc, &word)?;
    assert!(rt; text.as_slice() == b"\\TeX".as_slice());
    let text = characters_of(alloc, &Tok::Param(1))?;
    assert!(rt; text.as_slice() == b"#1".as_slice());
    let text = characters_of(alloc, &Tok::Active(b'~'))?;
    assert!(rt; text.as_slice() == b"~".as_slice());
    let text = characters_of(alloc, &Tok::Char(Category::Letter, b'a'))?;
    assert!(rt; text.as_slice() == b"a".as_slice());
    let toks = printed(alloc, b"a ".as_slice())?;
    let want = [
        Tok::Char(Category::Other, b'a'),
        Tok::Char(Category::Space, b' '),
    ];
    assert!(rt; toks.as_slice() == want.as_slice());
    Ok(())
}
