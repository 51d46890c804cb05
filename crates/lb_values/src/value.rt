//! What cells hold.
ghost use Rattle.std.specs.Prelude.{◌≡◌, ◌↔◌, IsTrue};

use crate::meaning::Meaning;
use crate::shared::Shared;
use lb_base::{
    Boxed, Bytes, Category, Glue, Listed, Name, NameList, TokList, equal_glue, equal_tokens,
};
use std::alloc::AllocError;

/// What a cell holds. Lists, texts and boxes are shared, so a copy of a value takes no memory and no more than a few steps.
#[derive(Drop)]
pub enum Value {
    /// The cell has no value.
    Absent,
    Meaning(Meaning),
    Category(Category),
    /// The lower-case or upper-case form of a code.
    Code(u8),
    Number(i32),
    /// In scaled points.
    Dimen(i32),
    Glue(Glue),
    Tokens(Shared<TokList>),
    Boxed(Shared<Boxed>),
    Text(Shared<Bytes>),
    Name(Name),
    Names(Shared<NameList>),
    Label(Shared<LabelPair>),
    Checkpoint(Shared<CounterList>),
    Form(Form),
    PageStyle(PageStyle),
    Steps(u64),
}

/// Counters with their numbers.
pub type CounterList = Listed<(Name, i32)>;

/// What a label stands for: a text, and the text of its page's number.
#[derive(Drop)]
pub struct LabelPair {
    pub text: Bytes,
    pub page: Bytes,
}

/// A form in which numbers are printed.
#[derive(Clone, Copy, PartialEq, Eq)]
pub enum Form {
    Arabic,
    LowerRoman,
    UpperRoman,
    LowerAlph,
    UpperAlph,
}

/// What the heads and feet of pages show.
#[derive(Clone, Copy, PartialEq, Eq)]
pub enum PageStyle {
    Empty,
    Plain,
    Headings,
    MyHeadings,
}

impl Clone for Value {
    ghost is_clone = { λ value copy. copy ≡ value };

    fn clone(&self) -> Result<Value, AllocError> {
        match self {
            Value::Absent => Ok(Value::Absent),
            Value::Meaning(meaning) => Ok(Value::Meaning(meaning.clone()?)),
            Value::Category(category) => Ok(Value::Category(*category)),
            Value::Code(code) => Ok(Value::Code(*code)),
            Value::Number(number) => Ok(Value::Number(*number)),
            Value::Dimen(dimen) => Ok(Value::Dimen(*dimen)),
            Value::Glue(glue) => Ok(Value::Glue(*glue)),
            Value::Tokens(tokens) => Ok(Value::Tokens(tokens.clone()?)),
            Value::Boxed(boxed) => Ok(Value::Boxed(boxed.clone()?)),
            Value::Text(text) => Ok(Value::Text(text.clone()?)),
            Value::Name(name) => Ok(Value::Name(name.clone()?)),
            Value::Names(names) => Ok(Value::Names(names.clone()?)),
            Value::Label(label) => Ok(Value::Label(label.clone()?)),
            Value::Checkpoint(counters) => Ok(Value::Checkpoint(counters.clone()?)),
            Value::Form(form) => Ok(Value::Form(*form)),
            Value::PageStyle(style) => Ok(Value::PageStyle(*style)),
            Value::Steps(steps) => Ok(Value::Steps(*steps)),
        }
    }
}

impl Value {
    /// Whether two values are the same.
    pub fn equals(&self, other: &Value) -> bool
        ensures { IsTrue result ↔ (self.now ≡ other.now) }
    {
        match (self, other) {
            (Value::Absent, Value::Absent) => true,
            (Value::Meaning(meaning), Value::Meaning(other)) => meaning.equals(other),
            (Value::Category(category), Value::Category(other)) => category == other,
            (Value::Code(code), Value::Code(other)) => code == other,
            (Value::Number(number), Value::Number(other)) => number == other,
            (Value::Dimen(dimen), Value::Dimen(other)) => dimen == other,
            (Value::Glue(glue), Value::Glue(other)) => equal_glue(*glue, *other),
            (Value::Tokens(tokens), Value::Tokens(other)) => {
                equal_tokens(tokens.get().as_slice(), other.get().as_slice())
            }
            (Value::Boxed(boxed), Value::Boxed(other)) => boxed.get().equals(other.get()),
            (Value::Text(text), Value::Text(other)) => text.get() == other.get(),
            (Value::Name(name), Value::Name(other)) => name == other,
            (Value::Names(names), Value::Names(other)) => {
                equal_names(names.get().as_slice(), other.get().as_slice())
            }
            (Value::Label(label), Value::Label(other)) => label.get().equals(other.get()),
            (Value::Checkpoint(counters), Value::Checkpoint(other)) => {
                equal_counters(counters.get().as_slice(), other.get().as_slice())
            }
            (Value::Form(form), Value::Form(other)) => form == other,
            (Value::PageStyle(style), Value::PageStyle(other)) => style == other,
            (Value::Steps(steps), Value::Steps(other)) => steps == other,
            _ => false,
        }
    }
}

impl LabelPair {
    /// Whether two labels stand for the same.
    pub fn equals(&self, other: &LabelPair) -> bool
        ensures { IsTrue result ↔ (self.now ≡ other.now) }
    {
        self.text == other.text && self.page == other.page
    }
}

fn equal_names(names: &[Name], others: &[Name]) -> bool
    ensures { IsTrue result ↔ (names.now ≡ others.now) }
{
    if names.len() != others.len() {
        return false;
    }
    for (index, name) in names.iter().enumerate() {
        if !equal_name(name, &others[index]) {
            return false;
        }
    }
    true
}

fn equal_name(name: &Name, other: &Name) -> bool
    ensures { IsTrue result ↔ (name.now ≡ other.now) }
{
    name == other
}

fn equal_counters(counters: &[(Name, i32)], others: &[(Name, i32)]) -> bool
    ensures { IsTrue result ↔ (counters.now ≡ others.now) }
{
    if counters.len() != others.len() {
        return false;
    }
    for (index, counter) in counters.iter().enumerate() {
        if !equal_counter(counter, &others[index]) {
            return false;
        }
    }
    true
}

fn equal_counter(counter: &(Name, i32), other: &(Name, i32)) -> bool
    ensures { IsTrue result ↔ (counter.now ≡ other.now) }
{
    counter.0 == other.0 && counter.1 == other.1
}
