//! What is open, one inside another.
ghost use Rattle.std.specs.Prelude.{◌≡◌, ◌∷◌, [], MatchOption, OnOk, OnErr, length, reverse};

use lb_base::NoMemory;
use std::alloc::Global;
use std::marker::Model;

/// Values of which the last one is the innermost, which contracts see as a list with the innermost first.
#[derive(Drop)]
pub struct Stack<T> {
    items: Vec<T>,
}

impl<T> Model for Stack<T> {
    ghost use Rattle.std.specs.Prelude.{List, reverse};
    ghost use Rattle.std.specs.Coded.{coded_list};

    ghost Value = { List T };

    ghost coded = { coded_list T.code };

    ghost view = { λ stack. reverse stack.items.items };
}

impl<T> Stack<T> {
    /// Nothing is open. Takes no memory.
    pub fn new(alloc: Global) -> Stack<T>
        ensures { result ≡ [] }
    {
        Stack {
            items: Vec::new(alloc),
        }
    }

    /// The values of a list, of which the first is the innermost. Takes no memory.
    pub fn of(items: Vec<T>) -> Stack<T>
        ensures { result ≡ items.items }
    {
        let mut items = items;
        items.reverse();
        Stack { items }
    }

    /// The values, of which the last one is the innermost. Takes no memory.
    pub fn as_slice(&self) -> &[T]
        ensures { reverse result.now ≡ self.now }
    {
        self.items.as_slice()
    }

    pub fn pop(&mut self) -> Option<T>
        ensures { MatchOption result ((self.old ≡ []) × (self.new ≡ [])) (λ item. self.old ≡ item ∷ self.new) }
    {
        self.items.pop()
    }
}

impl<T: Drop> Stack<T> {
    pub fn push(&mut self, item: T) -> Result<(), NoMemory>
        ensures ok { OnOk result (self.new ≡ item ∷ self.old) }
        ensures err { OnErr result (self.new ≡ self.old) }
    {
        self.items.push(item)?;
        Ok(())
    }
}
