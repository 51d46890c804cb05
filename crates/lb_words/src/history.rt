//! A history that contracts alone read. It takes no memory, and its methods do nothing when they run.
ghost use Rattle.std.specs.Prelude.{◌≡◌, List, [], ◌∷◌, ◌++◌};
ghost use Rattle.std.specs.Borrow.{ftrue};

use std::marker::{Model, PhantomData};

/// What came, in its order. Contracts read it as `items`.
#[derive(Drop)]
pub(crate) struct History<T> {
    of: PhantomData<T>,
    pub ghost items: { List T },
}

impl<T> Model for History<T> {
    ghost also_owns = { λ _. ftrue };
}

impl<T> History<T> {
    pub(crate) fn new() -> History<T>
        ensures { result.items ≡ [] }
    {
        History { of: PhantomData }
    }

    /// This history and one item more.
    pub(crate) fn and(&self, item: &T) -> History<T>
        ensures { result.items ≡ self.now.items ++ item.now ∷ [] }
    {
        History { of: PhantomData }
    }
}
