//! A value that many hold.
ghost use Rattle.std.specs.Prelude.{◌≡◌, IfOk, IfErr};
ghost use Rattle.std.specs.Arc.{arc_value};

use std::alloc::{AllocError, Global};
use std::marker::Model;
use std::sync::Arc;

/// A value that stands once in memory, whoever holds it. Contracts see the value. A clone takes no memory.
#[derive(Drop)]
pub struct Shared<T> {
    value: Arc<T, Global>,
}

impl<T> Model for Shared<T> {
    ghost use Rattle.std.specs.Arc.{arc_value};

    ghost Value = { T };

    ghost coded = { T.code };

    ghost view = { λ shared. arc_value shared.value };
}

impl<T> Shared<T> {
    pub fn new(alloc: Global, value: T) -> Result<Shared<T>, AllocError>
    where
        T: Drop,
        ensures { IfOk result (λ shared. shared ≡ value) }
    {
        let value = Arc::new(alloc, value)?;
        Ok(Shared { value })
    }

    pub fn get(&self) -> &T
        ensures { result.now ≡ self.now }
    {
        &self.value
    }

    /// The value itself where nobody else holds it, and else what was given. Takes no memory.
    pub fn into_value(self) -> Result<T, Shared<T>>
        ensures ok { IfOk result (λ value. value ≡ self) }
        ensures err { IfErr result (λ shared. shared ≡ self) }
    {
        match Arc::try_unwrap(self.value) {
            Ok(value) => Ok(value),
            Err(value) => Err(Shared { value }),
        }
    }
}

impl<T: Drop> Clone for Shared<T> {
    ghost is_clone = { λ shared copy. copy ≡ shared };

    fn clone(&self) -> Result<Shared<T>, AllocError> {
        Ok(Shared {
            value: self.value.clone()?,
        })
    }
}
