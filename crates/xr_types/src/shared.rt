//! Lists whose copies share their items.
ghost use Rattle.std.specs.Prelude.{◌≡◌, IfOk};

use crate::items::{DeepCopy, Items};
use std::alloc::{AllocError, Global};
use std::marker::Model;
use std::rc::Rc;

/// A list. A copy shares its items, so that it takes no memory for them.
#[derive(Drop)]
pub struct Shared<T> {
    items: Rc<Vec<T>>,
}

impl<T> Model for Shared<T> {
    ghost use Rattle.std.specs.Prelude.{List};

    ghost Value = { List T };

    ghost view = { λ s. s.items.value.items };
}

impl<T: Drop> Shared<T> {
    /// The items of a list.
    pub fn of(alloc: Global, items: Items<T>) -> Result<Self, AllocError>
        ensures { IfOk result (λ s. s ≡ items) }
    {
        match Rc::new(alloc, items.into_vec()) {
            Ok(items) => Ok(Shared { items }),
            Err(_) => Err(AllocError),
        }
    }

    pub fn as_slice(&self) -> &[T]
        ensures { result.now ≡ self.now }
    {
        self.items.as_slice()
    }
}

impl<T: Drop> DeepCopy for Shared<T> {
    fn deep_copy(&self, _alloc: Global) -> Result<Shared<T>, AllocError> {
        let items = self.items.clone()?;
        Ok(Shared { items })
    }
}
