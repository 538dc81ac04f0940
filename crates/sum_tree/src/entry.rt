//! An item of a leaf, with its summary.
ghost use Rattle.std.specs.Prelude.{◌≡◌, IfOk};

use crate::OutOfMemory;
use crate::traits::{Item, Summary};
use std::alloc::Global;
use std::marker::Model;
use std::sync::Arc;

/// An item with its summary, which is computed once. Both are kept in one `Arc`, so copies of a node share them.
/// Contracts see an entry as its item.
#[derive(Drop)]
pub struct Entry<T: Item> {
    summed: Arc<Summed<T>>,
}

#[derive(Drop)]
struct Summed<T: Item> {
    item: T,
    sum: T::Summary,
}

impl<T: Item> Model for Entry<T> {
    ghost use Rattle.std.specs.Prelude.{◌≡◌};
    ghost use Rattle.std.specs.Arc.{arc_value};

    ghost Value = { T };

    ghost view = { λ a. (arc_value a.summed).item };

    ghost invariant = { λ a. ((arc_value a.summed).sum ≡ T.sum_of (arc_value a.summed).item)
        × T.Summary.fits (T.sum_of (arc_value a.summed).item) };
}

impl<T: Item> Entry<T> {
    /// An entry of this item, whose summary is computed here. Fails if an allocation fails; the item is then dropped.
    pub fn new(alloc: Global, item: T) -> Result<Entry<T>, OutOfMemory>
        requires { T.Summary.fits (T.sum_of item) }
        ensures { IfOk result (λ e. e ≡ item) }
    {
        let sum = item.summary(alloc)?;
        let summed = Arc::new(alloc, Summed { item, sum })?;
        Ok(Entry { summed })
    }

    /// The item.
    pub fn item(&self) -> &T
        ensures { result.now ≡ self.now }
    {
        &self.summed.item
    }

    /// The summary of the item.
    pub fn sum(&self) -> &T::Summary
        ensures { result.now ≡ T.sum_of self.now }
    {
        &self.summed.sum
    }

    /// Another owner of the same entry. Does not allocate; fails only if `Arc` cannot count another owner.
    pub fn share(&self) -> Result<Entry<T>, OutOfMemory>
        ensures { IfOk result (λ e. e ≡ self.now) }
    {
        let summed = Arc::try_clone(&self.summed)?;
        Ok(Entry { summed })
    }
}
