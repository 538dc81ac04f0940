//! A list that has one owner or is shared.
ghost use Rattle.std.specs.Prelude.{◌≡◌, [], ◌∷◌, IfOk};
ghost use Rattle.op_model.specs.Items.{items_of};

use crate::OutOfMemory;
use std::alloc::Global;
use std::sync::Arc;

// A list that has one owner, or one that its copies share. One item is shared without a vector, in one block.
#[derive(Drop)]
pub(crate) enum Items<T: Drop> {
    Own(Vec<T>),
    One(Arc<T>),
    Several(Arc<Vec<T>>),
}

impl<T: Drop> Items<T> {
    // A list of one item, shared.
    pub(crate) fn of(alloc: Global, item: T) -> Result<Items<T>, OutOfMemory>
        ensures { IfOk result (λ items. items_of items ≡ item ∷ []) }
    {
        Ok(Items::One(Arc::new(alloc, item)?))
    }

    // The same items, shared.
    pub(crate) fn into_shared(self, alloc: Global) -> Result<Items<T>, OutOfMemory>
        ensures { IfOk result (λ items. items_of items ≡ items_of self) }
    {
        match self {
            Items::Own(items) => shared(alloc, items),
            items => Ok(items),
        }
    }
}

// The items of a vector, shared, without its spare capacity.
fn shared<T: Drop>(alloc: Global, mut items: Vec<T>) -> Result<Items<T>, OutOfMemory>
    ensures { IfOk result (λ shared. items_of shared ≡ items.items) }
{
    if items.len() == 1 {
        return Items::of(alloc, items.swap_remove(0));
    }
    items.shrink_to_fit();
    Ok(Items::Several(Arc::new(alloc, items)?))
}
