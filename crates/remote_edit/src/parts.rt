//! Parts of a fragment, and new fragments, with ids of their own.
ghost use Rattle.std.specs.Prelude.{◌≡◌, ◌+◌, ◌<◌, ◌≤◌, ◌^◌, IfOk};
ghost use Rattle.locators.specs.Locator.{between_digits};
ghost use Rattle.remote_edit.specs.Walk.{front, back, new_fragment};

use crate::OutOfMemory;
use fragments::{Fragment, Stamps};
use lamport_clock::{Lamport, Version};
use locators::Locator;
use std::alloc::Global;
use sum_tree::Item;

/// The first `n` cells of a fragment, with an id between that of the fragment before it and its own.
pub fn front(
    alloc: Global,
    fragment: &Fragment,
    n: u64,
    low: &Locator,
) -> Result<Fragment, OutOfMemory>
    ensures { IfOk result (λ f. f ≡ front fragment.now n (between_digits low.now fragment.now.id)) }
{
    Ok(Fragment {
        id: Locator::between(alloc, low, &fragment.id)?,
        stamp: fragment.stamp,
        offset: fragment.offset,
        len: n,
        visible: fragment.visible,
        deletions: fragment.deletions.copy(alloc)?,
        max_undos: fragment.max_undos.copy(alloc)?,
    })
}

/// The cells of a fragment after the first `n`, which keep its id.
pub fn back(alloc: Global, fragment: &Fragment, n: u64) -> Result<Fragment, OutOfMemory>
    requires room { fragment.now.offset + n < 2 ^ 64 }
    requires within { n ≤ fragment.now.len }
    ensures { IfOk result (λ f. f ≡ back fragment.now n) }
{
    let mut back = fragment.copy(alloc)?;
    back.offset += n;
    back.len -= n;
    Ok(back)
}

/// The `n` new cells of an edit from its cell `k` on, with an id between two others.
pub fn new_fragment(
    alloc: Global,
    stamp: Lamport,
    k: u64,
    n: u64,
    low: &Locator,
    high: &Locator,
) -> Result<Fragment, OutOfMemory>
    ensures { IfOk result (λ f. f ≡ new_fragment stamp k n (between_digits low.now high.now)) }
{
    let id = Locator::between(alloc, low, high)?;
    Ok(Fragment {
        id,
        stamp,
        offset: k,
        len: n,
        visible: true,
        deletions: Stamps::new(alloc),
        max_undos: Version::new(alloc),
    })
}
