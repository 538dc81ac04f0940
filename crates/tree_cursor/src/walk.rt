//! The walk along a path that seeks, filters and steps have in common.
ghost use Rattle.std.specs.Prelude.{◌≡◌, ◌+◌, ◌^◌, ◌<◌, ◌≤◌, ℕ, Bool, true, false, nat_lt, length, drop, take};
ghost use Rattle.std.specs.Option.{option_copied, option_map};
ghost use Rattle.sum_tree.specs.Laws.{fold};
ghost use Rattle.tree_cursor.specs.Places.{AlwaysAdds, behind, place_behind, walk_count};
ghost use Rattle.tree_cursor.specs.Halts.{IsAt, place_over};
ghost use Rattle.tree_cursor.specs.Rules.{LooksAtEnds};

use crate::path::{Part, Path};
use crate::tally::{NoTally, Tally};
use crate::traits::{Dimension, Moves, Plain};
use sum_tree::{Entry, Item, Summary};

// Where a walk halts. Where it does not halt at a run of items taken together, it halts at none of them.
pub(crate) trait Rule<S: Summary, D: Plain> {
    ghost halts: { Self → S → D.Value → ℕ → Bool };

    // Whether the walk halts at what has this sum and ends at this place, with so many items from the walk's start on.
    fn halts(&self, sum: &S, end: D, count: u64) -> bool
        ensures { result ≡ halts self.now sum.now (D.plain end) count };

    ghost parts: { (r : Self) (a b : S) (p q : D.Value) (i j : ℕ) → S.admits a → S.admits b
        → D.later p q → i ≤ j → halts r (S.op a b) q j ≡ false
        → (halts r a p i ≡ false) × (halts r b q j ≡ false) };
}

// A walk that halts behind so many items.
#[derive(Drop)]
pub(crate) struct Across {
    pub(crate) items: u64,
}

impl<S: Summary, D: Plain + Copy> Rule<S, D> for Across {
    ghost use Rattle.tree_cursor.specs.RuleLaws.{count_parts};

    ghost halts = { λ r s q j. nat_lt r.items j };

    ghost parts = { λ r a b p q i j f h l m n. count_parts r.items i j m n };

    fn halts(&self, _sum: &S, _end: D, count: u64) -> bool {
        self.items < count
    }
}

// Where a walk halted: the item, if there is one, with the places at which it starts and ends, and how many items the
// walk went over. Past the last item both places are the end of all.
#[derive_where(Clone, Copy; D)]
pub(crate) struct Halt<'a, T: Item, D> {
    pub(crate) item: Option<&'a Entry<T>>,
    pub(crate) start: D,
    pub(crate) end: D,
    pub(crate) passed: u64,
}

// The item of an entry.
pub(crate) fn entry_item<'a, T: Item>(entry: Option<&'a Entry<T>>) -> Option<&'a T>
    ensures { option_copied result ≡ option_copied entry.entry }
{
    match entry {
        None => None,
        Some(entry) => Some(entry.item()),
    }
}

// The place behind a run of items, if the walk goes over it whole.
fn over<'a, S: Summary, D: Dimension<'a, S>, R: Rule<S, D>>(
    at: D,
    sum: &'a S,
    count: u64,
    rule: &R,
) -> Option<D>
    requires { D.fits (D.plain at) sum.now }
    ensures { option_map D.plain result
        ≡ place_over (λ q. R.halts rule.now sum.now q count) (D.moved (D.plain at) sum.now) }
{
    match at.try_add(sum) {
        None => None,
        Some(end) => {
            if rule.halts(sum, end, count) {
                None
            } else {
                Some(end)
            }
        }
    }
}

// The place behind an item.
fn after<'a, S: Summary, D: Dimension<'a, S>>(at: D, sum: &'a S) -> D
    requires { D.fits (D.plain at) sum.now }
    ensures { D.plain result ≡ behind (D.plain at) (D.moved (D.plain at) sum.now) }
{
    match at.try_add(sum) {
        None => at,
        Some(end) => end,
    }
}

// Walks on from a place, to the first item at which it halts.
pub(crate) fn walk<'a, T: Item, D: Dimension<'a, T::Summary>, R: Rule<T::Summary, D>>(
    path: &mut Path<'a, T>,
    start: D,
    rule: &R,
) -> Halt<'a, T, D>
    requires short { length path.old.items ≤ 2 ^ 40 }
    requires room { D.fits (D.plain start)
        (fold T.Summary.empty T.Summary.op T.sum_of path.old.items) }
    ensures passed { result.passed ≡ walk_count D.moved T.sum_of (R.halts rule.now)
        (D.plain start) 0 path.old.items }
    ensures at { IsAt D.moved D.fits T.Summary.empty T.Summary.op T.sum_of path.old.items
        (D.plain start) path.new.items result.item (D.plain result.start)
        (D.plain result.end) result.passed }
{
    walk_counted(path, start, rule, &mut NoTally)
}

// The same, with a tally of the parts looked at. From before a tree's first item they are few where each sum is added
// whole and the rule looks at ends alone, since a walk that goes into a node halts there.
pub(crate) fn walk_counted<
    'a,
    T: Item,
    D: Dimension<'a, T::Summary>,
    R: Rule<T::Summary, D>,
    C: Tally,
>(path: &mut Path<'a, T>, start: D, rule: &R, steps: &mut C) -> Halt<'a, T, D>
    requires short { length path.old.items ≤ 2 ^ 40 }
    requires room { D.fits (D.plain start)
        (fold T.Summary.empty T.Summary.op T.sum_of path.old.items) }
    ensures passed { result.passed ≡ walk_count D.moved T.sum_of (R.halts rule.now)
        (D.plain start) 0 path.old.items }
    ensures at { IsAt D.moved D.fits T.Summary.empty T.Summary.op T.sum_of path.old.items
        (D.plain start) path.new.items result.item (D.plain result.start)
        (D.plain result.end) result.passed }
    ensures cost { AlwaysAdds D.moved → LooksAtEnds (R.halts rule.now)
        → path.old.items ≡ path.old.inner → C.count steps.new ≤ C.count steps.old + path.old.looks }
{
    let mut passed = 0;
    let mut at = start;
    while let Some(part) = path.pop(steps) {
        match part {
            Part::Node(node) => {
                let count = passed + node.len();
                match over(at, node.summary(), count, rule) {
                    None => path.enter(node),
                    Some(end) => {
                        at = end;
                        passed = count;
                    }
                }
            }
            Part::One(entry) => {
                let sum = entry.sum();
                let end = after(at, sum);
                if rule.halts(sum, end, passed + 1) {
                    return Halt {
                        item: Some(entry),
                        start: at,
                        end,
                        passed,
                    };
                }
                at = end;
                passed += 1;
            }
        }
    }
    Halt {
        item: None,
        start: at,
        end: at,
        passed,
    }
}
