//! Seeks: by plain descent, and the rule that they share with cursors.
ghost use Rattle.std.specs.Prelude.{◌≡◌, ◌+◌, ◌*◌, ◌<◌, ◌≤◌, take, slice_get};
ghost use Rattle.std.specs.Option.{option_copied};
ghost use Rattle.sum_tree.specs.Laws.{fold};
ghost use Rattle.tree_cursor.specs.Places.{AlwaysAdds, place_behind, seek_count};

use crate::path::Path;
use crate::tally::{NoTally, Tally};
use crate::traits::{Bias, Dimension, Moves, Plain, Target};
use crate::walk::{Halt, Rule, entry_item, walk_counted};
use std::sync::ledger::Ledger;
use sum_tree::{Item, Steps, SumTree, Summary};

// A walk that halts where a seek stops.
#[derive(Drop)]
pub(crate) struct Seeking<'t, G> {
    pub(crate) target: &'t G,
    pub(crate) bias: Bias,
}

impl<'t, S: Summary, D: Plain, G: Target<D>> Rule<S, D> for Seeking<'t, G> {
    ghost use Rattle.tree_cursor.specs.RuleLaws.{seek_parts};

    ghost halts = { λ r s q j. G.passes r.target.now q r.bias };

    ghost parts = { λ r a b p q i j f h l m n. seek_parts (G.passes r.target.now p r.bias)
        (G.passes r.target.now q r.bias) (λ t. G.stays r.target.now p q r.bias t l) n };

    fn halts(&self, _sum: &S, end: D, _count: u64) -> bool {
        self.target.passed(end, self.bias)
    }
}

// Goes down to the first item at which a seek stops.
fn descent<'a, T: Item, D: Dimension<'a, T::Summary>, G: Target<D>, C: Tally>(
    tree: &'a SumTree<T>,
    start: D,
    target: &G,
    bias: Bias,
    steps: &mut C,
) -> Halt<'a, T, D>
    requires { D.fits (D.plain start) (fold T.Summary.empty T.Summary.op T.sum_of tree.now.items) }
    ensures item { option_copied result.item
        ≡ slice_get tree.now.items
        (seek_count D.moved T.sum_of (λ p. G.passes target.now p bias)
        (D.plain start) tree.now.items) }
    ensures start { D.plain result.start
        ≡ place_behind D.moved T.sum_of (D.plain start)
        (take (seek_count D.moved T.sum_of (λ p. G.passes target.now p bias)
        (D.plain start) tree.now.items) tree.now.items) }
    ensures cost { AlwaysAdds D.moved → C.count steps.new
        ≤ C.count steps.old + 12 * (tree.now.height + 1) }
{
    tree.known();
    let mut path = Path::new(tree);
    walk_counted(&mut path, start, &Seeking { target, bias }, steps)
}

/// The first item whose end is at or past the target (Left) or strictly past it (Right), and the place at which it
/// starts; None, and the place at which all end, if there is none.
///
/// A plain descent that takes no memory, with a step for each entry looked at. It looks at no more than the entries of
/// the nodes on the way down to the item, and also at those of each node that the dimension has to look inside.
pub fn locate<'a, T: Item, D: Dimension<'a, T::Summary>, G: Target<D>, L: Ledger>(
    tree: &'a SumTree<T>,
    start: D,
    target: &G,
    bias: Bias,
    steps: &mut Steps<L>,
) -> (Option<&'a T>, D)
    requires { D.fits (D.plain start) (fold T.Summary.empty T.Summary.op T.sum_of tree.now.items) }
    ensures item { option_copied result.0
        ≡ slice_get tree.now.items
        (seek_count D.moved T.sum_of (λ p. G.passes target.now p bias)
        (D.plain start) tree.now.items) }
    ensures place { D.plain result.1 ≡ place_behind D.moved T.sum_of (D.plain start)
        (take (seek_count D.moved T.sum_of (λ p. G.passes target.now p bias)
        (D.plain start) tree.now.items) tree.now.items) }
    ensures cost { AlwaysAdds D.moved → steps.new ≤ steps.old + 12 * (tree.now.height + 1) }
{
    let halt = descent(tree, start, target, bias, steps);
    (entry_item(halt.item), halt.start)
}

/// What `locate` answers, for callers that count nothing.
pub fn look_up<'a, T: Item, D: Dimension<'a, T::Summary>, G: Target<D>>(
    tree: &'a SumTree<T>,
    start: D,
    target: &G,
    bias: Bias,
) -> (Option<&'a T>, D)
    requires { D.fits (D.plain start) (fold T.Summary.empty T.Summary.op T.sum_of tree.now.items) }
    ensures item { option_copied result.0
        ≡ slice_get tree.now.items
        (seek_count D.moved T.sum_of (λ p. G.passes target.now p bias)
        (D.plain start) tree.now.items) }
    ensures place { D.plain result.1 ≡ place_behind D.moved T.sum_of (D.plain start)
        (take (seek_count D.moved T.sum_of (λ p. G.passes target.now p bias)
        (D.plain start) tree.now.items) tree.now.items) }
{
    let halt = descent(tree, start, target, bias, &mut NoTally);
    (entry_item(halt.item), halt.start)
}
