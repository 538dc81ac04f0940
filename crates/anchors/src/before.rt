//! How much lies before a fragment, and which fragments an id is looked for in.
ghost use Rattle.anchors.specs.Before.{move_before, IsLaterBefore, BeforeFits, reaches};
ghost use Rattle.anchors.specs.BeforeLaws.{before_laws, reaches_parts};

use fragments::FragmentSummary;
use locators::Locator;
use tree_cursor::{Dimension, Keep, Moves, Plain};

/// How many shown cells and how many of all lie before.
#[derive(Clone, Copy)]
pub struct Before {
    pub shown: u64,
    pub cells: u64,
}

impl Plain for Before {
    type Value = (u64, u64);

    ghost plain = { λ d. (d.shown, d.cells) };

    ghost later = { IsLaterBefore };
}

impl Moves<FragmentSummary> for Before {
    ghost moved = { move_before };

    ghost fits = { BeforeFits };

    ghost laws = { before_laws };
}

impl<'a> Dimension<'a, FragmentSummary> for Before {
    fn try_add(self, s: &'a FragmentSummary) -> Option<Before> {
        Some(Before {
            shown: self.shown + s.visible,
            cells: self.cells + (s.visible + s.hidden),
        })
    }
}

/// The runs of fragments whose greatest id is not less than an id. Where ids ascend, the first fragment among them is the one that
/// has the id.
#[derive(Drop)]
pub struct Reaching<'i> {
    pub id: &'i Locator,
}

impl<'i> Keep<FragmentSummary> for Reaching<'i> {
    ghost keeps = { λ k s. reaches k.id.now s };

    ghost parts = { λ k a b p q h. reaches_parts k.id.now a b h };

    fn keep(&self, s: &FragmentSummary) -> bool {
        match &s.last_id {
            None => false,
            Some(id) => !id.cmp(self.id).is_lt(),
        }
    }
}
