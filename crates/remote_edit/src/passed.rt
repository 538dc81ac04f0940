//! Numbers of cells before a place in a walk over fragments.
ghost use Rattle.std.specs.Prelude.{◌≡◌, ◌+◌, ◌≤◌, if◌then◌else◌};
ghost use Rattle.remote_edit.specs.Passed.{move_passed, IsLaterPassed, PassedFits, move_seen, IsLaterSeen, SeenFits};
ghost use Rattle.remote_edit.specs.PassedLaws.{passed_laws, seen_laws};

use fragments::{Fragment, FragmentSummary, Full, Sight, Visible};
use lamport_clock::Version;
use tree_cursor::{Bias, Dimension, Moves, Plain, Target};

/// The numbers of shown and of hidden cells before a place.
#[derive(Clone, Copy, Debug, PartialEq, Eq)]
pub struct Passed {
    pub visible: u64,
    pub hidden: u64,
}

impl Passed {
    // These numbers without the cells of a fragment.
    pub(crate) fn without(self, fragment: &Fragment) -> Passed
        requires visible { (if fragment.now.visible then fragment.now.len else 0) ≤ self.visible }
        requires hidden { (if fragment.now.visible then 0 else fragment.now.len) ≤ self.hidden }
        ensures visible { result.visible
            + (if fragment.now.visible then fragment.now.len else 0) ≡ self.visible }
        ensures hidden { result.hidden
            + (if fragment.now.visible then 0 else fragment.now.len) ≡ self.hidden }
    {
        if fragment.visible {
            return Passed {
                visible: self.visible - fragment.len,
                hidden: self.hidden,
            };
        }
        Passed {
            visible: self.visible,
            hidden: self.hidden - fragment.len,
        }
    }
}

impl Plain for Passed {
    type Value = (u64, u64);

    ghost plain = { λ d. (d.visible, d.hidden) };

    ghost later = { IsLaterPassed };
}

impl Moves<FragmentSummary> for Passed {
    ghost moved = { move_passed };

    ghost fits = { PassedFits };

    ghost laws = { passed_laws };
}

impl<'a> Dimension<'a, FragmentSummary> for Passed {
    fn try_add(self, s: &'a FragmentSummary) -> Option<Passed> {
        Some(Passed {
            visible: self.visible + s.visible,
            hidden: self.hidden + s.hidden,
        })
    }
}

/// The number of cells before a place that a version sees, and the numbers of shown and of hidden ones. As with
/// [`fragments::FullAt`], the sum of a run of fragments can be added if the version sees all of them or none.
#[derive(Clone, Copy)]
pub struct SeenPassed<'v> {
    pub version: &'v Version,
    pub bytes: u64,
    pub visible: u64,
    pub hidden: u64,
}

impl<'v> Plain for SeenPassed<'v> {
    type Value = (((Version, u64), u64), u64);

    ghost plain = { λ d. (((d.version.now, d.bytes), d.visible), d.hidden) };

    ghost later = { IsLaterSeen };
}

impl<'v> Moves<FragmentSummary> for SeenPassed<'v> {
    ghost moved = { move_seen };

    ghost fits = { SeenFits };

    ghost laws = { seen_laws };
}

impl<'a, 'v> Dimension<'a, FragmentSummary> for SeenPassed<'v> {
    fn try_add(self, s: &'a FragmentSummary) -> Option<SeenPassed<'v>> {
        let visible = self.visible + s.visible;
        let hidden = self.hidden + s.hidden;
        let bytes = match s.span.sight(self.version) {
            Sight::All => self.bytes + (s.visible + s.hidden),
            Sight::Nothing => self.bytes,
            Sight::Part => return None,
        };
        Some(SeenPassed {
            version: self.version,
            bytes,
            visible,
            hidden,
        })
    }
}

/// Seeks to a number of cells that a version sees.
impl<'v> Target<SeenPassed<'v>> for Full {
    ghost use Rattle.tree_cursor.specs.Counting.{number_passes};
    ghost use Rattle.tree_cursor.specs.CountingLaws.{number_stays};

    ghost passes = { λ g p b. number_passes g.bytes p.0.0.1 b };

    ghost stays = { λ g p q b h l. number_stays g.bytes p.0.0.1 q.0.0.1 b h l.0.0.1 };

    fn passed(&self, at: SeenPassed<'v>, bias: Bias) -> bool {
        match bias {
            Bias::Left => self.bytes <= at.bytes,
            Bias::Right => self.bytes < at.bytes,
        }
    }
}

/// Seeks to a number of cells, shown and hidden ones together.
impl Target<Passed> for Full {
    ghost use Rattle.std.specs.Prelude.{◌+◌};
    ghost use Rattle.tree_cursor.specs.Counting.{number_passes};
    ghost use Rattle.tree_cursor.specs.CountingLaws.{number_stays};
    ghost use Rattle.remote_edit.specs.PassedLaws.{sum_later};

    ghost passes = { λ g p b. number_passes g.bytes (p.0 + p.1) b };

    ghost stays = { λ g p q b h l. number_stays g.bytes (p.0 + p.1) (q.0 + q.1) b h
        (sum_later p q l) };

    fn passed(&self, at: Passed, bias: Bias) -> bool {
        let bytes = self.bytes as u128;
        let cells = at.visible as u128 + at.hidden as u128;
        match bias {
            Bias::Left => bytes <= cells,
            Bias::Right => bytes < cells,
        }
    }
}

/// Seeks to a number of shown cells.
impl Target<Passed> for Visible {
    ghost use Rattle.tree_cursor.specs.Counting.{number_passes};
    ghost use Rattle.tree_cursor.specs.CountingLaws.{number_stays};

    ghost passes = { λ g p b. number_passes g.bytes p.0 b };

    ghost stays = { λ g p q b h l. number_stays g.bytes p.0 q.0 b h l.0 };

    fn passed(&self, at: Passed, bias: Bias) -> bool {
        match bias {
            Bias::Left => self.bytes <= at.visible,
            Bias::Right => self.bytes < at.visible,
        }
    }
}
