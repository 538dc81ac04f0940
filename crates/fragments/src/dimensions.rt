//! Places among fragments.
ghost use Rattle.std.specs.Prelude.{◌≡◌, ℕ, ◌+◌, ◌^◌, ◌<◌, ◌≤◌, Option, Some, refl};
ghost use Rattle.std.specs.Option.{option_copied};
ghost use Rattle.fragments.specs.Summaries.{no_fragments, summaries, IsSummary, IsOne, greater_id};
ghost use Rattle.fragments.specs.SeenPlaces.{move_full, move_visible, At, move_at, IsLaterAt, AtFits};
ghost use Rattle.fragments.specs.SeenPlaceLaws.{at_laws};

use crate::fragment::greater_id;
use crate::{FragmentSummary, Sight};
use lamport_clock::Version;
use locators::Locator;
use tree_cursor::{Bias, Dimension, Moves, Plain, Target};

/// The number of cells before a place, including hidden ones.
#[derive(Clone, Copy, Debug, PartialEq, Eq)]
pub struct Full {
    pub bytes: u64,
}

impl Plain for Full {
    type Value = u64;

    ghost plain = { λ d. d.bytes };

    ghost later = { λ p q. p ≤ q };
}

impl Moves<FragmentSummary> for Full {
    ghost use Rattle.std.proofs.Common.{arith};
    ghost use Rattle.tree_cursor.specs.CountingLaws.{adding_laws};

    ghost moved = { move_full };

    ghost fits = { λ p s. p + (s.visible + s.hidden) < 2 ^ 64 };

    ghost laws = { adding_laws no_fragments summaries IsSummary IsOne
        (λ s. s.visible + s.hidden) refl (λ a b. Prim.omega arith) };
}

impl<'a> Dimension<'a, FragmentSummary> for Full {
    fn try_add(self, s: &'a FragmentSummary) -> Option<Full> {
        Some(Full {
            bytes: self.bytes + (s.visible + s.hidden),
        })
    }
}

/// The number of cells before a place that a version sees. The sum of a run of fragments can be added if the version
/// sees all of them or none; otherwise a seek descends into the run. A single fragment can always be added.
#[derive(Clone, Copy)]
pub struct FullAt<'v> {
    pub version: &'v Version,
    pub bytes: u64,
}

impl<'v> Plain for FullAt<'v> {
    type Value = (Version, u64);

    ghost plain = { λ d. (d.version.now, d.bytes) };

    ghost later = { IsLaterAt };
}

impl<'v> Moves<FragmentSummary> for FullAt<'v> {
    ghost moved = { move_at };

    ghost fits = { AtFits };

    ghost laws = { at_laws };
}

impl<'a, 'v> Dimension<'a, FragmentSummary> for FullAt<'v> {
    fn try_add(self, s: &'a FragmentSummary) -> Option<FullAt<'v>> {
        match s.span.sight(self.version) {
            Sight::All => Some(FullAt {
                version: self.version,
                bytes: self.bytes + (s.visible + s.hidden),
            }),
            Sight::Nothing => Some(self),
            Sight::Part => None,
        }
    }
}

/// Seeks to a number of cells.
impl Target<Full> for Full {
    ghost use Rattle.tree_cursor.specs.Counting.{number_passes};
    ghost use Rattle.tree_cursor.specs.CountingLaws.{number_stays};

    ghost passes = { λ g p b. number_passes g.bytes p b };

    ghost stays = { λ g p q b h l. number_stays g.bytes p q b h l };

    fn passed(&self, at: Full, bias: Bias) -> bool {
        match bias {
            Bias::Left => self.bytes <= at.bytes,
            Bias::Right => self.bytes < at.bytes,
        }
    }
}

/// Seeks to a number of cells that a version sees.
impl<'v> Target<FullAt<'v>> for Full {
    ghost use Rattle.tree_cursor.specs.Counting.{number_passes};
    ghost use Rattle.tree_cursor.specs.CountingLaws.{number_stays};

    ghost passes = { λ g p b. number_passes g.bytes p.1 b };

    ghost stays = { λ g p q b h l. number_stays g.bytes p.1 q.1 b h l.1 };

    fn passed(&self, at: FullAt<'v>, bias: Bias) -> bool {
        match bias {
            Bias::Left => self.bytes <= at.bytes,
            Bias::Right => self.bytes < at.bytes,
        }
    }
}

/// The number of shown cells before a place.
#[derive(Clone, Copy, Debug, PartialEq, Eq)]
pub struct Visible {
    pub bytes: u64,
}

impl Plain for Visible {
    type Value = u64;

    ghost plain = { λ d. d.bytes };

    ghost later = { λ p q. p ≤ q };
}

impl Moves<FragmentSummary> for Visible {
    ghost use Rattle.tree_cursor.specs.CountingLaws.{adding_laws};

    ghost moved = { move_visible };

    ghost fits = { λ p s. p + s.visible < 2 ^ 64 };

    ghost laws = { adding_laws no_fragments summaries IsSummary IsOne (λ s. s.visible) refl
        (λ a b. refl) };
}

impl<'a> Dimension<'a, FragmentSummary> for Visible {
    fn try_add(self, s: &'a FragmentSummary) -> Option<Visible> {
        Some(Visible {
            bytes: self.bytes + s.visible,
        })
    }
}

/// Seeks to a number of shown cells.
impl Target<Visible> for Visible {
    ghost use Rattle.tree_cursor.specs.Counting.{number_passes};
    ghost use Rattle.tree_cursor.specs.CountingLaws.{number_stays};

    ghost passes = { λ g p b. number_passes g.bytes p b };

    ghost stays = { λ g p q b h l. number_stays g.bytes p q b h l };

    fn passed(&self, at: Visible, bias: Bias) -> bool {
        match bias {
            Bias::Left => self.bytes <= at.bytes,
            Bias::Right => self.bytes < at.bytes,
        }
    }
}

/// The greatest id before a place, borrowed from the summary that holds it.
#[derive(Clone, Copy)]
pub struct ById<'a> {
    pub id: Option<&'a Locator>,
}

impl<'a> Plain for ById<'a> {
    type Value = Option<Locator>;

    ghost use Rattle.tree_cursor.specs.Keys.{IsLaterKey};
    ghost use Rattle.fragments.specs.Summaries.{id_less};

    ghost plain = { λ d. option_copied d.id };

    ghost later = { IsLaterKey id_less };
}

impl<'a> Moves<FragmentSummary> for ById<'a> {
    ghost use Rattle.tree_cursor.specs.KeyLaws.{key_laws};
    ghost use Rattle.fragments.specs.Summaries.{id_less};
    ghost use Rattle.fragments.specs.SummaryLaws.{id_order};

    ghost moved = { λ p s. Some (greater_id p s.last_id) };

    ghost fits = { λ p s. Unit };

    ghost laws = { key_laws id_less id_order no_fragments summaries IsSummary IsOne
        (λ s. s.last_id) refl (λ a b f g. refl) };
}

impl<'a> Dimension<'a, FragmentSummary> for ById<'a> {
    fn try_add(self, s: &'a FragmentSummary) -> Option<ById<'a>> {
        Some(ById {
            id: greater_id(self.id, s.last_id.as_ref()),
        })
    }
}

/// Seeks to an id: if ids ascend, to the first fragment whose id is at least this one (`Left`) or greater (`Right`).
impl<'a> Target<ById<'a>> for Locator {
    ghost use Rattle.tree_cursor.specs.Keys.{key_passes};
    ghost use Rattle.tree_cursor.specs.KeyLaws.{key_stays};
    ghost use Rattle.fragments.specs.Summaries.{id_less};
    ghost use Rattle.fragments.specs.SummaryLaws.{id_order};

    ghost passes = { λ g p b. key_passes id_less (Some g) p b };

    ghost stays = { λ g p q b h l. key_stays id_less id_order (Some g) p q b h l };

    fn passed(&self, at: ById<'a>, bias: Bias) -> bool {
        match at.id {
            None => false,
            Some(id) => match bias {
                Bias::Left => !id.cmp(self).is_lt(),
                Bias::Right => self.cmp(id).is_lt(),
            },
        }
    }
}
