//! The dimension of a rope's look-ups: a place in its text.
ghost use Rattle.std.specs.Prelude.{◌≡◌, []};
ghost use Rattle.text_dims.specs.Places.{end_place};
ghost use Rattle.rope_chunks.specs.At.{IsLater, PlaceAndTextFit, move_place};
ghost use Rattle.rope_chunks.specs.PlaceLaws.{place_laws};

use text_dims::{Place, TextSummary};
use tree_cursor::{Dimension, Moves, Plain};

/// A place in a rope's text.
#[derive(Clone, Copy)]
pub(crate) struct At(pub(crate) Place);

impl At {
    /// The place at which every text begins.
    pub(crate) fn start() -> At
        ensures { result.0 ≡ end_place [] }
    {
        At(Place {
            offset: 0,
            utf16: 0,
            row: 0,
            column: 0,
            column_utf16: 0,
        })
    }
}

impl Plain for At {
    type Value = Place;

    ghost plain = { λ at. at.0 };

    ghost later = { IsLater };
}

impl Moves<TextSummary> for At {
    ghost moved = { move_place };

    ghost fits = { PlaceAndTextFit };

    ghost laws = { place_laws };
}

impl<'a> Dimension<'a, TextSummary> for At {
    fn try_add(self, text: &'a TextSummary) -> Option<At> {
        Some(At(self.0.past(text)))
    }
}
