//! Places of the text in what is shown, and the way back.
ghost use Rattle.std.specs.Prelude.{◌≡◌};
ghost use Rattle.fold_map.specs.Folds.{to_shown, to_text};

use crate::Bias;
use crate::folding::is_boundary;
use crate::map::FoldMap;

impl FoldMap {
    /// The place in what is shown of a place of the text, both in bytes. Strictly inside what a ⋯ stands for it is the start (Left)
    /// or the end (Right) of the ⋯. None exactly if `o` is past the end of the text or inside a character.
    ///
    /// One descent in the text and one in the spans. Does not allocate.
    pub fn to_shown(&self, o: u64, b: Bias) -> Option<u64>
        ensures { result ≡ to_shown self.now o b }
    {
        self.snapshot.known();
        if is_boundary(self.snapshot.text(), o) {
            Some(self.spans.shown_place(o, b))
        } else {
            None
        }
    }

    /// The place of the text that is shown at a place, both in bytes. Strictly inside the bytes of a ⋯ it is the start (Left) or the
    /// end (Right) of what the ⋯ stands for. None exactly if `d` is past the end of what is shown, or inside a character of it that
    /// is not such a ⋯.
    ///
    /// One descent in the spans and one in the text. Does not allocate.
    pub fn to_text(&self, d: u64, b: Bias) -> Option<u64>
        ensures { result ≡ to_text self.now d b }
    {
        self.snapshot.known();
        self.spans.known();
        if d > self.spans.shown_len() {
            return None;
        }
        // A place between characters of what is shown is one of the text, and so is either end of a ⋯.
        let place = self.spans.text_place(d, b);
        if is_boundary(self.snapshot.text(), place) {
            Some(place)
        } else {
            None
        }
    }
}
