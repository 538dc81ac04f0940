//! A rope's clips.
ghost use Rattle.std.specs.Prelude.{◌≡◌};
ghost use Rattle.text_dims.specs.Places.{offset_clip_back, offset_clip_on};
ghost use Rattle.rope_chunks.specs.Clips.{offset_clip};

use crate::rope::Rope;
use crate::targets::ByOffset;
use text_dims::Place;
use tree_cursor::Bias;

impl Rope {
    /// The byte offset itself where it is a position; past the text's end, the end; inside a character its start (Left) or
    /// its end (Right). It is one descent and one look inside a chunk, and does not allocate.
    pub fn clip_offset(&self, offset: u64, bias: Bias) -> u64
        ensures { result ≡ (offset_clip self.now offset bias).offset }
    {
        match bias {
            Bias::Left => self.place_back(offset).offset,
            Bias::Right => self.place_on(offset).offset,
        }
    }

    // The last place at or before an offset.
    fn place_back(&self, offset: u64) -> Place
        ensures { result ≡ offset_clip_back self.now offset }
    {
        self.known();
        self.back(&ByOffset(offset))
    }

    // The first place at or past an offset, or the last place.
    fn place_on(&self, offset: u64) -> Place
        ensures { result ≡ offset_clip_on self.now offset }
    {
        let stop = self.stop(&ByOffset(offset));
        match stop.here {
            Some(place) => place,
            None => stop.before,
        }
    }
}
