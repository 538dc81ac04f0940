//! Anchors of a snapshot.
ghost use Rattle.std.specs.Prelude.{◌≡◌, Some, IfOk, IfErr, if◌then◌else◌};
ghost use Rattle.std.specs.Result.{result_err, result_ok};
ghost use Rattle.op_model.specs.Anchors.{known_order, is_known, place_fault, known_place};
ghost use Rattle.anchors.specs.Making.{made_anchor};

use crate::{Anchor, Bias, PlaceFault, Snapshot, UnknownAnchor};
use anchors::anchor_at;
use std::cmp::Ordering;

impl Snapshot {
    /// The anchor at a byte offset of the text. Left keeps to the byte before it, Right to the byte after it; at the start of the
    /// text Left is [`Anchor::Least`], at its end Right is [`Anchor::Greatest`]. Here the anchor resolves to the offset. This is a
    /// descent in the text and one in the fragments; it does not allocate.
    ///
    /// # Errors
    ///
    /// `PastEnd` with the text's length where the offset passes it, else `InsideChar` where the offset is inside a character.
    pub fn anchor(&self, o: u64, b: Bias) -> Result<Anchor, PlaceFault>
        ensures fault { result_err result ≡ place_fault self.now o }
        ensures anchor { IfOk result (λ a. made_anchor self.now o b ≡ Some a) }
        ensures place { IfOk result (λ a. known_place self.now a ≡ Some o) }
    {
        self.known();
        let content = self.document.content();
        anchor_at(
            &content.fragments,
            &content.index,
            &content.text,
            &content.hidden,
            o,
            b,
        )
    }

    /// The place of an anchor, a byte offset of the text. This is a few descents; it does not allocate.
    ///
    /// # Errors
    ///
    /// `UnknownAnchor` exactly where the anchor's edit is not applied, or has no such byte, or no character begins or ends there.
    pub fn resolve(&self, a: &Anchor) -> Result<u64, UnknownAnchor>
        ensures place { result_ok result ≡ known_place self.now a.now }
        ensures unknown { IfErr result (λ e. e.anchor ≡ a.now) }
    {
        self.known();
        let content = self.document.content();
        anchors::resolve(
            &content.fragments,
            &content.index,
            &content.text,
            &content.hidden,
            a,
        )
    }

    /// The order of two anchors, by their gaps among all bytes, hidden ones too, Left before Right in one gap. This is a few
    /// descents; it does not allocate.
    ///
    /// # Errors
    ///
    /// `UnknownAnchor` exactly where one of the two is not known, with the first that is not.
    pub fn compare(&self, a: &Anchor, b: &Anchor) -> Result<Ordering, UnknownAnchor>
        ensures order { result_ok result ≡ known_order self.now a.now b.now }
        ensures unknown { IfErr result (λ e. e.anchor
            ≡ (if is_known self.now a.now then b.now else a.now)) }
    {
        self.known();
        let content = self.document.content();
        anchors::compare(
            &content.fragments,
            &content.index,
            &content.text,
            &content.hidden,
            a,
            b,
        )
    }
}
