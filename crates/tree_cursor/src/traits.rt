//! What a cursor asks of its places, its targets and its filters.
ghost use Rattle.std.specs.Prelude.{◌≡◌, Option, Some, None, Bool, true, false};
ghost use Rattle.std.specs.Option.{option_map};
ghost use Rattle.tree_cursor.specs.Places.{DimensionLaws};
ghost use Rattle.tree_cursor.specs.declared.traits.Bias.{Bias};

use sum_tree::Summary;

/// What contracts see of a place: its plain value, and which places are later.
pub trait Plain {
    /// What places are compared by.
    type Value;

    ghost plain: { Self → Self.Value };

    ghost later: { Self.Value → Self.Value → Type 0 };
}

/// How adding a summary moves a place, in contracts.
///
/// `moved` is None where the summary is too coarse to be added whole, so that its parts are to be added in turn; it
/// never is for the summary of a single item. `fits` says where the place's type has room for what is added.
pub trait Moves<S: Summary>: Plain {
    ghost moved: { Self.Value → S → Option Self.Value };

    ghost fits: { Self.Value → S → Type 0 };

    ghost laws: { DimensionLaws S.empty S.op S.admits S.single Self.later moved fits };
}

/// A place in a tree, which adding summaries moves forward. It may hold references into them, or to things outside.
pub trait Dimension<'a, S: Summary>: Moves<S> + Copy {
    /// The place behind a run of items with this summary, or None where it is too coarse: then look inside. Takes no
    /// memory.
    fn try_add(self, s: &'a S) -> Option<Self>
        requires { Self.fits (Self.plain self) s.now }
        ensures { option_map Self.plain result ≡ Self.moved (Self.plain self) s.now };
}

/// On which side of a target a seek stops, where places are equal to it.
#[derive(Clone, Copy, Debug, PartialEq, Eq)]
pub enum Bias {
    /// At the first item whose end is at or past the target.
    Left,
    /// At the first item whose end is strictly past the target.
    Right,
}

/// What a seek looks for.
pub trait Target<D: Plain> {
    ghost passes: { Self → D.Value → Bias → Bool };

    /// Whether a place is at or past the target (Left), or strictly past it (Right). Takes no memory.
    fn passed(&self, at: D, bias: Bias) -> bool
        ensures { result ≡ passes self.now (D.plain at) bias };

    ghost stays: { (g : Self) (p q : D.Value) (b : Bias) → passes g p b ≡ true → D.later p q
        → passes g q b ≡ true };
}

/// Which items a filter gives.
pub trait Keep<S: Summary> {
    ghost keeps: { Self → S → Bool };

    /// Whether an item with this summary is kept; for the sum of several items, whether one of them may be. Takes no
    /// memory.
    fn keep(&self, s: &S) -> bool
        ensures { result ≡ keeps self.now s.now };

    ghost parts: { (k : Self) (a b : S) → S.admits a → S.admits b → keeps k (S.op a b) ≡ false
        → (keeps k a ≡ false) × (keeps k b ≡ false) };
}
