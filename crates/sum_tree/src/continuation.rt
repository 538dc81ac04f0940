//! What is still to be done between the two phases of a change.
ghost use Rattle.std.specs.Prelude.{◌≡◌, OnOk, OnErr};

use crate::OutOfMemory;
use std::alloc::Global;

/// What is still to be done, and may fail, once a tree is prepared for a change and before the change is made.
///
/// A call such as `SumTree::push_then` does all that may fail first. Then it runs the continuation, and if that succeeds,
/// it makes its change, which does not allocate and cannot fail. So if a continuation changes another tree, both changes
/// are made, or neither.
///
/// Contracts see when it may be run as `may`, what `run` does as `done`, a relation of the values before and after it, and
/// what it leaves if it fails as `kept`. A value that is not run is `kept`.
pub trait Continuation: Sized {
    ghost may: { Self → Type 0 };

    ghost done: { Self → Self → Type 0 };

    ghost kept: { Self → Self → Type 0 };

    /// Does what is still to be done.
    ///
    /// # Errors
    ///
    /// Fails only if an allocation fails.
    fn run(&mut self, alloc: Global) -> Result<(), OutOfMemory>
        requires { may self.old }
        ensures ok { OnOk result (done self.old self.new) }
        ensures err { OnErr result (kept self.old self.new) };

    ghost same: { (k : Self) → kept k k };
}

/// A continuation that does nothing and never fails.
#[derive(Clone, Copy, Debug, PartialEq, Eq)]
pub struct Nothing;

impl Continuation for Nothing {
    ghost use Rattle.std.specs.Prelude.{⊤, refl};

    ghost may = { λ k. ⊤ };

    ghost done = { λ a b. b ≡ a };

    ghost kept = { λ a b. b ≡ a };

    ghost same = { λ k. refl };

    fn run(&mut self, _alloc: Global) -> Result<(), OutOfMemory> {
        Ok(())
    }
}
