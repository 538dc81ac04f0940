//! A snapshot that remembers how far its pair had grown.
ghost use Rattle.std.specs.Prelude.{◌≡◌, ◌<◌, ◌≤◌, length, IfOk, MatchBool};
ghost use Rattle.text_buffer.specs.Document.{IsFront};
ghost use Rattle.snapshot_pub.specs.Logs.{log_list, pair_of};

use crate::OutOfMemory;
use crate::growth::Reached;
use left_right::Absorb;
use text_buffer::Snapshot;

/// A snapshot that is or was shown, and the log of its pair as it was then, whose list is that of the snapshot.
#[derive(Drop)]
pub struct Kept {
    pub(crate) snapshot: Snapshot,
    pub(crate) reached: Reached,
    ghost whole: { log_list reached.log ≡ snapshot },
}

impl Kept {
    /// An equal one, which shares the snapshot.
    pub fn share(&self) -> Result<Kept, OutOfMemory>
        ensures { IfOk result (λ k. k ≡ self.now) }
    {
        Ok(Kept {
            snapshot: self.snapshot.share()?,
            reached: self.reached.again(),
        })
    }

    /// Whether it begins with the other one, which is of the same pair. The longer of two always does, since both begin
    /// the list of the pair.
    pub fn begins_with(&self, other: &Kept) -> bool
        requires { pair_of other.now.reached.book other.now.reached.log
            ≡ pair_of self.now.reached.book self.now.reached.log }
        ensures front { MatchBool result (IsFront other.now.snapshot self.now.snapshot)
            (IsFront self.now.snapshot other.now.snapshot) }
        ensures length { MatchBool result
            (length other.now.snapshot ≤ length self.now.snapshot)
            (length self.now.snapshot < length other.now.snapshot) }
    {
        let mut both = self.reached.again();
        both.learn(&other.reached);
        other.snapshot.applied().len() <= self.snapshot.applied().len()
    }
}

/// A snapshot is shown whole, in place of an earlier one. So nothing is ever appended, and an operation changes nothing.
impl Absorb<()> for Kept {
    type State = ();

    ghost state = { λ _. tt };

    ghost applied = { λ s _. s };

    ghost never_fails = { Unit {0} };

    fn absorb_first(&mut self, _operation: &(), _other: &Kept) -> Result<(), OutOfMemory> {
        Ok(())
    }
}
