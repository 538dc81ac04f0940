//! Forgetting operations that wait.
ghost use Rattle.std.specs.Prelude.{◌≡◌, None};
ghost use Rattle.op_model.specs.Histories.{operation_at};
ghost use Rattle.op_model.specs.Steps.{without};
ghost use Rattle.op_model.specs.Steps.Step.{Forgets};
ghost use Rattle.text_buffer.specs.Buffer.{after_call};

use crate::Buffer;
use lamport_clock::Lamport;
use op_model::Operation;

impl Buffer {
    /// Takes the operation of a stamp out of what waits, and returns it. Returns `None`, and changes nothing, exactly where no
    /// operation of that stamp waits.
    ///
    /// Anybody may send operations that wait for ever, and a buffer keeps them all. A caller that bounds how many it keeps goes
    /// through them by [`Deferred::after`](deferred_ops::Deferred::after) and forgets those that are too many. Nothing is kept of a
    /// forgotten operation: it may be taken again, and so may another one of its stamp.
    ///
    /// Logarithmic in what waits, for each replica that the operation's version has; does not allocate.
    pub fn forget(&mut self, t: Lamport) -> Option<Operation>
        ensures forgotten { result ≡ operation_at self.old.waiting t }
        ensures new { self.new ≡ record self.old { waiting = without t self.old.waiting } }
        ensures gone { operation_at self.new.waiting t ≡ None }
        ensures step { self.new ≡ after_call (Forgets t) self.old }
    {
        self.waiting.remove(t)
    }
}
