//! The past of a snapshot: the text at a version, and the edits since it.
ghost use Rattle.std.specs.Prelude.{◌≡◌, ◌⊎◌, None, Some, IfErr, IfOk, OnOk, string_bytes};
ghost use Rattle.op_model.specs.Answers.{open_replica};
ghost use Rattle.op_model.specs.Lawful.{IsClosed, unseen_replica};
ghost use Rattle.op_model.specs.Since.{since, since_fault, text_at};

use crate::{Edits, OutOfMemory, SinceFault, Snapshot};
use edits_since::moves_back;
use lamport_clock::Version;
use op_answers::open_replica;
use rope_edits::apply_moves;

impl Snapshot {
    // Why there is no answer at a version.
    fn since_fault(&self, version: &Version) -> Option<SinceFault>
        ensures { result ≡ since_fault self.now version.now }
    {
        self.known();
        if let Some((replica, _)) = self.version().first_missing(version) {
            return Some(SinceFault::Unseen(replica));
        }
        let open = open_replica(self.document.operations(), version)?;
        Some(SinceFault::OpenVersion(open))
    }

    /// The edits that take the text that a version saw to the text of the snapshot: one for each maximal run without a byte that is
    /// in both, where it has a byte of either. Old ranges are in bytes of the text then, new ones in bytes of the text of the snapshot;
    /// they ascend and do not touch. The cost grows with the fragments that changed since, times the height. It allocates for the
    /// edits alone.
    ///
    /// # Errors
    ///
    /// `Unseen` exactly where the version has more of a replica than the snapshot, with the least such replica. Else `OpenVersion`
    /// exactly where what the version has of a replica is no applied operation whose causes it has seen, with the least such
    /// replica. `OutOfMemory` if an allocation fails, and only where there is neither.
    pub fn since(&self, version: &Version) -> Result<Edits, SinceFault>
        ensures ok { OnOk result (since_fault self.now version.now ≡ None) }
        ensures edits { IfOk result (λ es. es ≡ since self.now version.now) }
        ensures fault { IfErr result (λ e. (since_fault self.now version.now ≡ Some e)
            ⊎ ((since_fault self.now version.now ≡ None) × (e ≡ SinceFault.OutOfMemory))) }
    {
        if let Some(fault) = self.since_fault(version) {
            return Err(fault);
        }
        self.known();
        let content = self.document.content();
        let edits = edits_since::since(
            self.document.alloc,
            &content.fragments,
            &content.undos,
            version,
        )?;
        Ok(edits)
    }

    /// A copy of the text that a version saw. Bytes that lie between fragments that changed since are taken together. The cost grows
    /// with the fragments that changed since, times the height, and with the length of that text, which is copied.
    ///
    /// # Errors
    ///
    /// Those of [`Snapshot::since`].
    pub fn text_at(&self, version: &Version) -> Result<String, SinceFault>
        ensures ok { OnOk result (since_fault self.now version.now ≡ None) }
        ensures text { IfOk result (λ s. string_bytes s ≡ text_at self.now version.now) }
        ensures fault { IfErr result (λ e. (since_fault self.now version.now ≡ Some e)
            ⊎ ((since_fault self.now version.now ≡ None) × (e ≡ SinceFault.OutOfMemory))) }
    {
        if let Some(fault) = self.since_fault(version) {
            return Err(fault);
        }
        Ok(self.text_back(version)?)
    }

    // The text that a closed version saw.
    fn text_back(&self, version: &Version) -> Result<String, OutOfMemory>
        requires { IsClosed self.now version.now }
        ensures { IfOk result (λ s. string_bytes s ≡ text_at self.now version.now) }
    {
        self.known();
        let alloc = self.document.alloc;
        let content = self.document.content();
        let moves = moves_back(alloc, &content.fragments, &content.undos, version)?;
        let texts = apply_moves(alloc, &content.text, &content.hidden, moves.as_slice(), &[])?;
        Ok(texts.shown.to_string(alloc)?)
    }
}
