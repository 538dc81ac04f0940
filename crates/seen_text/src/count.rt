//! How many bytes a version sees.
ghost use Rattle.std.specs.Prelude.{◌≡◌, length};
ghost use Rattle.op_model.specs.Histories.{History, seen_history};
ghost use Rattle.op_model.specs.Shown.{full};
ghost use Rattle.op_model.specs.Lawful.{Lawful, IsClosed};
ghost use Rattle.fragments.specs.Stand.{Tell};
ghost use Rattle.remote_edit.specs.Walk.{seen_bytes};

use fragments::{Fragment, Full, FullAt};
use lamport_clock::Version;
use sum_tree::SumTree;
use tree_cursor::{Bias, look_up};

// How many cells of the fragments a version sees.
fn seen_cells(fragments: &SumTree<Fragment>, version: &Version) -> u64
    ensures { result ≡ seen_bytes version.now fragments.now.items }
{
    fragments.known();
    let start = FullAt { version, bytes: 0 };
    let last = Full { bytes: u64::MAX };
    look_up(fragments, start, &last, Bias::Right).1.bytes
}

/// How many bytes a version sees, hidden ones too, where the fragments tell of a lawful history in which it is closed.
///
/// One plain descent, without memory: it looks into no run of fragments of which the version sees all or none.
pub fn seen_len(fragments: &SumTree<Fragment>, version: &Version) -> u64
    ensures { (h : History) → Tell fragments.now.items h → Lawful h → IsClosed h version.now
        → result ≡ length (full (seen_history h version.now)) }
{
    seen_cells(fragments, version)
}
