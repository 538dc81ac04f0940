//! Where characters begin among the bytes that a version sees.
ghost use Rattle.std.specs.Prelude.{◌≡◌};
ghost use Rattle.std.specs.Option.{option_copied};
ghost use Rattle.op_model.specs.Histories.{History, seen_history};
ghost use Rattle.op_model.specs.Shown.{full};
ghost use Rattle.op_model.specs.Edits.{is_boundary};
ghost use Rattle.op_model.specs.Lawful.{Lawful, IsClosed};
ghost use Rattle.seen_text.specs.Lies.{IsFound};
ghost use Rattle.seen_text.specs.Texts.{TellTexts};

use fragments::{Fragment, Full, Sight};
use lamport_clock::Version;
use remote_edit::{Passed, SeenPassed};
use rope_chunks::Rope;
use sum_tree::SumTree;
use tree_cursor::{Bias, look_up};

// The fragment that has the byte at a place among all bytes that a version sees, and how many of these, and of the shown
// and the hidden cells, lie before it. A version that sees the whole tree is asked about its sum alone.
fn seek<'t, 'v>(
    fragments: &'t SumTree<Fragment>,
    version: &'v Version,
    place: u64,
) -> (Option<&'t Fragment>, SeenPassed<'v>)
    ensures { IsFound version.now fragments.now.items place (option_copied result.0)
        result.1.bytes result.1.visible result.1.hidden }
{
    fragments.known();
    let target = Full { bytes: place };
    match fragments.summary().span.sight(version) {
        Sight::All => {
            let start = Passed {
                visible: 0,
                hidden: 0,
            };
            let (found, before) = look_up(fragments, start, &target, Bias::Right);
            let before = SeenPassed {
                version,
                bytes: before.visible + before.hidden,
                visible: before.visible,
                hidden: before.hidden,
            };
            (found, before)
        }
        Sight::Nothing | Sight::Part => {
            let start = SeenPassed {
                version,
                bytes: 0,
                visible: 0,
                hidden: 0,
            };
            look_up(fragments, start, &target, Bias::Right)
        }
    }
}

/// Whether a character begins at a place among all bytes that a version sees, hidden ones too, or they end there: where the
/// fragments, the shown text and the hidden text are those of a lawful history in which the version is closed. False past
/// their end.
///
/// Does not allocate. One plain descent to the fragment of the byte, which looks into no run of fragments of which the version sees
/// all or none; and, unless the fragment begins with the byte, one to the byte in the text in which it lies.
pub fn is_seen_boundary(
    fragments: &SumTree<Fragment>,
    shown: &Rope,
    hidden: &Rope,
    version: &Version,
    place: u64,
) -> bool
    ensures { (h : History) → TellTexts fragments.now.items shown.now hidden.now h
        → Lawful h → IsClosed h version.now
        → result ≡ is_boundary (full (seen_history h version.now)) place }
{
    fragments.known();
    let (found, before) = seek(fragments, version, place);
    let Some(fragment) = found else {
        return place == before.bytes;
    };
    if place == before.bytes {
        return true;
    }
    let inside = place - before.bytes;
    if fragment.visible {
        shown.is_char_boundary(before.visible + inside)
    } else {
        hidden.is_char_boundary(before.hidden + inside)
    }
}
