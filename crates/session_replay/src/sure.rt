//! The program on bytes in memory, where no read and no write fails.
ghost use Rattle.std.specs.Prelude.{◌≡◌, ◌≤◌, ◌<◌, ◌⊎◌, ℕ, List, length, Some, None};
ghost use Rattle.command_words.specs.Words.{command_of};
ghost use Rattle.command_words.specs.declared.command.Command.{Command};
ghost use Rattle.command_words.specs.declared.command.Task.{Task};
ghost use Rattle.session_replay.specs.Replay.{HasMany, IsBad, IsGood, IsRefused};
ghost use Rattle.session_work.specs.Work.{session_limit};

use crate::top::{Status, run};
use queries::Gate;
use session_io::{SureSink, SureSource};
use std::alloc::Global;
use std::sync::Wait;
use std::thread::Threads;

/// Runs the program on bytes, and drops what it writes. No read and no write fails, so the words and the bytes alone
/// decide how it ends, unless an allocation fails.
pub fn run_on_bytes<R: Threads + Wait + Sync, G: Gate>(
    rt: &R,
    alloc: Global,
    words: &[String],
    bytes: Vec<u8>,
    gate: &G,
) -> Status
    // Words that are no command.
    ensures usage { command_of words.now ≡ None
        → (result ≡ Status.Usage) ⊎ (result ≡ Status.Memory) }
    // A command and an input within the limits of which it can make something, or a command that reads none.
    ensures completes { (task : Task) → command_of words.now ≡ Some (Command.Read task)
        → length bytes.items ≤ session_limit → IsGood task bytes.items
        → (result ≡ Status.Done) ⊎ (result ≡ Status.Memory) }
    ensures made { (seed n edits : ℕ) → command_of words.now ≡ Some (Command.Make seed n edits)
        → (result ≡ Status.Done) ⊎ (result ≡ Status.Memory) }
    // A command, and bytes of which it can make nothing or too many.
    ensures refuses { (task : Task) → command_of words.now ≡ Some (Command.Read task)
        → (session_limit < length bytes.items) ⊎ IsRefused task bytes.items
        → (result ≡ Status.Session) ⊎ ((result ≡ Status.TooLarge) ⊎ (result ≡ Status.Memory)) }
    ensures session { result ≡ Status.Session → (length bytes.items ≤ session_limit)
        × ((task : Task) × (command_of words.now ≡ Some (Command.Read task))
        × ((line : List ℕ) × IsBad task bytes.items line)) }
    ensures large { result ≡ Status.TooLarge → (session_limit < length bytes.items)
        ⊎ ((task : Task) × (command_of words.now ≡ Some (Command.Read task))
        × HasMany task bytes.items) }
{
    let mut src = SureSource::new(bytes);
    run(rt, alloc, words, &mut src, &mut SureSink, gate)
}
