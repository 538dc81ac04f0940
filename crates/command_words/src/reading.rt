//! The command that words are.
ghost use Rattle.std.specs.Prelude.{◌≡◌, ◌≤◌, ◌&&◌, nat_le, false, true, IfOk, IfSome, is_some, option_and_then};
ghost use Rattle.clap.specs.Words.{found_of, kind_of, rows_of, subcommand_rows_of};
ghost use Rattle.command_words.specs.Words.{IsInRange, clap_takes, command_from, command_of, make_from, number_of, replay_from};

use crate::OutOfMemory;
use crate::command::{Command, Task};
use crate::line::command_line;
use clap::error::ErrorKind;
use clap::{ArgMatches, Error};
use std::alloc::Global;

fn is_within(number: u64, least: u64, most: u64) -> bool
    ensures test { result ≡ (nat_le least number && nat_le number most) }
    ensures within { result ≡ true → (least ≤ number) × (number ≤ most) }
{
    least <= number && number <= most
}

/// The number that an option has, of `least` to `most`.
fn number_of(matches: &ArgMatches<'_>, name: &str, least: u64, most: u64) -> Option<u64>
    ensures number { result ≡ number_of least most name.now (rows_of (found_of matches.now)) }
    ensures within { IfSome result (λ n. (least ≤ n) × (n ≤ most)) }
{
    let number = matches.get_one::<u64>(name)?;
    is_within(number, least, most).then_some(number)
}

fn replay_from(matches: &ArgMatches<'_>) -> Option<Command>
    ensures command { result ≡ replay_from (rows_of (found_of matches.now)) }
    ensures within { IfSome result IsInRange }
{
    let workers = number_of(matches, "workers", 0, 16)? as u32;
    Some(Command::Read(Task::Replay { workers }))
}

fn make_from(matches: &ArgMatches<'_>) -> Option<Command>
    ensures command { result ≡ make_from (rows_of (found_of matches.now)) }
    ensures within { IfSome result IsInRange }
{
    let seed = number_of(matches, "seed", 0, 2_147_483_647)? as u32;
    let replicas = number_of(matches, "replicas", 1, 16)? as u16;
    let edits = number_of(matches, "edits", 0, 20_000)? as u32;
    Some(Command::Make {
        seed,
        replicas,
        edits,
    })
}

fn command_from(name: &str, matches: &ArgMatches<'_>) -> Option<Command>
    ensures command { result ≡ command_from name.now (rows_of (found_of matches.now)) }
    ensures within { IfSome result IsInRange }
{
    if name == "replay" {
        replay_from(matches)
    } else if name == "check" {
        Some(Command::Read(Task::Check))
    } else if name == "make" {
        make_from(matches)
    } else if name == "migrate" {
        Some(Command::Read(Task::Migrate))
    } else if name == "pack" {
        Some(Command::Read(Task::Pack))
    } else if name == "unpack" {
        Some(Command::Read(Task::Unpack))
    } else {
        None
    }
}

/// The command that was found.
fn command_in(matches: &ArgMatches<'_>) -> Option<Command>
    ensures command { result ≡ option_and_then (λ p. command_from p.0 p.1)
        (subcommand_rows_of matches.now) }
    ensures within { IfSome result IsInRange }
{
    let (name, found) = matches.subcommand()?;
    command_from(name, found)
}

fn is_memory(error: &Error) -> bool
    ensures { result ≡ false → kind_of error.now ≡ ErrorKind.OutOfMemory → ⊥ }
{
    error.kind() == ErrorKind::OutOfMemory
}

/// The command of the words, which stand without the program's name; `None` exactly where they are no command words: where
/// `clap` finds a fault in them, as a request for help or a number that is out of its option's range. Linear in the words.
///
/// # Errors
///
/// `OutOfMemory` alone.
pub fn command_of(alloc: Global, words: &[String]) -> Result<Option<Command>, OutOfMemory>
    ensures command { IfOk result (λ c. c ≡ command_of words.now) }
    ensures taken { IfOk result (λ c. is_some c ≡ clap_takes words.now) }
    ensures within { IfOk result (λ c. IfSome c IsInRange) }
{
    match command_line(alloc)?.try_get_matches_from(words) {
        Ok(matches) => Ok(command_in(&matches)),
        Err(error) if is_memory(&error) => Err(OutOfMemory),
        Err(_) => Ok(None),
    }
}
