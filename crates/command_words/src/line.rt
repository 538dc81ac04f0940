//! The command line, as `clap` is told it.
ghost use Rattle.std.specs.Prelude.{◌≡◌, IfOk, false, codes};
ghost use Rattle.clap.specs.Words.{app_of, rule_of};
ghost use Rattle.clap.specs.declared.builder.Command.TheViews.{out-Command as fields_of};
ghost use Rattle.clap.specs.declared.builder.value_parser.ValueParser.TheVariants.{Unsigned};
ghost use Rattle.command_words.specs.Words.{check_line, command_line, make_line, option_rule, program, replay_line, wanted_rule, workers_rule};

use crate::OutOfMemory;
use clap::builder::ValueParser;
use clap::{Arg, Command, value_parser};
use std::alloc::Global;

/// An option `--NAME VALUE` with that parser for its value.
fn option<'a>(alloc: Global, name: &'a str, parser: ValueParser<'a>) -> Arg<'a>
    ensures rule { rule_of result ≡ option_rule name.entry.now parser.entry }
    ensures local { result.global ≡ false }
{
    Arg::new(alloc, name).long(name).value_parser(parser)
}

/// An option that has to be there.
fn wanted_option<'a>(alloc: Global, name: &'a str, parser: ValueParser<'a>) -> Arg<'a>
    ensures rule { rule_of result ≡ wanted_rule name.entry.now parser.entry }
    ensures local { result.global ≡ false }
{
    option(alloc, name, parser).required(true)
}

/// `--workers N`, with 2 of them where they are not named.
fn workers<'a>(alloc: Global) -> Arg<'a>
    ensures rule { rule_of result ≡ workers_rule }
    ensures local { result.global ≡ false }
{
    option(alloc, "workers", value_parser!(u64).range(0..=16)).default_value("2")
}

fn replay_line<'a>(alloc: Global) -> Result<Command<'a>, OutOfMemory>
    ensures line { IfOk result (λ c. app_of c ≡ replay_line) }
    ensures local { IfOk result (λ c. (fields_of c).has_globals ≡ false) }
{
    Command::new(alloc, "replay").arg(workers(alloc))
}

fn seed<'a>(alloc: Global) -> Arg<'a>
    ensures rule { rule_of result ≡ wanted_rule (codes "seed") (Unsigned 0 2147483647) }
    ensures local { result.global ≡ false }
{
    wanted_option(alloc, "seed", value_parser!(u64).range(0..=2_147_483_647))
}

fn replicas<'a>(alloc: Global) -> Arg<'a>
    ensures rule { rule_of result ≡ wanted_rule (codes "replicas") (Unsigned 1 16) }
    ensures local { result.global ≡ false }
{
    wanted_option(alloc, "replicas", value_parser!(u64).range(1..=16))
}

fn edits<'a>(alloc: Global) -> Arg<'a>
    ensures rule { rule_of result ≡ wanted_rule (codes "edits") (Unsigned 0 20000) }
    ensures local { result.global ≡ false }
{
    wanted_option(alloc, "edits", value_parser!(u64).range(0..=20_000))
}

fn make_line<'a>(alloc: Global) -> Result<Command<'a>, OutOfMemory>
    ensures line { IfOk result (λ c. app_of c ≡ make_line) }
    ensures local { IfOk result (λ c. (fields_of c).has_globals ≡ false) }
{
    Command::new(alloc, "make")
        .arg(seed(alloc))?
        .arg(replicas(alloc))?
        .arg(edits(alloc))
}

/// The program, without its commands.
fn program<'a>(alloc: Global) -> Command<'a>
    ensures { app_of result ≡ program }
{
    Command::new(alloc, "zedbuf")
        .no_binary_name(true)
        .subcommand_required(true)
}

/// The command line: one of the commands, with no name of a program before it.
pub fn command_line<'a>(alloc: Global) -> Result<Command<'a>, OutOfMemory>
    ensures { IfOk result (λ c. app_of c ≡ command_line) }
{
    program(alloc)
        .subcommand(replay_line(alloc)?)?
        .subcommand(Command::new(alloc, "check"))?
        .subcommand(make_line(alloc)?)?
        .subcommand(Command::new(alloc, "migrate"))?
        .subcommand(Command::new(alloc, "pack"))?
        .subcommand(Command::new(alloc, "unpack"))
}
