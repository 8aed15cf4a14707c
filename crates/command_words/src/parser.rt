//! What `clap` is asked, and what it finds.
ghost use Rattle.std.specs.Prelude.{◌≡◌, IfOk, false, map, string_bytes};
ghost use Rattle.clap.specs.Matches.{found_of};
ghost use Rattle.clap.specs.Simple.{app_of};
ghost use Rattle.clap.specs.Walk.{rows_of, rule_of};
ghost use Rattle.command_words.specs.Asked.{IsTaken, asked, bare_app, flag_rule, matched, other_words};

use clap::error::ErrorKind;
use clap::{Arg, ArgAction, ArgMatches, Command};
use std::alloc::{AllocError, Global};

/// Why words aren't read.
#[derive(Clone, Copy, Debug, PartialEq, Eq)]
pub enum Refusal {
    /// They are no flags and other words.
    Form,
    /// Want of memory.
    Memory,
}

/// The words as flags and other words, if they are no more than these.
#[tactic(auto, unfolding(crate::specs::Asked::matched, crate::specs::Asked::IsTaken))]
pub fn parse<'a>(alloc: Global, words: &'a [String]) -> Result<ArgMatches<'a>, Refusal>
    ensures taken { IfOk result (λ _. IsTaken (map string_bytes words.entry.now)) }
    ensures matched { IfOk result (λ m. rows_of (found_of m) ≡ matched (map string_bytes words.entry.now)) }
    ensures refused { result ≡ Err Refusal.Form → IsTaken (map string_bytes words.entry.now) → ⊥ }
{
    let command = match asked(alloc) {
        Ok(command) => command,
        Err(_) => return Err(Refusal::Memory),
    };
    match command.try_get_matches_from(words) {
        Ok(matches) => Ok(matches),
        Err(error) => match error.kind() {
            ErrorKind::OutOfMemory => Err(Refusal::Memory),
            _ => Err(Refusal::Form),
        },
    }
}

fn asked<'a>(alloc: Global) -> Result<Command<'a>, AllocError>
    ensures { IfOk result (λ command. app_of command ≡ asked) }
{
    bare(alloc)
        .arg(flag(alloc, "serial"))?
        .arg(flag(alloc, "records"))?
        .arg(flag(alloc, "throttle-log"))?
        .arg(flag(alloc, "shares"))?
        .arg(others(alloc))
}

// The command with no argument yet.
fn bare<'a>(alloc: Global) -> Command<'a>
    ensures { app_of result ≡ bare_app }
{
    Command::new(alloc, "onvm")
        .no_binary_name(true)
        .disable_help_flag(true)
        .disable_version_flag(true)
}

// A flag is given at most once, and takes no value.
fn flag<'a>(alloc: Global, name: &'a str) -> Arg<'a>
    ensures rule { rule_of result ≡ flag_rule name.entry.now }
    ensures local { result.global ≡ false }
{
    Arg::new(alloc, name).long(name).action(ArgAction::SetTrue)
}

// How many there are is counted by the caller: `num_args` counts the words between two flags.
fn others<'a>(alloc: Global) -> Arg<'a>
    ensures rule { rule_of result ≡ other_words }
    ensures local { result.global ≡ false }
{
    Arg::new(alloc, "word")
        .action(ArgAction::Append)
        .num_args(1..)
}
