//! A command.
ghost use Rattle.std.specs.Prelude.{◌≡◌, ◌≤◌, ℕ, ◌↔◌, IsTrue, codes, IfNone, IfOk, IfSome, All, List, map, string_bytes};
ghost use Rattle.clap.specs.Matches.{found_of};
ghost use Rattle.clap.specs.Walk.{rows_of};
ghost use Rattle.command_words.specs.Asked.{HasFlag, others_in};
ghost use Rattle.command_words.specs.Commands.{IsCapture, IsCommand, IsFound, word_of};
ghost use Rattle.command_words.specs.declared.capture.CaptureWord.{CaptureWord as Capture};
ghost use Rattle.command_words.specs.declared.command.Command.{Command as Words};

use crate::capture::CaptureWord;
use crate::parser::{self, Refusal};
use clap::ArgMatches;
use onvm_base::{MAX_PORTS, NoMemory};
use onvm_report::Options;
use std::alloc::{AllocError, Global};

/// What the words of a command ask for.
#[derive(Debug, Drop)]
pub struct Command<'a> {
    pub options: Options,
    /// The chain file's name.
    pub chain: &'a str,
    /// The name of the capture that is made.
    pub output: &'a str,
    /// A capture for each port, from port 0 on.
    pub captures: Vec<CaptureWord<'a>>,
}

/// Reads the words, without the program's name. There is none where they are no command.
pub fn read<'a>(alloc: Global, words: &'a [String]) -> Result<Option<Command<'a>>, NoMemory>
    ensures read { IfOk result (λ read. IfSome read (λ command. IsCommand (map string_bytes words.entry.now) command)) }
    ensures none { IfOk result (λ read. IfNone read ((command : Words) → ¬ (IsCommand (map string_bytes words.entry.now) command))) }
{
    prove!(words.len() <= usize::MAX);
    match parser::parse(alloc, words) {
        Ok(matches) => command_of(alloc, &matches),
        Err(Refusal::Form) => Ok(None),
        Err(Refusal::Memory) => Err(NoMemory),
    }
}

// The command that was found, if the other words are those of one.
fn command_of<'a>(alloc: Global, matches: &ArgMatches<'a>) -> Result<Option<Command<'a>>, NoMemory>
    ensures found { IfOk result (λ read. IfSome read (λ command. IsFound (rows_of (found_of matches.now)) command)) }
    ensures none { IfOk result (λ read. IfNone read ((command : Words) → ¬ (IsFound (rows_of (found_of matches.now)) command))) }
{
    let others = others_of(alloc, matches)?;
    let [chain, output, words @ ..] = others.as_slice() else {
        return Ok(None);
    };
    if words.is_empty() || words.len() > MAX_PORTS as usize {
        return Ok(None);
    }
    let Some(captures) = captures_of(alloc, words)? else {
        return Ok(None);
    };
    Ok(Some(Command {
        options: options_of(matches),
        chain: *chain,
        output: *output,
        captures,
    }))
}

// The words that are no flags.
fn others_of<'a>(alloc: Global, matches: &ArgMatches<'a>) -> Result<Vec<&'a str>, AllocError>
    ensures { IfOk result (λ others. map (λ text. text.now) others.items ≡ others_in (rows_of (found_of matches.now))) }
{
    match matches.get_strs("word") {
        Some(words) => Vec::from_slice(alloc, words),
        None => Ok(Vec::new(alloc)),
    }
}

fn options_of(matches: &ArgMatches) -> Options
    ensures serial { IsTrue result.serial ↔ HasFlag (codes "serial") (rows_of (found_of matches.now)) }
    ensures records { IsTrue result.records ↔ HasFlag (codes "records") (rows_of (found_of matches.now)) }
    ensures throttle_log { IsTrue result.throttle_log ↔ HasFlag (codes "throttle-log") (rows_of (found_of matches.now)) }
    ensures shares { IsTrue result.shares ↔ HasFlag (codes "shares") (rows_of (found_of matches.now)) }
{
    Options {
        serial: is_given(matches, "serial"),
        records: is_given(matches, "records"),
        throttle_log: is_given(matches, "throttle-log"),
        shares: is_given(matches, "shares"),
    }
}

fn is_given(matches: &ArgMatches, flag: &str) -> bool
    ensures { IsTrue result ↔ HasFlag flag.now (rows_of (found_of matches.now)) }
{
    matches.get_str(flag) == Some("true")
}

// The captures that the words name, if each of them names one.
fn captures_of<'a>(
    alloc: Global,
    words: &[&'a str],
) -> Result<Option<Vec<CaptureWord<'a>>>, NoMemory>
    ensures named { IfOk result (λ read. IfSome read (λ captures.
        (map word_of captures.items ≡ map (λ text. text.now) words.now) × All IsCapture captures.items)) }
    ensures none { IfOk result (λ read. IfNone read ((captures : List Capture) → All IsCapture captures
        → ¬ (map word_of captures ≡ map (λ text. text.now) words.now))) }
{
    let mut captures = Vec::new(alloc);
    for word in words {
        let Some(capture) = CaptureWord::of(*word) else {
            return Ok(None);
        };
        captures.push(capture)?;
    }
    Ok(Some(captures))
}
