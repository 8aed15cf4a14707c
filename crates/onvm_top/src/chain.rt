//! The chain file: read whole, and then judged.
ghost use Rattle.std.specs.Prelude.{◌≡◌, ◌≤◌, ℕ, IfErr, IfOk, None, OnOk, Some, length};
ghost use Rattle.std.specs.Io.KnownBytes.{Consumes, IsAtEnd};
ghost use Rattle.onvm_base.specs.declared.limits.TheConstants.{MAX_CHAIN_FILE_BYTES, MAX_PORTS};
ghost use Rattle.chain_file.specs.File.{IsRead, IsRefused};
ghost use Rattle.chain_file.specs.Guests.{HaveGuests, names_of};
ghost use Rattle.onvm_host.specs.Moved.{MovedSince, Reads};
ghost use Rattle.onvm_host.specs.Names.{SameNames};
ghost use Rattle.onvm_top.specs.Calls.{Adds, ReadsChain, chain_limit};
ghost use Rattle.onvm_top.specs.Chains.{HasPlan, IsRefusedFor};
ghost use Rattle.onvm_top.specs.Known.{OnTold};
ghost use Rattle.onvm_top.specs.Stops.{StopsAtChain};

use crate::fault::Fault;
use command_words::Command;
use nf_api::Guest;
use onvm_base::{MAX_CHAIN_FILE_BYTES, Plan};
use onvm_host::{Host, Source};
use std::alloc::Global;

// How many bytes are asked for at once.
const PIECE_LEN: usize = 65_536;

// Why the text of a file isn't there.
#[derive(Clone, Copy, Debug, PartialEq, Eq)]
enum TextFault {
    // A take failed.
    Read,
    Memory,
}

/// The plan of a command's chain file, which it opens, reads and shuts.
pub(crate) fn read_plan<H: Host>(
    alloc: Global,
    host: &mut H,
    command: &Command,
    guests: &[Guest],
) -> Result<Plan, Fault>
    requires name { H.may_open host.old command.now.chain.now }
    requires few { length command.now.captures.items ≤ MAX_PORTS }
    ensures plan { IfOk result (λ plan. OnTold (H.files host.old)
        (λ files. HasPlan command.now (names_of guests.now) files plan)) }
    ensures guests { IfOk result (λ plan. HaveGuests (names_of guests.now) plan.functions) }
    ensures ports { IfOk result (λ plan. length command.now.captures.items ≤ plan.ports) }
    ensures read { OnOk result (Adds (H.deeds host.old) (H.deeds host.new)
        (ReadsChain command.now.chain.now)) }
    ensures err { IfErr result (λ fault. Adds (H.deeds host.old) (H.deeds host.new)
        (λ deeds. StopsAtChain command.now (names_of guests.now) (H.files host.old) deeds fault)) }
    ensures files { H.files host.new ≡ H.files host.old }
    ensures said { H.said host.new ≡ H.said host.old }
    ensures names { SameNames (H.may_open host.old) (H.may_create host.old)
        (H.may_open host.new) (H.may_create host.new) }
{
    let mut input = match host.open_input(command.chain) {
        Ok(input) => input,
        Err(why) => return Err(Fault::ReadChain.unless_memory(why)),
    };
    let text = read_text(alloc, &mut input);
    host.shut(input);
    match text {
        Ok(text) => plan_of(alloc, text.as_slice(), command, guests),
        Err(TextFault::Read) => Err(Fault::ReadChain),
        Err(TextFault::Memory) => Err(Fault::Memory),
    }
}

// The plan of a text, which is a file's, or longer than a chain file may be and a file's begin.
fn plan_of(alloc: Global, text: &[u8], command: &Command, guests: &[Guest]) -> Result<Plan, Fault>
    requires few { length command.now.captures.items ≤ MAX_PORTS }
    ensures plan { IfOk result (IsRead text.now (length command.now.captures.items) (names_of guests.now)) }
    ensures fault { IfErr result (IsRefusedFor text.now (length command.now.captures.items) (names_of guests.now)) }
{
    match chain_file::read(alloc, text, command.captures.len() as u8, guests) {
        Ok(plan) => Ok(plan),
        Err(fault) => Err(Fault::of_file(fault)),
    }
}

// All bytes that are left of a source, or, where these are more than a chain file may have, more than
// that of them.
fn read_text<S: Source>(alloc: Global, source: &mut S) -> Result<Vec<u8>, TextFault>
    ensures taken { IfOk result (λ text. Consumes (S.left source.old) (S.left source.new) text.items) }
    ensures whole { IfOk result (λ text. length text.items ≤ MAX_CHAIN_FILE_BYTES → IsAtEnd (S.left source.new)) }
    ensures ok { OnOk result ((last : ℕ) × Reads chain_limit (Some last)
        (S.takes source.old) (S.takes source.new)) }
    ensures read { IfErr result (λ why. why ≡ TextFault.Read → Reads chain_limit None
        (S.takes source.old) (S.takes source.new)) }
    ensures memory { IfErr result (λ why. why ≡ TextFault.Memory
        → (bytes : ℕ) × MovedSince bytes (S.takes source.old) (S.takes source.new)) }
    ensures named { S.name source.new ≡ S.name source.old }
{
    let Ok(mut piece) = vec![in alloc; 0; PIECE_LEN] else {
        return Err(TextFault::Memory);
    };
    let mut text = Vec::new(alloc);
    while text.len() <= MAX_CHAIN_FILE_BYTES {
        let Ok(count) = source.take(&mut piece) else {
            return Err(TextFault::Read);
        };
        if count == 0 {
            return Ok(text);
        }
        if text.extend_from_slice(&piece[..count]).is_err() {
            return Err(TextFault::Memory);
        }
    }
    Ok(text)
}
