//! The captures of a command: opened as feeds, and shut again.
ghost use Rattle.std.specs.Borrow.{Bor};
ghost use Rattle.std.specs.Prelude.{◌≡◌, ◌≤◌, ◌++◌, ◌∷◌, [], ℕ, List, All, IfErr, IfOk, OnOk, length};
ghost use Rattle.onvm_base.specs.declared.limits.TheConstants.{MAX_PORTS};
ghost use Rattle.command_words.specs.Commands.{IsCapture};
ghost use Rattle.command_words.specs.declared.capture.CaptureWord.TheVariants.{File};
ghost use Rattle.onvm_host.specs.Names.{SameNames};
ghost use Rattle.onvm_top.specs.Calls.{Adds, Opens};
ghost use Rattle.onvm_top.specs.Inputs.{AreFeedsOf, IsFeedOf, MayOpen, StopsAtOpens, opens_of, shuts_of};

use crate::fault::Fault;
use command_words::CaptureWord;
use onvm_base::{ListOf, PortId};
use onvm_host::{Host, HostFault};
use onvm_session::Feeds;
use rx_feed::{Feed, Generator};
use std::alloc::Global;

/// Opens the captures, port by port. Where one can't be opened, those before it are shut again.
pub(crate) fn open_feeds<H: Host>(
    alloc: Global,
    host: &mut H,
    captures: &[CaptureWord],
) -> Result<Feeds<H::Input>, Fault>
    requires names { MayOpen (H.may_open host.old) captures.now }
    requires captures { All IsCapture captures.now }
    requires few { length captures.now ≤ MAX_PORTS }
    ensures feeds { IfOk result (λ feeds.
        AreFeedsOf H.Input.name H.Input.left H.Input.takes (H.files host.old) captures.now feeds) }
    ensures opened { OnOk result (Adds (H.deeds host.old) (H.deeds host.new) (Opens captures.now)) }
    ensures err { IfErr result (λ fault. Adds (H.deeds host.old) (H.deeds host.new)
        (λ deeds. StopsAtOpens captures.now deeds fault)) }
    ensures files { H.files host.new ≡ H.files host.old }
    ensures said { H.said host.new ≡ H.said host.old }
    ensures names { SameNames (H.may_open host.old) (H.may_create host.old)
        (H.may_open host.new) (H.may_create host.new) }
{
    let Ok(mut feeds) = Vec::with_capacity(alloc, captures.len()) else {
        return Err(Fault::Memory);
    };
    for capture in captures {
        match open_feed(host, capture) {
            Ok(feed) => feeds.push_reserved(feed),
            Err(why) => {
                let port = PortId(feeds.len() as u8);
                shut_feeds(host, ListOf::from_vec(feeds));
                return Err(Fault::ReadCapture(port).unless_memory(why));
            }
        }
    }
    Ok(ListOf::from_vec(feeds))
}

fn open_feed<H: Host>(host: &mut H, capture: &CaptureWord) -> Result<Feed<H::Input>, HostFault>
    requires name { MayOpen (H.may_open host.old) (capture.now ∷ []) }
    requires capture { IsCapture capture.now }
    ensures feed { IfOk result (λ feed.
        IsFeedOf H.Input.name H.Input.left H.Input.takes (H.files host.old) capture.now feed) }
    ensures told { H.deeds host.new ≡ H.deeds host.old ++ opens_of capture.now result }
    ensures file { IfErr result (λ _. (name : Bor (List ℕ)) × (capture.now ≡ File name)) }
    ensures files { H.files host.new ≡ H.files host.old }
    ensures said { H.said host.new ≡ H.said host.old }
    ensures names { SameNames (H.may_open host.old) (H.may_create host.old)
        (H.may_open host.new) (H.may_create host.new) }
{
    match capture {
        CaptureWord::File(name) => Ok(Feed::Live(host.open_input(name)?)),
        CaptureWord::Generated { seed, count } => Ok(Feed::Made(Generator::make(*seed, *count))),
    }
}

/// Shuts the inputs of the feeds, port by port.
pub(crate) fn shut_feeds<H: Host>(host: &mut H, feeds: Feeds<H::Input>)
    ensures shut { H.deeds host.new ≡ H.deeds host.old ++ shuts_of H.Input.name H.Input.left H.Input.takes feeds }
    ensures files { H.files host.new ≡ H.files host.old }
    ensures said { H.said host.new ≡ H.said host.old }
    ensures names { SameNames (H.may_open host.old) (H.may_create host.old)
        (H.may_open host.new) (H.may_create host.new) }
{
    for feed in feeds.into_vec() {
        match feed {
            Feed::Live(input) => host.shut(input),
            Feed::Made(_generator) => {}
        }
    }
}
