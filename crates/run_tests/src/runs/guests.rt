//! Functions that the caller of a run hands in.

use super::expected::all_sent;
use super::frames::{CAPTURE, altered, emitted};
use super::hosts::{SPACE, compare, done, host_of, play, refused, sound};
use super::texts::{FORWARDING, one_function};
use nf_api::{Guest, Meta, NetFunction};
use nf_guests::Flip;
use onvm_base::{Name, NoMemory, Packet, Status, Verdict};
use std::alloc::Global;
use std::sync::Arc;
use std::sync::atomic::{AtomicU64, Ordering};
use std::test::Fail;

const WORDS: [&str; 5] = ["--serial", "--records", "c", "o", "k"];

const FLIPPED: [u8; 16] = [2, 0, 0, 0, 0, 1, 2, 0, 0, 0, 0, 2, 0x88, 0xb5, 1, 3];

// Changes the lowest bit of the last byte of each packet. Whoever else has the count sees how often it
// was called, and by the count's owners whether it is still there.
#[derive(Drop)]
struct Watched {
    flip: Flip,
    calls: Arc<AtomicU64>,
}

impl NetFunction for Watched {
    ghost use Rattle.nf_api.specs.Tree.{leaf};
    ghost use Rattle.nf_guests.specs.Guests.{ActsAsFlip};

    ghost state = { λ function. leaf function.flip.handled };

    ghost acts = { λ function. ActsAsFlip };

    fn handle(&mut self, packet: &mut Packet, meta: &Meta) -> Result<Verdict, NoMemory> {
        self.calls.fetch_add(1, Ordering::SeqCst);
        self.flip.handle(packet, meta)
    }
}

fn guest_of(alloc: Global, name: &[u8], calls: &Arc<AtomicU64>) -> Result<Guest, NoMemory> {
    let calls = Arc::try_clone(calls)?;
    let flip = Flip { handled: 0 };
    let function: Box<dyn NetFunction + Send> = Box::new(alloc, Watched { flip, calls })?;
    let name = Name::from_slice(alloc, name)?;
    Ok(Guest { name, function })
}

fn calls_and_owners(calls: &Arc<AtomicU64>) -> (u64, usize) {
    (calls.load(Ordering::SeqCst), Arc::strong_count(calls))
}

#[test]
fn a_guest_is_called_for_each_frame_and_dropped(rt: HostRuntime) -> Result<(), Fail> {
    let named = Arc::new(rt.alloc(), AtomicU64::new(0))?;
    let spare = Arc::new(rt.alloc(), AtomicU64::new(0))?;
    let mut guests = Vec::new(rt.alloc());
    guests.push(guest_of(rt.alloc(), b"spare", &spare)?)?;
    guests.push(guest_of(rt.alloc(), b"flip", &named)?)?;
    assert_eq!(rt; calls_and_owners(&named), (0, 2));
    let file = one_function(rt.alloc(), "", r#""kind":"guest","guest":"flip""#)?;
    let given = [sound("c", file.as_bytes()), sound("k", &CAPTURE)];
    let mut host = host_of(rt.alloc(), &given, &[], SPACE)?;
    let status = play(&rt, &mut host, &WORDS, guests)?;
    let said = all_sent(rt.alloc(), 1, "record 0 1 sent 0\n")?;
    let output = emitted(rt.alloc(), &[&FLIPPED])?;
    compare(
        &rt,
        &host,
        status,
        done(&said, &output),
        "a guest that flips",
    )?;
    assert_eq!(rt; calls_and_owners(&named), (1, 1));
    assert_eq!(rt; calls_and_owners(&spare), (0, 1));
    Ok(())
}

#[test]
fn guests_are_dropped_uncalled_where_a_run_is_refused(rt: HostRuntime) -> Result<(), Fail> {
    let torn = altered(CAPTURE, 32, [17, 0, 0, 0]);
    let given = [sound("c", FORWARDING.as_bytes()), sound("k", &torn)];
    for (words, status, line) in [
        (["k", "o", "k"], Status::Plan, "fault plan json file\n"),
        (
            ["c", "o", "k"],
            Status::Capture,
            "fault capture 0 torn 24\n",
        ),
        (["c", "o", "x"], Status::Read, "fault read 0\n"),
    ] {
        let calls = Arc::new(rt.alloc(), AtomicU64::new(0))?;
        let mut guests = Vec::new(rt.alloc());
        guests.push(guest_of(rt.alloc(), b"flip", &calls)?)?;
        let mut host = host_of(rt.alloc(), &given, &[], SPACE)?;
        let left = play(&rt, &mut host, &words, guests)?;
        compare(&rt, &host, left, refused(status, line), line)?;
        assert_eq!(rt; calls_and_owners(&calls), (0, 1));
    }
    Ok(())
}
