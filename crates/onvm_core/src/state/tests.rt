//! Worked examples on the machine.
ghost use Rattle.onvm_core.specs.Layouts.{IsLayout};

use crate::judge::is_buffer;
use crate::{Act, Crumb, Item, Judged, Layout, Parcel, Place, State, Step, Trail, Word, apply};
use onvm_base::{
    BufId, ChainId, FnId, FrameId, MAX_FUNCTIONS, MAX_HOPS, NoMemory, Outcome, Packet, PortId,
    RingId, Stamp, Verdict,
};
use std::alloc::Global;
use std::test::Fail;

// The roles of a layout with one port, one transmit role and one core.
const RECEIVE: u32 = 0;

const TRANSMIT: u32 = 1;

const CORE: u32 = 2;

const FIRST: u32 = 4;

const F: FnId = FnId(0);

const BUF: BufId = BufId(0);

// One of each part, and rings of two cells.
fn layout() -> Layout
    ensures { IsLayout result }
{
    Layout {
        ports: 1,
        transmit: 1,
        cores: 1,
        functions: 1,
        buffers: 1,
        ring: 2,
        output: 2,
        core_of: [0; MAX_FUNCTIONS],
    }
}

// A frame of one byte, as often handled as the verdicts say.
fn parcel(alloc: Global, verdicts: &[Verdict]) -> Result<Parcel, NoMemory> {
    let mut trail = Trail::none();
    for verdict in verdicts {
        if trail.len() < MAX_HOPS {
            trail.add(Crumb {
                function: F,
                place: 0,
                verdict: *verdict,
            });
        }
    }
    Ok(Parcel {
        frame: FrameId {
            port: PortId(0),
            number: 1,
        },
        stamp: Stamp {
            seconds: 1,
            nanos: 2000,
            tail: 0,
        },
        packet: Packet::from_slice(alloc, &[7])?,
        chain: ChainId(0),
        cursor: 0,
        hash: 5,
        trail,
    })
}

fn pool_word() -> Word {
    Word::Pool {
        port: PortId(0),
        index: 0,
    }
}

// Where the buffer is.
fn place(state: &State) -> Option<Place> {
    if is_buffer(&state.layout, BUF) {
        Some(state.place(BUF))
    } else {
        None
    }
}

// What the machine says of a step.
fn judged(state: &mut State, role: u32, act: Act) -> Result<Judged, NoMemory> {
    apply(state, Step { role, act })
}

#[test]
fn each_refusal_names_its_part(rt: HostRuntime) -> Result<(), Fail> {
    let alloc = rt.alloc();
    let mut state = State::make(alloc, &layout())?;
    for role in [RECEIVE, TRANSMIT, CORE] {
        assert_eq!(rt;
            judged(&mut state, FIRST, Act::Split(role))?,
            Judged::Allowed
        );
    }
    let s = &mut state;
    let out = RingId::Output(F);
    assert_eq!(rt; judged(s, FIRST, Act::Split(CORE))?, Judged::Refused(1));
    assert_eq!(rt; judged(s, RECEIVE, Act::Take(BUF))?, Judged::Refused(2));
    assert_eq!(rt;
        judged(s, RECEIVE, Act::Look(pool_word(), 1, None))?,
        Judged::Allowed
    );
    assert_eq!(rt; judged(s, RECEIVE, Act::Take(BUF))?, Judged::Allowed);
    assert_eq!(rt; place(s), Some(Place::Role(RECEIVE)));
    assert_eq!(rt; judged(s, RECEIVE, Act::Take(BUF))?, Judged::Refused(2));
    let give = Act::Give(BUF, Outcome::Sent(0), parcel(alloc, &[])?);
    assert_eq!(rt; judged(s, CORE, give)?, Judged::Refused(3));
    let push = Act::Push(RingId::Lane(F, 0), Item::Number(1));
    assert_eq!(rt; judged(s, RECEIVE, push)?, Judged::Refused(4));
    assert_eq!(rt; judged(s, CORE, Act::Full(out))?, Judged::Refused(4));
    let pop = Act::Pop(out, Item::Buffer(BUF, parcel(alloc, &[Verdict::Next])?));
    assert_eq!(rt; judged(s, CORE, pop)?, Judged::Refused(5));
    assert_eq!(rt;
        judged(s, RECEIVE, Act::Look(pool_word(), 1, None))?,
        Judged::Refused(6)
    );
    let second = Act::Post(Word::Post(0), 2 << 32);
    assert_eq!(rt; judged(s, RECEIVE, second)?, Judged::Refused(7));
    Ok(())
}

#[test]
fn a_frame_is_taken_handled_and_sent(rt: HostRuntime) -> Result<(), Fail> {
    let alloc = rt.alloc();
    let (lane, out) = (RingId::Lane(F, 0), RingId::Output(F));
    let mut state = State::make(alloc, &layout())?;
    let s = &mut state;
    for role in [RECEIVE, TRANSMIT, CORE] {
        assert_eq!(rt; judged(s, FIRST, Act::Split(role))?, Judged::Allowed);
    }
    assert_eq!(rt;
        judged(s, RECEIVE, Act::Look(pool_word(), 1, None))?,
        Judged::Allowed
    );
    assert_eq!(rt; judged(s, RECEIVE, Act::Take(BUF))?, Judged::Allowed);
    let push = Act::Push(lane, Item::Buffer(BUF, parcel(alloc, &[])?));
    assert_eq!(rt; judged(s, RECEIVE, push)?, Judged::Allowed);
    assert_eq!(rt; place(s), Some(Place::Ring(lane)));
    let cell = Word::Cell { ring: lane, at: 0 };
    assert_eq!(rt;
        judged(s, RECEIVE, Act::Look(cell, 1, None))?,
        Judged::Allowed
    );
    let other = Act::Pop(lane, Item::Buffer(BUF, parcel(alloc, &[Verdict::Drop])?));
    assert_eq!(rt; judged(s, CORE, other)?, Judged::Refused(5));
    let pop = Act::Pop(lane, Item::Buffer(BUF, parcel(alloc, &[])?));
    assert_eq!(rt; judged(s, CORE, pop)?, Judged::Allowed);
    let push = Act::Push(out, Item::Buffer(BUF, parcel(alloc, &[Verdict::Next])?));
    assert_eq!(rt; judged(s, CORE, push)?, Judged::Allowed);
    let pop = Act::Pop(out, Item::Buffer(BUF, parcel(alloc, &[Verdict::Next])?));
    assert_eq!(rt; judged(s, TRANSMIT, pop)?, Judged::Allowed);
    assert_eq!(rt; judged(s, FIRST, Act::Join(TRANSMIT))?, Judged::Refused(1));
    let give = Act::Give(BUF, Outcome::Sent(0), parcel(alloc, &[Verdict::Next])?);
    assert_eq!(rt; judged(s, TRANSMIT, give)?, Judged::Allowed);
    assert_eq!(rt; place(s), Some(Place::Pool));
    for role in [RECEIVE, TRANSMIT, CORE] {
        assert_eq!(rt; judged(s, FIRST, Act::Join(role))?, Judged::Allowed);
    }
    Ok(())
}

#[test]
fn a_mail_ring_takes_64_numbers_and_gives_the_first(rt: HostRuntime) -> Result<(), Fail> {
    let mut state = State::make(rt.alloc(), &layout())?;
    let s = &mut state;
    let mail = RingId::Mail(F);
    assert_eq!(rt; judged(s, FIRST, Act::Split(CORE))?, Judged::Allowed);
    assert_eq!(rt; judged(s, FIRST, Act::Split(3))?, Judged::Allowed);
    for number in 1..=64 {
        assert_eq!(rt;
            judged(s, CORE, Act::Push(mail, Item::Number(number)))?,
            Judged::Allowed
        );
    }
    assert_eq!(rt;
        judged(s, CORE, Act::Push(mail, Item::Number(65)))?,
        Judged::Refused(4)
    );
    assert_eq!(rt; judged(s, CORE, Act::Full(mail))?, Judged::Allowed);
    assert_eq!(rt;
        judged(s, 3, Act::Pop(mail, Item::Number(2)))?,
        Judged::Refused(5)
    );
    assert_eq!(rt;
        judged(s, 3, Act::Pop(mail, Item::Number(1)))?,
        Judged::Allowed
    );
    let cell = Word::Cell { ring: mail, at: 1 };
    assert_eq!(rt; judged(s, 3, Act::Look(cell, 2, None))?, Judged::Allowed);
    assert_eq!(rt;
        judged(s, 3, Act::Post(Word::Weight(F), 9))?,
        Judged::Allowed
    );
    assert_eq!(rt;
        judged(s, CORE, Act::Look(Word::Weight(F), 9, None))?,
        Judged::Allowed
    );
    Ok(())
}
