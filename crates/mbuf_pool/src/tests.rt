//! Frames with buffers, over ends.
ghost use Rattle.std.specs.Prelude.{◌≡◌, ◌<◌, ◌≤◌, [], IfOk, length, replicate};
ghost use Rattle.onvm_base.specs.declared.limits.TheConstants.{MAX_HOPS};
ghost use Rattle.onvm_base.specs.declared.ids.RingId.TheVariants.{Lane, Output};
ghost use Rattle.onvm_core.specs.Layouts.{IsLayout};
ghost use Rattle.onvm_board.specs.Tokens.{Carries, parcel_in};
ghost use Rattle.desc_ring.specs.Ends.{IsHeadOf, IsTailOf};
ghost use Rattle.mbuf_pool.specs.Parts.{IsPartOf};

use crate::giving::{give, give_back, send};
use crate::part::Part;
use desc_ring::{Head, Tail};
use onvm_base::{
    BufId, ChainId, FnId, FrameId, NoMemory, Outcome, Packet, PortId, Record, RingId, SentFrame,
    Stamp, Verdict,
};
use onvm_board::{Board, Token};
use onvm_core::{Crumb, Layout, Parcel, Trail};
use std::alloc::Global;

// One port with so many buffers, one role of each other kind, one function, lanes of 64.
fn layout(buffers: u16) -> Layout
    requires { (1 ≤ buffers) × (buffers ≤ 65) }
    ensures ranges { IsLayout result }
    ensures is { result ≡ record {
      ports = 1;
      transmit = 1;
      cores = 1;
      functions = 1;
      buffers = buffers;
      ring = 64;
      output = 8;
      core_of = replicate 32 0;
    } }
{
    Layout {
        ports: 1,
        transmit: 1,
        cores: 1,
        functions: 1,
        buffers,
        ring: 64,
        output: 8,
        core_of: [0; 32],
    }
}

fn frame(number: u16) -> FrameId {
    FrameId {
        port: PortId(0),
        number: u32::from(number),
    }
}

fn parcel(alloc: Global, number: u16) -> Result<Parcel, NoMemory>
    ensures fresh { IfOk result (λ parcel. parcel.trail ≡ []) }
{
    let packet = Packet::from_slice(alloc, &[1, 2, 3])?;
    Ok(Parcel {
        frame: frame(number),
        stamp: Stamp {
            seconds: 4,
            nanos: 5,
            tail: 6,
        },
        hash: 0,
        packet,
        chain: ChainId(0),
        cursor: 0,
        trail: Trail::none(),
    })
}

// A crumb in the slot of the buffer in hand.
fn add_crumb(board: &Board, token: &mut Token, buf: BufId)
    requires board { token.old.board ≡ board.now.id }
    requires carries { Carries buf.0 token.old }
    requires trail { length (parcel_in token.old).trail < MAX_HOPS }
    ensures carries { Carries buf.0 token.new }
    ensures trail { (1 ≤ length (parcel_in token.new).trail) × (length (parcel_in token.new).trail ≤ MAX_HOPS) }
    ensures same { (token.new.log ≡ token.old.log) × (token.new.role ≡ token.old.role) × (token.new.board ≡
        token.old.board) }
{
    let crumb = Crumb {
        place: 0,
        function: FnId(0),
        verdict: Verdict::Next,
    };
    match token.slot(board, buf) {
        Some(parcel) => parcel.trail.add(crumb),
        None => {}
    }
}

// A frame enters by the lane. The answer is its buffer, or none where the lane is full or the pool empty.
fn enter(
    alloc: Global,
    board: &Board,
    token: &mut Token,
    part: &Part,
    lane: &mut Tail,
    number: u16,
) -> Result<Option<BufId>, NoMemory>
    requires part { IsPartOf board.now.layout part.now }
    requires role { token.old.role ≡ part.now.port.0 }
    requires tail { IsTailOf board.now lane.old token.old }
    requires ring { lane.old.spot.ring ≡ Lane (record { 0 = 0 }) 0 }
    requires empty_handed { token.old.hand ≡ [] }
    ensures role { token.new.role ≡ token.old.role }
    ensures tail { IsTailOf board.now lane.new token.new }
    ensures ring { lane.new.spot.ring ≡ lane.old.spot.ring }
    ensures empty_handed { token.new.hand ≡ [] }
{
    let parcel = parcel(alloc, number)?;
    let Some(buf) = part.take(board, token, frame(number)) else {
        return Ok(None);
    };
    drop(board.lend(token, buf, Some(parcel)));
    if lane.push(board, token, buf).is_err() {
        let ring = lane.spot().ring;
        drop(give(board, token, buf, Outcome::RingFull { ring }));
        return Ok(None);
    }
    Ok(Some(buf))
}

// The next frame of a lane is handled, and goes on the output ring.
fn handle(board: &Board, token: &mut Token, lane: &mut Head, output: &mut Tail) -> bool
    requires head { IsHeadOf board.now lane.old token.old }
    requires tail { IsTailOf board.now output.old token.old }
    requires rings { (lane.old.spot.ring ≡ Lane (record { 0 = 0 }) 0) × (output.old.spot.ring ≡ Output (record { 0 = 0 })) }
    requires empty_handed { token.old.hand ≡ [] }
    ensures same { (token.new.board ≡ token.old.board) × (token.new.role ≡ token.old.role) }
    ensures empty_handed { token.new.hand ≡ [] }
{
    let Some(buf) = lane.pop(board, token) else {
        return false;
    };
    add_crumb(board, token, buf);
    if output.push(board, token, buf).is_err() {
        let ring = output.spot().ring;
        drop(give(board, token, buf, Outcome::RingFull { ring }));
        return false;
    }
    true
}

// The next frame of an output ring leaves.
fn leave(board: &Board, token: &mut Token, output: &mut Head) -> Option<SentFrame>
    requires head { IsHeadOf board.now output.old token.old }
    requires empty_handed { token.old.hand ≡ [] }
    ensures same { (token.new.board ≡ token.old.board) × (token.new.role ≡ token.old.role) }
    ensures empty_handed { token.new.hand ≡ [] }
{
    let buf = output.pop(board, token)?;
    Some(send(board, token, buf, 0))
}

#[test]
fn one_buffer_goes_the_whole_way_and_meanwhile_a_second_frame_finds_none(rt: HostRuntime) {
    let (board, mut first) = Board::make(rt.alloc(), &layout(1)).expect(&rt, "memory");
    let lane = RingId::Lane(FnId(0), 0);
    let output = RingId::Output(FnId(0));
    let part = Part::of(&layout(1), PortId(0));
    let mut receive = board.split(&mut first, 0);
    let mut transmit = board.split(&mut first, 1);
    let mut core = board.split(&mut first, 2);
    let mut tail = Tail::at(&board, lane, 64);
    let entered = enter(rt.alloc(), &board, &mut receive, &part, &mut tail, 1).expect(
        &rt, "memory",
    );
    assert_eq!(rt; entered, Some(BufId(0)));
    assert_eq!(rt; part.take(&board, &mut receive, frame(2)), None);
    let mut head = Head::at(&board, lane, 64);
    let mut tail = Tail::at(&board, output, 8);
    assert!(rt; handle(&board, &mut core, &mut head, &mut tail));
    let mut head = Head::at(&board, output, 8);
    match leave(&board, &mut transmit, &mut head) {
        Some(sent) => {
            assert_eq!(rt; (sent.frame, sent.stamp.nanos), (frame(1), 5));
            assert_eq!(rt; sent.packet.bytes(), [1, 2, 3].as_slice());
        }
        None => assert!(rt; false),
    }
    board.join(&mut first, receive);
    board.join(&mut first, transmit);
    board.join(&mut first, core);
    assert_eq!(rt; board.close(first).left(), 0);
}

// How many of the frames 0 to 65 enter, each with the buffer of its number.
fn enter_all(
    alloc: Global,
    board: &Board,
    token: &mut Token,
    part: &Part,
    lane: &mut Tail,
) -> Result<u16, NoMemory>
    requires part { IsPartOf board.now.layout part.now }
    requires role { token.old.role ≡ part.now.port.0 }
    requires tail { IsTailOf board.now lane.old token.old }
    requires ring { lane.old.spot.ring ≡ Lane (record { 0 = 0 }) 0 }
    requires empty_handed { token.old.hand ≡ [] }
    ensures role { token.new.role ≡ token.old.role }
    ensures tail { IsTailOf board.now lane.new token.new }
    ensures empty_handed { token.new.hand ≡ [] }
{
    let mut entered = 0;
    for number in 0..66 {
        if enter(alloc, board, token, part, lane, number)? == Some(BufId(number)) {
            entered += 1;
        }
    }
    Ok(entered)
}

// How many of the frames 0 to 65 leave in order.
fn leave_all(board: &Board, token: &mut Token, lane: &mut Head) -> u16
    requires head { IsHeadOf board.now lane.old token.old }
    requires empty_handed { token.old.hand ≡ [] }
    ensures role { token.new.role ≡ token.old.role }
    ensures board { token.new.board ≡ token.old.board }
    ensures empty_handed { token.new.hand ≡ [] }
{
    let outcome = Outcome::Sent(0);
    let mut left = 0;
    for number in 0..66 {
        if let Some(buf) = lane.pop(board, token) {
            let record = Record {
                frame: frame(number),
                outcome,
            };
            if give_back(board, token, buf, outcome) == record {
                left += 1;
            }
        }
    }
    left
}

#[test]
fn a_lane_of_64_is_full_with_64_of_65_buffers_and_gives_them_back_in_order(rt: HostRuntime) {
    let (board, mut first) = Board::make(rt.alloc(), &layout(65)).expect(&rt, "memory");
    let lane = RingId::Lane(FnId(0), 0);
    let part = Part::of(&layout(65), PortId(0));
    let mut tail = Tail::at(&board, lane, 64);
    let mut head = Head::at(&board, lane, 64);
    let mut receive = board.split(&mut first, 0);
    let mut core = board.split(&mut first, 2);
    let entered = enter_all(rt.alloc(), &board, &mut receive, &part, &mut tail).expect(
        &rt, "memory",
    );
    assert_eq!(rt; entered, 64);
    assert!(rt; tail.room(&board, &mut receive).is_err());
    assert!(rt; tail.at_least(&board, &mut receive, 64));
    assert_eq!(rt; leave_all(&board, &mut core, &mut head), 64);
    assert!(rt; tail.room(&board, &mut receive).is_ok());
    assert!(rt; !tail.at_least(&board, &mut receive, 1));
    board.join(&mut first, receive);
    board.join(&mut first, core);
    assert_eq!(rt; board.close(first).left(), 0);
}
