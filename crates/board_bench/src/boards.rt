//! A board for the bursts.
ghost use Rattle.std.specs.Prelude.{◌≡◌, ◌≤◌, ◌<◌, [], IfOk, replicate};
ghost use Rattle.onvm_base.specs.declared.limits.TheConstants.{MAX_FUNCTIONS, WORD_BITS};
ghost use Rattle.onvm_base.specs.declared.ids.RingId.TheVariants.{Lane};
ghost use Rattle.onvm_core.specs.Layouts.{IsLayout};
ghost use Rattle.onvm_board.specs.Tokens.{IsHead, IsTail};
ghost use Rattle.board_bench.specs.Stages.{IsCore, IsSized, IsTransmit};

use crate::calls::{
    Mail, cost_of_judges, cost_of_looks, cost_of_mails, cost_of_posts, cost_of_takes,
};
use crate::cost::Cost;
use crate::hops::{Stage, cost_of_hops, give_up, prime};
use onvm_base::{
    BufId, ChainId, FnId, FrameId, MAX_FUNCTIONS, NoMemory, Packet, PortId, RingId, Stamp, Verdict,
};
use onvm_board::{Board, Spot, Token};
use onvm_core::{Crumb, Layout, Parcel, Trail, Word};
use onvm_files::SysClock;
use std::alloc::Global;

/// Cells of a lane and of an output ring, and buffers.
pub const RING: u16 = 1024;

// Buffers that go round.
const IN_FLIGHT: u16 = 64;

fn layout(functions: u8) -> Layout
    requires some { 1 ≤ functions }
    requires most { functions ≤ MAX_FUNCTIONS }
    ensures ranges { IsLayout result }
    ensures is { result ≡ record {
      ports = 1;
      transmit = 1;
      cores = 1;
      functions = functions;
      buffers = RING;
      ring = RING;
      output = RING;
      core_of = replicate MAX_FUNCTIONS 0;
    } }
{
    Layout {
        ports: 1,
        transmit: 1,
        cores: 1,
        functions,
        buffers: RING,
        ring: RING,
        output: RING,
        core_of: [0; MAX_FUNCTIONS],
    }
}

fn crumb(function: FnId) -> Crumb
    ensures { result.function ≡ function }
{
    Crumb {
        place: 7,
        function,
        verdict: Verdict::Next,
    }
}

fn parcel(alloc: Global, number: u32) -> Result<Parcel, NoMemory>
    ensures fresh { IfOk result (λ parcel. parcel.trail ≡ []) }
{
    let packet = Packet::from_slice(alloc, &[1, 2, 3])?;
    Ok(Parcel {
        frame: FrameId {
            port: PortId(0),
            number,
        },
        stamp: Stamp {
            seconds: 0,
            nanos: 0,
            tail: 0,
        },
        hash: 0,
        packet,
        chain: ChainId(0),
        cursor: 0,
        trail: Trail::none(),
    })
}

/// Prints what single calls cost on a board of so many functions.
pub fn measure_calls(rt: &HostRuntime, functions: u8, rounds: u32) -> Result<(), NoMemory>
    requires some { 1 ≤ functions }
    requires most { functions ≤ MAX_FUNCTIONS }
{
    let clock = SysClock::make(*rt);
    let function = FnId(functions - 1);
    let (board, mut first) = Board::make(rt.alloc(), &layout(functions))?;
    let mut receive = board.split(&mut first, 0);
    let mut tick = board.split(&mut first, 3);
    cost_of_looks(&board, &clock, &mut tick, Word::Post(0), rounds).print(rt, "look");
    cost_of_judges(&board, &clock, &mut tick, 0, rounds).print(rt, "judge");
    cost_of_posts(&board, &clock, &mut tick, function, rounds).print(rt, "post");
    let word = Word::Pool {
        port: PortId(0),
        index: 0,
    };
    let parcel = parcel(rt.alloc(), 1)?;
    cost_of_takes(
        &board,
        &clock,
        &mut receive,
        BufId(0),
        word,
        &parcel,
        rounds,
    )
    .print(rt, "look, take and give");
    Ok(())
}

/// Prints what a push and a pop of a mail ring cost on a board of so many functions.
pub fn measure_mails(rt: &HostRuntime, functions: u8, rounds: u32) -> Result<(), NoMemory>
    requires some { 1 ≤ functions }
    requires most { functions ≤ MAX_FUNCTIONS }
{
    let clock = SysClock::make(*rt);
    let (board, mut first) = Board::make(rt.alloc(), &layout(functions))?;
    let spot = board.start(RingId::Mail(FnId(functions - 1)));
    let mut mail = Mail {
        core: board.split(&mut first, 2),
        tail: spot,
        tick: board.split(&mut first, 3),
        head: spot,
    };
    cost_of_mails(&board, &clock, &mut mail, rounds).print(rt, "mail and unmail");
    Ok(())
}

/// What a hop costs on a board of so many functions.
pub fn measure_hops(rt: &HostRuntime, functions: u8, rounds: u32) -> Result<Cost, NoMemory>
    requires some { 1 ≤ functions }
    requires most { functions ≤ MAX_FUNCTIONS }
{
    let function = FnId(functions - 1);
    let (board, mut first) = Board::make(rt.alloc(), &layout(functions))?;
    let receive = board.split(&mut first, 0);
    let entry = board.start(RingId::Lane(function, 0));
    let own = board.start(RingId::Lane(function, 1));
    let output = board.start(RingId::Output(function));
    let core = Stage {
        token: board.split(&mut first, 2),
        from: entry,
        onto: output,
    };
    let transmit = Stage {
        token: board.split(&mut first, 1),
        from: output,
        onto: own,
    };
    fill(rt.alloc(), &board, receive, entry, function)?;
    Ok(go_round(rt, &board, core, transmit, own, function, rounds))
}

// Parcels with the first buffers go on the receive role's lane.
fn fill(
    alloc: Global,
    board: &Board,
    mut token: Token,
    entry: Spot,
    function: FnId,
) -> Result<(), NoMemory>
    requires sized { IsSized board.now }
    requires pool { (board.now.layout.ports ≡ 1) × (board.now.layout.buffers ≡ RING) }
    requires tail { IsTail board.now entry token }
    requires ring { entry.ring ≡ Lane function 0 }
    requires role { token.role ≡ 0 }
    requires empty_handed { token.hand ≡ [] }
{
    let mut spot = entry;
    for number in 0..IN_FLIGHT {
        let parcel = parcel(alloc, u32::from(number))?;
        put(
            board,
            &mut token,
            &mut spot,
            function,
            BufId(number),
            parcel,
        );
    }
    Ok(())
}

// A parcel goes on a lane with a buffer of the pool's first word, where the pool has it.
fn put(
    board: &Board,
    token: &mut Token,
    spot: &mut Spot,
    function: FnId,
    buf: BufId,
    parcel: Parcel,
)
    requires sized { IsSized board.now }
    requires pool { (board.now.layout.ports ≡ 1) × (board.now.layout.buffers ≡ RING) }
    requires tail { IsTail board.now spot.old token.old }
    requires ring { spot.old.ring ≡ Lane function 0 }
    requires role { token.old.role ≡ 0 }
    requires empty_handed { token.old.hand ≡ [] }
    requires first_word { buf.0 < WORD_BITS }
    requires fresh { parcel.trail ≡ [] }
    ensures tail { IsTail board.now spot.new token.new }
    ensures ring { spot.new.ring ≡ spot.old.ring }
    ensures role { token.new.role ≡ token.old.role }
    ensures empty_handed { token.new.hand ≡ [] }
{
    let _ = function;
    let word = Word::Pool {
        port: PortId(0),
        index: 0,
    };
    let seen = board.look(token, word);
    if seen >> buf.0 & 1 == 0 {
        return;
    }
    board.take(token, buf);
    drop(board.lend(token, buf, Some(parcel)));
    match board.push(token, *spot, buf) {
        Ok(()) => *spot = spot.next(RING),
        Err(_) => give_up(board, token, buf),
    }
}

// The buffers on the receive role's lane go to the transmit role's, and then round and round.
fn go_round(
    rt: &HostRuntime,
    board: &Board,
    mut core: Stage,
    mut transmit: Stage,
    own: Spot,
    function: FnId,
    rounds: u32,
) -> Cost
    requires sized { IsSized board.now }
    requires core { IsCore board.now function.0 0 core }
    requires transmit { IsTransmit board.now function.0 1 transmit }
    requires own { IsHead board.now own core.token }
    requires own_ring { own.ring ≡ Lane function 1 }
{
    let clock = SysClock::make(*rt);
    let crumb = crumb(function);
    prime(
        board,
        &mut core,
        &mut transmit,
        own,
        crumb,
        u32::from(IN_FLIGHT),
    );
    let Stage { token, onto, .. } = core;
    let mut core = Stage {
        token,
        from: own,
        onto,
    };
    cost_of_hops(board, &clock, &mut core, &mut transmit, crumb, rounds)
}
