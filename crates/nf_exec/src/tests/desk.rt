//! The core of function 1, with two feeds, the reader of its output ring, and the role that posts its
//! weight.
ghost use Rattle.std.specs.Prelude.{◌≡◌, ◌+◌, ◌<◌, [], IfOk, length};
ghost use Rattle.onvm_core.specs.Layouts.{IsLayout, IsLayoutOf, first_role};
ghost use Rattle.onvm_board.specs.Tokens.{first_token};
ghost use Rattle.nf_exec.specs.Examples.{IsCore, IsFeed, IsOpen, IsOutlet, IsTestLayout, IsTestPlan, IsTicker, IsUnused};

use crate::{CoreRole, CoreRoom};
use desc_ring::{Head, Tail};
use mbuf_pool::{Part, give, send};
use nf_api::NetFunction;
use nf_registry::Registry;
use onvm_base::{
    ChainId, FnId, FrameId, ListOf, NoMemory, Outcome, Packet, Plan, PortId, RingId, Stamp,
};
use onvm_board::{Board, Token};
use onvm_core::{Layout, Parcel, Trail, Word};
use onvm_host::StepClock;
use onvm_promises::Pass;
use std::alloc::Global;

fn frame(number: u8) -> FrameId {
    FrameId {
        port: PortId(0),
        number: u32::from(number),
    }
}

// A frame of one byte, its number, and no crumb yet.
fn parcel(alloc: Global, number: u8) -> Result<Parcel, NoMemory>
    ensures fresh { IfOk result (λ parcel. parcel.trail ≡ []) }
{
    let packet = Packet::from_slice(alloc, &[number])?;
    Ok(Parcel {
        frame: frame(number),
        stamp: Stamp {
            seconds: 0,
            nanos: 0,
            tail: 0,
        },
        hash: 0,
        packet,
        chain: ChainId(0),
        cursor: 0,
        trail: Trail::none(),
    })
}

// Splits the first role that isn't split yet.
fn split(board: &Board, first: &mut Token, role: u32) -> Token
    requires open { IsOpen board.now role first.old }
    requires known { role < first_role board.now.layout }
    ensures open { IsOpen board.now (role + 1) first.new }
    ensures unused { IsUnused board.now role result }
{
    board.split(first, role)
}

/// A receive role with its end of the lane to function 1.
#[derive(Drop)]
pub struct Feed {
    token: Token,
    part: Part,
    lane: Tail,
}

impl Feed {
    fn start(board: &Board, layout: &Layout, token: Token, port: u8) -> Feed
        requires test { IsTestLayout layout.now }
        requires layout { layout.now ≡ board.now.layout }
        requires port { port < 2 }
        requires unused { IsUnused board.now port token }
        ensures feed { IsFeed board.now result.part result.lane result.token }
    {
        Feed {
            token,
            part: Part::of(layout, PortId(port)),
            lane: Tail::at(board, RingId::Lane(FnId(1), port), layout.ring),
        }
    }

    /// A frame of one byte enters by the lane, if there is a buffer and room.
    pub fn enter(&mut self, alloc: Global, board: &Board, number: u8) -> Result<(), NoMemory>
        requires feed { IsFeed board.now self.old.part self.old.lane self.old.token }
        ensures feed { IsFeed board.now self.new.part self.new.lane self.new.token }
    {
        let parcel = parcel(alloc, number)?;
        let Some(buf) = self.part.take(board, &mut self.token, frame(number)) else {
            return Ok(());
        };
        drop(board.lend(&mut self.token, buf, Some(parcel)));
        if self.lane.push(board, &mut self.token, buf).is_err() {
            let ring = self.lane.spot().ring;
            drop(give(board, &mut self.token, buf, Outcome::RingFull { ring }));
        }
        Ok(())
    }
}

/// The core of function 1.
#[derive(Drop)]
pub struct Core<N> {
    token: Token,
    pub role: CoreRole<N>,
}

impl<N: NetFunction> Core<N> {
    fn start(
        alloc: Global,
        board: &Board,
        layout: &Layout,
        plan: &Plan,
        token: Token,
        units: ListOf<N>,
    ) -> Result<Core<N>, NoMemory>
        requires plan { IsTestPlan plan.now }
        requires of { IsLayoutOf plan.now layout.now }
        requires test { IsTestLayout layout.now }
        requires layout { layout.now ≡ board.now.layout }
        requires unused { IsUnused board.now 4 token }
        requires units { length units ≡ 1 }
        ensures core { IfOk result (λ core. IsCore N.acts N.state board.now plan.now core.token core.role) }
    {
        let registry = Registry::make(alloc, plan)?;
        let room = CoreRoom::make(alloc, board, layout, &registry, 1)?;
        Ok(Core {
            token,
            role: room.start(units),
        })
    }

    /// The core makes a pass.
    pub fn pass(&mut self, board: &Board, plan: &Plan) -> Pass
        requires core { IsCore N.acts N.state board.now plan.now self.old.token self.old.role }
        ensures core { IsCore N.acts N.state board.now plan.now self.new.token self.new.role }
    {
        let clock = StepClock { at: 0 };
        self.role.pass(&mut self.token, board, plan, &clock)
    }
}

/// Where the frames of function 1 leave.
#[derive(Drop)]
pub struct Outlet {
    token: Token,
    head: Head,
}

impl Outlet {
    fn start(board: &Board, layout: &Layout, token: Token) -> Outlet
        requires test { IsTestLayout layout.now }
        requires layout { layout.now ≡ board.now.layout }
        requires unused { IsUnused board.now 2 token }
        ensures outlet { IsOutlet board.now result.head result.token }
    {
        Outlet {
            token,
            head: Head::at(board, RingId::Output(FnId(1)), layout.output),
        }
    }

    /// The next frame leaves. The answer is its one byte.
    pub fn leave(&mut self, board: &Board) -> Option<u8>
        requires outlet { IsOutlet board.now self.old.head self.old.token }
        ensures outlet { IsOutlet board.now self.new.head self.new.token }
    {
        let buf = self.head.pop(board, &mut self.token)?;
        let sent = send(board, &mut self.token, buf, 0);
        sent.packet.bytes().first().copied()
    }
}

/// The tick role.
#[derive(Drop)]
pub struct Ticker {
    token: Token,
}

impl Ticker {
    fn start(board: &Board, layout: &Layout, token: Token) -> Ticker
        requires test { IsTestLayout layout.now }
        requires layout { layout.now ≡ board.now.layout }
        requires unused { IsUnused board.now 5 token }
        ensures ticker { IsTicker board.now result.token }
    {
        Ticker { token }
    }

    /// Function 1 has this weight from now on.
    pub fn post(&mut self, board: &Board, weight: u64)
        requires ticker { IsTicker board.now self.old.token }
        ensures ticker { IsTicker board.now self.new.token }
    {
        board.post(&mut self.token, Word::Weight(FnId(1)), weight);
    }
}

/// All of it.
#[derive(Drop)]
pub struct Desk<N> {
    pub zero: Feed,
    pub one: Feed,
    pub outlet: Outlet,
    pub core: Core<N>,
    pub ticker: Ticker,
}

impl<N: NetFunction> Desk<N> {
    /// The roles of a new board of this layout, with this unit for the function.
    pub fn start(
        alloc: Global,
        board: &Board,
        layout: &Layout,
        plan: &Plan,
        first: &mut Token,
        units: ListOf<N>,
    ) -> Result<Desk<N>, NoMemory>
        requires plan { IsTestPlan plan.now }
        requires of { IsLayoutOf plan.now layout.now }
        requires ranges { IsLayout layout.now }
        requires layout { layout.now ≡ board.now.layout }
        requires first { first.old ≡ first_token board.now }
        requires units { length units ≡ 1 }
        ensures zero { IfOk result (λ d. IsFeed board.now d.zero.part d.zero.lane d.zero.token) }
        ensures one { IfOk result (λ d. IsFeed board.now d.one.part d.one.lane d.one.token) }
        ensures outlet { IfOk result (λ d. IsOutlet board.now d.outlet.head d.outlet.token) }
        ensures core { IfOk result (λ d. IsCore N.acts N.state board.now plan.now d.core.token d.core.role) }
        ensures ticker { IfOk result (λ d. IsTicker board.now d.ticker.token) }
    {
        let zero = split(board, first, 0);
        let one = split(board, first, 1);
        let outlet = split(board, first, 2);
        split(board, first, 3);
        let core = split(board, first, 4);
        let ticker = split(board, first, 5);
        Ok(Desk {
            zero: Feed::start(board, layout, zero, 0),
            one: Feed::start(board, layout, one, 1),
            outlet: Outlet::start(board, layout, outlet),
            core: Core::start(alloc, board, layout, plan, core, units)?,
            ticker: Ticker::start(board, layout, ticker),
        })
    }
}
