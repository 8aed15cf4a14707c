//! The making of a session's roles.
ghost use Rattle.std.specs.Prelude.{◌≡◌, ◌≢◌, ◌<◌, ◌≤◌, ℕ, IfOk, Some, Vec, length, slice_get, vec_capacity, vec_len};
ghost use Rattle.std.proofs.Common.{Global};
ghost use Rattle.onvm_core.specs.Layouts.{IsLayout, IsLayoutOf, first_role};
ghost use Rattle.onvm_session.specs.Rooms.{AreCores, AreFresh, AreReceivers, AreSenders, AreUnitsOf, HaveRoom, IsHandedTo};
ghost use Rattle.onvm_board.specs.Tokens.{BoardView};

use crate::manager::Manager;
use crate::new_roles::{add_cores, add_receivers, add_senders, add_ticker};
use crate::role::Role;
use nf_api::NetFunction;
use nf_exec::CoreRoom;
use nf_registry::Registry;
use onvm_base::{ListOf, NoMemory, Plan, PortId};
use onvm_board::{Board, Token};
use onvm_core::Layout;
use onvm_host::Source;
use rx_feed::Feed;
use rx_pass::RxRoom;
use std::alloc::Global;
use tick_pass::TickRoom;
use tx_pass::TxRoom;

/// All memory that roles take before their first pass, but for their functions' own.
#[derive(Drop)]
pub struct Rooms<I, N> {
    // By number among their kind.
    receivers: Vec<RxRoom>,
    senders: Vec<TxRoom>,
    cores: Vec<CoreRoom>,
    // By core: none yet.
    units: Vec<Vec<N>>,
    ticker: TickRoom,
    // Empty, with room for all roles.
    roles: Vec<Role<I, N>>,
    // Empty, with room for a feed of each port.
    feeds: Vec<Feed<I>>,
}

/// A session that hasn't begun: its board, and the rooms of its roles.
#[derive(Drop)]
pub struct Beginning<I, N> {
    board: Board,
    first: Token,
    registry: Registry,
    layout: Layout,
    rooms: Rooms<I, N>,
}

// The rooms of the receive roles.
fn receivers(alloc: Global, board: &Board, plan: &Plan) -> Result<Vec<RxRoom>, NoMemory>
    requires plan { IsLayoutOf plan.now board.now.layout }
    ensures { IfOk result (λ rooms. AreReceivers board.now plan.now plan.now.ports rooms.items) }
{
    let mut rooms = Vec::new(alloc);
    for port in 0..plan.ports {
        rooms.push(RxRoom::make(alloc, board, plan, PortId(port))?)?;
    }
    Ok(rooms)
}

// The rooms of the transmit roles.
fn senders(alloc: Global, board: &Board, plan: &Plan) -> Result<Vec<TxRoom>, NoMemory>
    requires plan { IsLayoutOf plan.now board.now.layout }
    ensures { IfOk result (λ rooms. AreSenders board.now plan.now plan.now.transmit rooms.items) }
{
    let mut rooms = Vec::new(alloc);
    for number in 0..plan.transmit {
        rooms.push(TxRoom::make(alloc, board, plan, plan.ports + number)?)?;
    }
    Ok(rooms)
}

// The rooms of the cores.
fn cores(
    alloc: Global,
    board: &Board,
    layout: &Layout,
    registry: &Registry,
    plan: &Plan,
) -> Result<Vec<CoreRoom>, NoMemory>
    requires ranges { IsLayout layout.now }
    requires layout { layout.now ≡ board.now.layout }
    requires plan { IsLayoutOf plan.now board.now.layout }
    requires registry { registry.now ≡ plan.now }
    ensures { IfOk result (λ rooms. AreCores board.now plan.now plan.now.cores rooms.items) }
{
    let mut rooms = Vec::new(alloc);
    for core in 0..plan.cores {
        rooms.push(CoreRoom::make(alloc, board, layout, registry, core)?)?;
    }
    Ok(rooms)
}

// For each core an empty list, with room for its functions' units.
fn unit_lists<N: Drop>(
    alloc: Global,
    registry: &Registry,
    plan: &Plan,
) -> Result<Vec<Vec<N>>, NoMemory>
    requires registry { registry.now ≡ plan.now }
    ensures { IfOk result (λ lists. HaveRoom plan.now lists.items) }
{
    let mut lists = Vec::new(alloc);
    for core in 0..plan.cores {
        lists.push(Vec::with_capacity(alloc, registry.of_core(core).len())?)?;
    }
    Ok(lists)
}

// Hands each core the units of its functions, in order.
fn hand_out<N: Drop>(lists: &mut Vec<Vec<N>>, plan: &Plan, units: ListOf<N>)
    requires units { length units ≡ length plan.now.functions }
    requires room { HaveRoom plan.now lists.old.items }
    ensures { AreUnitsOf plan.now units lists.new.items }
{
    for (function, unit) in plan.functions.as_slice().iter().zip(units.into_vec()) {
        hand(lists, usize::from(function.core), unit);
    }
}

// Hands a core one unit more.
fn hand<N: Drop>(lists: &mut Vec<Vec<N>>, core: usize, unit: N)
    requires core { core < length lists.old.items }
    requires room { (list : Vec N Global) → slice_get lists.old.items core ≡ Some list
        → vec_len list < vec_capacity list }
    ensures many { length lists.new.items ≡ length lists.old.items }
    ensures own { (was now : Vec N Global) → slice_get lists.old.items core ≡ Some was
        → slice_get lists.new.items core ≡ Some now → IsHandedTo unit was now }
    ensures others { (other : ℕ) → other ≢ core
        → slice_get lists.new.items other ≡ slice_get lists.old.items other }
{
    lists[core].push_reserved(unit);
}

impl<I: Source + Drop, N: NetFunction> Beginning<I, N> {
    ghost use Rattle.onvm_session.specs.Rooms.{IsBeginning, IsNewManager};

    /// Everything that a session of the plan takes memory for before its first turn, but for the
    /// memory of functions.
    pub fn make(alloc: Global, plan: &Plan) -> Result<Beginning<I, N>, NoMemory>
        ensures { IfOk result (IsBeginning plan.now) }
    {
        let layout = Layout::of(plan);
        let registry = Registry::make(alloc, plan)?;
        let (board, first) = Board::make(alloc, &layout)?;
        let rooms = Rooms::make(alloc, &board, &layout, &registry, plan)?;
        Ok(Beginning {
            board,
            first,
            registry,
            layout,
            rooms,
        })
    }

    /// The session, of which no turn was made. It begins at the moment `first`, and takes no memory.
    pub fn start(
        self,
        plan: &Plan,
        units: ListOf<N>,
        feeds: ListOf<Feed<I>>,
        first: u64,
    ) -> Manager<I, N>
        requires beginning { IsBeginning plan.now self }
        requires units { length units ≡ length plan.now.functions }
        requires feeds { length feeds ≤ plan.now.ports }
        requires fresh { AreFresh feeds }
        ensures { IsNewManager I.name I.left I.takes N.acts N.state plan.now units feeds first result }
    {
        let Beginning {
            board,
            first: token,
            registry,
            layout,
            rooms,
        } = self;
        let (roles, feeds) = rooms.start(plan, units, feeds, first);
        Manager {
            board,
            first: token,
            registry,
            layout,
            roles,
            feeds,
        }
    }
}

impl<I: Source + Drop, N: NetFunction> Rooms<I, N> {
    ghost use Rattle.onvm_session.specs.Rooms.{AreNewRoles, AreOnBoard, AreRooms};

    // The rooms of all roles.
    fn make(
        alloc: Global,
        board: &Board,
        layout: &Layout,
        registry: &Registry,
        plan: &Plan,
    ) -> Result<Rooms<I, N>, NoMemory>
        requires ranges { IsLayout layout.now }
        requires layout { layout.now ≡ board.now.layout }
        requires plan { IsLayoutOf plan.now board.now.layout }
        requires registry { registry.now ≡ plan.now }
        ensures { IfOk result (AreRooms board.now plan.now) }
    {
        let receivers = receivers(alloc, board, plan)?;
        let senders = senders(alloc, board, plan)?;
        let cores = cores(alloc, board, layout, registry, plan)?;
        let units = unit_lists(alloc, registry, plan)?;
        let ticker = TickRoom::make(alloc, plan)?;
        let roles = receivers.len() + senders.len() + cores.len() + 1;
        let roles = Vec::with_capacity(alloc, roles)?;
        let feeds = Vec::with_capacity(alloc, receivers.len())?;
        Ok(Rooms {
            receivers,
            senders,
            cores,
            units,
            ticker,
            roles,
            feeds,
        })
    }

    // The roles, by their numbers, and a list with room for the feeds.
    fn start(
        self,
        plan: &Plan,
        units: ListOf<N>,
        feeds: ListOf<Feed<I>>,
        first: u64,
    ) -> (Vec<Role<I, N>>, Vec<Feed<I>>)
        requires rooms { AreOnBoard plan.now self }
        requires units { length units ≡ length plan.now.functions }
        requires fresh { AreFresh feeds }
        ensures roles { (site : BoardView) → IsLayoutOf plan.now site.layout → IsLayout site.layout
            → AreRooms site plan.now self
            → AreNewRoles I.name I.left I.takes N.acts N.state site plan.now units feeds first result.0.items }
        ensures feeds { result.1 ≡ self.feeds }
    {
        let Rooms {
            receivers,
            senders,
            cores,
            units: mut lists,
            ticker,
            mut roles,
            feeds: returned,
        } = self;
        add_receivers(&mut roles, receivers, feeds);
        add_senders(&mut roles, senders);
        hand_out(&mut lists, plan, units);
        add_cores(&mut roles, cores, lists);
        add_ticker(&mut roles, ticker, first);
        (roles, returned)
    }
}
