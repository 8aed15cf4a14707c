//! Roles that have done nothing, in their rooms.
ghost use Rattle.std.specs.Prelude.{◌≡◌, ◌+◌, ◌≤◌, [], ℕ, List, Some, length, slice_get, vec_capacity, vec_len};
ghost use Rattle.onvm_base.specs.declared.plan.Plan.{Plan as PlanView};
ghost use Rattle.onvm_core.specs.Layouts.{IsLayoutOf};
ghost use Rattle.onvm_board.specs.Tokens.{BoardView};
ghost use Rattle.nf_exec.specs.Rooms.{IsNewRoom as IsNewCoreRoom};
ghost use Rattle.rx_feed.specs.Feeds.{IsFreshFeed};
ghost use Rattle.rx_feed.specs.Rooms.{IsRoom};
ghost use Rattle.rx_pass.specs.Rooms.{IsNewRoom as IsNewReceiverRoom};
ghost use Rattle.tick_pass.specs.Roles.{IsNewRoom as IsNewTickRoom};
ghost use Rattle.tx_pass.specs.Roles.{IsNewRole as IsNewSender};
ghost use Rattle.onvm_session.specs.Rooms.{AreCores, AreFresh, AreIntakes, AreNewUpTo, AreReceivers, AreSenders, AreUnitsOf, FitStations, IsNewRole, units_of};

use crate::role::Role;
use nf_api::NetFunction;
use nf_exec::CoreRoom;
use onvm_base::{ListOf, PortId};
use onvm_host::Source;
use rx_feed::Feed;
use rx_pass::RxRoom;
use tick_pass::TickRoom;
use tx_pass::TxRoom;

// The receive role of a feed.
fn receiver<I: Source + Drop, N: NetFunction>(room: RxRoom, feed: Option<Feed<I>>) -> Role<I, N>
    requires room { IsRoom room.intake }
    requires fresh { IsFreshFeed feed }
    ensures { (site : BoardView) (plan : PlanView) (units : List N) (feeds : List (Feed I)) (first : ℕ) (port : PortId)
        → IsLayoutOf plan site.layout → IsNewReceiverRoom site plan port room
        → slice_get feeds port.0 ≡ feed
        → IsNewRole I.name I.left I.takes N.acts N.state site plan units feeds first port.0 result }
{
    Role::Receive(room.start(feed))
}

fn sender<I: Source + Drop, N: NetFunction>(room: TxRoom) -> Role<I, N>
    ensures { (site : BoardView) (plan : PlanView) (units : List N) (feeds : List (Feed I)) (first number : ℕ)
        → IsNewSender site plan number room.role
        → IsNewRole I.name I.left I.takes N.acts N.state site plan units feeds first number result }
{
    Role::Send(room.start())
}

// The role of a core with these units.
fn handler<I: Source + Drop, N: NetFunction>(room: CoreRoom, own: Vec<N>) -> Role<I, N>
    requires units { length own.items ≡ length room.stations.items }
    ensures { (site : BoardView) (plan : PlanView) (units : List N) (feeds : List (Feed I)) (first core : ℕ)
        → IsLayoutOf plan site.layout → IsNewCoreRoom site plan core room
        → length units ≡ length plan.functions → own.items ≡ units_of core plan.functions units
        → IsNewRole I.name I.left I.takes N.acts N.state site plan units feeds first
        (plan.ports + plan.transmit + core) result }
{
    Role::Handle(room.start(ListOf::from_vec(own)))
}

fn ticker<I: Source + Drop, N: NetFunction>(room: TickRoom, first: u64) -> Role<I, N>
    ensures { (site : BoardView) (plan : PlanView) (units : List N) (feeds : List (Feed I))
        → IsLayoutOf plan site.layout → IsNewTickRoom plan room
        → IsNewRole I.name I.left I.takes N.acts N.state site plan units feeds first
        (plan.ports + plan.transmit + plan.cores) result }
{
    Role::Tick(room.start(first))
}

/// The receive roles, by port, each with its feed. A port behind the last feed has none.
pub fn add_receivers<I: Source + Drop, N: NetFunction>(
    roles: &mut Vec<Role<I, N>>,
    rooms: Vec<RxRoom>,
    feeds: ListOf<Feed<I>>,
)
    requires none { roles.old.items ≡ [] }
    requires room { vec_len roles.old + vec_len rooms ≤ vec_capacity roles.old }
    requires intakes { AreIntakes rooms.items }
    requires fresh { AreFresh feeds }
    ensures new { (site : BoardView) (plan : PlanView) (units : List N) (first : ℕ)
        → IsLayoutOf plan site.layout → AreReceivers site plan plan.ports rooms.items
        → AreNewUpTo I.name I.left I.takes N.acts N.state site plan units feeds first plan.ports roles.new.items }
    ensures room { vec_capacity roles.new ≡ vec_capacity roles.old }
    ensures many { vec_len roles.new ≡ vec_len roles.old + vec_len rooms }
{
    let mut given = feeds.into_vec().into_iter();
    for room in rooms {
        roles.push_reserved(receiver(room, given.next()));
    }
}

/// The transmit roles, behind the receive roles.
pub fn add_senders<I: Source + Drop, N: NetFunction>(
    roles: &mut Vec<Role<I, N>>,
    rooms: Vec<TxRoom>,
)
    requires room { vec_len roles.old + vec_len rooms ≤ vec_capacity roles.old }
    ensures new { (site : BoardView) (plan : PlanView) (units : List N) (feeds : List (Feed I)) (first : ℕ)
        → AreSenders site plan plan.transmit rooms.items
        → AreNewUpTo I.name I.left I.takes N.acts N.state site plan units feeds first plan.ports roles.old.items
        → AreNewUpTo I.name I.left I.takes N.acts N.state site plan units feeds first (plan.ports + plan.transmit)
        roles.new.items }
    ensures room { vec_capacity roles.new ≡ vec_capacity roles.old }
    ensures many { vec_len roles.new ≡ vec_len roles.old + vec_len rooms }
{
    for room in rooms {
        roles.push_reserved(sender(room));
    }
}

/// The cores, behind the transmit roles, each with the units of its functions.
pub fn add_cores<I: Source + Drop, N: NetFunction>(
    roles: &mut Vec<Role<I, N>>,
    rooms: Vec<CoreRoom>,
    lists: Vec<Vec<N>>,
)
    requires room { vec_len roles.old + vec_len rooms ≤ vec_capacity roles.old }
    requires lists { FitStations rooms.items lists.items }
    ensures new { (site : BoardView) (plan : PlanView) (units : List N) (feeds : List (Feed I)) (first : ℕ)
        → IsLayoutOf plan site.layout → AreCores site plan plan.cores rooms.items
        → length units ≡ length plan.functions → AreUnitsOf plan units lists.items
        → AreNewUpTo I.name I.left I.takes N.acts N.state site plan units feeds first (plan.ports + plan.transmit)
        roles.old.items
        → AreNewUpTo I.name I.left I.takes N.acts N.state site plan units feeds first
        (plan.ports + plan.transmit + plan.cores) roles.new.items }
    ensures room { vec_capacity roles.new ≡ vec_capacity roles.old }
    ensures many { vec_len roles.new ≡ vec_len roles.old + vec_len rooms }
{
    for (room, own) in rooms.into_iter().zip(lists) {
        roles.push_reserved(handler(room, own));
    }
}

/// The tick role, behind the cores. Its first tick is due one `tick` of the plan after this moment.
pub fn add_ticker<I: Source + Drop, N: NetFunction>(
    roles: &mut Vec<Role<I, N>>,
    room: TickRoom,
    first: u64,
)
    requires room { vec_len roles.old + 1 ≤ vec_capacity roles.old }
    ensures { (site : BoardView) (plan : PlanView) (units : List N) (feeds : List (Feed I))
        → IsLayoutOf plan site.layout → IsNewTickRoom plan room
        → AreNewUpTo I.name I.left I.takes N.acts N.state site plan units feeds first
        (plan.ports + plan.transmit + plan.cores) roles.old.items
        → AreNewUpTo I.name I.left I.takes N.acts N.state site plan units feeds first
        (plan.ports + plan.transmit + plan.cores + 1) roles.new.items }
{
    roles.push_reserved(ticker(room, first));
}
