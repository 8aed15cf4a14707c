//! What a receive role is made of, and what it has kept.
ghost use Rattle.std.specs.Prelude.{◌≡◌, ◌<◌, IfOk, List, Option, ℕ};
ghost use Rattle.onvm_base.specs.declared.ids.PortId.{PortId};
ghost use Rattle.onvm_base.specs.declared.plan.Plan.{Plan};
ghost use Rattle.onvm_board.specs.Tokens.{BoardView};
ghost use Rattle.onvm_core.specs.Layouts.{IsLayoutOf};
ghost use Rattle.onvm_host.specs.Deeds.{Amounts};
ghost use Rattle.rx_feed.specs.Feeds.{IsFreshFeed, IsPulledOf, IsTakenFrom, WasLeft, fresh_standing};
ghost use Rattle.rx_feed.specs.Rooms.{IsRoom};

use crate::inlet::Inlet;
use crate::kept::Kept;
use crate::role::RxRole;
use desc_ring::lane_tails;
use entry_throttle::Feeder;
use flow_table::FlowTable;
use mbuf_pool::Part;
use onvm_base::{NoMemory, Plan, PortId, Posts, Records, SentFrames};
use onvm_board::Board;
use onvm_core::Layout;
use onvm_host::Source;
use rx_feed::{Feed, IntakeRoom};
use std::alloc::Global;
use std::collections::VecDeque;

/// A role that isn't started yet.
#[derive(Drop)]
pub struct RxRoom {
    pub(crate) intake: IntakeRoom,
    pub(crate) alloc: Global,
    pub(crate) flows: FlowTable,
    pub(crate) inlet: Inlet,
}

/// What a role has kept.
#[derive(Drop)]
pub struct RxKept<I> {
    pub feed: Option<Feed<I>>,
    pub records: Records,
    pub sent: SentFrames,
    pub posts: Posts,
}

impl RxRoom {
    ghost use Rattle.rx_pass.specs.Rooms.{IsNewRole, IsNewRoom};

    /// The room of a port's receive role on a board of the plan.
    pub fn make(alloc: Global, board: &Board, plan: &Plan, port: PortId) -> Result<RxRoom, NoMemory>
        requires plan { IsLayoutOf plan.now board.now.layout }
        requires port { port.0 < board.now.layout.ports }
        ensures { IfOk result (λ room. IsNewRoom board.now plan.now port room) }
    {
        let layout = Layout::of(plan);
        let part = Part::of(&layout, port);
        let lanes = lane_tails(alloc, board, &layout, port.0)?;
        let feeder = Feeder::make(alloc, plan, port.0)?;
        let flows = FlowTable::make(alloc, plan, port)?;
        let intake = IntakeRoom::make(alloc)?;
        Ok(RxRoom {
            intake,
            alloc,
            flows,
            inlet: Inlet {
                part,
                lanes,
                feeder,
                kept: Kept::make(alloc),
            },
        })
    }

    /// The role of this feed, which has done nothing. A port without a feed has no frame and is at its
    /// end. It takes no memory.
    pub fn start<I: Source + Drop>(self, feed: Option<Feed<I>>) -> RxRole<I>
        requires room { IsRoom self.intake }
        requires fresh { IsFreshFeed feed }
        ensures feed { result.intake.feed ≡ feed }
        ensures standing { result.intake.standing ≡ fresh_standing feed }
        ensures frames { IsPulledOf result.intake.feed result.intake.standing }
        ensures since { (left : Option (List ℕ)) (takes : Amounts)
            → WasLeft I.left I.takes left takes feed
            → IsTakenFrom I.left I.takes left takes result.intake.feed result.intake.standing }
        ensures role { (site : BoardView) (plan : Plan) (port : PortId) → IsLayoutOf plan site.layout
            → IsNewRoom site plan port self → IsNewRole site plan port result }
    {
        RxRole {
            intake: self.intake.start(feed),
            waiting: VecDeque::new(self.alloc),
            flows: self.flows,
            inlet: self.inlet,
        }
    }
}
