//! What a transmit role is made of, and what it leaves.
ghost use Rattle.std.specs.Prelude.{◌≡◌, IfOk};
ghost use Rattle.onvm_core.specs.Layouts.{IsLayoutOf};

use crate::kept::Kept;
use crate::outlet::Outlet;
use crate::role::TxRole;
use desc_ring::{lane_tails, output_heads};
use entry_throttle::Feeder;
use onvm_base::{NoMemory, Plan, Posts, Records, SentFrames};
use onvm_board::Board;
use onvm_core::Layout;
use std::alloc::Global;

/// A role that isn't started yet.
#[derive(Drop)]
pub struct TxRoom {
    pub(crate) role: TxRole,
}

/// What a role has kept.
#[derive(Debug, Drop)]
pub struct TxKept {
    pub records: Records,
    pub sent: SentFrames,
    pub posts: Posts,
}

impl TxRoom {
    ghost use Rattle.tx_pass.specs.Roles.{IsNewRole, IsTransmit};

    /// The room of a transmit role, by its number among all roles of a board of the plan.
    pub fn make(alloc: Global, board: &Board, plan: &Plan, number: u8) -> Result<TxRoom, NoMemory>
        requires plan { IsLayoutOf plan.now board.now.layout }
        requires transmit { IsTransmit board.now.layout number }
        ensures { IfOk result (λ room. IsNewRole board.now plan.now number room.role) }
    {
        let layout = Layout::of(plan);
        let heads = output_heads(alloc, board, &layout)?;
        let lanes = lane_tails(alloc, board, &layout, number)?;
        let feeder = Feeder::make(alloc, plan, number)?;
        Ok(TxRoom {
            role: TxRole {
                number,
                heads,
                outlet: Outlet {
                    lanes,
                    feeder,
                    kept: Kept::make(alloc),
                },
            },
        })
    }

    /// The role, which has done nothing. It takes no memory.
    pub fn start(self) -> TxRole
        ensures { result ≡ self.role }
    {
        self.role
    }
}
