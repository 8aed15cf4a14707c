//! The making of a core's role, and what is left of it.
ghost use Rattle.std.specs.Prelude.{◌≡◌, ◌<◌, ℕ, length, IfOk};
ghost use Rattle.onvm_base.specs.declared.plan.Plan.{Plan as PlanView};
ghost use Rattle.onvm_core.specs.Layouts.{IsLayout, IsLayoutOf};
ghost use Rattle.onvm_board.specs.Tokens.{BoardView, TokenView};
ghost use Rattle.nf_exec.specs.Rooms.{IsFresh, IsNewRoom, IsNewStation};
ghost use Rattle.nf_exec.specs.Roles.{IsCoreRole};

use crate::role::CoreRole;
use crate::station::Station;
use desc_ring::{Mail, Tail, lane_heads};
use nf_api::NetFunction;
use nf_registry::Registry;
use onvm_base::{FnId, ListOf, NoMemory, RingId};
use onvm_board::Board;
use onvm_core::Layout;
use std::alloc::Global;
use std::snapshot::Snapshot;

/// All memory that the role of a core takes, but for its functions' own.
#[derive(Drop)]
pub struct CoreRoom {
    pub stations: Vec<Station>,
}

/// What a core's role leaves.
#[derive(Drop)]
pub struct CoreKept<N> {
    /// In the order of the core's functions.
    pub units: ListOf<N>,
    /// How often an output ring had no room, as far as 64 bits count.
    pub yields: u64,
    /// How many samples met a full mail ring, as far as 64 bits count.
    pub lost: u64,
}

impl Station {
    // The station of a function that has handled nothing.
    fn make(
        alloc: Global,
        board: &Board,
        layout: &Layout,
        function: FnId,
    ) -> Result<Station, NoMemory>
        requires ranges { IsLayout layout.now }
        requires layout { layout.now ≡ board.now.layout }
        requires function { function.0 < board.now.layout.functions }
        ensures { IfOk result (λ station. IsNewStation board.now.layout function station) }
    {
        let lanes = lane_heads(alloc, board, layout, function)?;
        Ok(Station {
            function,
            lanes,
            next: 0,
            output: Tail::at(board, RingId::Output(function), layout.output),
            mail: Mail::at(board, RingId::Mail(function)),
            place: 0,
            count: 0,
            time: 0,
        })
    }
}

impl CoreRoom {
    /// The room of a core, with the ends of its functions' rings on a board of this layout.
    pub fn make(
        alloc: Global,
        board: &Board,
        layout: &Layout,
        registry: &Registry,
        core: u8,
    ) -> Result<CoreRoom, NoMemory>
        requires ranges { IsLayout layout.now }
        requires layout { layout.now ≡ board.now.layout }
        requires plan { IsLayoutOf registry.now board.now.layout }
        requires core { core < registry.now.cores }
        ensures { IfOk result (λ room. IsNewRoom board.now registry.now core room) }
    {
        let functions = registry.of_core(core);
        let mut stations = Vec::new(alloc);
        for at in 0..functions.len() {
            stations.push(Station::make(alloc, board, layout, functions[at])?)?;
        }
        Ok(CoreRoom { stations })
    }

    /// How many functions the core has.
    pub fn functions(&self) -> usize
        ensures { result ≡ length self.now.stations.items }
    {
        self.stations.len()
    }

    /// The role of the core, with these units for its functions, in their order. It takes no memory.
    pub fn start<N: NetFunction>(self, units: ListOf<N>) -> CoreRole<N>
        requires units { length units ≡ length self.stations.items }
        ensures role { (site : BoardView) (plan : PlanView) (core : ℕ) (token : TokenView)
            → IsNewRoom site plan core self → IsFresh site core token
            → IsCoreRole N.acts N.state site plan token result }
        ensures units { result.units.items ≡ units }
        ensures began { result.began.value.items ≡ units }
        ensures stations { result.stations ≡ self.stations }
    {
        let units = units.into_vec();
        let began = Snapshot::of(&units);
        CoreRole {
            stations: self.stations,
            units,
            kept: None,
            yields: 0,
            lost: 0,
            began,
        }
    }
}

impl<N> CoreRole<N> {
    /// The units, and what was counted.
    pub fn end(self) -> CoreKept<N>
        ensures units { result.units ≡ self.units.items }
        ensures yields { result.yields ≡ self.yields }
        ensures lost { result.lost ≡ self.lost }
    {
        let CoreRole {
            units,
            yields,
            lost,
            ..
        } = self;
        CoreKept {
            units: ListOf::from_vec(units),
            yields,
            lost,
        }
    }
}
