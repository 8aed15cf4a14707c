//! A function of any kind.
ghost use Rattle.std.specs.Prelude.{◌≡◌, ◌≢◌, ℕ, List, IfOk, IsSome};
ghost use Rattle.onvm_base.specs.Plan.{IsKind};
ghost use Rattle.onvm_base.specs.declared.function.Kind.TheVariants.{Guest as GuestKind};
ghost use Rattle.nf_catalog.specs.Units.{IsUnitOf, guest_named};

use crate::guests::take_guest;
use nf_api::{Guest, Meta, NetFunction};
use nf_route::Route;
use nf_state::Keeper;
use nf_steady::Steady;
use onvm_base::{Kind, NoMemory, Packet, Verdict};
use std::alloc::Global;

/// A function of any kind, where guests are of the type `G`. It does what the one in it does.
#[derive(Drop)]
pub enum UnitOf<G> {
    Steady(Steady),
    Route(Route),
    Keeper(Keeper),
    Guest(G),
}

/// A function of any kind.
pub type Unit = UnitOf<Guest>;

impl UnitOf<Guest> {
    /// The unit of a kind, which takes the guest that the kind names out of those that are handed
    /// in.
    pub fn make(alloc: Global, kind: &Kind, guests: &mut Vec<Guest>) -> Result<Unit, NoMemory>
        requires parameters { IsKind kind.now }
        requires handed_in { (name : List ℕ) → kind.now ≡ GuestKind name
            → IsSome (guest_named name guests.old.items) }
        ensures made { IfOk result (IsUnitOf guests.old.items kind.now) }

        // No other guest is taken.
        ensures others { (name : List ℕ) → kind.now ≢ GuestKind name
            → guest_named name guests.new.items ≡ guest_named name guests.old.items }
    {
        match kind {
            Kind::Forward
            | Kind::Drop
            | Kind::Out { .. }
            | Kind::To { .. }
            | Kind::Filter { .. }
            | Kind::Ttl
            | Kind::Tag { .. }
            | Kind::Untag
            | Kind::Macs { .. } => Ok(UnitOf::Steady(Steady::make(alloc, kind)?)),
            Kind::Route { .. } | Kind::Balance { .. } => {
                Ok(UnitOf::Route(Route::make(alloc, kind)?))
            }
            Kind::Count | Kind::Police { .. } | Kind::Nat { .. } => {
                Ok(UnitOf::Keeper(Keeper::make(alloc, kind)?))
            }
            Kind::Guest { guest } => Ok(UnitOf::Guest(take_guest(guests, guest))),
        }
    }
}

impl<G: NetFunction> NetFunction for UnitOf<G> {
    ghost use Rattle.nf_catalog.specs.Units.{acts_of, state_of, wants_of};

    ghost state = { λ unit. state_of G.state unit };

    ghost acts = { λ unit. acts_of G.acts unit };

    ghost wants = { λ unit. wants_of G.wants unit };

    fn handle(&mut self, packet: &mut Packet, meta: &Meta) -> Result<Verdict, NoMemory> {
        match self {
            UnitOf::Steady(steady) => steady.handle(packet, meta),
            UnitOf::Route(route) => route.handle(packet, meta),
            UnitOf::Keeper(keeper) => keeper.handle(packet, meta),
            UnitOf::Guest(guest) => guest.handle(packet, meta),
        }
    }
}
