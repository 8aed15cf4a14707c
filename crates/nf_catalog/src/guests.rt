//! Guests by their names.
ghost use Rattle.std.specs.Prelude.{◌≡◌, ◌≢◌, ◌<◌, ◌↔◌, ℕ, List, Some, length, slice_get, IsSome, IsTrue};
ghost use Rattle.nf_catalog.specs.Units.{guest_named};

use nf_api::Guest;
use onvm_base::Name;

/// Takes the first guest of a name out of those that are handed in.
pub fn take_guest(guests: &mut Vec<Guest>, name: &Name) -> Guest
    requires { IsSome (guest_named name.now guests.old.items) }
    ensures taken { guest_named name.now guests.old.items ≡ Some result }
    ensures others { (other : List ℕ) → other ≢ name.now
        → guest_named other guests.new.items ≡ guest_named other guests.old.items }
{
    let place = place_of(guests, name);
    guests.remove(place)
}

// Where the first guest of a name stands.
fn place_of(guests: &[Guest], name: &Name) -> usize
    requires { IsSome (guest_named name.now guests.now) }
    ensures within { result < length guests.now }
    ensures first { slice_get guests.now result ≡ guest_named name.now guests.now }
{
    for place in 0..guests.len() {
        if is_named(&guests[place], name) {
            return place;
        }
    }
    unreachable!()
}

fn is_named(guest: &Guest, name: &Name) -> bool
    ensures { IsTrue result ↔ (guest.now.name ≡ name.now) }
{
    guest.name.as_slice() == name.as_slice()
}
