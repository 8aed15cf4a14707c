//! What the definitions of heads, checksums and edits imply, for every frame.
ghost use Rattle.std.specs.Prelude.{◌≡◌, ◌+◌, ◌<◌, ◌≤◌, ◌%◌, ◌^◌, ℕ, List, ◌∷◌, Some, true, length};
ghost use Rattle.onvm_base.specs.declared.ids.PortId.{PortId};
ghost use Rattle.onvm_base.specs.declared.limits.TheConstants.{MAX_VLAN};
ghost use Rattle.onvm_base.specs.declared.rules.Tests.{Tests};
ghost use Rattle.onvm_packet.specs.Bytes.{AreBytes, number};
ghost use Rattle.onvm_packet.specs.Checksum.{AreWords, ones_sum, updated_checksum};
ghost use Rattle.onvm_packet.specs.Edits.{with_ttl, heads_with_ttl, with_macs, with_tag, without_tag};
ghost use Rattle.onvm_packet.specs.FlowKeys.{flow_key_of};
ghost use Rattle.onvm_packet.specs.Heads.{heads_of, is_tagged, net_of, type_of, vlan_of};
ghost use Rattle.onvm_packet.specs.Holding.{do_hold};
ghost use Rattle.onvm_packet.specs.Within.{HasRightChecksum, IsWithin};
ghost use Rattle.onvm_packet.specs.declared.flow_key.FlowKey.{FlowKey};
ghost use Rattle.onvm_packet.specs.declared.heads.Heads.{Heads};

use crate::flow_key::FlowKey;

/// The header of a network head is whole in its frame.
pub fn a_network_head_lies_in_its_frame()
    ensures { (bytes : List ℕ) → IsWithin (net_of bytes) bytes }
{}

/// Where the checksum of an IPv4 header is right, it stays right with every other TTL.
pub fn a_right_checksum_stays_right()
    ensures { (bytes : List ℕ) (ttl : ℕ) → AreBytes bytes → ttl < 2 ^ 8
        → HasRightChecksum bytes → HasRightChecksum (with_ttl ttl bytes) }
{}

/// Another TTL is read as such, and changes no other head.
pub fn another_ttl_changes_no_other_head()
    ensures { (bytes : List ℕ) (ttl : ℕ)
        → heads_of (with_ttl ttl bytes) ≡ heads_with_ttl ttl (heads_of bytes) }
{}

/// New addresses change no head.
pub fn new_addresses_change_no_head()
    ensures { (target source bytes : List ℕ)
        → length target ≡ 6 → length source ≡ 6 → 12 ≤ length bytes
        → heads_of (with_macs target source bytes) ≡ heads_of bytes }
{}

/// Where a word changes and the checksum is updated for it, the sum stays all ones, unless all
/// words are 0 then. Such words have the other 0 of one's complement as their sum.
pub fn a_swapped_word_keeps_the_sum()
    ensures { (others : List ℕ) (sum old new : ℕ) → AreWords (sum ∷ old ∷ others) → new < 2 ^ 16
        → ones_sum (sum ∷ old ∷ others) ≡ 0xffff
        → 0 < ones_sum (updated_checksum sum old new ∷ new ∷ others)
        → ones_sum (updated_checksum sum old new ∷ new ∷ others) ≡ 0xffff }
{}

/// A tag that is pushed is the outer tag, and the type that stood there is behind it. Taking it
/// out gives the frame back.
pub fn a_pushed_tag_is_read_and_taken_out()
    ensures tagged { (bytes : List ℕ) (tci : ℕ) → 14 ≤ length bytes
        → is_tagged (with_tag tci bytes) ≡ true }
    ensures vlan { (bytes : List ℕ) (tci : ℕ) → 14 ≤ length bytes → tci < 2 ^ 16
        → vlan_of (with_tag tci bytes) ≡ Some (tci % (MAX_VLAN + 1)) }
    ensures ethertype { (bytes : List ℕ) (tci : ℕ) → 14 ≤ length bytes
        → type_of (with_tag tci bytes) ≡ Some (number 2 12 bytes) }
    ensures back { (bytes : List ℕ) (tci : ℕ) → 14 ≤ length bytes
        → without_tag (with_tag tci bytes) ≡ bytes }
{}

/// Tests ask nothing of a frame but what its key says: for frames with one key the same tests hold.
pub fn the_key_says_which_tests_hold()
    ensures { (tests : Tests) (port other : PortId) (heads others : Heads)
        → flow_key_of port heads ≡ flow_key_of other others
        → do_hold tests port heads ≡ do_hold tests other others }
{}

/// Keys that compare as equal are the same: a table that finds a key by `==` finds the key itself.
pub fn equal_keys_are_the_same()
    ensures { (key other : FlowKey) → ⟦<FlowKey as PartialEq>⟧.eq key other ≡ true → key ≡ other }
{}
