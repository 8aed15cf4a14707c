//! What the definitions of mappings and of NAT imply.
ghost use Rattle.std.specs.Prelude.{◌≡◌, ◌<◌, ◌≤◌, ◌+◌, ◌^◌, ℕ, Some, [], List, length, true};
ghost use Rattle.onvm_base.specs.declared.outcome.Verdict.{Verdict};
ghost use Rattle.onvm_packet.specs.Bytes.{AreBytes};
ghost use Rattle.onvm_packet.specs.Checksum.{IsRight};
ghost use Rattle.nf_state.specs.Checksums.{HasSum, IsRightSegment, head_of};
ghost use Rattle.nf_state.specs.Mappings.{AreFair, Assigns, Mapping, Maps};
ghost use Rattle.nf_state.specs.Rewriting.{with_source, with_target};
ghost use Rattle.nf_state.specs.Segments.{is_whole, needed, segment_of};
ghost use Rattle.nf_state.specs.Translating.{Held, IsFair, Parameters, Stay, Translates, no_mappings};
ghost use Rattle.nf_state.specs.declared.mappings.Endpoint.{Endpoint};
ghost use Rattle.nf_state.specs.declared.segment.Segment.{Segment};

/// A mapping stays, whatever packet comes.
pub fn a_mapping_stays()
    ensures { (parameters : Parameters) (before after : Held) (bytes left : List ℕ) (verdict : Verdict)
        → Translates parameters before bytes verdict left after → Stay before after }
{}

/// The port that a sender was given leads back to it.
pub fn an_assigned_port_leads_back()
    ensures { (ports : ℕ × ℕ) (before after : List Mapping) (to : Endpoint) (outside : ℕ)
        → Assigns ports before to (Some outside) after → Maps after to outside }
{}

/// No port ever stands for two senders of a protocol, and no sender has two ports.
pub fn each_port_has_one_sender()
    ensures none { IsFair no_mappings }
    ensures translated { (parameters : Parameters) (before after : Held) (bytes left : List ℕ) (verdict : Verdict)
        → Translates parameters before bytes verdict left after → IsFair before → IsFair after }
{}

/// A packet is translated in one way, and leaves one list of mappings.
pub fn a_packet_has_one_translation()
    ensures { (parameters : Parameters) (before after later : Held) (bytes x y : List ℕ) (v w : Verdict)
        → IsFair before
        → Translates parameters before bytes v x after → Translates parameters before bytes w y later
        → (v ≡ w) × (x ≡ y) × (after ≡ later) }
{}

/// Where the checksum of an IPv4 header is right, it is so with another address and port. The same
/// holds of the checksum of TCP or UDP, if there is one, whatever length it is taken over.
pub fn right_checksums_stay_right()
    ensures head { (bytes : List ℕ) (segment : Segment) (address port : ℕ)
        → segment_of bytes ≡ Some segment → is_whole segment bytes ≡ true → AreBytes bytes
        → address < 2 ^ 32 → port < 2 ^ 16 → IsRight (head_of segment bytes)
        → IsRight (head_of segment (with_source segment address port bytes))
        × IsRight (head_of segment (with_target segment address port bytes)) }
    ensures sum { (bytes : List ℕ) (segment : Segment) (len address port : ℕ)
        → segment_of bytes ≡ Some segment → AreBytes bytes
        → needed segment.protocol ≤ len → segment.behind + len ≤ length bytes → len < 2 ^ 16
        → address < 2 ^ 32 → port < 2 ^ 16 → HasSum segment bytes → IsRightSegment segment len bytes
        → IsRightSegment segment len (with_source segment address port bytes)
        × IsRightSegment segment len (with_target segment address port bytes) }
{}
