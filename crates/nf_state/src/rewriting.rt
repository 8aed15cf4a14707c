//! New addresses and ports, with the checksums that cover them.
ghost use Rattle.std.specs.Prelude.{◌≡◌, ◌≤◌, ◌+◌, ◌<◌, ◌^◌, length};
ghost use Rattle.onvm_packet.specs.Bytes.{number};
ghost use Rattle.nf_state.specs.Rewriting.{address_word, port_word, rewritten, updated_segment_checksum, with_head_sum, with_segment_sum, with_source, with_target, with_word, IsIn};

use crate::segment::{Segment, TCP, UDP};
use byteorder::{BigEndian, ByteOrder};
use onvm_base::{MAX_FRAME_BYTES, Packet};
use onvm_packet::swap_word;

/// Writes a new source.
pub fn set_source(packet: &mut Packet, segment: &Segment, address: u32, port: u16)
    requires { IsIn segment.now packet.old }
    ensures { packet.new ≡ with_source segment.now address port packet.old }
{
    rewrite(
        packet,
        segment,
        segment.at as usize + 12,
        segment.behind,
        address,
        port,
    );
}

/// Writes a new target.
pub fn set_target(packet: &mut Packet, segment: &Segment, address: u32, port: u16)
    requires { IsIn segment.now packet.old }
    ensures { packet.new ≡ with_target segment.now address port packet.old }
{
    prove!(packet.bytes().len() <= MAX_FRAME_BYTES);
    rewrite(
        packet,
        segment,
        segment.at as usize + 16,
        segment.behind + 2,
        address,
        port,
    );
}

// Writes an address and a port, word by word.
fn rewrite(
    packet: &mut Packet,
    segment: &Segment,
    address_at: usize,
    port_at: usize,
    address: u32,
    port: u16,
)
    requires heads { IsIn segment.now packet.old }
    requires address { address_at + 4 ≤ length packet.old }
    requires port { port_at + 2 ≤ length packet.old }
    ensures { packet.new ≡ rewritten segment.now address_at port_at address port packet.old }
{
    prove!(packet.bytes().len() <= MAX_FRAME_BYTES);
    change_address_word(packet, segment, address_at, (address >> 16) as u16);
    change_address_word(packet, segment, address_at + 2, (address % 65536) as u16);
    change_port(packet, segment, port_at, port);
}

// Changes a word that both checksums cover.
#[tactic(auto, unfolding(crate::specs::Rewriting::address_word))]
fn change_address_word(packet: &mut Packet, segment: &Segment, at: usize, new: u16)
    requires heads { IsIn segment.now packet.old }
    requires word { at + 2 ≤ length packet.old }
    ensures is { packet.new ≡ address_word segment.now at new packet.old }
    ensures len { length packet.new ≡ length packet.old }
{
    let old = word_at(packet.bytes(), at);
    if old != new {
        set_word(packet, at, new);
        update_head_sum(packet, segment.at as usize, old, new);
        update_segment_sum(packet, segment, old, new);
    }
}

// Changes a word that the checksum of TCP or UDP alone covers.
#[tactic(auto, unfolding(crate::specs::Rewriting::port_word))]
fn change_port(packet: &mut Packet, segment: &Segment, at: usize, new: u16)
    requires heads { IsIn segment.now packet.old }
    requires word { at + 2 ≤ length packet.old }
    ensures { packet.new ≡ port_word segment.now at new packet.old }
{
    let old = word_at(packet.bytes(), at);
    if old != new {
        set_word(packet, at, new);
        update_segment_sum(packet, segment, old, new);
    }
}

// Updates the checksum of the IPv4 head that begins at an offset.
fn update_head_sum(packet: &mut Packet, at: usize, old: u16, new: u16)
    requires { at + 20 ≤ length packet.old }
    ensures is { packet.new ≡ with_head_sum at old new packet.old }
    ensures len { length packet.new ≡ length packet.old }
{
    let sum = word_at(packet.bytes(), at + 10);
    set_word(packet, at + 10, swap_word(sum, old, new));
}

// Updates the checksum of TCP or UDP.
fn update_segment_sum(packet: &mut Packet, segment: &Segment, old: u16, new: u16)
    requires { IsIn segment.now packet.old }
    ensures is { packet.new ≡ with_segment_sum segment.now old new packet.old }
    ensures len { length packet.new ≡ length packet.old }
{
    prove!(packet.bytes().len() <= MAX_FRAME_BYTES);
    let at = segment.behind + if segment.protocol == TCP { 16 } else { 6 };
    let sum = word_at(packet.bytes(), at);
    set_word(
        packet,
        at,
        update_segment_checksum(segment.protocol, sum, old, new),
    );
}

// The checksum of TCP or UDP after a word has changed. UDP's 0 says that there is none (RFC 768).
fn update_segment_checksum(protocol: u8, sum: u16, old: u16, new: u16) -> u16
    ensures { result ≡ updated_segment_checksum protocol sum old new }
{
    if protocol != UDP {
        return swap_word(sum, old, new);
    }
    if sum == 0 {
        return 0;
    }
    let updated = swap_word(sum, old, new);
    if updated == 0 { 0xffff } else { updated }
}

fn word_at(bytes: &[u8], at: usize) -> u16
    requires { at + 2 ≤ length bytes.now }
    ensures { result ≡ number 2 at bytes.now }
{
    BigEndian::read_u16(&bytes[at..])
}

fn set_word(packet: &mut Packet, at: usize, word: u16)
    requires { at + 2 ≤ length packet.old }
    ensures is { packet.new ≡ with_word at word packet.old }
    ensures len { length packet.new ≡ length packet.old }
{
    packet.overwrite(at, &word.to_be_bytes());
}
