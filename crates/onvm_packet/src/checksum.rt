//! The Internet checksum.
ghost use Rattle.std.specs.Prelude.{◌≡◌};
ghost use Rattle.onvm_packet.specs.Checksum.{ones_plus, updated_checksum};

/// The checksum `sum` after a word that it covers has changed (RFC 1624).
pub fn swap_word(sum: u16, old: u16, new: u16) -> u16
    ensures { result ≡ updated_checksum sum old new }
{
    !ones_plus(ones_plus(!sum, !old), new)
}

// The sum in one's complement.
fn ones_plus(a: u16, b: u16) -> u16
    ensures { result ≡ ones_plus a b }
{
    let sum = u32::from(a) + u32::from(b);
    (sum % 0x1_0000 + sum / 0x1_0000) as u16
}
