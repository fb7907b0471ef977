// Packets of the carrier's side (IPv4), without the table: whether one is whole, and to which address it goes.
#![tactic(auto)]

ghost use Rattle.std.specs.Prelude.{◌≡◌};
ghost use Rattle.wire_packet.specs.Packet.{whole_packet, destination_of};

// The header of a packet, for its figures.
#[derive(Clone, Copy)]
pub struct Packet {}

impl Packet {
    // The version that is taken.
    pub const VERSION: u8 = 4;

    // The octets of the least header.
    pub const LEAST: usize = 20;

    // A header's length counts units of 4 octets.
    pub const UNIT: usize = 4;
}

// Whether this is one whole IPv4 packet, by its header: version, length of the header, total length.
#[tactic(auto, unfolding(crate::specs::Packet::whole_packet))]
pub fn whole_packet(d: &[u8]) -> bool
    ensures { result ≡ whole_packet d.now }
{
    if d.len() < Packet::LEAST {
        return false;
    }
    let first = d[0];
    let header = usize::from(first % 16) * Packet::UNIT;
    let total = usize::from(base_octets::be16(d[2], d[3]));
    (first / 16 == Packet::VERSION)
        & (Packet::LEAST <= header)
        & (header <= total)
        & (total == d.len())
}

// The destination address; 0 where the header is cut.
// Kept: `destination_of` of specs/Packet is said of any octets, 0 where these are cut, and crate call_down's `place_for` stands on it.
#[tactic(auto, unfolding(crate::specs::Packet::destination_of))]
pub fn destination_of(d: &[u8]) -> u32
    ensures { result ≡ destination_of d.now }
{
    if d.len() < Packet::LEAST {
        return 0;
    }
    base_octets::be32(d[16], d[17], d[18], d[19])
}
