// The downlink call on values: a packet of the carrier's side is written as a G-PDU to the peer of the session that has its destination address.
// The table stays as it is: once its rules are known to be kept, one record of it says all.
#![tactic(auto)]

ghost use Rattle.std.specs.Prelude.{◌≡◌};
ghost use Rattle.call_down.specs.Down.{output, down_on};
ghost use Rattle.call_down.specs.OneRecord.{place_for, down_by};

use base_octets::Number;
use unit_session::Session;
use unit_table::Node;
use wire_user::Header;

// What a packet comes to: the number, the place of the session, how many octets were written, and the peer's user address, to which they go.
#[repr(C)]
#[derive(Clone, Copy)]
pub struct Written {
    pub number: u8,
    pub place: usize,
    pub size: usize,
    pub peer: u32,
}

impl Written {
    // A number alone.
    pub fn bare(number: u8) -> Self
        ensures { result ≡ record { number = number; place = 0; size = 0; peer = 0 } }
    {
        Written {
            number,
            place: 0,
            size: 0,
            peer: 0,
        }
    }
}

// The place that has the packet's destination address; past the last where none has it.
// Kept: a place and no Option, since the law `one_is` reads the record at it, which past the last is one that nobody took.
pub fn place_for(node: Node, packet: &[u8]) -> usize
    ensures { result ≡ place_for node packet.now }
{
    node.plan.place_of(wire_packet::destination_of(packet))
}

// To the session at a place, if there is room.
fn down_on(place: usize, s: Session, packet: &[u8], out: &mut [u8]) -> Written
    ensures { output result out.new ≡ down_on place s packet.now out.old }
{
    if out.len() < packet.len() + Header::FIXED {
        return Written::bare(Number::OUTPUT_SHORT);
    }
    let size = wire_messages::gpdu_of(out, s.user, packet);
    Written {
        number: Number::TAKEN,
        place,
        size,
        peer: s.useraddr,
    }
}

// Take downlink packet, where it is known whether the table's rules are kept, with the record at the place that has its destination address.
pub fn down_by(kept: bool, place: usize, s: Session, packet: &[u8], out: &mut [u8]) -> Written
    ensures { output result out.new ≡ down_by kept place s packet.now out.old }
{
    if !kept {
        return Written::bare(Number::RULES_BROKEN);
    }
    if !wire_packet::whole_packet(packet) {
        return Written::bare(Number::PACKET_UNFIT);
    }
    let free = s.is_free();
    if free {
        return Written::bare(Number::NO_SESSION);
    }
    down_on(place, s, packet, out)
}
