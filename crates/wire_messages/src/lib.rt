// The octets of every reply and own request, laid over the front of the lent buffer; the octets past them stay.
#![tactic(auto)]

ghost use Rattle.std.specs.Prelude.{◌≡◌};
ghost use Rattle.base_octets.specs.Overlay.{Wrote};
ghost use Rattle.wire_messages.specs.Messages.{version_not_supported, echo_of, cause_reply, fault_reply, create_accepted, modify_bearer, delete_bearer, user_echo, error_indication, gpdu_of};

use base_octets::octets32;

// The types of control messages, by name: those that are taken, those of their replies, and the unit's own Delete Bearer.
// Kept: `echo_of`, `cause_reply` and `fault_reply` take any octet as the type, and an enum would ask more of their callers.
#[derive(Clone, Copy)]
pub struct MessageType {}

impl MessageType {
    pub const ECHO: u8 = 1;

    pub const ECHO_REPLY: u8 = 2;

    pub const VERSION: u8 = 3;

    pub const CREATE: u8 = 32;

    pub const CREATE_REPLY: u8 = 33;

    pub const MODIFY: u8 = 34;

    pub const MODIFY_REPLY: u8 = 35;

    pub const DELETE: u8 = 36;

    pub const DELETE_REPLY: u8 = 37;

    pub const BEARER: u8 = 99;

    pub const BEARER_REPLY: u8 = 100;
}

// What the accepted Create reply holds.
// Kept: TEIDs and addresses side by side, since of the address of a session there is no TEID, and one TEID has no address.
#[derive(Clone, Copy)]
pub struct Accepted {
    pub teid: u32,
    pub sequence: u32,
    pub control: u32,
    pub controladdr: u32,
    pub address: u32,
    pub user: u32,
    pub useraddr: u32,
    pub ebi: u8,
    pub recovery: u8,
}

// The message laid over the front of the buffer, and how many octets it has.
// Kept: TEID and sequence number come to the writers below from a session and from a header: a struct would be made at each call.
fn laid(m: &[u8], reply: &mut [u8]) -> usize
    ensures { Wrote result reply.new reply.old m.now }
{
    base_octets::copy_front(m, reply);
    m.len()
}

#[tactic(auto, unfolding(crate::specs::Messages::version_not_supported))]
pub fn version_not_supported(reply: &mut [u8]) -> usize
    ensures { Wrote result reply.new reply.old version_not_supported }
{
    let m = [0x40u8, MessageType::VERSION, 0, 4, 0, 0, 0, 0];
    laid(&m, reply)
}

// Echo Request or Response, with the unit's own Recovery.
#[tactic(auto, unfolding(base_octets::specs::BigEndian::octets_of, crate::specs::Messages::echo_of))]
pub fn echo_of(reply: &mut [u8], kind: u8, seq: u32, recovery: u8) -> usize
    ensures { Wrote result reply.new reply.old (echo_of kind seq recovery) }
{
    let seq = octets32(seq);
    let m = [
        0x40u8, kind, 0, 9, seq[1], seq[2], seq[3], 0, 3, 0, 1, 0, recovery,
    ];
    laid(&m, reply)
}

// A reply with a cause alone: refused without a field named, or accepted with Cause 16.
// Kept: the header with a TEID is written out in each message, one row of octets beside its definition, to be read against the paper.
#[tactic(auto, unfolding(base_octets::specs::BigEndian::octets_of, crate::specs::Messages::cause_reply, crate::specs::Messages::header_to, crate::specs::Messages::cause_field))]
pub fn cause_reply(reply: &mut [u8], kind: u8, teid: u32, seq: u32, cause: u8) -> usize
    ensures { Wrote result reply.new reply.old (cause_reply kind teid seq cause) }
{
    let teid = octets32(teid);
    let seq = octets32(seq);
    let m = [
        0x48u8, kind, 0, 14, teid[0], teid[1], teid[2], teid[3], seq[1], seq[2], seq[3], 0, 2, 0,
        2, 0, cause, 0,
    ];
    laid(&m, reply)
}

// A reply with a cause and the field at fault.
#[tactic(auto, unfolding(base_octets::specs::BigEndian::octets_of, crate::specs::Messages::fault_reply, crate::specs::Messages::header_to, crate::specs::Messages::fault_field))]
pub fn fault_reply(
    reply: &mut [u8],
    kind: u8,
    teid: u32,
    seq: u32,
    cause: u8,
    field: u8,
    instance: u8,
) -> usize
    ensures { Wrote result reply.new reply.old (fault_reply kind teid seq cause field instance) }
{
    let teid = octets32(teid);
    let seq = octets32(seq);
    let m = [
        0x48u8, kind, 0, 18, teid[0], teid[1], teid[2], teid[3], seq[1], seq[2], seq[3], 0, 2, 0,
        6, 0, cause, 0, field, 0, 0, instance,
    ];
    laid(&m, reply)
}

// Modify accepted, where a Bearer Context came.
#[tactic(auto, unfolding(base_octets::specs::BigEndian::octets_of, crate::specs::Messages::modify_bearer, crate::specs::Messages::header_to, crate::specs::Messages::cause_field, crate::specs::Messages::ebi_field))]
pub fn modify_bearer(reply: &mut [u8], teid: u32, seq: u32, ebi: u8) -> usize
    ensures { Wrote result reply.new reply.old (modify_bearer teid seq ebi) }
{
    let teid = octets32(teid);
    let seq = octets32(seq);
    let m = [
        0x48u8,
        MessageType::MODIFY_REPLY,
        0,
        29,
        teid[0],
        teid[1],
        teid[2],
        teid[3],
        seq[1],
        seq[2],
        seq[3],
        0,
        2,
        0,
        2,
        0,
        16,
        0,
        0x5D,
        0,
        11,
        0,
        0x49,
        0,
        1,
        0,
        ebi,
        2,
        0,
        2,
        0,
        16,
        0,
    ];
    laid(&m, reply)
}

// Delete Bearer Request, the unit's own.
#[tactic(auto, unfolding(base_octets::specs::BigEndian::octets_of, crate::specs::Messages::delete_bearer, crate::specs::Messages::header_to, crate::specs::Messages::ebi_field))]
pub fn delete_bearer(reply: &mut [u8], teid: u32, seq: u32, ebi: u8) -> usize
    ensures { Wrote result reply.new reply.old (delete_bearer teid seq ebi) }
{
    let teid = octets32(teid);
    let seq = octets32(seq);
    let m = [
        0x48u8,
        MessageType::BEARER,
        0,
        13,
        teid[0],
        teid[1],
        teid[2],
        teid[3],
        seq[1],
        seq[2],
        seq[3],
        0,
        0x49,
        0,
        1,
        0,
        ebi,
    ];
    laid(&m, reply)
}

// The answer to a user echo.
#[tactic(auto, unfolding(base_octets::specs::BigEndian::octets_of, crate::specs::Messages::user_echo))]
pub fn user_echo(reply: &mut [u8], seq: u32) -> usize
    ensures { Wrote result reply.new reply.old (user_echo seq) }
{
    let seq = octets32(seq);
    let m = [0x32u8, 2, 0, 6, 0, 0, 0, 0, seq[2], seq[3], 0, 0, 0x0E, 0];
    laid(&m, reply)
}

// Error Indication: the TEID that is not live, and the unit's user address.
#[tactic(auto, unfolding(base_octets::specs::BigEndian::octets_of, crate::specs::Messages::error_indication))]
pub fn error_indication(reply: &mut [u8], teid: u32, addr: u32) -> usize
    ensures { Wrote result reply.new reply.old (error_indication teid addr) }
{
    let teid = octets32(teid);
    let addr = octets32(addr);
    let m = [
        0x32u8, 0x1A, 0, 0x10, 0, 0, 0, 0, 0, 0, 0, 0, 0x10, teid[0], teid[1], teid[2], teid[3],
        0x85, 0, 4, addr[0], addr[1], addr[2], addr[3],
    ];
    laid(&m, reply)
}

// G-PDU: the peer's TEID, and the packet behind the 8 octets of the header; each is copied once.
pub fn gpdu_of(out: &mut [u8], teid: u32, packet: &[u8]) -> usize
    ensures { Wrote result out.new out.old (gpdu_of teid packet.now) }
{
    let n = packet.len();
    let length = n.to_be_bytes();
    let teid = octets32(teid);
    let m = [
        0x30u8, 0xFF, length[6], length[7], teid[0], teid[1], teid[2], teid[3],
    ];
    base_octets::copy_front(&m, out);
    let size = n + m.len();
    if out.len() < m.len() {
        return size;
    }
    base_octets::copy_front(packet, &mut out[m.len()..]);
    size
}

// Create accepted: the session's own tunnel numbers and address, to the peer.
pub fn create_accepted(reply: &mut [u8], a: Accepted) -> usize
    ensures { Wrote result reply.new reply.old (create_accepted a.teid a.sequence a.control a.controladdr a.address a.ebi a.user a.useraddr a.recovery) }
{
    let teid = octets32(a.teid);
    let seq = octets32(a.sequence);
    let control = octets32(a.control);
    let controladdr = octets32(a.controladdr);
    let address = octets32(a.address);
    let user = octets32(a.user);
    let useraddr = octets32(a.useraddr);
    let m = [
        0x48u8,
        MessageType::CREATE_REPLY,
        0,
        74,
        teid[0],
        teid[1],
        teid[2],
        teid[3],
        seq[1],
        seq[2],
        seq[3],
        0,
        2,
        0,
        2,
        0,
        16,
        0,
        0x57,
        0,
        9,
        1,
        0x87,
        control[0],
        control[1],
        control[2],
        control[3],
        controladdr[0],
        controladdr[1],
        controladdr[2],
        controladdr[3],
        0x4F,
        0,
        5,
        0,
        1,
        address[0],
        address[1],
        address[2],
        address[3],
        0x7F,
        0,
        1,
        0,
        0,
        0x5D,
        0,
        24,
        0,
        0x49,
        0,
        1,
        0,
        a.ebi,
        2,
        0,
        2,
        0,
        16,
        0,
        0x57,
        0,
        9,
        2,
        0x85,
        user[0],
        user[1],
        user[2],
        user[3],
        useraddr[0],
        useraddr[1],
        useraddr[2],
        useraddr[3],
        3,
        0,
        1,
        0,
        a.recovery,
    ];
    laid(&m, reply)
}
