// The header of a control datagram: the table of message types, the first refusals, and what the header says.
#![tactic(auto)]

ghost use Rattle.std.specs.Prelude.{◌≡◌, ◌+◌, ◌^◌, ◌<◌, drop, IfOk};
ghost use Rattle.base_octets.specs.Refused.{answer_number};
ghost use Rattle.wire_header.specs.Types.{flag_of, kind_by};
ghost use Rattle.wire_header.specs.Header.{header_of, teid_octets, sequence_at};
ghost use Rattle.wire_header.specs.Gate.{gate_of};

use base_octets::Refused;
use wire_fields::octet_at;
use wire_messages::MessageType;

// The T flag that each type is taken with: 0 or 1; 2 is none, the type is not taken.
// Kept: document 01 names this form, a constant array of 256 small numbers and one lookup; its 2 is `not_taken` of specs/Types.
const FLAGS: [u8; 256] = [
    2, 0, 0, 0, 2, 2, 2, 2, 2, 2, 2, 2, 2, 2, 2, 2, 2, 2, 2, 2, 2, 2, 2, 2, 2, 2, 2, 2, 2, 2, 2, 2,
    1, 2, 1, 2, 1, 2, 2, 2, 2, 2, 2, 2, 2, 2, 2, 2, 2, 2, 2, 2, 2, 2, 2, 2, 2, 2, 2, 2, 2, 2, 2, 2,
    2, 2, 2, 2, 2, 2, 2, 2, 2, 2, 2, 2, 2, 2, 2, 2, 2, 2, 2, 2, 2, 2, 2, 2, 2, 2, 2, 2, 2, 2, 2, 2,
    2, 2, 2, 2, 1, 2, 2, 2, 2, 2, 2, 2, 2, 2, 2, 2, 2, 2, 2, 2, 2, 2, 2, 2, 2, 2, 2, 2, 2, 2, 2, 2,
    2, 2, 2, 2, 2, 2, 2, 2, 2, 2, 2, 2, 2, 2, 2, 2, 2, 2, 2, 2, 2, 2, 2, 2, 2, 2, 2, 2, 2, 2, 2, 2,
    2, 2, 2, 2, 2, 2, 2, 2, 2, 2, 2, 2, 2, 2, 2, 2, 2, 2, 2, 2, 2, 2, 2, 2, 2, 2, 2, 2, 2, 2, 2, 2,
    2, 2, 2, 2, 2, 2, 2, 2, 2, 2, 2, 2, 2, 2, 2, 2, 2, 2, 2, 2, 2, 2, 2, 2, 2, 2, 2, 2, 2, 2, 2, 2,
    2, 2, 2, 2, 2, 2, 2, 2, 2, 2, 2, 2, 2, 2, 2, 2, 2, 2, 2, 2, 2, 2, 2, 2, 2, 2, 2, 2, 2, 2, 2, 2,
];

// The kinds of control messages: what is taken is one of these.
#[derive(Clone, Copy)]
pub enum Kind {
    Echo,
    EchoReply,
    Create,
    Modify,
    Delete,
    // the reply to the unit's own Delete Bearer
    BearerReply,
    Other,
}

impl From<u8> for Kind {
    ghost from_gives = { λ n kind. kind ≡ kind_by n };

    // The kind of a message by its type.
    #[tactic(auto, unfolding(crate::specs::Types::kind_by))]
    fn from(n: u8) -> Kind {
        match n {
            MessageType::MODIFY => Kind::Modify,
            MessageType::DELETE => Kind::Delete,
            MessageType::CREATE => Kind::Create,
            MessageType::BEARER_REPLY => Kind::BearerReply,
            MessageType::ECHO => Kind::Echo,
            MessageType::ECHO_REPLY => Kind::EchoReply,
            _ => Kind::Other,
        }
    }
}

// What a header says, and where the fields start behind it.
#[derive(Clone, Copy)]
pub struct HeaderCursor {
    pub kind: u8,
    // 0 where T is unset
    // Kept: `header_of` of specs/Header has this number of any octets, and the promises on what a datagram asks for are said by it.
    pub teid: u32,
    pub sequence: u32,
    pub fields: usize,
}

// The T flag that a message type is taken with, or NOT_TAKEN.
pub fn flag_of(kind: u8) -> u8
    ensures { result ≡ flag_of kind }
{
    FLAGS[usize::from(kind)]
}

// The four octets of a TEID.
#[tactic(auto, unfolding(crate::specs::Header::teid_octets))]
fn teid_octets(d: &[u8]) -> u32
    ensures { result ≡ teid_octets d.now }
{
    base_octets::be32(
        octet_at(d, 4),
        octet_at(d, 5),
        octet_at(d, 6),
        octet_at(d, 7),
    )
}

// The sequence number whose three octets begin at a place.
fn sequence_at(d: &[u8], at: usize) -> u32
    requires { at + 2 < 2 ^ 64 }
    ensures { result ≡ sequence_at d.now at }
{
    base_octets::be24(octet_at(d, at), octet_at(d, at + 1), octet_at(d, at + 2))
}

impl HeaderCursor {
    // octets of a header without and with a TEID
    pub const BARE: usize = 8;

    pub const WITH_TEID: usize = 12;

    // the length does not count the first octets
    pub const NOT_COUNTED: usize = 4;

    pub const VERSION: u8 = 2;

    pub const NOT_TAKEN: u8 = 2;

    // The header at the front of a datagram.
    #[tactic(auto, unfolding(crate::specs::Header::header_of, crate::specs::Header::kind_of, crate::specs::Header::teid_of, crate::specs::Header::sequence_of, crate::specs::Header::header_size, crate::specs::Header::with_teid, crate::specs::Header::flag_t, crate::specs::Header::sequence_behind, crate::specs::Header::sequence_bare))]
    pub fn of(d: &[u8]) -> Self
        ensures { result ≡ header_of d.now }
    {
        let kind = octet_at(d, 1);
        let flags = octet_at(d, 0);
        if flags / 8 % 2 == 1 {
            HeaderCursor {
                kind,
                teid: teid_octets(d),
                sequence: sequence_at(d, Self::BARE),
                fields: Self::WITH_TEID,
            }
        } else {
            HeaderCursor {
                kind,
                teid: 0,
                sequence: sequence_at(d, Self::NOT_COUNTED),
                fields: Self::BARE,
            }
        }
    }

    // The octets behind the header: none where it is cut.
    pub fn rest(self, d: &[u8]) -> &[u8]
        ensures { result.now ≡ drop self.fields d.now }
    {
        &d[self.fields.min(d.len())..]
    }
}

// The header of a datagram where it passes, else the first refusal by it.
#[tactic(auto, unfolding(crate::specs::Gate::gate_of, crate::specs::Gate::control_version, crate::specs::Types::not_taken, crate::specs::Header::version_of, crate::specs::Header::flag_p, crate::specs::Header::flag_t, crate::specs::Header::kind_of, crate::specs::Header::length_of, crate::specs::Header::header_size, crate::specs::Header::header_of))]
pub fn gate(d: &[u8]) -> Result<HeaderCursor, Refused>
    ensures number { answer_number result ≡ gate_of d.now }
    ensures header { IfOk result (λ h. h ≡ header_of d.now) }
{
    if d.len() < HeaderCursor::BARE {
        return Err(Refused::UnderEight);
    }
    let first = d[0];
    if first / 32 != HeaderCursor::VERSION {
        return Err(Refused::OtherVersion);
    }
    if first / 16 % 2 == 1 {
        return Err(Refused::FlagPSet);
    }
    let flag = flag_of(d[1]);
    if flag == HeaderCursor::NOT_TAKEN {
        return Err(Refused::TypeNotTaken);
    }
    if flag != first / 8 % 2 {
        return Err(Refused::TeidUnfit);
    }
    let stated = usize::from(base_octets::be16(d[2], d[3]));
    if stated + HeaderCursor::NOT_COUNTED != d.len() {
        return Err(Refused::LengthUnfit);
    }
    let h = HeaderCursor::of(d);
    if d.len() < h.fields {
        return Err(Refused::LengthUnfit);
    }
    if (h.kind == MessageType::CREATE) & (0 < h.teid) {
        return Err(Refused::TeidUnfit);
    }
    Ok(h)
}
