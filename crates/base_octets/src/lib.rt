// What every layer stands on: the numbers that come back, big-endian numbers, and the one copy of a message into a lent buffer. The laws on
// lists and numbers that every layer cites are in specs/.
#![tactic(auto)]

ghost use Rattle.std.specs.Prelude.{[], ◌∷◌, ◌≡◌};
ghost use Rattle.base_octets.specs.BigEndian.{number_of, octets_of};
ghost use Rattle.base_octets.specs.Overlay.{overlay};

mod refused;

pub use refused::Refused;

// The numbers that come back, by name. A cause is a number too: wire_fields has them, as its Refusal.
// Kept: C sees these as numbers, under the names of include/grugavorn.h.
#[derive(Clone, Copy)]
pub struct Number {}

impl Number {
    pub const TAKEN: u8 = 0;

    // the reply buffer is short
    pub const REPLY_SHORT: u8 = 1;

    // the table breaks its rules
    pub const RULES_BROKEN: u8 = 2;

    // a datagram under 8 octets
    pub const UNDER_EIGHT: u8 = 3;

    // P is set
    pub const FLAG_P_SET: u8 = 4;

    // a control version that is not 2
    pub const OTHER_VERSION: u8 = 5;

    // the length is not the size less 4 (user: less 8), or the header is cut
    pub const LENGTH_UNFIT: u8 = 6;

    pub const TYPE_NOT_TAKEN: u8 = 7;

    // T, or Create's TEID
    pub const TEID_UNFIT: u8 = 8;

    // a reply that is not awaited, or unreadable
    pub const NOT_AWAITED: u8 = 9;

    // a place past the last, or free when closed
    pub const NO_PLACE: u8 = 10;

    // admitted, and no place is free
    pub const NO_FREE_PLACE: u8 = 11;

    // user version or PT wrong
    pub const NOT_USER: u8 = 12;

    // the optional part is cut, or an extension's length is 0 or cut
    pub const PART_CUT: u8 = 13;

    // an extension that must be understood
    pub const MUST_UNDERSTAND: u8 = 14;

    // a user TEID that is not live
    pub const USER_NOT_LIVE: u8 = 15;

    // the plan breaks a limit
    pub const PLAN_BREAKS: u8 = 16;

    pub const NOTHING_DUE: u8 = 17;

    // a packet that is not one whole IPv4 packet
    pub const PACKET_UNFIT: u8 = 18;

    // no session has the destination address
    pub const NO_SESSION: u8 = 19;

    // the output buffer is under the packet plus 8
    pub const OUTPUT_SHORT: u8 = 20;
}

// The number that two, three and four octets write, the most significant first.
#[tactic(auto, unfolding(crate::specs::BigEndian::number_of, crate::specs::BigEndian::number_from))]
pub fn be16(a: u8, b: u8) -> u16
    ensures { result ≡ number_of (a ∷ b ∷ []) }
{
    u16::from_be_bytes([a, b])
}

#[tactic(auto, unfolding(crate::specs::BigEndian::number_of, crate::specs::BigEndian::number_from))]
pub fn be24(a: u8, b: u8, c: u8) -> u32
    ensures { result ≡ number_of (a ∷ b ∷ c ∷ []) }
{
    u32::from_be_bytes([0, a, b, c])
}

#[tactic(auto, unfolding(crate::specs::BigEndian::number_of, crate::specs::BigEndian::number_from))]
pub fn be32(a: u8, b: u8, c: u8, d: u8) -> u32
    ensures { result ≡ number_of (a ∷ b ∷ c ∷ d ∷ []) }
{
    u32::from_be_bytes([a, b, c, d])
}

// The octets of a number.
#[tactic(auto, unfolding(crate::specs::BigEndian::octets_of))]
pub fn octets32(n: u32) -> [u8; 4]
    ensures { result ≡ octets_of 4 n }
{
    n.to_be_bytes()
}

// The message laid over the front of the buffer; the octets past it stay.
#[tactic(auto, using(crate::specs::Overlay::overlay_copied))]
pub fn copy_front(message: &[u8], buffer: &mut [u8])
    ensures { buffer.new ≡ overlay message.now buffer.old }
{
    let n = message.len().min(buffer.len());
    buffer[..n].copy_from_slice(&message[..n]);
}
