// Reading user datagrams (GTPv1-U), without the table: what a datagram is by its header, and its payload as a part of it.
#![tactic(auto)]

ghost use Rattle.std.specs.Prelude.{◌≡◌, ◌*◌};
ghost use Rattle.base_octets.specs.Refused.{answer_number};
ghost use Rattle.base_octets.specs.Number.{taken};
ghost use Rattle.wire_user.specs.Header.{ours, extended, sequenced, optional, type_taken, type_of, user_teid_of, user_sequence_of, refusal_of, user_header_of};
ghost use Rattle.wire_user.specs.Extensions.{extent, extensions_of};
ghost use Rattle.wire_user.specs.Stretch.{judged_halt, stretch_said, stretch_of};
ghost use Rattle.wire_user.specs.User.{user_of};
ghost use Rattle.wire_user.specs.Part.{Reads};

use base_octets::Refused;
use unit_tunnel::UserTeid;

// What a user datagram is, as its first 12 octets say: that it is not refused is another question.
#[derive(Clone, Copy)]
pub enum Header {
    Echo { sequence: u16 },
    Packet { teid: UserTeid },
}

impl Header {
    // The octets of every header, and of one with the optional part.
    pub const FIXED: usize = 8;

    pub const WHOLE: usize = 12;

    // The message types taken.
    pub const ECHO: u8 = 1;

    pub const PACKET: u8 = 255;

    // An extension's length counts units of 4 octets; from the type 128 on it must be understood.
    pub const UNIT: usize = 4;

    pub const FIRST_MUST: u8 = 128;

    // How deep the calls of a walk go, less one: it is the unit's stack that this bounds, and not the number of headers.
    pub const STRETCH: usize = 15;

    // What the datagram says; no refusal is judged here.
    #[tactic(auto, unfolding(crate::specs::Header::user_header_of))]
    pub fn of(d: &[u8]) -> Self
        ensures { result ≡ user_header_of d.now }
    {
        if type_of(d) == Self::ECHO {
            return Header::Echo {
                sequence: user_sequence_of(d),
            };
        }
        Header::Packet {
            teid: user_teid_of(d),
        }
    }
}

// The first octet: version 1 and PT 1; the flags E and S; whether any of E, S and PN is set.
#[tactic(auto, unfolding(crate::specs::Header::ours))]
fn ours(first: u8) -> bool
    ensures { result ≡ ours first }
{
    (first / 32 == 1) & (first / 16 % 2 == 1)
}

fn extended(first: u8) -> bool
    ensures { result ≡ extended first }
{
    first / 4 % 2 == 1
}

fn sequenced(first: u8) -> bool
    ensures { result ≡ sequenced first }
{
    first / 2 % 2 == 1
}

#[tactic(auto, unfolding(crate::specs::Header::optional))]
fn optional(first: u8) -> bool
    ensures { result ≡ optional first }
{
    (first / 4 % 2 == 1) | (first / 2 % 2 == 1) | (first % 2 == 1)
}

#[tactic(auto, unfolding(crate::specs::Header::type_taken))]
fn type_taken(kind: u8) -> bool
    ensures { result ≡ type_taken kind }
{
    (kind == Header::ECHO) | (kind == Header::PACKET)
}

// The first refusal that the header meets.
#[tactic(auto, unfolding(crate::specs::Header::refusal_of))]
fn refusal(d: &[u8]) -> Result<(), Refused>
    ensures { answer_number result ≡ refusal_of d.now }
{
    if d.len() < Header::FIXED {
        return Err(Refused::UnderEight);
    }
    let first = d[0];
    if !ours(first) {
        return Err(Refused::NotUser);
    }
    let length = usize::from(base_octets::be16(d[2], d[3]));
    if length != d.len() - Header::FIXED {
        return Err(Refused::LengthUnfit);
    }
    if !type_taken(d[1]) {
        return Err(Refused::TypeNotTaken);
    }
    if optional(first) & (d.len() < Header::WHOLE) {
        return Err(Refused::PartCut);
    }
    Ok(())
}

// The message type, the tunnel number and the sequence number (0 if S is unset); each is 0 where the datagram is too short for it.
fn type_of(d: &[u8]) -> u8
    ensures { result ≡ type_of d.now }
{
    d.get(1).copied().unwrap_or(0)
}

// Kept: `place_in` stands on `user_teid_of`, 0 where octets are cut; by its definition `user_sequence_of` is 0 where S is unset too.
#[tactic(auto, unfolding(crate::specs::Header::user_teid_of))]
pub fn user_teid_of(d: &[u8]) -> UserTeid
    ensures { result.0 ≡ user_teid_of d.now }
{
    if d.len() < Header::FIXED {
        return UserTeid(0);
    }
    UserTeid(base_octets::be32(d[4], d[5], d[6], d[7]))
}

#[tactic(auto, unfolding(crate::specs::Header::user_sequence_of))]
fn user_sequence_of(d: &[u8]) -> u16
    ensures { result ≡ user_sequence_of d.now }
{
    if d.len() < Header::WHOLE {
        return 0;
    }
    if !sequenced(d[0]) {
        return 0;
    }
    base_octets::be16(d[8], d[9])
}

// How many octets the extension header in front says it has; 0 where there is none.
fn extent(rest: &[u8]) -> usize
    ensures { result ≡ extent rest.now }
{
    rest.first()
        .map_or(0, |units| usize::from(*units) * Header::UNIT)
}

// Where a walk over extension headers stands: the type of the header in front, 0 where the walk has ended, and how many octets are left.
#[derive(Clone, Copy)]
struct Pause {
    next: u8,
    left: usize,
}

// How a stretch of the walk ends: it pauses, or a header in it is refused.
// Kept: one octet and no Result, so that a call of the walk is a step of a loop in the machine's code: with a Result each header takes 28
// instructions, and 36 where the pause is in it; so it takes 15.
#[derive(Clone, Copy)]
enum Halt {
    Paused,
    MustUnderstand,
    PartCut,
}

impl Halt {
    #[tactic(auto, unfolding(crate::specs::Stretch::judged_halt))]
    fn judged(self) -> Result<(), Refused>
        ensures { result ≡ judged_halt self }
    {
        match self {
            Halt::Paused => Ok(()),
            Halt::MustUnderstand => Err(Refused::MustUnderstand),
            Halt::PartCut => Err(Refused::PartCut),
        }
    }
}

// A stretch of the walk over the extension headers in rest: past the one in front, of the type next, and at most so many more; `at` is where
// it pauses.
fn walk(rest: &[u8], next: u8, more: usize, at: &mut Pause) -> Halt
    ensures { stretch_said (judged_halt result) at.new ≡ stretch_of more rest.now next }
{
    if next == 0 {
        *at = Pause {
            next,
            left: rest.len(),
        };
        return Halt::Paused;
    }
    if Header::FIRST_MUST <= next {
        return Halt::MustUnderstand;
    }
    let n = extent(rest);
    if (n == 0) | (rest.len() < n) {
        return Halt::PartCut;
    }
    let following = rest[n - 1];
    if more == 0 {
        *at = Pause {
            next: following,
            left: rest.len() - n,
        };
        return Halt::Paused;
    }
    walk(&rest[n..], following, more - 1, at)
}

// What is left past the extension headers in d, of which the first has the type first.
fn past_extensions<'a>(d: &'a [u8], first: u8) -> Result<&'a [u8], Refused>
    ensures { Reads result d.entry (extensions_of d.now first) }
{
    let mut at = Pause {
        next: first,
        left: d.len(),
    };
    while at.next != 0 {
        walk(&d[d.len() - at.left..], at.next, Header::STRETCH, &mut at).judged()?;
    }
    Ok(&d[d.len() - at.left..])
}

// What lies past a header that meets no refusal, and past its extension headers.
fn past_header<'a>(d: &'a [u8]) -> Result<&'a [u8], Refused>
    requires { refusal_of d.now ≡ taken }
    ensures { Reads result d.entry (user_of d.now) }
{
    let first = d[0];
    if !optional(first) {
        return Ok(&d[Header::FIXED..]);
    }
    if !extended(first) {
        return Ok(&d[Header::WHOLE..]);
    }
    let next = d[11];
    past_extensions(&d[Header::WHOLE..], next)
}

// The payload, as the part of the datagram that it is, or why there is none.
pub fn payload<'a>(d: &'a [u8]) -> Result<&'a [u8], Refused>
    ensures { Reads result d.entry (user_of d.now) }
{
    refusal(d)?;
    past_header(d)
}
