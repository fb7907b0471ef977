// The user call on values: an echo is answered, a packet under a live user number is handed up as the part of the datagram that it is, and any other
// gets an Error Indication or its refusal. The table stays as it is: once its rules are known to be kept, one record of it says all. The datagram is
// read once.
#![tactic(auto)]

ghost use Rattle.std.specs.Prelude.{◌≡◌, length};
ghost use Rattle.wire_user.specs.Part.{IsRest};
ghost use Rattle.call_user.specs.User.{took};
ghost use Rattle.call_user.specs.OneRecord.{place_in, comes_on, packet_on, header_on, done};

use base_octets::Number;
use call_own::Answer;
use unit_session::Session;
use unit_table::Node;
use unit_tunnel::UserTeid;
use wire_user::Header;

// What a user datagram comes to, in numbers: document 01's number, the place of the session, the reply's length, and where in the
// datagram the payload begins and how many octets it has. Where nothing is handed up it is the datagram's empty end.
// Kept: the C interface, what `grugavorn_user` answers.
#[repr(C)]
#[derive(Clone, Copy)]
pub struct Handed {
    pub number: u8,
    pub place: usize,
    pub size: usize,
    pub start: usize,
    pub octets: usize,
}

// The place that the tunnel number names, whatever the datagram is; past the last where it names none or is cut.
// Kept: a place and no Option, as `user_place` of unit_table.
#[tactic(auto, unfolding(crate::specs::OneRecord::place_in))]
pub fn place_in(d: &[u8]) -> usize
    ensures { result ≡ place_in d.now }
{
    let teid = wire_user::user_teid_of(d);
    unit_table::user_place(teid)
}

// What a user datagram comes to, with the payload as the part of the datagram that it is: its empty end where nothing is handed up.
// Kept: number and place stand beside the payload in every case: the clause of `done` fixes them by `took` also where nothing is handed up.
#[derive(Clone, Copy)]
pub struct Delivery<'a> {
    pub number: u8,
    pub place: usize,
    pub size: usize,
    pub payload: &'a [u8],
}

impl<'a> Delivery<'a> {
    // Nothing is handed up: a number, and the reply's length.
    fn nothing_up(number: u8, size: usize, d: &'a [u8]) -> Self
        ensures number { result.number ≡ number }
        ensures place { result.place ≡ 0 }
        ensures size { result.size ≡ size }
        ensures payload { IsRest result.payload d.entry (length d.now) }
    {
        Delivery {
            number,
            place: 0,
            size,
            payload: &d[d.len()..],
        }
    }
}

// What comes of a datagram that is read: it is handed up under a session's place, or answered in so many octets.
#[derive(Clone, Copy)]
enum Comes {
    Up { place: usize },
    Answered { number: u8, size: usize },
}

// A packet: handed up from its place where the record is the session of its number, else answered with the Error Indication.
#[tactic(auto, unfolding(crate::specs::OneRecord::packet_on))]
fn packet_on(s: Session, teid: UserTeid, addr: u32, reply: &mut [u8]) -> Comes
    ensures { comes_on result reply.new ≡ packet_on s teid.0 addr reply.old }
{
    if unit_table::has_user(s, teid) {
        return Comes::Up {
            place: unit_table::user_place(teid),
        };
    }
    Comes::Answered {
        number: Number::USER_NOT_LIVE,
        size: wire_messages::error_indication(reply, teid.0, addr),
    }
}

// By what the header says: an echo is answered.
#[tactic(auto, unfolding(crate::specs::OneRecord::header_on))]
fn header_on(s: Session, h: Header, addr: u32, reply: &mut [u8]) -> Comes
    ensures { comes_on result reply.new ≡ header_on s h addr reply.old }
{
    match h {
        Header::Echo { sequence } => Comes::Answered {
            number: Number::TAKEN,
            size: wire_messages::user_echo(reply, u32::from(sequence)),
        },
        Header::Packet { teid } => packet_on(s, teid, addr, reply),
    }
}

// Take user datagram, where it is known whether the table's rules are kept, with the record at the place that the datagram concerns.
pub fn done<'a>(kept: bool, node: Node, s: Session, d: &'a [u8], reply: &mut [u8]) -> Delivery<'a>
    ensures { (took result.number result.place result.size reply.new (done kept node s d.now reply.old).start
        ≡ done kept node s d.now reply.old)
        × IsRest result.payload d.entry (done kept node s d.now reply.old).start }
{
    if reply.len() < Answer::LEAST_REPLY {
        return Delivery::nothing_up(Number::REPLY_SHORT, 0, d);
    }
    if !kept {
        return Delivery::nothing_up(Number::RULES_BROKEN, 0, d);
    }
    match wire_user::payload(d) {
        Ok(payload) => match header_on(s, Header::of(d), node.plan.user, reply) {
            Comes::Up { place } => Delivery {
                number: Number::TAKEN,
                place,
                size: 0,
                payload,
            },
            Comes::Answered { number, size } => Delivery::nothing_up(number, size, d),
        },
        Err(why) => Delivery::nothing_up(why.into(), 0, d),
    }
}
