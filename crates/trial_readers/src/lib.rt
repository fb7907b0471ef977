// The readers of user and control datagrams, for hosts that compare them with readings of their own (trial_readers_c exports them): each function
// takes octets and answers numbers. Where a part of the answer does not apply it is 0; a Recovery that is not there is 256.
#![tactic(auto)]

ghost use Rattle.std.specs.Prelude.{◌≡◌, ◌-◌, length};
ghost use Rattle.wire_user.specs.User.{user_of};
ghost use Rattle.trial_readers.specs.Said.{said, said_of, said_in};
ghost use Rattle.trial_readers.specs.Decoding.{point_called, trial_plan, recovery_number, end_of, head_numbers, no_decoding, refused_decoding, create_decoding, ends_decoding, moves_decoding, modify_decoding, gone_decoding, delete_decoding, request_decoding, decoded_decoding, replied_to, create_in, modify_in, delete_in, echo_carries, carried_in, answer_row, carried_row};

use base_octets::Number;
use unit_plan::{AccessPoint, Plan};
use unit_tunnel::Unit;
use wire_fields::{Refusal, Tunnel};
use wire_header::HeaderCursor;
use wire_messages::MessageType;
use wire_requests::{Context, Create, Delete, Modify, Moves, Request, Unreadable};
use wire_user::Header;

// The message type, the tunnel number and the sequence number of a user datagram: 0 where it has none.
#[derive(Clone, Copy)]
struct Numbers {
    kind: u8,
    teid: u32,
    sequence: u16,
}

#[tactic(auto, unfolding(crate::specs::Said::said_of))]
fn said(h: Header) -> Numbers
    ensures { said result.kind result.teid result.sequence ≡ said_of h }
{
    match h {
        Header::Echo { sequence } => Numbers {
            kind: Header::ECHO,
            teid: 0,
            sequence,
        },
        Header::Packet { teid } => Numbers {
            kind: Header::PACKET,
            teid: teid.0,
            sequence: 0,
        },
    }
}

// The size of the payload, which ends where the datagram ends; the number and what the header says are written to the host's places.
// Kept: the four lent numbers are the C interface, of `gpdu_read` in crate trial_readers_c.
pub fn gpdu_read(
    d: &[u8],
    number: &mut u8,
    kind: &mut u8,
    teid: &mut u32,
    sequence: &mut u16,
) -> usize
    ensures { (result ≡ length d.now - (user_of d.now).size)
        × ((number.new ≡ (user_of d.now).number)
        × (said kind.new teid.new sequence.new ≡ said_in d.now)) }
{
    match wire_user::payload(d) {
        Ok(part) => {
            let what = said(Header::of(d));
            *number = Number::TAKEN;
            *kind = what.kind;
            *teid = what.teid;
            *sequence = what.sequence;
            part.len()
        }
        Err(why) => {
            *number = why.into();
            *kind = 0;
            *teid = 0;
            *sequence = 0;
            0
        }
    }
}

#[repr(C)]
#[derive(Clone, Copy)]
pub struct Head {
    // the first refusal, 0 where the header passes
    pub number: u32,
    pub kind: u32,
    pub teid: u32,
    pub sequence: u32,
    pub fields: u32,
}

// A decoded request: number 0 and its kind, or the cause with the field that it names.
#[repr(C)]
#[derive(Clone, Copy)]
pub struct Decoding {
    pub imsi: u64,
    pub number: u64,
    pub named: u64,
    pub field: u64,
    pub instance: u64,
    // 32, 34 or 36 where it is sound
    pub kind: u64,
    pub ebi: u64,
    pub control: u64,
    pub controladdr: u64,
    pub user: u64,
    pub useraddr: u64,
    pub point: u64,
    pub recovery: u64,
    // whether the control end, the Bearer Context and the user end came with a Modify
    pub moved: u64,
    pub context: u64,
    pub usermoved: u64,
    // where a cause reply to a Create goes
    pub replyto: u64,
}

impl Decoding {
    // No part applies.
    fn none() -> Decoding
        ensures { result ≡ no_decoding }
    {
        Decoding {
            imsi: 0,
            number: 0,
            named: 0,
            field: 0,
            instance: 0,
            kind: 0,
            ebi: 0,
            control: 0,
            controladdr: 0,
            user: 0,
            useraddr: 0,
            point: 0,
            recovery: 0,
            moved: 0,
            context: 0,
            usermoved: 0,
            replyto: 0,
        }
    }
}

// What types 1, 2 and 100 carry.
#[repr(C)]
#[derive(Clone, Copy)]
pub struct Carried {
    pub echo: u32,
    // 1 where a reply cannot be read
    pub echounread: u32,
    pub echoreply: u32,
    pub bearerunread: u32,
    pub cause: u32,
}

// A tunnel end that a Modify moves: 0 where it stays.
#[derive(Clone, Copy)]
pub struct End {
    pub moved: u64,
    pub teid: u64,
    pub address: u64,
}

// An access point of a name, with one place promised and no ceiling but the unit's.
#[tactic(auto, unfolding(crate::specs::Decoding::point_called, unit_plan::specs::Limits::longest_name, unit_tunnel::specs::Numbering::places))]
fn point_called(name: &[u8], size: u8) -> AccessPoint
    ensures { result ≡ point_called name.now size }
{
    let mut all = [0u8; AccessPoint::LONGEST_NAME];
    base_octets::copy_front(name, &mut all);
    AccessPoint {
        name: all,
        size,
        guarantee: 1,
        ceiling: Unit::PLACES as u16,
    }
}

// A plan of three access points: data, net, and one of the longest name.
#[tactic(auto, unfolding(crate::specs::Decoding::trial_plan, crate::specs::Decoding::long_name, crate::specs::Decoding::up_from, unit_plan::specs::Limits::longest_name))]
pub fn trial_plan() -> Plan
    ensures { result ≡ trial_plan }
{
    let a = point_called(b"\x04data", 5);
    let b = point_called(b"\x03net", 4);
    let c = point_called(
        b"\x3eabcdefghijklmnopqrstuvwxyzabcdefghijklmnopqrstuvwxyzabcdefghij",
        AccessPoint::LONGEST_NAME as u8,
    );
    let none = AccessPoint::none();
    Plan {
        control: 167772161,
        user: 167772162,
        pool: 1681915904,
        recovery: 7,
        resend: 3,
        sends: 2,
        interval: 60,
        count: 3,
        points: [a, b, c, none],
    }
}

// Kept: 256 for a Recovery that is not there is C's, and tests/requests reads it.
#[tactic(auto, unfolding(crate::specs::Decoding::recovery_number))]
pub fn recovery_number(r: Option<u8>) -> u32
    ensures { result ≡ recovery_number r }
{
    match r {
        None => 256,
        Some(x) => u32::from(x),
    }
}

#[tactic(auto, unfolding(crate::specs::Decoding::refused_decoding, crate::specs::Decoding::fault_kind, crate::specs::Decoding::fault_instance))]
fn refused_decoding(w: Refusal) -> Decoding
    ensures { result ≡ refused_decoding w }
{
    let number = u64::from(w.cause);
    match w.fault {
        None => Decoding {
            number,
            ..Decoding::none()
        },
        Some(fault) => Decoding {
            number,
            named: 1,
            field: u64::from(fault.kind),
            instance: u64::from(fault.instance),
            ..Decoding::none()
        },
    }
}

#[tactic(auto, unfolding(crate::specs::Decoding::create_decoding))]
fn create_decoding(c: Create) -> Decoding
    ensures { result ≡ create_decoding c }
{
    Decoding {
        imsi: c.imsi,
        kind: u64::from(MessageType::CREATE),
        ebi: u64::from(c.ebi),
        control: u64::from(c.control),
        controladdr: u64::from(c.controladdr),
        user: u64::from(c.user),
        useraddr: u64::from(c.useraddr),
        point: c.point as u64,
        recovery: u64::from(recovery_number(c.recovery)),
        ..Decoding::none()
    }
}

#[tactic(auto, unfolding(crate::specs::Decoding::end_of))]
fn end_of(p: Option<Tunnel>) -> End
    ensures { result ≡ end_of p }
{
    match p {
        None => End {
            moved: 0,
            teid: 0,
            address: 0,
        },
        Some(end) => End {
            moved: 1,
            teid: u64::from(end.teid),
            address: u64::from(end.address),
        },
    }
}

#[tactic(auto, unfolding(crate::specs::Decoding::ends_decoding))]
fn ends_decoding(control: End, context: u64, user: End) -> Decoding
    ensures { result ≡ ends_decoding control context user }
{
    Decoding {
        kind: u64::from(MessageType::MODIFY),
        control: control.teid,
        controladdr: control.address,
        user: user.teid,
        useraddr: user.address,
        moved: control.moved,
        context,
        usermoved: user.moved,
        ..Decoding::none()
    }
}

#[tactic(auto, unfolding(crate::specs::Decoding::moves_decoding))]
fn moves_decoding(m: Result<Moves, Refusal>, context: Option<Context>) -> Decoding
    ensures { result ≡ moves_decoding m context }
{
    match m {
        Ok(moves) => {
            let came = u64::from(context.is_some());
            ends_decoding(end_of(moves.control), came, end_of(moves.user))
        }
        Err(w) => refused_decoding(w),
    }
}

// What a Modify and a Delete come to for a session of an EBI.
#[tactic(auto, unfolding(crate::specs::Decoding::modify_decoding))]
fn modify_decoding(m: Modify, ebi: u8) -> Decoding
    ensures { result ≡ modify_decoding m ebi }
{
    moves_decoding(wire_requests::moves_of(m, ebi), m.context)
}

#[tactic(auto, unfolding(crate::specs::Decoding::gone_decoding))]
fn gone_decoding(ebi: u8) -> Decoding
    ensures { result ≡ gone_decoding ebi }
{
    Decoding {
        kind: u64::from(MessageType::DELETE),
        ebi: u64::from(ebi),
        ..Decoding::none()
    }
}

#[tactic(auto, unfolding(crate::specs::Decoding::delete_decoding))]
fn delete_decoding(d: Delete, ebi: u8) -> Decoding
    ensures { result ≡ delete_decoding d ebi }
{
    if wire_requests::means_of(d, ebi) {
        return gone_decoding(ebi);
    }
    refused_decoding(Refusal::bare(Refusal::NOT_LIVE))
}

#[tactic(auto, unfolding(crate::specs::Decoding::request_decoding))]
fn request_decoding(q: Request, ebi: u8) -> Decoding
    ensures { result ≡ request_decoding q ebi }
{
    match q {
        Request::Create(c) => create_decoding(c),
        Request::Modify(m) => modify_decoding(m, ebi),
        Request::Delete(d) => delete_decoding(d, ebi),
    }
}

#[tactic(auto, unfolding(crate::specs::Decoding::decoded_decoding))]
fn decoded_decoding(d: Result<Request, Refusal>, ebi: u8) -> Decoding
    ensures { result ≡ decoded_decoding d ebi }
{
    match d {
        Ok(q) => request_decoding(q, ebi),
        Err(w) => refused_decoding(w),
    }
}

pub fn requests_head(d: &[u8]) -> Head
    ensures { result ≡ head_numbers d.now }
{
    let number = match wire_header::gate(d) {
        Ok(_) => Number::TAKEN,
        Err(why) => why.into(),
    };
    let h = HeaderCursor::of(d);
    Head {
        number: u32::from(number),
        kind: u32::from(h.kind),
        teid: h.teid,
        sequence: h.sequence,
        fields: (h.fields % 256) as u32,
    }
}

// With where a cause reply goes.
#[tactic(auto, unfolding(crate::specs::Decoding::replied_to))]
fn replied_to(to: u32, a: Decoding) -> Decoding
    ensures { result ≡ replied_to to a }
{
    Decoding {
        replyto: u64::from(to),
        ..a
    }
}

// Each takes the octets behind the header.
#[tactic(auto, unfolding(crate::specs::Decoding::create_in))]
pub fn requests_create(s: &[u8]) -> Decoding
    ensures { result ≡ create_in s.now }
{
    let d = wire_requests::read_create(trial_plan(), s);
    replied_to(wire_requests::reply_to(s), decoded_decoding(d, 0))
}

#[tactic(auto, unfolding(crate::specs::Decoding::modify_in))]
pub fn requests_modify(s: &[u8], ebi: u8) -> Decoding
    ensures { result ≡ modify_in s.now ebi }
{
    decoded_decoding(wire_requests::read_modify(s), ebi)
}

#[tactic(auto, unfolding(crate::specs::Decoding::delete_in))]
pub fn requests_delete(s: &[u8], ebi: u8) -> Decoding
    ensures { result ≡ delete_in s.now ebi }
{
    decoded_decoding(wire_requests::read_delete(s), ebi)
}

#[tactic(auto, unfolding(crate::specs::Decoding::echo_carries))]
fn echo_carries(e: Result<Option<u8>, Unreadable>) -> u32
    ensures { result ≡ echo_carries e }
{
    match e {
        Ok(r) => recovery_number(r),
        Err(_) => 0,
    }
}

#[tactic(auto, unfolding(crate::specs::Decoding::carried_in))]
pub fn requests_carried(s: &[u8]) -> Carried
    ensures { result ≡ carried_in s.now }
{
    let reply = wire_requests::read_echo_reply(s);
    let bearer = wire_requests::read_bearer_reply(s);
    Carried {
        echo: recovery_number(wire_requests::read_echo(s)),
        echounread: u32::from(reply.is_err()),
        echoreply: echo_carries(reply),
        bearerunread: u32::from(bearer.is_err()),
        cause: u32::from(bearer.unwrap_or(0)),
    }
}

// The same as rows of numbers, in the order of a line of `trial_control`.
pub fn answer_row(a: Decoding) -> [u64; 17]
    ensures { result ≡ answer_row a }
{
    [
        a.number,
        a.named,
        a.field,
        a.instance,
        a.kind,
        a.imsi,
        a.ebi,
        a.control,
        a.controladdr,
        a.user,
        a.useraddr,
        a.point,
        a.recovery,
        a.moved,
        a.context,
        a.usermoved,
        a.replyto,
    ]
}

pub fn carried_row(c: Carried) -> [u64; 5]
    ensures { result ≡ carried_row c }
{
    [
        u64::from(c.echo),
        u64::from(c.echounread),
        u64::from(c.echoreply),
        u64::from(c.bearerunread),
        u64::from(c.cause),
    ]
}
