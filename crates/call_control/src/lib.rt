// The control call on values. specs/ defines it, message by message and as a whole; here is what of it is worked out on a node, a record or a decoded
// message alone. step_session and step_control compute it on single records.
#![tactic(auto)]

ghost use Rattle.std.specs.Prelude.{◌≡◌};
ghost use Rattle.call_control.specs.Echoes.{restarts_by, heard_node};
ghost use Rattle.base_octets.specs.Overlay.{Wrote};
ghost use Rattle.call_control.specs.Amends.{not_live, cause_octets, peers_of, modify_octets};
ghost use Rattle.call_control.specs.Creates.{opening_of, accepted_octets, no_room, is_repeat};

use unit_plan::Plan;
use unit_session::{Opening, Peers, Session};
use unit_table::{Judged, Node};
use unit_tunnel::{ControlTeid, Teid, UserTeid};
use wire_fields::{Refusal, Tunnel};
use wire_messages::MessageType;
use wire_requests::{Context, Create};

// Whether a Recovery says that the exchange restarted.
#[tactic(auto, unfolding(crate::specs::Echoes::restarts_by, unit_table::specs::Recovery::is_restarted))]
pub fn restarts_by(node: Node, recovery: Option<u8>) -> bool
    ensures { result ≡ restarts_by recovery node }
{
    recovery.is_some_and(|value| matches!(node.judged(value), Judged::Restarted))
}

// A Recovery value is stored, but a late one is thrown away.
#[tactic(auto, unfolding(crate::specs::Echoes::heard_node, crate::specs::Echoes::stored_for))]
pub fn heard_node(node: Node, recovery: Option<u8>) -> Node
    ensures { result ≡ heard_node recovery node }
{
    let Some(value) = recovery else {
        return node;
    };
    match node.judged(value) {
        Judged::Same | Judged::Restarted => node.hearing(value),
        Judged::Late => node,
    }
}

// No such session: the cause is NOT_LIVE, no field named.
#[tactic(auto, unfolding(crate::specs::Amends::not_live))]
pub fn not_live() -> Refusal
    ensures { result ≡ not_live }
{
    Refusal::bare(Refusal::NOT_LIVE)
}

// A reply with a cause, and the field at fault where one is named; the answer is its length.
#[tactic(auto, unfolding(crate::specs::Amends::cause_octets, crate::specs::Amends::fault_octets))]
pub fn write_cause(kind: u8, teid: u32, seq: u32, w: Refusal, reply: &mut [u8]) -> usize
    ensures { Wrote result reply.new reply.old (cause_octets kind teid seq w) }
{
    match w.fault {
        Some(f) => wire_messages::fault_reply(reply, kind, teid, seq, w.cause, f.kind, f.instance),
        None => wire_messages::cause_reply(reply, kind, teid, seq, w.cause),
    }
}

// Where the peer is after a Modify: of the two tunnel ends each that came, and the old one of each that did not.
#[tactic(auto, unfolding(crate::specs::Amends::peers_of))]
pub fn peers_of(c: Option<Tunnel>, u: Option<Tunnel>, s: Session) -> Peers
    ensures { result ≡ peers_of c u s }
{
    let control = c.unwrap_or(Tunnel {
        teid: s.control,
        address: s.controladdr,
    });
    let user = u.unwrap_or(Tunnel {
        teid: s.user,
        address: s.useraddr,
    });
    Peers {
        control: control.teid,
        controladdr: control.address,
        user: user.teid,
        useraddr: user.address,
    }
}

// The accepted reply to a Modify; the answer is its length.
#[tactic(auto, unfolding(crate::specs::Amends::modify_octets))]
pub fn write_modify(
    context: Option<Context>,
    teid: u32,
    seq: u32,
    ebi: u8,
    reply: &mut [u8],
) -> usize
    ensures { Wrote result reply.new reply.old (modify_octets context teid seq ebi) }
{
    match context {
        None => {
            wire_messages::cause_reply(
                reply,
                MessageType::MODIFY_REPLY,
                teid,
                seq,
                Refusal::ACCEPTED,
            )
        }
        Some(_) => wire_messages::modify_bearer(reply, teid, seq, ebi),
    }
}

// What of a Create a session keeps.
#[tactic(auto, unfolding(crate::specs::Creates::opening_of))]
pub fn opening_of(c: Create, seq: u32) -> Opening
    ensures { result ≡ opening_of c seq }
{
    Opening {
        imsi: c.imsi,
        control: c.control,
        controladdr: c.controladdr,
        user: c.user,
        useraddr: c.useraddr,
        created: seq,
        point: (c.point % 256) as u8,
        ebi: c.ebi,
    }
}

// The accepted reply, from the record of a place; the answer is its length.
#[tactic(auto, unfolding(crate::specs::Creates::accepted_octets))]
pub fn write_accepted(plan: Plan, seq: u32, place: usize, s: Session, reply: &mut [u8]) -> usize
    ensures { Wrote result reply.new reply.old (accepted_octets plan seq place s) }
{
    wire_messages::create_accepted(
        reply,
        wire_messages::Accepted {
            teid: s.control,
            sequence: seq,
            control: ControlTeid::of(s.usage, place).0,
            controladdr: plan.control,
            address: plan.address(place),
            user: UserTeid::of(s.usage, place).0,
            useraddr: plan.user,
            ebi: s.ebi,
            recovery: plan.recovery,
        },
    )
}

#[tactic(auto, unfolding(crate::specs::Creates::no_room))]
pub fn no_room() -> Refusal
    ensures { result ≡ no_room }
{
    Refusal::bare(Refusal::NO_ROOM)
}

// A repeat of the Create that made the session.
#[tactic(auto, unfolding(crate::specs::Creates::is_repeat))]
pub fn is_repeat(c: Create, seq: u32, s: Session) -> bool
    ensures { result ≡ is_repeat c seq s }
{
    (usize::from(s.point) == c.point) & (s.created == seq)
}
