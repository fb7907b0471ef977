// What a control datagram asks for. It is read once, all of it, before any record is looked at: the header, and by its kind what it carries.
#![tactic(auto)]

ghost use Rattle.std.specs.Prelude.{◌≡◌};
ghost use Rattle.call_asked.specs.Asked.{end_asked, session_asked, create_refused, change_refused, sound_asked, request_asked, kind_asked, asked_of};

use base_octets::{Number, Refused};
use unit_table::Node;
use unit_tunnel::ControlTeid;
use wire_fields::Refusal;
use wire_header::{HeaderCursor, Kind};
use wire_messages::MessageType;
use wire_requests::{Create, Delete, Modify, Request, Unreadable};

// What is asked of one session.
#[derive(Clone, Copy)]
pub enum Concern {
    Modify(Modify),
    Delete(Delete),
    // a Modify or a Delete that is refused, by the type of its reply
    Refused { reply: u8, why: Refusal },
    // the reply to the unit's own Delete Bearer
    Bearer(Result<u8, Unreadable>),
}

#[derive(Clone, Copy)]
pub enum Asked {
    // a number alone
    // Kept: a `u8`, since the number of a reply is any octet, and C sees it.
    Silent(u8),
    // another version, which is answered
    Version,
    Echo {
        recovery: Option<u8>,
        sequence: u32,
    },
    // the reply to the unit's own echo, awaited and readable
    EchoReply {
        recovery: Option<u8>,
    },
    Create {
        create: Create,
        sequence: u32,
    },
    // a Create that is refused, and whom the reply goes to
    Refused {
        why: Refusal,
        to: u32,
        sequence: u32,
    },
    // what concerns the session whose control TEID the header has
    Session {
        teid: ControlTeid,
        sequence: u32,
        concern: Concern,
    },
}

// The reply to the unit's own echo: awaited and readable, or 9.
#[tactic(auto, unfolding(crate::specs::Asked::end_asked))]
fn end_asked(answer: Result<Option<u8>, Unreadable>, sequence: u32, node: Node) -> Asked
    ensures { result ≡ end_asked answer sequence node }
{
    let echo = node.echo;
    match answer {
        Ok(recovery) if echo.awaits(sequence) => Asked::EchoReply { recovery },
        _ => Asked::Silent(Number::NOT_AWAITED),
    }
}

#[tactic(auto, unfolding(crate::specs::Asked::session_asked))]
fn session_asked(h: HeaderCursor, concern: Concern) -> Asked
    ensures { result ≡ session_asked h concern }
{
    Asked::Session {
        teid: ControlTeid(h.teid),
        sequence: h.sequence,
        concern,
    }
}

// What a sound request asks for.
#[tactic(auto, unfolding(crate::specs::Asked::sound_asked))]
fn sound_asked(h: HeaderCursor, q: Request) -> Asked
    ensures { result ≡ sound_asked h q }
{
    match q {
        Request::Create(create) => Asked::Create {
            create,
            sequence: h.sequence,
        },
        Request::Modify(m) => session_asked(h, Concern::Modify(m)),
        Request::Delete(x) => session_asked(h, Concern::Delete(x)),
    }
}

// A decoded Modify or Delete: a refused one is answered by the session that it is for.
#[tactic(auto, unfolding(crate::specs::Asked::request_asked, crate::specs::Asked::change_refused))]
fn change_asked(reply: u8, h: HeaderCursor, d: Result<Request, Refusal>) -> Asked
    ensures { result ≡ request_asked h d (change_refused h reply) }
{
    match d {
        Ok(q) => sound_asked(h, q),
        Err(why) => session_asked(h, Concern::Refused { reply, why }),
    }
}

// A decoded Create: a refused one is answered as it stands.
#[tactic(auto, unfolding(crate::specs::Asked::request_asked, crate::specs::Asked::create_refused))]
fn create_asked(h: HeaderCursor, d: Result<Request, Refusal>, rest: &[u8]) -> Asked
    ensures { result ≡ request_asked h d (create_refused h rest.now) }
{
    match d {
        Ok(q) => sound_asked(h, q),
        Err(why) => Asked::Refused {
            why,
            to: wire_requests::reply_to(rest),
            sequence: h.sequence,
        },
    }
}

// By kind, with what is behind the header.
#[tactic(auto, unfolding(crate::specs::Asked::kind_asked))]
fn kind_asked(kind: Kind, h: HeaderCursor, rest: &[u8], node: Node) -> Asked
    ensures { result ≡ kind_asked kind h rest.now node }
{
    match kind {
        Kind::Modify => change_asked(
            MessageType::MODIFY_REPLY,
            h,
            wire_requests::read_modify(rest),
        ),
        Kind::Delete => change_asked(
            MessageType::DELETE_REPLY,
            h,
            wire_requests::read_delete(rest),
        ),
        Kind::Create => create_asked(h, wire_requests::read_create(node.plan, rest), rest),
        Kind::BearerReply => {
            session_asked(h, Concern::Bearer(wire_requests::read_bearer_reply(rest)))
        }
        Kind::Echo => Asked::Echo {
            recovery: wire_requests::read_echo(rest),
            sequence: h.sequence,
        },
        Kind::EchoReply => end_asked(wire_requests::read_echo_reply(rest), h.sequence, node),
        Kind::Other => Asked::Silent(Number::TAKEN),
    }
}

// The header's refusal, or on by kind.
#[tactic(auto, using(base_octets::specs::Refused::refused_some), unfolding(crate::specs::Asked::asked_of))]
pub fn asked_of(node: Node, d: &[u8]) -> Asked
    ensures { result ≡ asked_of node d.now }
{
    match wire_header::gate(d) {
        Ok(h) => {
            let rest = h.rest(d);
            kind_asked(Kind::from(h.kind), h, rest, node)
        }
        Err(Refused::OtherVersion) => Asked::Version,
        Err(why) => Asked::Silent(why.into()),
    }
}
