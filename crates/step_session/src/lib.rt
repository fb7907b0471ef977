// What concerns one session, done on the record of the place that its control TEID names: what becomes of it, and the reply. No other record is
// looked at.
#![tactic(auto)]

ghost use Rattle.std.specs.Prelude.{◌≡◌};
ghost use Rattle.call_own.specs.Outcome.{bare_on};
ghost use Rattle.call_control.specs.Amends.{cause_on, moved_on, modify_on, freed_on, delete_on, bearer_on, concern_on, none_on, session_on};
ghost use Rattle.step_session.specs.Amended.{amended, amended_with, done_with, of_number};

use base_octets::Number;
use call_asked::Concern;
use unit_session::Session;
use unit_tunnel::ControlTeid;
use wire_fields::Refusal;
use wire_messages::MessageType;
use wire_requests::{Delete, Modify, Unreadable};

// Document 01's number, the reply's length, and the session's record as it is then.
#[derive(Clone, Copy)]
pub struct Amended {
    pub number: u8,
    pub size: usize,
    pub session: Session,
}

// A number alone: no reply.
#[tactic(auto, unfolding(crate::specs::Amended::amended, call_own::specs::Outcome::bare_on))]
fn bare_on(number: u8, s: Session) -> Amended
    ensures { result ≡ amended (bare_on number s) }
{
    Amended {
        number,
        size: 0,
        session: s,
    }
}

// A reply with a cause; the record as it was.
#[tactic(auto, unfolding(crate::specs::Amended::amended, crate::specs::Amended::done_with, call_control::specs::Amends::cause_on))]
fn cause_on(kind: u8, teid: u32, seq: u32, w: Refusal, s: Session, reply: &mut [u8]) -> Amended
    ensures { amended_with result reply.new ≡ done_with (cause_on kind teid seq w s) reply.old }
{
    Amended {
        number: w.cause,
        size: call_control::write_cause(kind, teid, seq, w, reply),
        session: s,
    }
}

// Modify: all tests pass, or nothing changes.
#[tactic(auto, unfolding(crate::specs::Amended::amended, crate::specs::Amended::done_with, call_control::specs::Amends::modify_on, call_control::specs::Amends::modify_by, call_control::specs::Amends::moved_on))]
fn modify_on(m: Modify, seq: u32, s: Session, reply: &mut [u8]) -> Amended
    ensures { amended_with result reply.new ≡ done_with (modify_on m seq s) reply.old }
{
    match wire_requests::moves_of(m, s.ebi) {
        Err(w) => cause_on(MessageType::MODIFY_REPLY, s.control, seq, w, s, reply),
        Ok(moves) => {
            let peers = call_control::peers_of(moves.control, moves.user, s);
            let size = call_control::write_modify(m.context, peers.control, seq, s.ebi, reply);
            Amended {
                number: Number::TAKEN,
                size,
                session: s.moved(peers),
            }
        }
    }
}

#[tactic(auto, unfolding(crate::specs::Amended::amended, crate::specs::Amended::done_with, call_control::specs::Amends::freed_on, call_control::specs::Amends::cause_octets, call_control::specs::Amends::fault_octets))]
fn freed_on(seq: u32, s: Session, reply: &mut [u8]) -> Amended
    ensures { amended_with result reply.new ≡ done_with (freed_on seq s) reply.old }
{
    let accepted = Refusal::bare(Refusal::ACCEPTED);
    let size = call_control::write_cause(
        MessageType::DELETE_REPLY,
        s.control,
        seq,
        accepted,
        reply,
    );
    Amended {
        number: Number::TAKEN,
        size,
        session: s.freed(),
    }
}

// Delete: another EBI than the session's is NOT_LIVE.
#[tactic(auto, unfolding(call_control::specs::Amends::delete_on))]
fn delete_on(d: Delete, seq: u32, s: Session, reply: &mut [u8]) -> Amended
    ensures { amended_with result reply.new ≡ done_with (delete_on d seq s) reply.old }
{
    if wire_requests::means_of(d, s.ebi) {
        return freed_on(seq, s, reply);
    }
    let w = call_control::not_live();
    cause_on(MessageType::DELETE_REPLY, s.control, seq, w, s, reply)
}

// The reply to a Delete Bearer: with the awaited number it frees the session.
#[tactic(auto, unfolding(call_control::specs::Amends::bearer_on))]
fn bearer_on(answer: Result<u8, Unreadable>, seq: u32, s: Session) -> Amended
    ensures { result ≡ amended (bearer_on answer seq s) }
{
    match answer {
        Ok(_) if s.waits_for(seq) => bare_on(Number::TAKEN, s.freed()),
        _ => bare_on(Number::NOT_AWAITED, s),
    }
}

// Of a live session.
#[tactic(auto, using(crate::specs::Amended::bare_is, crate::specs::Amended::bearer_bare), unfolding(call_control::specs::Amends::concern_on))]
fn concern_on(x: Concern, seq: u32, s: Session, reply: &mut [u8]) -> Amended
    ensures { amended_with result reply.new ≡ done_with (concern_on x seq s) reply.old }
{
    match x {
        Concern::Modify(m) => modify_on(m, seq, s, reply),
        Concern::Delete(d) => delete_on(d, seq, s, reply),
        Concern::Refused { reply: kind, why } => cause_on(kind, s.control, seq, why, s, reply),
        Concern::Bearer(answer) => bearer_on(answer, seq, s),
    }
}

// Where the number is no live session's: NOT_LIVE, to nobody.
#[tactic(auto, using(crate::specs::Amended::bare_is, crate::specs::Amended::bare_on_lem), unfolding(call_control::specs::Amends::none_on))]
fn none_on(x: Concern, seq: u32, s: Session, reply: &mut [u8]) -> Amended
    ensures { amended_with result reply.new ≡ done_with (none_on x seq s) reply.old }
{
    let kind = match x {
        Concern::Modify(_) => MessageType::MODIFY_REPLY,
        Concern::Delete(_) => MessageType::DELETE_REPLY,
        Concern::Refused { reply: kind, .. } => kind,
        Concern::Bearer(_) => return bare_on(Number::NOT_AWAITED, s),
    };
    cause_on(kind, 0, seq, call_control::not_live(), s, reply)
}

// The record is the session of the number, or there is none and it stays.
#[tactic(auto, unfolding(crate::specs::Amended::of_number))]
pub fn of_number(teid: ControlTeid, x: Concern, seq: u32, s: Session, reply: &mut [u8]) -> Amended
    ensures { amended_with result reply.new ≡ done_with (of_number teid.0 x seq s) reply.old }
{
    if unit_table::has_control(s, teid) {
        return concern_on(x, seq, s, reply);
    }
    none_on(x, seq, s, reply)
}
