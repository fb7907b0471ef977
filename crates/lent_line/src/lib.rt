// What is read of a place, as firmware asks for it: its line, the peer of its session, its address. The caller lends its records and the store. A crate of its own,
// so that the user call is compiled without it: what two calls share is not laid into either.
#![tactic(auto)]

ghost use Rattle.std.specs.Prelude.{◌≡◌, ltb};
ghost use Rattle.unit_tunnel.specs.Numbering.{places};
ghost use Rattle.call_own.specs.Outcome.{outcome, back};
ghost use Rattle.call_line.specs.Line.{line_by};
ghost use Rattle.call_store.specs.Stored.{line_stored};
ghost use Rattle.call_line.specs.Where.{peer_at, address_at};

use base_octets::Number;
use call_own::{Answer, Span};
use unit_session::Session;
use unit_store::Kept;
use unit_table::Node;
use unit_tunnel::Unit;

// The call on one record, once it is known whether the rules are kept.
pub fn line_by(kept: bool, node: Node, place: usize, s: Session, reply: &mut [u8]) -> Answer
    ensures { back result reply.new ≡ line_by kept (ltb place places) node place s reply.old }
{
    if reply.len() < Answer::LEAST_REPLY {
        return Answer::bare(Number::REPLY_SHORT, node);
    }
    if !kept {
        return Answer::bare(Number::RULES_BROKEN, node);
    }
    if Unit::PLACES <= place {
        return Answer::bare(Number::NO_PLACE, node);
    }
    let size = call_line::put_line(reply, place, s);
    Answer {
        number: Number::TAKEN,
        size,
        node,
        span: Span::NONE,
    }
}

// Line of a place.
pub fn grugavorn_line(
    node: Node,
    recs: &[Session],
    store: &[[u8; Kept::OCTETS]],
    place: usize,
    reply: &mut [u8],
) -> Answer
    ensures { outcome result recs.now reply.new ≡ line_stored node recs.now store.now place reply.old }
{
    let kept = lent_check::keeps(node, recs, store);
    let s = lent_records::read(recs, place);
    line_by(kept, node, place, s, reply)
}

// The control address of the peer of a place's session.
pub fn grugavorn_peer(recs: &[Session], place: usize) -> u32
    ensures { result ≡ peer_at recs.now place }
{
    let s = lent_records::read(recs, place);
    call_line::peer_of(s)
}

// The address of a place's session.
pub fn grugavorn_address(node: Node, place: usize) -> u32
    ensures { result ≡ address_at node place }
{
    call_line::address_at(node, place)
}
