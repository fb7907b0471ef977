// Tick, close and send next due, as firmware makes these calls: the caller lends its records and the store, the node goes in and comes back by value.
#![tactic(auto)]

ghost use Rattle.std.specs.Prelude.{[], ◌≡◌};
ghost use Rattle.call_own.specs.Outcome.{outcome};
ghost use Rattle.call_store.specs.Stored.{stored, tick_stored, close_stored, send_stored};

use call_own::Answer;
use unit_session::Session;
use unit_store::Kept;
use unit_table::Node;

// Tick.
pub fn grugavorn_tick(node: Node, recs: &mut [Session], store: &mut [[u8; Kept::OCTETS]]) -> Answer
    ensures { stored (outcome result recs.new []) store.new ≡ tick_stored node recs.old store.old }
{
    let sound = unit_store::store_ok(store);
    let stands = lent_check::stands(node, recs);
    let how = step_own::how_with(sound, stands);
    let c = step_own::tick_change(node);
    let n = step_own::tick_count(how, node);
    lent_records::change_each(recs, c, n);
    let rows = step_own::aged_count(how);
    unit_store::take_life(store, false, rows);
    step_own::tick_answer(how, n, node)
}

// Close a place.
pub fn grugavorn_close(
    node: Node,
    recs: &mut [Session],
    store: &[[u8; Kept::OCTETS]],
    place: usize,
) -> Answer
    ensures { outcome result recs.new [] ≡ close_stored node recs.old store.now place }
{
    let kept = lent_check::keeps(node, recs, store);
    let s = lent_records::read(recs, place);
    let c = step_own::closed_by(kept, s);
    lent_records::put(recs, place, c);
    step_own::close_answer(kept, node, place, s)
}

// Send next due.
pub fn grugavorn_send(
    node: Node,
    recs: &mut [Session],
    store: &[[u8; Kept::OCTETS]],
    reply: &mut [u8],
) -> Answer
    ensures { outcome result recs.new reply.new ≡ send_stored node recs.old store.now reply.old }
{
    let sound = unit_store::store_ok(store);
    let checked = lent_check::checked(node, recs, 0);
    let awaiting = step_own::awaiting_in(checked);
    let waits = lent_check::awaited(recs, awaiting);
    let due = step_own::next_due(reply.len(), node, checked, waits);
    let p = step_own::due_with(sound, reply.len(), due);
    let place = step_own::place_of(p);
    let s = lent_records::read(recs, place);
    let t = step_own::sent_by(p, node, s);
    lent_records::put(recs, place, t);
    step_own::send_answer(p, node, s, reply)
}
