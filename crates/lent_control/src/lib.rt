// The control call, as firmware makes it: the caller lends its records and the store, the node goes in and comes back by value. What the datagram asks
// for is done on the two records that it can concern, where they lie, unless the store has the reply.
#![tactic(auto)]

ghost use Rattle.std.specs.Prelude.{◌≡◌};
ghost use Rattle.call_own.specs.Outcome.{outcome};
ghost use Rattle.call_store.specs.Stored.{stored, control_stored};
ghost use Rattle.step_control.specs.Step.{concerned_put};
ghost use Rattle.lent_control.specs.Lent.{taken_answer, basis_lent, concerned_lent};

use call_asked::Asked;
use call_own::Answer;
use call_store::Ask;
use step_control::{Basis, Concerned, Taken};
use unit_session::Session;
use unit_store::Kept;
use unit_table::{Change, Node};

#[tactic(auto, unfolding(crate::specs::Lent::taken_answer))]
fn taken_answer(node: Node, p: Concerned, o: Taken, size: usize) -> Answer
    ensures { result ≡ taken_answer node p o size }
{
    Answer {
        number: o.number,
        size,
        node: step_control::node_after(node, o),
        span: step_control::changed_places(p, o),
    }
}

// The records are checked, and what was found makes the basis.
#[tactic(auto, unfolding(crate::specs::Lent::basis_lent))]
fn basis_lent(node: Node, recs: &[Session], asked: Asked, room: usize) -> Basis
    ensures { result ≡ basis_lent node recs.now asked room }
{
    let checked = lent_check::checked(node, recs, step_control::key_of(asked));
    step_control::basis_of(checked, node, asked, room)
}

// The two records that are concerned, found and read.
#[tactic(auto, unfolding(crate::specs::Lent::concerned_lent, step_control::specs::Step::concerned_in))]
fn concerned_lent(node: Node, recs: &[Session], asked: Asked, room: usize) -> Concerned
    ensures { result ≡ concerned_lent node recs.now asked room }
{
    let g = basis_lent(node, recs, asked, room);
    let s = lent_records::read(recs, g.old);
    let v = step_control::verdict_in(g, node, asked, s);
    let t = lent_records::read(recs, step_control::opens_at(v));
    step_control::concerned_of(g, s, v, t)
}

// The two put back; where the exchange restarted all others are freed first.
#[tactic(auto, unfolding(step_control::specs::Step::concerned_put))]
fn put_concerned(recs: &mut [Session], p: Concerned, o: Taken)
    ensures { recs.new ≡ concerned_put recs.old p o }
{
    lent_records::change_each(recs, Change::Free, step_control::freed_count(p));
    lent_records::put(recs, p.old, o.old);
    lent_records::put(recs, p.new, o.new);
}

// Take control datagram: it is read, and what it asks of the store is found; what is left to ask of the records is done, and then what becomes of
// the store.
pub fn grugavorn_control(
    node: Node,
    recs: &mut [Session],
    store: &mut [[u8; Kept::OCTETS]],
    d: &[u8],
    reply: &mut [u8],
) -> Answer
    ensures { stored (outcome result recs.new reply.new) store.new ≡ control_stored node recs.old store.old d.now reply.old }
{
    let asked = call_asked::asked_of(node, d);
    let ask = call_store::ask_of(store, d);
    let wish = call_store::wish_of(store, ask, asked);
    let p = concerned_lent(node, recs, wish, reply.len());
    let o = step_control::taken_on(node, wish, p, reply);
    put_concerned(recs, p, o);
    let size = call_store::settled(store, ask, p.kept, p.all, o.number, o.size, reply);
    taken_answer(node, p, o, size)
}
