// The exported calls, as a host sees them: by their contracts and types alone. Each call made twice on equal arguments comes to the same, in the
// answer, the lent records, the store and the reply buffer; and each meets what the demands say of a call in a run (`Called`, in promise_demands).
// Kept: one function an exported call, each with what it is lent twice: the calls differ in what that is, and C names them.
#![tactic(auto)]

ghost use Rattle.std.specs.Prelude.{[], ◌≡◌};
ghost use Rattle.promise_hosts.specs.Agreement.{Agreed, AgreedStored, AgreedHanded, AgreedWritten};
ghost use Rattle.promise_demands.specs.Run.{control, user, down, tick, send, close, line};
ghost use Rattle.promise_demands.specs.Hosts.{Called};
ghost use Rattle.promise_hosts.specs.Known.{holding, storing, StartedFrom};

use call_down::Written;
use call_own::Answer;
use call_user::Handed;
use unit_plan::Plan;
use unit_session::Session;
use unit_store::Kept;
use unit_table::Node;

pub fn fresh_agrees(
    plan: Plan,
    recs: &mut [Session],
    other: &mut [Session],
    store: &mut [[u8; Kept::OCTETS]],
    kept: &mut [[u8; Kept::OCTETS]],
) -> (Answer, Answer)
    ensures { AgreedStored recs.old other.old store.old kept.old [] [] result recs.new other.new store.new kept.new [] [] }
{
    let a = lent_fresh::grugavorn_fresh(plan, recs, store);
    let b = lent_fresh::grugavorn_fresh(plan, other, kept);
    (a, b)
}

pub fn tick_agrees(
    node: Node,
    recs: &mut [Session],
    other: &mut [Session],
    store: &mut [[u8; Kept::OCTETS]],
    kept: &mut [[u8; Kept::OCTETS]],
) -> (Answer, Answer)
    ensures { AgreedStored recs.old other.old store.old kept.old [] [] result recs.new other.new store.new kept.new [] [] }
{
    let a = lent_own::grugavorn_tick(node, recs, store);
    let b = lent_own::grugavorn_tick(node, other, kept);
    (a, b)
}

pub fn close_agrees(
    node: Node,
    recs: &mut [Session],
    other: &mut [Session],
    store: &[[u8; Kept::OCTETS]],
    place: usize,
) -> (Answer, Answer)
    ensures { Agreed recs.old other.old [] [] result recs.new other.new [] [] }
{
    let a = lent_own::grugavorn_close(node, recs, store, place);
    let b = lent_own::grugavorn_close(node, other, store, place);
    (a, b)
}

pub fn send_agrees(
    node: Node,
    recs: &mut [Session],
    other: &mut [Session],
    store: &[[u8; Kept::OCTETS]],
    reply: &mut [u8],
    buffer: &mut [u8],
) -> (Answer, Answer)
    ensures { Agreed recs.old other.old reply.old buffer.old result recs.new other.new reply.new buffer.new }
{
    let a = lent_own::grugavorn_send(node, recs, store, reply);
    let b = lent_own::grugavorn_send(node, other, store, buffer);
    (a, b)
}

pub fn control_agrees(
    node: Node,
    recs: &mut [Session],
    other: &mut [Session],
    store: &mut [[u8; Kept::OCTETS]],
    kept: &mut [[u8; Kept::OCTETS]],
    d: &[u8],
    reply: &mut [u8],
    buffer: &mut [u8],
) -> (Answer, Answer)
    ensures { AgreedStored recs.old other.old store.old kept.old reply.old buffer.old result recs.new other.new store.new kept.new reply.new buffer.new }
{
    let a = lent_control::grugavorn_control(node, recs, store, d, reply);
    let b = lent_control::grugavorn_control(node, other, kept, d, buffer);
    (a, b)
}

pub fn line_agrees(
    node: Node,
    recs: &[Session],
    store: &[[u8; Kept::OCTETS]],
    place: usize,
    reply: &mut [u8],
    buffer: &mut [u8],
) -> (Answer, Answer)
    ensures { Agreed recs.now recs.now reply.old buffer.old result recs.now recs.now reply.new buffer.new }
{
    let a = lent_line::grugavorn_line(node, recs, store, place, reply);
    let b = lent_line::grugavorn_line(node, recs, store, place, buffer);
    (a, b)
}

pub fn user_agrees(
    node: Node,
    recs: &[Session],
    store: &[[u8; Kept::OCTETS]],
    d: &[u8],
    reply: &mut [u8],
    buffer: &mut [u8],
) -> (Handed, Handed)
    ensures { AgreedHanded reply.old buffer.old result reply.new buffer.new }
{
    let a = lent_user::grugavorn_user(node, recs, store, d, reply);
    let b = lent_user::grugavorn_user(node, recs, store, d, buffer);
    (a, b)
}

pub fn down_agrees(
    node: Node,
    recs: &[Session],
    store: &[[u8; Kept::OCTETS]],
    packet: &[u8],
    out: &mut [u8],
    buffer: &mut [u8],
) -> (Written, Written)
    ensures { AgreedWritten out.old buffer.old result out.new buffer.new }
{
    let a = lent_down::grugavorn_down(node, recs, store, packet, out);
    let b = lent_down::grugavorn_down(node, recs, store, packet, buffer);
    (a, b)
}

// Fresh state from a plan.
pub fn starts(plan: Plan, recs: &mut [Session], store: &mut [[u8; Kept::OCTETS]]) -> Answer
    ensures { StartedFrom recs.old store.old plan (storing result recs.new store.new) }
{
    lent_fresh::grugavorn_fresh(plan, recs, store)
}

// Take control datagram. That the datagram is made of octets, its type says.
pub fn takes_control(
    node: Node,
    recs: &mut [Session],
    store: &mut [[u8; Kept::OCTETS]],
    d: &[u8],
    reply: &mut [u8],
) -> Answer
    ensures { Called (control d.now reply.old) (holding node recs.old store.old) (storing result recs.new store.new) result.number }
{
    promise_demands::octets_by_type(d);
    lent_control::grugavorn_control(node, recs, store, d, reply)
}

// Take user datagram.
pub fn takes_user(
    node: Node,
    recs: &[Session],
    store: &[[u8; Kept::OCTETS]],
    d: &[u8],
    reply: &mut [u8],
) -> Handed
    ensures { Called (user d.now reply.old) (holding node recs.now store.now) (holding node recs.now store.now) result.number }
{
    lent_user::grugavorn_user(node, recs, store, d, reply)
}

// Take downlink packet.
pub fn takes_down(
    node: Node,
    recs: &[Session],
    store: &[[u8; Kept::OCTETS]],
    packet: &[u8],
    out: &mut [u8],
) -> Written
    ensures { Called (down packet.now out.old) (holding node recs.now store.now) (holding node recs.now store.now) result.number }
{
    lent_down::grugavorn_down(node, recs, store, packet, out)
}

// Tick.
pub fn ticks(node: Node, recs: &mut [Session], store: &mut [[u8; Kept::OCTETS]]) -> Answer
    ensures { Called tick (holding node recs.old store.old) (storing result recs.new store.new) result.number }
{
    lent_own::grugavorn_tick(node, recs, store)
}

// Send next due.
pub fn sends(
    node: Node,
    recs: &mut [Session],
    store: &[[u8; Kept::OCTETS]],
    reply: &mut [u8],
) -> Answer
    ensures { Called (send reply.old) (holding node recs.old store.now) (storing result recs.new store.now) result.number }
{
    lent_own::grugavorn_send(node, recs, store, reply)
}

// Close a place.
pub fn closes(
    node: Node,
    recs: &mut [Session],
    store: &[[u8; Kept::OCTETS]],
    place: usize,
) -> Answer
    ensures { Called (close place) (holding node recs.old store.now) (storing result recs.new store.now) result.number }
{
    lent_own::grugavorn_close(node, recs, store, place)
}

// Line of a place.
pub fn prints(
    node: Node,
    recs: &[Session],
    store: &[[u8; Kept::OCTETS]],
    place: usize,
    reply: &mut [u8],
) -> Answer
    ensures { Called (line place reply.old) (holding node recs.now store.now) (storing result recs.now store.now) result.number }
{
    lent_line::grugavorn_line(node, recs, store, place, reply)
}
