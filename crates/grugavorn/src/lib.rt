// The library for firmware: the calls on lent records, exported to C under the names of include/grugavorn.h. Each is that of its crate, which
// promises the same.
// Kept: the exports stand beside those functions under C's names and have no code of their own.
#![tactic(auto)]

ghost use Rattle.std.specs.Prelude.{[], ◌≡◌, length};
ghost use Rattle.call_own.specs.Outcome.{outcome};
ghost use Rattle.call_user.specs.Parcel.{parcel, parcel_of};
ghost use Rattle.call_down.specs.Down.{output};
ghost use Rattle.call_line.specs.Where.{peer_at, address_at};
ghost use Rattle.call_store.specs.Stored.{stored, fresh_stored, control_stored, tick_stored, close_stored, send_stored, user_stored, down_stored, line_stored};

use call_down::Written;
use call_own::Answer;
use call_user::Handed;
use unit_plan::Plan;
use unit_session::Session;
use unit_store::Kept;
use unit_table::Node;

// Fresh state from a plan.
#[unsafe(no_mangle)]
pub extern "C" fn grugavorn_fresh(
    plan: Plan,
    recs: &mut [Session],
    store: &mut [[u8; Kept::OCTETS]],
) -> Answer
    ensures { stored (outcome result recs.new []) store.new ≡ fresh_stored plan recs.old store.old }
{
    lent_fresh::grugavorn_fresh(plan, recs, store)
}

// Take control datagram.
#[unsafe(no_mangle)]
pub extern "C" fn grugavorn_control(
    node: Node,
    recs: &mut [Session],
    store: &mut [[u8; Kept::OCTETS]],
    d: &[u8],
    reply: &mut [u8],
) -> Answer
    ensures { stored (outcome result recs.new reply.new) store.new ≡ control_stored node recs.old store.old d.now reply.old }
{
    lent_control::grugavorn_control(node, recs, store, d, reply)
}

// Tick.
#[unsafe(no_mangle)]
pub extern "C" fn grugavorn_tick(
    node: Node,
    recs: &mut [Session],
    store: &mut [[u8; Kept::OCTETS]],
) -> Answer
    ensures { stored (outcome result recs.new []) store.new ≡ tick_stored node recs.old store.old }
{
    lent_own::grugavorn_tick(node, recs, store)
}

// Close a place.
#[unsafe(no_mangle)]
pub extern "C" fn grugavorn_close(
    node: Node,
    recs: &mut [Session],
    store: &[[u8; Kept::OCTETS]],
    place: usize,
) -> Answer
    ensures { outcome result recs.new [] ≡ close_stored node recs.old store.now place }
{
    lent_own::grugavorn_close(node, recs, store, place)
}

// Send next due.
#[unsafe(no_mangle)]
pub extern "C" fn grugavorn_send(
    node: Node,
    recs: &mut [Session],
    store: &[[u8; Kept::OCTETS]],
    reply: &mut [u8],
) -> Answer
    ensures { outcome result recs.new reply.new ≡ send_stored node recs.old store.now reply.old }
{
    lent_own::grugavorn_send(node, recs, store, reply)
}

// Take user datagram, answered in numbers.
#[unsafe(no_mangle)]
pub extern "C" fn grugavorn_user(
    node: Node,
    recs: &[Session],
    store: &[[u8; Kept::OCTETS]],
    d: &[u8],
    reply: &mut [u8],
) -> Handed
    ensures { parcel result reply.new ≡ parcel_of (length d.now) (user_stored node recs.now store.now d.now reply.old) }
{
    lent_user::grugavorn_user(node, recs, store, d, reply)
}

// Take downlink packet.
#[unsafe(no_mangle)]
pub extern "C" fn grugavorn_down(
    node: Node,
    recs: &[Session],
    store: &[[u8; Kept::OCTETS]],
    packet: &[u8],
    out: &mut [u8],
) -> Written
    ensures { output result out.new ≡ down_stored node recs.now store.now packet.now out.old }
{
    lent_down::grugavorn_down(node, recs, store, packet, out)
}

// Line of a place.
#[unsafe(no_mangle)]
pub extern "C" fn grugavorn_line(
    node: Node,
    recs: &[Session],
    store: &[[u8; Kept::OCTETS]],
    place: usize,
    reply: &mut [u8],
) -> Answer
    ensures { outcome result recs.now reply.new ≡ line_stored node recs.now store.now place reply.old }
{
    lent_line::grugavorn_line(node, recs, store, place, reply)
}

// The control address of the peer of a place's session.
#[unsafe(no_mangle)]
pub extern "C" fn grugavorn_peer(recs: &[Session], place: usize) -> u32
    ensures { result ≡ peer_at recs.now place }
{
    lent_line::grugavorn_peer(recs, place)
}

// The address of a place's session.
#[unsafe(no_mangle)]
pub extern "C" fn grugavorn_address(node: Node, place: usize) -> u32
    ensures { result ≡ address_at node place }
{
    lent_line::grugavorn_address(node, place)
}
