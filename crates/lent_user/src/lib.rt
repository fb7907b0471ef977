// The user call, as firmware makes it: the caller lends its records and the store to be read where they lie. `take_user` hands the payload back as the part of the
// datagram that it is; at the C boundary, where no part can be handed back, its place and length are.
#![tactic(auto)]

ghost use Rattle.std.specs.Prelude.{◌≡◌, length};
ghost use Rattle.wire_user.specs.Part.{IsRest};
ghost use Rattle.call_user.specs.User.{took};
ghost use Rattle.call_store.specs.Stored.{user_stored};
ghost use Rattle.call_user.specs.Parcel.{parcel, parcel_of};

use call_user::{Delivery, Handed};
use unit_session::Session;
use unit_store::Kept;
use unit_table::Node;

// Take user datagram.
pub fn take_user<'a>(
    node: Node,
    recs: &[Session],
    store: &[[u8; Kept::OCTETS]],
    d: &'a [u8],
    reply: &mut [u8],
) -> Delivery<'a>
    ensures { (took result.number result.place result.size reply.new (user_stored node recs.now store.now d.now reply.old).start
        ≡ user_stored node recs.now store.now d.now reply.old)
        × IsRest result.payload d.entry (user_stored node recs.now store.now d.now reply.old).start }
{
    let kept = lent_check::keeps(node, recs, store);
    let at = call_user::place_in(d);
    let s = lent_records::read(recs, at);
    call_user::done(kept, node, s, d, reply)
}

// Take user datagram, answered in numbers.
pub fn grugavorn_user(
    node: Node,
    recs: &[Session],
    store: &[[u8; Kept::OCTETS]],
    d: &[u8],
    reply: &mut [u8],
) -> Handed
    ensures { parcel result reply.new ≡ parcel_of (length d.now) (user_stored node recs.now store.now d.now reply.old) }
{
    let taken = take_user(node, recs, store, d, reply);
    let octets = taken.payload.len();
    Handed {
        number: taken.number,
        place: taken.place,
        size: taken.size,
        start: d.len() - octets,
        octets,
    }
}
