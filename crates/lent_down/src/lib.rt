// The downlink call, as firmware makes it: the caller lends its records and the store to be read where they lie, the packet, and the buffer that the G-PDU is
// written into. A crate of its own, so that the other calls are compiled without it.
#![tactic(auto)]

ghost use Rattle.std.specs.Prelude.{◌≡◌};
ghost use Rattle.call_down.specs.Down.{output};
ghost use Rattle.call_store.specs.Stored.{down_stored};

use call_down::Written;
use unit_session::Session;
use unit_store::Kept;
use unit_table::Node;

// Take downlink packet.
pub fn grugavorn_down(
    node: Node,
    recs: &[Session],
    store: &[[u8; Kept::OCTETS]],
    packet: &[u8],
    out: &mut [u8],
) -> Written
    ensures { output result out.new ≡ down_stored node recs.now store.now packet.now out.old }
{
    let kept = lent_check::keeps(node, recs, store);
    let place = call_down::place_for(node, packet);
    let s = lent_records::read(recs, place);
    call_down::down_by(kept, place, s, packet, out)
}
