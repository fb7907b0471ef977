// The caller's records, lent as a slice: how many of them a call changes, and single ones read, put and changed where they lie. No call
// copies the others.
#![tactic(auto)]

ghost use Rattle.std.specs.Prelude.{◌≡◌, get_or, set};
ghost use Rattle.lent_records.specs.Records.{whole_of};
ghost use Rattle.base_octets.specs.Places.{map_first};
ghost use Rattle.unit_session.specs.Session.{blank_at};
ghost use Rattle.unit_table.specs.Become.{changed_by};

use unit_session::Session;
use unit_table::Change;

// How many of the lent records are changed by a call that changes all: all where there are as many as places, else none.
pub fn whole(count: usize) -> usize
    ensures { result ≡ whole_of count }
{
    if count == unit_tunnel::Unit::PLACES {
        return count;
    }
    0
}

// The record at a place; a blank one where there is none.
pub fn read(recs: &[Session], i: usize) -> Session
    ensures { result ≡ get_or recs.now i (blank_at 0) }
{
    recs.get(i).copied().unwrap_or(Session::blank_at(0))
}

// One record replaced; where there is no such place, nothing.
pub fn put(recs: &mut [Session], i: usize, s: Session)
    ensures { recs.new ≡ set recs.old i s }
{
    if i < recs.len() {
        recs[i] = s;
    }
}

// The first n records changed, or all where there are fewer; the rest stay.
// Kept: a tick and a restart choose the change once and hand it on as a value: a closure would hold it, and the contract speak of both.
pub fn change_each(recs: &mut [Session], c: Change, n: usize)
    ensures { recs.new ≡ map_first (changed_by c) n recs.old }
{
    let m = n.min(recs.len());
    for s in &mut recs[..m] {
        *s = unit_table::changed_by(*s, c);
    }
}
