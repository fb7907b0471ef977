// The customer's three demands, each a function with nothing in it, whose contract is the theorem.
#![tactic(auto)]

ghost use Rattle.promise_demands.specs.Demands.{Demand1, Demand2, Demand3};
ghost use Rattle.std.specs.Prelude.{true, ◌≡◌};
ghost use Rattle.base_octets.specs.Every.{every};
ghost use Rattle.base_octets.specs.BigEndian.{is_octet};

// Every datagram, table and plan gets an answer, and the call ends; for each refusal it is fixed which number comes back, and what the reply
// buffer and the table hold.
pub fn every_input_is_answered()
    ensures { Demand1 }
{}

// Reading and writing follow TS 29.274 and TS 29.281 in document 01's part; a user packet is handed up only under a live user number, as
// exactly the octets it carried.
pub fn reading_and_writing_follow_the_standards()
    ensures { Demand2 }
{}

// From any table that keeps its rules under an accepted plan, of which a fresh one is one, after any run of calls: no access point is over its
// ceiling; a sound new create for one under its guarantee is accepted; want of room comes exactly when the sharing rule says so; a freed place
// is room at once; a Recovery that came late frees none.
pub fn a_rented_place_stays_rented()
    ensures { Demand3 }
{}

// A call, before which the type of every lent slice is told.
fn nothing() {}

// A datagram is made of octets by its type: the one thing that a run asks of its datagrams (specs/Run.antt) no host owes.
pub fn octets_by_type(d: &[u8])
    ensures { every is_octet d.now ≡ true }
{
    nothing();
}
