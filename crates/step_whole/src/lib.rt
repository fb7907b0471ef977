// The control call on the two records that it can concern equals its definition on the whole table. The function has nothing in it: its contract is
// the theorem.
#![tactic(auto)]

ghost use Rattle.step_whole.specs.Whole.{InPlace};

// Whatever goes by what is to be seen of the records comes to what take control datagram says.
pub fn in_place_is_whole()
    ensures { InPlace }
{}
