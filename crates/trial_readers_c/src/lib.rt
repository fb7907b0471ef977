// The readers of user and control datagrams, exported to C for hosts that compare them with readings of their own. Each is that of
// trial_readers, which promises the same.
// Kept: the exports stand beside those functions under C's names and have no code of their own.
#![tactic(auto)]

ghost use Rattle.std.specs.Prelude.{◌≡◌, ◌-◌, length};
ghost use Rattle.wire_user.specs.User.{user_of};
ghost use Rattle.trial_readers.specs.Said.{said, said_in};
ghost use Rattle.trial_readers.specs.Decoding.{head_numbers, create_in, modify_in, delete_in, carried_in};

use trial_readers::{Carried, Decoding, Head};

// A user datagram: the length of its payload; by pointer the number, and of a datagram that is taken what its header says.
#[unsafe(no_mangle)]
pub extern "C" fn gpdu_read(
    d: &[u8],
    number: &mut u8,
    kind: &mut u8,
    teid: &mut u32,
    sequence: &mut u16,
) -> usize
    ensures { (result ≡ length d.now - (user_of d.now).size)
        × ((number.new ≡ (user_of d.now).number)
        × (said kind.new teid.new sequence.new ≡ said_in d.now)) }
{
    trial_readers::gpdu_read(d, number, kind, teid, sequence)
}

// A control datagram's header.
#[unsafe(no_mangle)]
pub extern "C" fn requests_head(d: &[u8]) -> Head
    ensures { result ≡ head_numbers d.now }
{
    trial_readers::requests_head(d)
}

// The fields of a Create.
#[unsafe(no_mangle)]
pub extern "C" fn requests_create(s: &[u8]) -> Decoding
    ensures { result ≡ create_in s.now }
{
    trial_readers::requests_create(s)
}

// The fields of a Modify, for a session of that EBI.
#[unsafe(no_mangle)]
pub extern "C" fn requests_modify(s: &[u8], ebi: u8) -> Decoding
    ensures { result ≡ modify_in s.now ebi }
{
    trial_readers::requests_modify(s, ebi)
}

// The fields of a Delete, for a session of that EBI.
#[unsafe(no_mangle)]
pub extern "C" fn requests_delete(s: &[u8], ebi: u8) -> Decoding
    ensures { result ≡ delete_in s.now ebi }
{
    trial_readers::requests_delete(s, ebi)
}

// What the fields of an echo and of the replies carry.
#[unsafe(no_mangle)]
pub extern "C" fn requests_carried(s: &[u8]) -> Carried
    ensures { result ≡ carried_in s.now }
{
    trial_readers::requests_carried(s)
}
