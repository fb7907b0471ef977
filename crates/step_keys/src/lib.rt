// A record in numbers, for the check of a whole table: its key and what it awaits as numbers that must differ, its share of the packed counts,
// what of the plan it is held to; and the next sequence number that nobody awaits, found among such keys.
#![tactic(auto)]

ghost use Rattle.std.specs.Prelude.{◌≡◌, ◌+◌};
ghost use Rattle.unit_table.specs.Rules.{bounds_of};
ghost use Rattle.step_keys.specs.Check.{unpacked_of};
ghost use Rattle.step_keys.specs.Survey.{id_key, key_of, wait_of, point_unit, weight_of};
ghost use Rattle.unit_tunnel.specs.Numbering.{places};
ghost use Rattle.step_keys.specs.Unclaimed.{unclaimed, free_among};

use unit_plan::Plan;
use unit_session::{Bounds, OwnRequest, Session};
use unit_tunnel::Unit;

// The parts of a session's key and of the packed counts.
#[derive(Clone, Copy)]
pub struct Parts {}

impl Parts {
    // An IMSI has less than 55 bits, so that IMSI and EBI fit one number of 64.
    pub const IMSI_PART: u64 = 36028797018963968;

    // One in the count of the second, third and fourth access point, of four counts of 16 bits each.
    pub const SECOND_UNIT: u64 = 65536;

    pub const THIRD_UNIT: u64 = 4294967296;

    pub const FOURTH_UNIT: u64 = 281474976710656;
}

// The key of a record.
// Kept: 0 is no key, and no Option: `base_distinct` holds keys apart by that law, and a digest has the key in its low bits.
#[tactic(auto, unfolding(crate::specs::Survey::key_of))]
pub fn key(s: Session) -> u64
    ensures { result ≡ key_of s }
{
    if s.is_free() {
        return 0;
    }
    id_key(s.imsi, s.ebi)
}

// IMSI and EBI as the key that a session with them has.
pub fn id_key(imsi: u64, ebi: u8) -> u64
    ensures { result ≡ id_key imsi ebi }
{
    imsi % Parts::IMSI_PART * 256 + u64::from(ebi)
}

// What a request awaits, as a key.
// Kept: 0 is no key, and no Option: `base_distinct` holds the awaited numbers apart by that law.
#[tactic(auto, unfolding(crate::specs::Survey::wait_of))]
pub fn wait(r: OwnRequest) -> u64
    ensures { result ≡ wait_of r }
{
    if r.sends == 0 {
        return 0;
    }
    u64::from(r.number) + 1
}

#[tactic(auto, unfolding(crate::specs::Survey::point_unit))]
fn point_unit(point: u8) -> u64
    ensures { result ≡ point_unit point }
{
    match point {
        0 => 1,
        1 => Parts::SECOND_UNIT,
        2 => Parts::THIRD_UNIT,
        3 => Parts::FOURTH_UNIT,
        _ => 0,
    }
}

#[tactic(auto, unfolding(crate::specs::Survey::weight_of))]
pub fn weight(s: Session) -> u64
    ensures { result ≡ weight_of s }
{
    if s.is_free() {
        return 0;
    }
    point_unit(s.point)
}

// The four counts out of the packed one.
pub fn unpacked(counts: u64) -> [u16; 4]
    ensures { result ≡ unpacked_of counts }
{
    [
        (counts % Parts::SECOND_UNIT) as u16,
        (counts / Parts::SECOND_UNIT % Parts::SECOND_UNIT) as u16,
        (counts / Parts::THIRD_UNIT % Parts::SECOND_UNIT) as u16,
        (counts / Parts::FOURTH_UNIT % Parts::SECOND_UNIT) as u16,
    ]
}

// What a record is held to of the plan.
#[tactic(auto, unfolding(unit_table::specs::Rules::bounds_of))]
pub fn bounds(plan: Plan) -> Bounds
    ensures { result ≡ bounds_of plan }
{
    Bounds {
        parties: plan.parties(),
        resend: plan.resend,
        sends: plan.sends,
    }
}

// Whether nobody awaits a number: neither the echo nor a place.
#[tactic(auto, unfolding(crate::specs::Unclaimed::unclaimed, base_distinct::specs::Apart::same_key))]
fn unclaimed(k: u32, echo: u64, keys: &[u64]) -> bool
    ensures { result ≡ unclaimed k echo keys.now }
{
    let key = u64::from(k) + 1;
    let apart = base_distinct::absent(keys, key);
    !((key != 0) & (key == echo)) & apart
}

// The next number that nobody awaits, by what the echo and the records await, as keys.
pub fn free_among(next: u32, echo: u64, keys: &[u64]) -> u32
    ensures { result ≡ free_among (places + 2) next echo keys.now }
{
    let mut k = next;
    for _ in 0..Unit::PLACES + 2 {
        if unclaimed(k, echo, keys) {
            return k;
        }
        k = unit_table::after(k);
    }
    k
}
