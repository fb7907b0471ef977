// The sharing rule: which access point a new session is admitted for, given how many live sessions each has.
#![tactic(auto)]

ghost use Rattle.std.specs.Prelude.{max, ◌≡◌, ◌≤◌, get_or, length, sum_by};
ghost use Rattle.std.specs.List.{list_all, zip};
ghost use Rattle.unit_sharing.specs.Sharing.{share_of, admits, under_ceilings, within_ok, shared_with, under_with};

use unit_plan::{AccessPoint, Plan};

// The larger of live sessions and guarantee, added over access points, each beside its live sessions.
fn shared(points: &[AccessPoint], live: &[u16]) -> u32
    requires { length points.now ≤ 4 }
    ensures { result ≡ sum_by shared_with (zip points.now live.now) }
{
    points
        .iter()
        .zip(live)
        .map(|(p, n)| u32::from(p.guarantee.max(*n)))
        .sum()
}

// Whether each is under its ceiling.
fn all_under(points: &[AccessPoint], live: &[u16]) -> bool
    ensures { result ≡ list_all under_with (zip points.now live.now) }
{
    points.iter().zip(live).all(|(p, n)| *n <= p.ceiling)
}

// S: the sum over all access points of the larger of their live sessions and their guarantee.
pub fn share_of(plan: Plan, live: [u16; 4]) -> u32
    ensures { result ≡ share_of plan (λ a. get_or live a 0) }
{
    shared(plan.used(), &live)
}

// Whether a new session of an access point is admitted.
pub fn admits(plan: Plan, live: [u16; 4], point: usize) -> bool
    ensures { result ≡ admits plan (λ a. get_or live a 0) point }
{
    if plan.parties() <= point {
        return false;
    }
    let p = plan.points[point];
    let u = live[point];
    let s = share_of(plan, live);
    (u < p.ceiling) & ((u < p.guarantee) | ((s as usize) < unit_tunnel::Unit::PLACES))
}

// The ceilings alone.
fn under_ceilings(plan: Plan, live: [u16; 4]) -> bool
    ensures { result ≡ under_ceilings plan (λ a. get_or live a 0) }
{
    all_under(plan.used(), &live)
}

// Whether each access point is within its ceiling, and S within the places.
#[tactic(auto, unfolding(crate::specs::Sharing::within_ok, unit_tunnel::specs::Numbering::places))]
pub fn within(plan: Plan, live: [u16; 4]) -> bool
    ensures { result ≡ within_ok plan (λ a. get_or live a 0) }
{
    under_ceilings(plan, live) & (share_of(plan, live) as usize <= unit_tunnel::Unit::PLACES)
}
