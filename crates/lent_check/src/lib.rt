// The check of the caller's lent records and of the lent store: they are read where they lie, one number of each, and nothing is copied but these numbers.
#![tactic(auto)]

ghost use Rattle.std.specs.Prelude.{true, ◌≡◌, ℕ};
ghost use Rattle.std.specs.Fn.{FnReturnsAt};
ghost use Rattle.unit_session.specs.declared.Session.{Session};
ghost use Rattle.unit_table.specs.Rules.{keeps_rules};
ghost use Rattle.call_store.specs.Stored.{keeps};
ghost use Rattle.step_keys.specs.Survey.{wait_of};
ghost use Rattle.step_check.specs.Digest.{digest_of};
ghost use Rattle.step_check.specs.Summary.{stands_of};
ghost use Rattle.step_check.specs.Findings.{findings_of};
ghost use Rattle.lent_check.specs.Read.{read_of};
ghost use Rattle.lent_check.specs.Kept.{checked_of};

use step_check::{Checked, Findings, Standing};
use unit_session::{Bounds, Session};
use unit_store::Kept;
use unit_table::Node;
use unit_tunnel::Unit;

// One number of each record, where there are as many as places and it is wanted; zeros otherwise.
// Kept: over `t.iter_mut().zip(recs)` the goal `returns` stayed open: while `t` is lent the invariant has no word for what it holds.
fn read<F: Fn(&Session) -> u64>(recs: &[Session], wanted: bool, f: F) -> [u64; Unit::PLACES]
    requires { F.IsAlwaysCallable f }
    ensures { (g : Session → ℕ) → ((s : Session) (n : ℕ) → FnReturnsAt F.Fn f s n → n ≡ g s) → result ≡ read_of g wanted recs.now }
{
    let mut t = [0; Unit::PLACES];
    if wanted & (recs.len() == Unit::PLACES) {
        for (i, s) in recs.iter().enumerate() {
            t[i] = f(s);
        }
    }
    t
}

// The digest of a record. It is read anew on each way, so that each loads only the fields that it tests.
fn digest(s: &Session, b: Bounds) -> u64
    ensures { result ≡ digest_of b s.now }
{
    if s.is_free() {
        return step_check::free_digest(s.free_ok());
    }
    step_check::taken_digest(b, *s)
}

// The digests of the records, zeros where there are not as many as places.
pub fn digests(recs: &[Session], b: Bounds) -> [u64; Unit::PLACES]
    ensures { result ≡ read_of (digest_of b) true recs.now }
{
    read(recs, true, |s| digest(s, b))
}

// What the records await, as keys; zeros where it is not wanted, or where there are not as many as places.
pub fn awaited(recs: &[Session], wanted: bool) -> [u64; Unit::PLACES]
    ensures { result ≡ read_of (λ s. wait_of s.own) wanted recs.now }
{
    read(recs, wanted, |s| step_keys::wait(s.own))
}

// What the digests of the records say, with the places that are looked for.
pub fn findings_lent(recs: &[Session], b: Bounds, key: u64) -> Findings
    ensures { result ≡ findings_of key (read_of (digest_of b) true recs.now) }
{
    let ds = digests(recs, b);
    step_check::findings_of(ds, key)
}

// How the records stand, with what their digests say. What they await is read only where one awaits a number.
pub fn checked(node: Node, recs: &[Session], key: u64) -> Checked
    ensures { result ≡ checked_of node key recs.now }
{
    let count = recs.len();
    let b = step_keys::bounds(node.plan);
    let findings = findings_lent(recs, b, key);
    let kept = step_check::kept_but(count, node, findings);
    let wanted = findings.summary.waiting();
    if wanted {
        let waits = awaited(recs, wanted);
        return step_check::checked_awaiting(kept, node, findings, waits);
    }
    step_check::checked_quiet(kept, findings)
}

// How they stand.
pub fn stands(node: Node, recs: &[Session]) -> Standing
    ensures { result ≡ stands_of node recs.now }
{
    checked(node, recs, 0).how
}

// Whether the records keep every rule.
pub fn keeps_rules(node: Node, recs: &[Session]) -> bool
    ensures { result ≡ keeps_rules node recs.now }
{
    step_check::stands_by(stands(node, recs))
}

// Whether the records and the store keep every rule.
// Kept: node, records and store come apart, as C lends them, and no other function here takes all three: a struct would be made for this one.
pub fn keeps(node: Node, recs: &[Session], store: &[[u8; Kept::OCTETS]]) -> bool
    ensures { result ≡ keeps node recs.now store.now }
{
    unit_store::store_ok(store) && keeps_rules(node, recs)
}
