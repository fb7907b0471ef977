// Fresh state from a plan, as firmware asks for it: the caller's records and the store are made zero where they lie, the node comes back by value. A crate of its
// own, so that it is compiled without the check of a table, which takes three times its stack.
#![tactic(auto)]

ghost use Rattle.std.specs.Prelude.{[], ◌≡◌};
ghost use Rattle.call_own.specs.Outcome.{outcome};
ghost use Rattle.call_store.specs.Stored.{stored, fresh_stored};

use call_own::Answer;
use unit_plan::Plan;
use unit_session::Session;
use unit_store::Kept;
use unit_table::Change;

// Fresh state from a plan.
pub fn grugavorn_fresh(plan: Plan, recs: &mut [Session], store: &mut [[u8; Kept::OCTETS]]) -> Answer
    ensures { stored (outcome result recs.new []) store.new ≡ fresh_stored plan recs.old store.old }
{
    let count = call_store::count_with(recs.len(), store.len());
    let n = lent_records::whole(count);
    lent_records::change_each(recs, Change::Blank, n);
    let rows = call_store::cleared_rows(count);
    unit_store::clear(store, rows);
    call_own::fresh_by(count, plan)
}
