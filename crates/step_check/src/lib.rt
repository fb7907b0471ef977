// Whether a table keeps its rules, from one number for each record: a record's digest has its key, its access point, and whether its
// request is due and it awaits a number. Whoever lends records reads them once, where they lie; the rest of the check is done on the
// digests, and so are searches for a place.
#![tactic(auto)]

ghost use Rattle.std.specs.Prelude.{◌≡◌, ℕ, ◌-◌, ◌<◌, ◌≤◌, true, false, not, ◌&&◌, map, length, drop, ◌==◌, position};
ghost use Rattle.base_octets.specs.Choice.{pick};
ghost use Rattle.base_distinct.specs.Lacks.{lacks};
ghost use Rattle.step_check.specs.Digest.{free_digest, taken_digest, key_in, idle_in, mark_of};
ghost use Rattle.step_check.specs.Summary.{summary_of, kept_but, waits_apart, checked_as, standing_by, stands_by, waiting_of};
ghost use Rattle.unit_tunnel.specs.Numbering.{places};
ghost use Rattle.step_check.specs.Findings.{due_in, findings_of, free_above};
ghost use Rattle.step_check.specs.declared.Standing.{Standing};
ghost use Rattle.step_check.specs.declared.Standing.TheVariants.{Broken, Quiet, Awaiting};
ghost use Rattle.step_check.specs.Over.{enters_of, marks_of, flags_in, tallied_in, packed_in};

use step_keys::Parts;
use unit_session::{Bounds, OwnRequest, Session};
use unit_table::Node;
use unit_tunnel::Unit;

// What the digests of a table say: every record good and no key twice, no number awaited, nothing due, the counts packed.
#[derive(Clone, Copy)]
pub struct Summary {
    pub good: bool,
    pub quiet: bool,
    pub idle: bool,
    pub counts: u64,
}

// With it the places that are looked for: that of a key and the first free one, where a key is asked for, and the first whose request is
// due; past the last where there is none.
// Kept: at a place past the last `lent_records` reads and puts nothing: an Option would be turned into that place wherever it is used.
#[derive(Clone, Copy)]
pub struct Findings {
    pub summary: Summary,
    pub old: usize,
    pub free: usize,
    pub due: usize,
}

// How a table stands: a rule is broken; or all are kept, and no place awaits a number; or all are kept, and one awaits.
#[derive(Clone, Copy, Debug, PartialEq, Eq)]
pub enum Standing {
    Broken,
    Quiet,
    Awaiting,
}

impl From<u8> for Standing {
    ghost from_gives = { λ n how. how ≡ standing_by n };

    // By a number: 0 is a broken rule, 1 a table in which no place awaits a number, any other one in which a place does.
    #[tactic(auto, unfolding(crate::specs::Summary::standing_by))]
    fn from(n: u8) -> Standing {
        match n {
            0 => Standing::Broken,
            1 => Standing::Quiet,
            _ => Standing::Awaiting,
        }
    }
}

// Kept: key, flags and access point in one number are what one pass compares; a struct of them takes more of fixed memory, or three arrays.
impl Summary {
    // the bits of a digest: the key has the low ones, the access point the top two
    pub const KEYS: u64 = 288230376151711744;

    pub const DUE: u64 = 576460752303423488;

    pub const AWAITS: u64 = 1152921504606846976;

    pub const POINT: u64 = 4611686018427387904;

    // a mark goes by the low 32 bits
    const WORDS: u64 = 4294967296;

    // what of a request under way stands above its sends and its timer: the bits of its number past the range
    pub const PAST_RANGE: u64 = 36028797018963968;

    // the digest of a record that is not as the rules want it
    pub const SPOILT: u64 = 18446744073709551615;

    // Whether the awaited numbers are still to be read.
    #[tactic(auto, unfolding(crate::specs::Summary::waiting_of))]
    pub fn waiting(self) -> bool
        ensures { result ≡ waiting_of self }
    {
        self.good & !self.quiet
    }
}

// The digest of a free record, by whether it is as a free one has to be.
#[tactic(auto, unfolding(crate::specs::Digest::free_digest, crate::specs::Digest::spoilt))]
pub fn free_digest(ok: bool) -> u64
    ensures { result ≡ free_digest ok }
{
    if ok {
        return 0;
    }
    Summary::SPOILT
}

// The digest of a record that is not free. Most are live with nothing under way, so this is asked first: the bits of the number past its
// range, the sends and the timer, as one number.
pub fn taken_digest(b: Bounds, s: Session) -> u64
    ensures { result ≡ taken_digest b s }
{
    let counted = s.usage <= unit_tunnel::Holder::LAST_USE;
    let held = s.held(b);
    if !(counted & held) {
        return Summary::SPOILT;
    }
    let own = s.own;
    let key = step_keys::key(s);
    let quiet = key.wrapping_add(u64::from(s.point % 4) * Summary::POINT);
    let under_way = u64::from(own.number / OwnRequest::NUMBERS) * Summary::PAST_RANGE
        | u64::from(own.sends) * 256
        | u64::from(own.timer);
    if under_way == 0 {
        if s.state == Session::LIVE {
            return quiet;
        }
        if s.state == Session::CLOSING {
            return quiet.wrapping_add(Summary::DUE);
        }
        return Summary::SPOILT;
    }
    let fits = own.fits(0, b.resend, b.sends);
    if !(fits & (s.state == Session::CLOSING)) {
        return Summary::SPOILT;
    }
    if own.timer == 0 {
        return quiet.wrapping_add(Summary::DUE + Summary::AWAITS);
    }
    quiet.wrapping_add(Summary::AWAITS)
}

// The key in a digest; 0 is none.
pub fn key_in(d: u64) -> u64
    ensures { result ≡ key_in d }
{
    d % Summary::KEYS
}

// Whether a digest's record has a request that is due.
pub fn due_in(d: u64) -> bool
    ensures { result ≡ not (idle_in d) }
{
    (d % Summary::KEYS != 0) & (d / Summary::DUE % 2 != 0)
}

// Whether x is the key of no digest from a place on. The loop goes over all of them: so it needs no test before its first turn where it is
// not called for.
fn lacks(ds: &[u64], x: u64, from: usize) -> bool
    ensures { result ≡ lacks x (drop from (map key_in ds.now)) }
{
    for (i, d) in ds.iter().enumerate() {
        if (from <= i) & (x == key_in(*d)) {
            return false;
        }
    }
    true
}

// The mark of a key.
#[tactic(auto, unfolding(crate::specs::Digest::mark_of))]
fn mark(x: u64) -> usize
    ensures { result ≡ mark_of x }
{
    (x % Summary::WORDS * 1023530803 % Summary::WORDS / 4194304) as usize
}

// Whether a digest's key is none of those from a place on; it is marked. It is looked for only where its mark was met before.
fn enters(ds: &[u64], d: u64, from: usize, marks: &mut [u8; 1024]) -> bool
    requires { (key_in d == 0) ≡ false }
    ensures { (result ≡ enters_of (key_in d) (drop from (map key_in ds.now)) marks.old)
        × (marks.new ≡ marks_of (key_in d) marks.old) }
{
    let h = mark(d);
    if marks[h] == 0 {
        marks[h] = 1;
        return true;
    }
    let key = key_in(d);
    lacks(ds, key, from)
}

// A digest entered: its flags gathered, its access point counted, its key marked. The answer is whether the key is none of those from a
// place on. A digest without a key is that of a free place.
fn note(
    ds: &[u64],
    d: u64,
    from: usize,
    marks: &mut [u8; 1024],
    flags: &mut u64,
    tallies: &mut [u64; 4],
) -> bool
    ensures { (result ≡ enters_of (key_in d) (drop from (map key_in ds.now)) marks.old)
        × ((marks.new ≡ marks_of (key_in d) marks.old)
        × ((flags.new ≡ flags_in d flags.old) × (tallies.new ≡ tallied_in d tallies.old))) }
{
    let key = key_in(d);
    if key == 0 {
        return true;
    }
    *flags = d | *flags;
    let a = (d / Summary::POINT) as usize;
    tallies[a] = tallies[a].wrapping_add(1);
    enters(ds, d, from, marks)
}

// Four tallies as one number.
#[tactic(auto, unfolding(crate::specs::Over::packed_in))]
fn packed_in(tallies: [u64; 4]) -> u64
    ensures { result ≡ packed_in tallies }
{
    tallies[0] % 65536
        + tallies[1] % 65536 * Parts::SECOND_UNIT
        + tallies[2] % 65536 * Parts::THIRD_UNIT
        + tallies[3] % 65536 * Parts::FOURTH_UNIT
}

// How many of the digests below n are passed over at once: eight or one, where they are those of free places.
fn passed(ds: &[u64; Unit::PLACES], n: usize) -> usize
    requires { (0 < n) × (n ≤ length ds.now) }
    ensures { (result ≤ n) × (free_above ds.now n ≡ true → free_above ds.now (n - result) ≡ true) }
{
    if 8 <= n {
        let low = ds[n - 8] | ds[n - 7] | ds[n - 6] | ds[n - 5];
        let high = ds[n - 4] | ds[n - 3] | ds[n - 2] | ds[n - 1];
        if low | high == 0 {
            return 8;
        }
    }
    if ds[n - 1] == 0 {
        return 1;
    }
    0
}

// A place from which on all are free. The steps are uneven, so that the loop stays a loop in the machine's code.
// Kept: 129, 83, 39 instructions with 0, 32, 64 taken, `rposition` 171, 91, 14: a call on an empty unit is 42 of 2,713 less (1.5 in 100), a full 25 more.
fn used(ds: &[u64; Unit::PLACES]) -> usize
    ensures { (result ≤ length ds.now) × (free_above ds.now result ≡ true) }
{
    let mut n: usize = Unit::PLACES;
    while 0 < n {
        let k = passed(ds, n);
        if k == 0 {
            return n;
        }
        n -= k;
    }
    0
}

// One pass over the digests below n, from the last to the first; those from there on are of free places.
fn summary_below(ds: &[u64; Unit::PLACES], n: usize) -> Summary
    requires { (n ≤ length ds.now) × (free_above ds.now n ≡ true) }
    ensures { result ≡ summary_of ds.now }
{
    let mut marks = [0u8; 1024];
    let mut flags: u64 = 0;
    let mut tallies = [0u64; 4];
    for i in (0..n).rev() {
        let new = note(ds, ds[i], i + 1, &mut marks, &mut flags, &mut tallies);
        if !new {
            return Summary {
                good: false,
                quiet: false,
                idle: false,
                counts: 0,
            };
        }
    }
    let counts = packed_in(tallies);
    Summary {
        good: flags / Summary::KEYS % 2 == 0,
        quiet: flags / Summary::AWAITS % 2 == 0,
        idle: flags / Summary::DUE % 2 == 0,
        counts,
    }
}

// The summary of all digests; where there is no session, nothing is left to be found.
fn summary_of(ds: &[u64; Unit::PLACES]) -> Summary
    ensures { result ≡ summary_of ds.now }
{
    let n = used(ds);
    if n == 0 {
        return Summary {
            good: true,
            quiet: true,
            idle: true,
            counts: 0,
        };
    }
    summary_below(ds, n)
}

// The first digest with a key.
fn key_place(ds: &[u64], k: u64) -> Option<usize>
    ensures { result ≡ position (λ d. key_in d == k) ds.now }
{
    ds.iter().position(|d| key_in(*d) == k)
}

// The first digest of a free record.
fn free_in(ds: &[u64]) -> Option<usize>
    ensures { result ≡ position (λ d. d == 0) ds.now }
{
    ds.iter().position(|d| *d == 0)
}

// The first digest of a record whose request is due.
fn due_place(ds: &[u64]) -> Option<usize>
    ensures { result ≡ position due_in ds.now }
{
    ds.iter().position(|d| due_in(*d))
}

// What the digests say, with the place of a key and the first free one where the key is not 0. None that is due is looked for where nothing
// is due.
pub fn findings_of(ds: [u64; Unit::PLACES], key: u64) -> Findings
    ensures { result ≡ findings_of key ds }
{
    let summary = summary_of(&ds);
    let due = if summary.idle { None } else { due_place(&ds) };
    let due = due.unwrap_or(Unit::PLACES);
    if key == 0 {
        return Findings {
            summary,
            old: Unit::PLACES,
            free: Unit::PLACES,
            due,
        };
    }
    let old = key_place(&ds, key).unwrap_or(Unit::PLACES);
    let free = free_in(&ds).unwrap_or(Unit::PLACES);
    Findings {
        summary,
        old,
        free,
        due,
    }
}

// Whether a table of so many records keeps every rule but that awaited numbers differ, by the summary of it.
pub fn kept_but(count: usize, node: Node, v: Findings) -> bool
    ensures { result ≡ kept_but count node v.summary }
{
    let g = v.summary;
    let planned = node.plan.accepted();
    if !(planned & (count == Unit::PLACES) & g.good) {
        return false;
    }
    let live = step_keys::unpacked(g.counts);
    let plan = node.plan;
    let shared = unit_sharing::within(plan, live);
    let echoes = node.echo.fits(plan.interval, plan.resend, plan.sends);
    shared & echoes & (node.next <= OwnRequest::LAST_NUMBER)
}

// What the check of a table has found: how it stands, and what its digests say.
#[derive(Clone, Copy)]
pub struct Checked {
    pub how: Standing,
    pub findings: Findings,
}

// The table where no place awaits a number, or where it is broken anyway.
#[tactic(auto, unfolding(crate::specs::Summary::checked_as))]
pub fn checked_quiet(kept: bool, findings: Findings) -> Checked
    ensures { result ≡ checked_as (pick {A = Standing} kept Quiet Broken) findings }
{
    let how = if kept {
        Standing::Quiet
    } else {
        Standing::Broken
    };
    Checked { how, findings }
}

// The table where one is awaited: no number twice, the echo's neither.
pub fn checked_awaiting(
    kept: bool,
    node: Node,
    findings: Findings,
    waits: [u64; Unit::PLACES],
) -> Checked
    ensures { result ≡ checked_as (pick {A = Standing} (kept && waits_apart node waits) Awaiting Broken) findings }
{
    let w = step_keys::wait(node.echo);
    let apart = base_distinct::absent(&waits, w);
    let each = base_distinct::distinct(&waits);
    let how = if kept & (apart & each) {
        Standing::Awaiting
    } else {
        Standing::Broken
    };
    Checked { how, findings }
}

// Whether it stands by every rule.
#[tactic(auto, unfolding(crate::specs::Summary::stands_by))]
pub fn stands_by(how: Standing) -> bool
    ensures { result ≡ stands_by how }
{
    how != Standing::Broken
}
