// The control call on the two records that it can concern: which record is asked about, whether a place is opened, and what becomes of the two. No
// other record is looked at. Where the exchange restarted all records are freed first.
#![tactic(auto)]

ghost use Rattle.std.specs.Prelude.{◌≡◌};
ghost use Rattle.call_control.specs.Control.{restarts_in};
ghost use Rattle.step_control.specs.Step.{restarts_now, key_of, old_of, basis_by, basis_of, repeats_at, room_for, verdict_of, verdict_in, opens_at, concerned_of, taken_with, unmoved_on, full_on, entered_on, open_on, named_on, asked_on, taken_on, node_after, freed_count, changed_places};

use base_octets::Number;
use call_asked::{Asked, Concern};
use call_own::{Answer, Span};
use step_check::{Checked, Findings};
use unit_plan::Plan;
use unit_session::Session;
use unit_table::Node;
use unit_tunnel::{ControlTeid, Unit};
use wire_messages::MessageType;
use wire_requests::Create;

// What the call goes by, of what the check found: whether the rules are kept, whether all are freed first, the packed counts, the place
// of the record that it is about, and the first free place; past the last where there is none.
#[derive(Clone, Copy)]
pub struct Basis {
    pub kept: bool,
    pub all: bool,
    pub counts: u64,
    pub old: usize,
    pub free: usize,
}

// Whether a place is opened: none, since it is a repeat of the Create that made the session, or no Create; or this one; or there is no room.
#[derive(Clone, Copy)]
pub enum Verdict {
    Still,
    Opens(usize),
    Full,
}

// The two records that are concerned, and where they lie: one that it is about, and one that is to be opened; and whether all are freed
// before these two are put back.
#[derive(Clone, Copy)]
pub struct Concerned {
    pub kept: bool,
    pub all: bool,
    pub old: usize,
    pub new: usize,
    pub verdict: Verdict,
    pub oldrecord: Session,
    pub newrecord: Session,
}

// Document 01's number, the reply's length, whether the unit's own echo ended, the Recovery that is to be stored, the two records as they
// are then, and the places of those that may have changed.
#[derive(Clone, Copy)]
pub struct Taken {
    pub number: u8,
    pub size: usize,
    pub ended: bool,
    pub heard: Option<u8>,
    pub old: Session,
    pub new: Session,
    pub span: Span,
}

// Whether it says that the exchange restarted.
#[tactic(auto, unfolding(call_control::specs::Control::restarts_in))]
fn restarts_in(a: Asked, node: Node) -> bool
    ensures { result ≡ restarts_in a node }
{
    match a {
        Asked::Echo { recovery, .. } | Asked::EchoReply { recovery } => {
            call_control::restarts_by(node, recovery)
        }
        Asked::Create { create, .. } => call_control::restarts_by(node, create.recovery),
        _ => false,
    }
}

// With a reply buffer that is short nothing is done, so that nobody is heard.
#[tactic(auto, unfolding(crate::specs::Step::restarts_now, call_own::specs::Outcome::least_reply))]
fn restarts_now(room: usize, a: Asked, node: Node) -> bool
    ensures { result ≡ restarts_now room a node }
{
    if room < Answer::LEAST_REPLY {
        return false;
    }
    restarts_in(a, node)
}

// The key of IMSI and EBI that is asked for; 0, which no session has, where none is.
// Kept: 0 and no Option, since `findings_of` and `checked_of` go by it.
#[tactic(auto, unfolding(crate::specs::Step::key_of))]
pub fn key_of(a: Asked) -> u64
    ensures { result ≡ key_of a }
{
    match a {
        Asked::Create { create, .. } => step_keys::id_key(create.imsi, create.ebi),
        _ => 0,
    }
}

// The place of the record that it is about: that of the session with the key, or the one that is named; past the last where there is none.
#[tactic(auto, unfolding(crate::specs::Step::old_of, crate::specs::Step::key_of, unit_tunnel::specs::Numbering::places))]
fn old_of(findings: Findings, a: Asked) -> usize
    ensures { result ≡ old_of findings a }
{
    match a {
        Asked::Create { .. } if key_of(a) != 0 => findings.old,
        Asked::Session { teid, .. } => unit_table::control_place(teid),
        _ => Unit::PLACES,
    }
}

// After a restart no record is taken.
#[tactic(auto, unfolding(crate::specs::Step::basis_by, unit_tunnel::specs::Numbering::places))]
fn basis_by(kept: bool, counts: u64, old: usize, free: usize, restart: bool) -> Basis
    ensures { result ≡ basis_by kept counts old free restart }
{
    if kept & restart {
        return Basis {
            kept: true,
            all: true,
            counts: 0,
            old: Unit::PLACES,
            free: 0,
        };
    }
    Basis {
        kept,
        all: false,
        counts,
        old,
        free,
    }
}

#[tactic(auto, unfolding(crate::specs::Step::basis_of))]
pub fn basis_of(v: Checked, node: Node, a: Asked, room: usize) -> Basis
    ensures { result ≡ basis_of v node a room }
{
    let findings = v.findings;
    basis_by(
        step_check::stands_by(v.how),
        findings.summary.counts,
        old_of(findings, a),
        findings.free,
        restarts_now(room, a, node),
    )
}

// A repeat of the Create that made the session of a place.
#[tactic(auto, unfolding(crate::specs::Step::repeats_at, unit_tunnel::specs::Numbering::places))]
fn repeats_at(place: usize, c: Create, seq: u32, s: Session) -> bool
    ensures { result ≡ repeats_at place c seq s }
{
    place < Unit::PLACES && call_control::is_repeat(c, seq, s)
}

// The sharing rule, by the counts without a record.
#[tactic(auto, using(crate::specs::Step::counts_less_is), unfolding(crate::specs::Step::room_for))]
fn room_for(plan: Plan, counts: u64, s: Session, point: usize) -> bool
    ensures { result ≡ room_for plan counts s point }
{
    let rest = counts.wrapping_sub(step_keys::weight(s));
    unit_sharing::admits(plan, step_keys::unpacked(rest), point)
}

// A repeat opens nothing. Else a session with this IMSI and EBI is freed, then the sharing rule is asked, and the lowest free place is opened.
#[tactic(auto, unfolding(crate::specs::Step::verdict_of, crate::specs::Step::lower))]
fn verdict_of(g: Basis, node: Node, c: Create, seq: u32, s: Session) -> Verdict
    ensures { result ≡ verdict_of g node c seq s }
{
    if repeats_at(g.old, c, seq, s) {
        return Verdict::Still;
    }
    if room_for(node.plan, g.counts, s, c.point) {
        return Verdict::Opens(g.old.min(g.free));
    }
    Verdict::Full
}

// The same for what is asked; s is the record that it is about.
#[tactic(auto, unfolding(crate::specs::Step::verdict_in))]
pub fn verdict_in(g: Basis, node: Node, a: Asked, s: Session) -> Verdict
    ensures { result ≡ verdict_in g node a s }
{
    match a {
        Asked::Create { create, sequence } => verdict_of(g, node, create, sequence, s),
        _ => Verdict::Still,
    }
}

// The place that is opened; past the last where none is.
// Kept: a place and no Option, here and in Basis: at one past the last `lent_records` reads and puts nothing, as `verdict_of` goes by.
#[tactic(auto, unfolding(crate::specs::Step::opens_at, unit_tunnel::specs::Numbering::places))]
pub fn opens_at(v: Verdict) -> usize
    ensures { result ≡ opens_at v }
{
    match v {
        Verdict::Opens(place) => place,
        _ => Unit::PLACES,
    }
}

#[tactic(auto, unfolding(crate::specs::Step::concerned_of))]
pub fn concerned_of(g: Basis, s: Session, verdict: Verdict, t: Session) -> Concerned
    ensures { result ≡ concerned_of g s verdict t }
{
    Concerned {
        kept: g.kept,
        all: g.all,
        old: g.old,
        new: opens_at(verdict),
        verdict,
        oldrecord: s,
        newrecord: t,
    }
}

// The two records as they were.
#[tactic(auto, unfolding(crate::specs::Step::unmoved_on))]
fn unmoved_on(number: u8, size: usize, ended: bool, heard: Option<u8>, p: Concerned) -> Taken
    ensures { result ≡ unmoved_on number size ended heard p }
{
    Taken {
        number,
        size,
        ended,
        heard,
        old: p.oldrecord,
        new: p.newrecord,
        span: Span::NONE,
    }
}

// No room: 73; a session that was to be replaced is gone.
#[tactic(auto, unfolding(crate::specs::Step::full_on, crate::specs::Step::unmoved_on))]
fn full_on(c: Create, seq: u32, p: Concerned, reply: &mut [u8]) -> Taken
    ensures { taken_with result reply.new ≡ full_on c seq p reply.old }
{
    let w = call_control::no_room();
    let size = call_control::write_cause(MessageType::CREATE_REPLY, c.control, seq, w, reply);
    let gone = p.oldrecord.freed();
    Taken {
        old: gone,
        span: Span::one_place(p.old),
        ..unmoved_on(w.cause, size, false, c.recovery, p)
    }
}

// A session opened in the record of a place.
#[tactic(auto, unfolding(crate::specs::Step::entered_on, crate::specs::Step::unmoved_on))]
fn entered_on(c: Create, seq: u32, node: Node, p: Concerned, reply: &mut [u8]) -> Taken
    ensures { taken_with result reply.new ≡ entered_on c seq node p reply.old }
{
    let new = p.newrecord.opened(call_control::opening_of(c, seq));
    let size = call_control::write_accepted(node.plan, seq, p.new, new, reply);
    Taken {
        old: p.oldrecord.freed(),
        new,
        span: Span::two_places(p.old, p.new),
        ..unmoved_on(Number::TAKEN, size, false, c.recovery, p)
    }
}

// A repeat is answered from the record; else a session is opened, or there is no room.
#[tactic(auto, unfolding(crate::specs::Step::open_on, crate::specs::Step::open_by))]
fn open_on(c: Create, seq: u32, node: Node, p: Concerned, reply: &mut [u8]) -> Taken
    ensures { taken_with result reply.new ≡ open_on c seq node p reply.old }
{
    match p.verdict {
        Verdict::Still => {
            let size = call_control::write_accepted(node.plan, seq, p.old, p.oldrecord, reply);
            unmoved_on(Number::TAKEN, size, false, c.recovery, p)
        }
        Verdict::Opens(_) => entered_on(c, seq, node, p, reply),
        Verdict::Full => full_on(c, seq, p, reply),
    }
}

// What concerns the session of the record; its place may have changed if it has the number.
#[tactic(auto, unfolding(crate::specs::Step::named_on, crate::specs::Step::named_with, crate::specs::Step::named_places, crate::specs::Step::unmoved_on))]
fn named_on(teid: ControlTeid, x: Concern, seq: u32, p: Concerned, reply: &mut [u8]) -> Taken
    ensures { taken_with result reply.new ≡ named_on teid.0 x seq p reply.old }
{
    let span = if unit_table::has_control(p.oldrecord, teid) {
        Span::one_place(p.old)
    } else {
        Span::NONE
    };
    let q = step_session::of_number(teid, x, seq, p.oldrecord, reply);
    Taken {
        old: q.session,
        span,
        ..unmoved_on(q.number, q.size, false, None, p)
    }
}

// What is asked, where the rules are kept.
#[tactic(auto, unfolding(crate::specs::Step::asked_on))]
fn asked_on(node: Node, a: Asked, p: Concerned, reply: &mut [u8]) -> Taken
    ensures { taken_with result reply.new ≡ asked_on node a p reply.old }
{
    match a {
        Asked::Silent(number) => unmoved_on(number, 0, false, None, p),
        Asked::Version => {
            let size = wire_messages::version_not_supported(reply);
            unmoved_on(Number::OTHER_VERSION, size, false, None, p)
        }
        Asked::Echo { recovery, sequence } => {
            let size = wire_messages::echo_of(
                reply,
                MessageType::ECHO_REPLY,
                sequence,
                node.plan.recovery,
            );
            unmoved_on(Number::TAKEN, size, false, recovery, p)
        }
        Asked::EchoReply { recovery } => unmoved_on(Number::TAKEN, 0, true, recovery, p),
        Asked::Create { create, sequence } => open_on(create, sequence, node, p, reply),
        Asked::Refused { why, to, sequence } => {
            let size = call_control::write_cause(
                MessageType::CREATE_REPLY,
                to,
                sequence,
                why,
                reply,
            );
            unmoved_on(why.cause, size, false, None, p)
        }
        Asked::Session {
            teid,
            sequence,
            concern,
        } => named_on(teid, concern, sequence, p, reply),
    }
}

// In document 01's order: 1, 2, then what is asked.
#[tactic(auto, unfolding(crate::specs::Step::taken_on, call_own::specs::Outcome::least_reply))]
pub fn taken_on(node: Node, a: Asked, p: Concerned, reply: &mut [u8]) -> Taken
    ensures { taken_with result reply.new ≡ taken_on node a p reply.old }
{
    if reply.len() < Answer::LEAST_REPLY {
        return unmoved_on(Number::REPLY_SHORT, 0, false, None, p);
    }
    if !p.kept {
        return unmoved_on(Number::RULES_BROKEN, 0, false, None, p);
    }
    asked_on(node, a, p, reply)
}

// The node as it is then: a Recovery is stored, and an echo that ended is due again after E ticks.
#[tactic(auto, unfolding(crate::specs::Step::node_after, crate::specs::Step::rested_node, call_own::specs::Calls::timed))]
pub fn node_after(node: Node, o: Taken) -> Node
    ensures { result ≡ node_after o node }
{
    let mut after = call_control::heard_node(node, o.heard);
    if o.ended {
        after.echo = unit_table::rested(after.plan.interval, after.echo);
    }
    after
}

// How many records are freed first.
#[tactic(auto, unfolding(crate::specs::Step::freed_count, unit_tunnel::specs::Numbering::places))]
pub fn freed_count(p: Concerned) -> usize
    ensures { result ≡ freed_count p }
{
    if p.all { Unit::PLACES } else { 0 }
}

// The places that may have changed.
#[tactic(auto, unfolding(crate::specs::Step::changed_places, unit_tunnel::specs::Numbering::places))]
pub fn changed_places(p: Concerned, o: Taken) -> Span
    ensures { result ≡ changed_places p o }
{
    if p.all {
        return Span::first_places(Unit::PLACES);
    }
    o.span
}
