// The bench's run: what one line of input does to the unit and what is printed for it. The unit's records and its store of kept replies are
// lent, and the firmware's own calls work on them where they lie.
#![tactic(auto)]

ghost use Rattle.std.specs.Prelude.{◌≡◌, drop};
ghost use Rattle.bench_unit.specs.State.{on, printing, ran_of, SameLent};
ghost use Rattle.bench_run.specs.Run.{has_due, one_sent, all_sent, control_run, third_shown, user_run, down_run, answer_sent, tick_run, close_run};
ghost use Rattle.bench_run.specs.Taken.{run_line, leave_plan, plan_line, line_taken};

use base_octets::Number;
use bench_text::Line;
use bench_unit::{Phase, Run, front};
use call_own::Answer;
use unit_tunnel::Unit;
use wire_user::Header;

// One datagram that is due, sent and printed: whether there was one.
fn send_one(run: &mut Run<'_>) -> bool
    ensures due { result ≡ has_due run.old.bench run.old.recs.now run.old.store.now }
    ensures sent { ran_of run.new ≡ on one_sent run.old }
    ensures lent { SameLent run.old run.new }
{
    let mut reply = [0; Answer::LEAST_REPLY];
    let a = lent_own::grugavorn_send(run.bench.node, run.recs, &mut *run.store, &mut reply);
    if a.number != Number::TAKEN {
        return false;
    }
    run.bench.made = bench_text::put_due(run.out, run.bench.made, front(&reply, a.size));
    run.bench.node = a.node;
    true
}

// The echo and the places are the most that can be due.
const SENDS: usize = Unit::PLACES + 1;

// All that is due.
fn send_all(run: &mut Run<'_>)
    ensures sent { ran_of run.new ≡ on all_sent run.old }
    ensures lent { SameLent run.old run.new }
{
    for _ in 0..SENDS {
        if !send_one(run) {
            return;
        }
    }
}

fn run_control(run: &mut Run<'_>, d: &[u8])
    ensures run { ran_of run.new ≡ on (control_run d.now) run.old }
    ensures lent { SameLent run.old run.new }
{
    let mut reply = [0; Answer::LEAST_REPLY];
    let a = lent_control::grugavorn_control(run.bench.node, run.recs, run.store, d, &mut reply);
    run.show_answered(a, &reply);
}

// What is left of a datagram behind its first octets.
fn behind(d: &[u8], n: usize) -> &[u8]
    ensures { result.now ≡ drop n d.now }
{
    &d[n.min(d.len())..]
}

// Number and reply, and a third field where there is one.
fn show_third(run: &mut Run<'_>, number: u8, reply: &[u8], third: Option<&[u8]>)
    ensures shown { ran_of run.new ≡ printing (third_shown number reply.now third.entry) run.old }
    ensures lent { SameLent run.old run.new }
{
    let made = run.bench.made;
    match third {
        Some(octets) => {
            run.bench.made = bench_text::put_packet(run.out, made, number, reply, octets);
        },
        None => run.bench.made = bench_text::put_answer(run.out, made, number, reply),
    }
}

// Only a packet that is handed up has a third field; an echo that is answered has a reply.
fn run_user(run: &mut Run<'_>, d: &[u8])
    ensures run { ran_of run.new ≡ on (user_run d.now) run.old }
    ensures lent { SameLent run.old run.new }
{
    let mut reply = [0; Answer::LEAST_REPLY];
    let h = lent_user::grugavorn_user(
        run.bench.node,
        &mut *run.recs,
        &mut *run.store,
        d,
        &mut reply,
    );
    let part = front(&reply, h.size);
    if h.number == Number::TAKEN && h.size == 0 {
        return show_third(run, h.number, part, Some(behind(d, h.start)));
    }
    show_third(run, h.number, part, None);
}

// A packet of the longest length, as a G-PDU.
const GPDU: usize = Line::DATAGRAM + Header::FIXED;

// Only a packet that is written has a third field: the peer's user address.
fn run_down(run: &mut Run<'_>, packet: &[u8])
    ensures run { ran_of run.new ≡ on (down_run packet.now) run.old }
    ensures lent { SameLent run.old run.new }
{
    let mut buffer = [0; GPDU];
    let w = lent_down::grugavorn_down(
        run.bench.node,
        &mut *run.recs,
        &mut *run.store,
        packet,
        &mut buffer,
    );
    let part = front(&buffer, w.size);
    if w.number == Number::TAKEN {
        return show_third(run, w.number, part, Some(&base_octets::octets32(w.peer)));
    }
    show_third(run, w.number, part, None);
}

// What a call without a reply answered, then all that is due.
fn send_answer(run: &mut Run<'_>, a: Answer)
    ensures sent { ran_of run.new ≡ on (answer_sent a) run.old }
    ensures lent { SameLent run.old run.new }
{
    run.show_answered(a, &[]);
    send_all(run);
}

fn run_tick(run: &mut Run<'_>)
    ensures run { ran_of run.new ≡ on tick_run run.old }
    ensures lent { SameLent run.old run.new }
{
    let a = lent_own::grugavorn_tick(run.bench.node, run.recs, run.store);
    send_answer(run, a);
}

fn run_close(run: &mut Run<'_>, place: usize)
    ensures run { ran_of run.new ≡ on (close_run place) run.old }
    ensures lent { SameLent run.old run.new }
{
    let a = lent_own::grugavorn_close(run.bench.node, run.recs, &mut *run.store, place);
    send_answer(run, a);
}

// A line once the plan is taken.
fn run_line(run: &mut Run<'_>, line: Line, octets: &[u8])
    ensures run { ran_of run.new ≡ on (run_line line octets.now) run.old }
    ensures lent { SameLent run.old run.new }
{
    match line {
        Line::Control { size } => run_control(run, front(octets, size)),
        Line::User { size } => run_user(run, front(octets, size)),
        Line::Down { size } => run_down(run, front(octets, size)),
        Line::Tick => run_tick(run),
        Line::Close { place } => run_close(run, usize::from(place)),
        _ => run.end_bad(),
    }
}

// Another line than one of an access point takes the plan first.
fn leave_plan(run: &mut Run<'_>, line: Line, octets: &[u8])
    ensures left { ran_of run.new ≡ on (leave_plan line octets.now) run.old }
    ensures lent { SameLent run.old run.new }
{
    run.take_plan();
    if run.bench.phase.is_over() {
        return;
    }
    run_line(run, line, octets);
}

// Where the lines of the plan stand, one of an access point, a good one or a bad one, is taken into it.
fn plan_line(run: &mut Run<'_>, line: Line, octets: &[u8])
    ensures taken { ran_of run.new ≡ on (plan_line line octets.now) run.old }
    ensures lent { SameLent run.old run.new }
{
    match line {
        Line::Point {
            guarantee,
            ceiling,
            size,
        } => run.one_more(guarantee, ceiling, front(octets, size)),
        Line::BadPoint => run.end_bad(),
        _ => leave_plan(run, line, octets),
    }
}

// A line of input, without its line end. Where the run has ended it does nothing.
pub fn take_line(run: &mut Run<'_>, text: &[u8])
    ensures taken { ran_of run.new ≡ on (line_taken text.now) run.old }
    ensures lent { SameLent run.old run.new }
{
    let phase = run.bench.phase;
    if phase.is_over() {
        return;
    }
    let mut octets = [0; Line::DATAGRAM];
    let line = bench_text::read_line(text, &mut octets);
    run.bench = run.bench.with_line();
    match phase {
        Phase::First => run.start_line(line),
        Phase::Plan => plan_line(run, line, &octets),
        _ => run_line(run, line, &octets),
    }
}
