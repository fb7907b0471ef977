// Tick, close and send next due on values: which change is made of how many records or of which one, what becomes of it, and what is answered.
// The lent records are read and changed by lent_own.
#![tactic(auto)]

ghost use Rattle.std.specs.Prelude.{◌≡◌};
ghost use Rattle.call_own.specs.Outcome.{back};
ghost use Rattle.step_own.specs.Send.{taken_among, awaiting_in, next_due, due_with, place_of, sent_by, echo_answer, place_answer, send_answer};
ghost use Rattle.step_own.specs.Step.{how_with, tick_change, tick_count, aged_count, tick_answer, closed_by, close_answer};

use base_octets::Number;
use call_own::{Answer, Span};
use step_check::{Checked, Standing};
use unit_session::Session;
use unit_store::Kept;
use unit_table::{Change, Node};
use unit_tunnel::Unit;
use wire_messages::MessageType;

// What is sent next: nothing, with the number that says why; or the echo; or the request of a place. The number is that of a first send.
// Kept: the number of a refusal is the one that C sees (document 01): an error enum would be turned back into it.
#[derive(Clone, Copy)]
pub enum Sending {
    Nothing(u8),
    Echo(u32),
    At { place: usize, number: u32 },
}

// What a tick makes of a record: an echo that is given up frees all.
pub fn tick_change(node: Node) -> Change
    ensures { result ≡ tick_change node }
{
    if node.echo.spent(node.plan.sends) {
        return Change::Free;
    }
    Change::Tick(node.plan.sends)
}

// How many records a tick changes, by how they stand: none where a rule is broken, and none where no place awaits a number, since then no
// timer runs; unless the echo is given up, which frees all.
pub fn tick_count(how: Standing, node: Node) -> usize
    ensures { result ≡ tick_count how node }
{
    let over = node.echo.spent(node.plan.sends);
    match how {
        Standing::Broken => 0,
        Standing::Quiet => if over { Unit::PLACES } else { 0 },
        Standing::Awaiting => Unit::PLACES,
    }
}

// How many rows it takes life from: none where a rule is broken.
pub fn aged_count(how: Standing) -> usize
    ensures { result ≡ aged_count how }
{
    if step_check::stands_by(how) {
        return Kept::ROWS;
    }
    0
}

// How a table with its store stands, of how the records stand and whether the store keeps its rules.
#[tactic(auto, unfolding(crate::specs::Step::how_with))]
pub fn how_with(sound: bool, how: Standing) -> Standing
    ensures { result ≡ how_with sound how }
{
    if sound {
        return how;
    }
    Standing::Broken
}

// What goes back of a tick by value, where so many records were changed.
pub fn tick_answer(how: Standing, n: usize, mut node: Node) -> Answer
    ensures { result ≡ tick_answer how n node }
{
    if !step_check::stands_by(how) {
        return Answer::bare(Number::RULES_BROKEN, node);
    }
    node.echo = node.echo_ticked();
    Answer::bare(Number::TAKEN, node).spanning(Span::first_places(n))
}

// The record of a place to close: a free one stays as it is, and so does every one where the rules fail.
pub fn closed_by(kept: bool, s: Session) -> Session
    ensures { result ≡ closed_by kept s }
{
    if kept & !s.is_free() {
        return s.closed();
    }
    s
}

pub fn close_answer(kept: bool, node: Node, place: usize, s: Session) -> Answer
    ensures { result ≡ close_answer kept node place s }
{
    if !kept {
        return Answer::bare(Number::RULES_BROKEN, node);
    }
    if s.is_free() {
        return Answer::bare(Number::NO_PLACE, node);
    }
    Answer::bare(Number::TAKEN, node).spanning(Span::one_place(place))
}

// The number that a first send takes, by what is awaited.
#[tactic(auto, unfolding(crate::specs::Send::taken_among))]
fn taken_among(node: Node, waits: &[u64]) -> u32
    ensures { result ≡ taken_among node waits.now }
{
    let echo = step_keys::wait(node.echo);
    step_keys::free_among(node.next, echo, waits)
}

// Whether a place awaits a number, in a table that keeps the rules.
#[tactic(auto, unfolding(crate::specs::Send::awaiting_in, step_check::specs::Summary::awaits))]
pub fn awaiting_in(checked: Checked) -> bool
    ensures { result ≡ awaiting_in checked }
{
    checked.how == Standing::Awaiting
}

// Who is sent next, by what was seen of the records and what they await: the echo first, then places upward.
pub fn next_due(room: usize, node: Node, checked: Checked, waits: [u64; Unit::PLACES]) -> Sending
    ensures { result ≡ next_due room node checked waits }
{
    if room < Answer::LEAST_REPLY {
        return Sending::Nothing(Number::REPLY_SHORT);
    }
    if !step_check::stands_by(checked.how) {
        return Sending::Nothing(Number::RULES_BROKEN);
    }
    let echo = node.echo;
    if echo.timer == 0 {
        let number = taken_among(node, &waits);
        return Sending::Echo(number);
    }
    let place = checked.findings.due;
    if Unit::PLACES <= place {
        return Sending::Nothing(Number::NOTHING_DUE);
    }
    let number = taken_among(node, &waits);
    Sending::At { place, number }
}

// The same where it is known whether the store keeps its rules.
pub fn due_with(sound: bool, room: usize, due: Sending) -> Sending
    ensures { result ≡ due_with sound room due }
{
    if sound {
        return due;
    }
    if room < Answer::LEAST_REPLY {
        return Sending::Nothing(Number::REPLY_SHORT);
    }
    Sending::Nothing(Number::RULES_BROKEN)
}

// The place whose record changes, or the number of places.
// Kept: a place and no Option: at a place past the last `lent_records` reads a blank record and puts nothing.
#[tactic(auto, unfolding(crate::specs::Send::place_of, unit_tunnel::specs::Numbering::places))]
pub fn place_of(p: Sending) -> usize
    ensures { result ≡ place_of p }
{
    match p {
        Sending::Nothing(_) => Unit::PLACES,
        Sending::Echo(_) => Unit::PLACES,
        Sending::At { place, number: _ } => place,
    }
}

// What becomes of the record there.
#[tactic(auto, unfolding(crate::specs::Send::sent_by))]
pub fn sent_by(p: Sending, node: Node, s: Session) -> Session
    ensures { result ≡ sent_by p node s }
{
    match p {
        Sending::Nothing(_) => s,
        Sending::Echo(_) => s,
        Sending::At { place: _, number } => s.sent(node.plan.resend, number),
    }
}

// The echo sent.
#[tactic(auto, unfolding(crate::specs::Send::echo_answer, call_own::specs::Calls::timed))]
fn echo_answer(mut node: Node, k: u32, reply: &mut [u8]) -> Answer
    ensures { back result reply.new ≡ echo_answer node k reply.old }
{
    let plan = node.plan;
    let echo = node.echo;
    let sent = echo.sent_once(plan.resend, k);
    node.next = call_own::stepped(echo.sends, k, node.next);
    node.echo = sent;
    let size = wire_messages::echo_of(reply, MessageType::ECHO, sent.number, plan.recovery);
    Answer {
        number: Number::TAKEN,
        size,
        node,
        span: Span::NONE,
    }
}

// The Delete Bearer of a place sent.
#[tactic(auto, unfolding(crate::specs::Send::place_answer, call_own::specs::Calls::timed))]
fn place_answer(mut node: Node, k: u32, place: usize, s: Session, reply: &mut [u8]) -> Answer
    ensures { back result reply.new ≡ place_answer node k place s reply.old }
{
    let own = s.own;
    let sent = own.sent_once(node.plan.resend, k);
    node.next = call_own::stepped(own.sends, k, node.next);
    let size = wire_messages::delete_bearer(reply, s.control, sent.number, s.ebi);
    Answer {
        number: Number::TAKEN,
        size,
        node,
        span: Span::one_place(place),
    }
}

#[tactic(auto, unfolding(crate::specs::Send::send_answer))]
pub fn send_answer(p: Sending, node: Node, s: Session, reply: &mut [u8]) -> Answer
    ensures { back result reply.new ≡ send_answer p node s reply.old }
{
    match p {
        Sending::Nothing(number) => Answer::bare(number, node),
        Sending::Echo(k) => echo_answer(node, k, reply),
        Sending::At { place, number } => place_answer(node, number, place, s, reply),
    }
}
