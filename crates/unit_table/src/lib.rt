// The table: a session record for each place, and the node, which goes with them; what becomes of a record, and which one a number names. specs/Rules
// has the rules of a whole table.
#![tactic(auto)]

ghost use Rattle.std.specs.Prelude.{◌≡◌};
ghost use Rattle.unit_table.specs.Become.{changed_by};
ghost use Rattle.unit_table.specs.Number.{after};
ghost use Rattle.unit_table.specs.Own.{fresh_node, rested, echo_ticked};
ghost use Rattle.unit_table.specs.Recovery.{turned, judged, judged_by, hearing};
ghost use Rattle.unit_table.specs.Find.{taken_in, place_named, control_place, user_place, has_number, has_control, has_user};

use unit_plan::Plan;
use unit_session::{OwnRequest, Session};
use unit_tunnel::{ControlTeid, Teid, Unit, UserTeid};

// What goes with the records: the plan, the stored Recovery, the unit's own echo, and the next sequence number.
#[repr(C)]
#[derive(Clone, Copy)]
pub struct Node {
    pub plan: Plan,
    pub echo: OwnRequest,
    pub next: u32,
    // Kept: 0 until a Recovery value of the exchange is stored, a number beside the value as C lends it (include/grugavorn.h).
    pub heard: u8,
    pub recovery: u8,
}

// What a Recovery value of the exchange says, beside the one that is stored.
#[derive(Clone, Copy)]
pub enum Judged {
    Same,
    Restarted,
    // an old one, which came late
    Late,
}

// What is done to a record.
#[derive(Clone, Copy)]
pub enum Change {
    Free,
    Tick(u8),
    // zero, use included
    Blank,
}

impl Node {
    // The start under a plan: nothing heard, nothing sent, the first echo due after E ticks.
    #[tactic(auto, unfolding(crate::specs::Own::fresh_node))]
    pub fn fresh(plan: Plan) -> Self
        ensures { result ≡ fresh_node plan }
    {
        Node {
            plan,
            echo: rested(plan.interval, OwnRequest::idle()),
            next: 0,
            heard: 0,
            recovery: 0,
        }
    }

    // What a Recovery value says: the first one is stored, as the same one is.
    #[tactic(auto, unfolding(crate::specs::Recovery::judged_by))]
    pub fn judged(self, value: u8) -> Judged
        ensures { result ≡ judged_by self value }
    {
        if self.heard == 0 {
            return Judged::Same;
        }
        Judged::of(value, self.recovery)
    }

    // The value stored.
    #[tactic(auto, unfolding(crate::specs::Recovery::hearing))]
    pub fn hearing(mut self, value: u8) -> Self
        ensures { result ≡ hearing value self }
    {
        self.heard = 1;
        self.recovery = value;
        self
    }

    // The echo after a tick: given up after N sends, else counted down.
    #[tactic(auto, unfolding(crate::specs::Own::echo_ticked))]
    pub fn echo_ticked(self) -> OwnRequest
        ensures { result ≡ echo_ticked self.plan self.echo }
    {
        if self.echo.spent(self.plan.sends) {
            return rested(self.plan.interval, self.echo);
        }
        self.echo.counted_down()
    }
}

impl Judged {
    // The most that the value after a restart is ahead of the stored one.
    pub const MOST_AHEAD: u8 = 127;

    // By how much the received value is ahead of the stored one, modulo 256.
    pub fn of(received: u8, stored: u8) -> Self
        ensures { result ≡ judged (turned received stored) }
    {
        match received.wrapping_sub(stored) {
            0 => Judged::Same,
            ahead if ahead <= Self::MOST_AHEAD => Judged::Restarted,
            _ => Judged::Late,
        }
    }
}

// The echo ended: the next one is due after E ticks.
#[tactic(auto, unfolding(crate::specs::Own::rested))]
pub fn rested(interval: u8, r: OwnRequest) -> OwnRequest
    ensures { result ≡ rested interval r }
{
    OwnRequest {
        timer: interval,
        sends: 0,
        ..r
    }
}

// The record with the change made.
#[tactic(auto, unfolding(crate::specs::Become::changed_by))]
pub fn changed_by(s: Session, c: Change) -> Session
    ensures { result ≡ changed_by c s }
{
    match c {
        Change::Free => s.freed(),
        Change::Tick(most) => s.ticked(most),
        Change::Blank => Session::blank_at(0),
    }
}

// The sequence number after another.
#[tactic(auto, unfolding(crate::specs::Number::after, unit_session::specs::OwnRequest::last_number))]
pub fn after(k: u32) -> u32
    ensures { result ≡ after k }
{
    k.wrapping_add(1) % OwnRequest::NUMBERS
}

// The place that a number names; past the last where it names none.
// Kept: a place and no Option, since the laws `owner_control` and `owner_user` read the record at it, which past the last is one that nobody took.
#[tactic(auto, unfolding(crate::specs::Find::place_named, crate::specs::Find::named_place, unit_tunnel::specs::Numbering::places))]
pub fn place_named<T: Teid>(teid: T) -> usize
    ensures { result ≡ place_named T.OFFSET (T.number teid) }
{
    teid.holder().map_or(Unit::PLACES, |h| h.place)
}

// The place that a control number names; past the last where it names none.
pub fn control_place(teid: ControlTeid) -> usize
    ensures { result ≡ control_place teid.0 }
{
    place_named(teid)
}

// The place that a user number names; past the last where it names none.
pub fn user_place(teid: UserTeid) -> usize
    ensures { result ≡ user_place teid.0 }
{
    place_named(teid)
}

// Whether a record is taken and in this use.
#[tactic(auto)]
fn taken_in(s: Session, usage: u32) -> bool
    ensures { result ≡ taken_in s usage }
{
    !s.is_free() & (s.usage == usage)
}

// Whether a record is the session of a number: taken, and in the use that the number says.
#[tactic(auto, unfolding(crate::specs::Find::has_number, crate::specs::Find::owned_by))]
pub fn has_number<T: Teid>(s: Session, teid: T) -> bool
    ensures { result ≡ has_number T.OFFSET s (T.number teid) }
{
    teid.holder().is_some_and(|h| taken_in(s, h.usage))
}

// Whether a record is the session of a control number: taken, and in the use that the number says.
pub fn has_control(s: Session, teid: ControlTeid) -> bool
    ensures { result ≡ has_control s teid.0 }
{
    has_number(s, teid)
}

// Whether a record is the session of a user number: taken, and in the use that the number says.
pub fn has_user(s: Session, teid: UserTeid) -> bool
    ensures { result ≡ has_user s teid.0 }
{
    has_number(s, teid)
}
