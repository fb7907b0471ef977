// The calls that no datagram brings: fresh, tick, close and send next due. Their definitions are in specs/, with what a call comes to and
// answers by value; here is what of fresh and of a send is worked out on a plan and on numbers alone. The calls themselves are made on
// lent records.
#![tactic(auto)]

ghost use Rattle.std.specs.Prelude.{◌≡◌};
ghost use Rattle.call_own.specs.Outcome.{first_places, one_place, between, two_places, bare, spanning};
ghost use Rattle.call_own.specs.Calls.{fresh_by, stepped};

use base_octets::Number;
use unit_plan::Plan;
use unit_table::Node;
use unit_tunnel::Unit;

// The places whose records a call may have changed: those from `from` on and below `to`. Every other record is as it was.
#[repr(C)]
#[derive(Clone, Copy)]
pub struct Span {
    pub from: usize,
    pub to: usize,
}

impl Span {
    // No place.
    pub const NONE: Span = Span { from: 0, to: 0 };

    // So many places from the first on.
    pub fn first_places(n: usize) -> Self
        ensures { result ≡ first_places n }
    {
        Span { from: 0, to: n }
    }

    // One place; none where it is past the last.
    pub fn one_place(i: usize) -> Self
        ensures { result ≡ one_place i }
    {
        if i < Unit::PLACES {
            return Span { from: i, to: i + 1 };
        }
        Span::NONE
    }

    // Two places and what lies between them, of which each may be past the last.
    pub fn two_places(i: usize, j: usize) -> Self
        ensures { result ≡ two_places i j }
    {
        if Unit::PLACES <= i {
            return Span::one_place(j);
        }
        if Unit::PLACES <= j {
            return Span::one_place(i);
        }
        if i < j {
            return Span { from: i, to: j + 1 };
        }
        Span { from: j, to: i + 1 }
    }
}

// What a call answers by value: document 01's number, the reply's length, what goes with the records, and where these may have changed. The
// records are the caller's.
#[repr(C)]
#[derive(Clone, Copy)]
pub struct Answer {
    pub number: u8,
    pub size: usize,
    pub node: Node,
    pub span: Span,
}

impl Answer {
    // A reply buffer under this is short.
    pub const LEAST_REPLY: usize = 128;

    // A number alone: no reply, and no record has changed.
    pub fn bare(number: u8, node: Node) -> Self
        ensures { result ≡ bare number node }
    {
        Answer {
            number,
            size: 0,
            node,
            span: Span::NONE,
        }
    }

    // The same with the places that may have changed.
    pub fn spanning(self, span: Span) -> Self
        ensures { result ≡ spanning span self }
    {
        Answer { span, ..self }
    }
}

// What fresh answers by value, from the count of records that are lent and the plan.
pub fn fresh_by(count: usize, plan: Plan) -> Answer
    ensures { result ≡ fresh_by count plan }
{
    let empty = Node::fresh(Plan::none());
    if count != Unit::PLACES {
        return Answer::bare(Number::RULES_BROKEN, empty);
    }
    let all = Span::first_places(Unit::PLACES);
    if plan.accepted() {
        return Answer::bare(Number::TAKEN, Node::fresh(plan)).spanning(all);
    }
    Answer::bare(Number::PLAN_BREAKS, empty).spanning(all)
}

// The next number after a send: a first send took k, a resend kept its own.
pub fn stepped(sends: u8, k: u32, next: u32) -> u32
    ensures { result ≡ stepped sends k next }
{
    if sends == 0 {
        return unit_table::after(k);
    }
    next
}
