// The two ends of the bench's run: where a run stands, what is printed for an answer, the lines of the plan; and at the end of the input the
// live count and a line for each place that was ever used. The unit's records and its store of kept replies are lent, and the calls work on
// them where they lie. Output goes into a lent buffer from a place on; the programs write it out.
#![tactic(auto)]

ghost use Rattle.std.specs.Prelude.{[], ◌≡◌, not, take, count_by};
ghost use Rattle.unit_session.specs.Session.{is_free};
ghost use Rattle.call_own.specs.Outcome.{back};
ghost use Rattle.bench_unit.specs.State.{is_over, on, ran_of, printing, SameLent, bench_start, with_line, end_bad, answered_shown};
ghost use Rattle.bench_unit.specs.Ended.{place_printed, places_printed, end_plan, end_of_input};
ghost use Rattle.bench_unit.specs.Plans.{point_from, one_more, plan_taken, start_line};

use base_octets::Number;
use bench_text::Line;
use call_own::Answer;
use unit_plan::{AccessPoint, Plan};
use unit_session::Session;
use unit_store::Kept;
use unit_table::Node;
use unit_tunnel::Unit;

// How far a run is: nothing read, the lines of the plan, the plan taken, ended.
#[derive(Clone, Copy)]
pub enum Phase {
    First,
    Plan,
    Runs,
    Over,
}

impl Phase {
    pub fn is_over(self) -> bool
        ensures { result ≡ is_over self }
    {
        matches!(self, Phase::Over)
    }
}

// How far the run is, how many lines were taken, how much of the output buffer is in use, and what goes with the unit's records. Before the
// plan is taken, the unit's plan is the one that is being read.
#[derive(Clone, Copy)]
pub struct Bench {
    pub phase: Phase,
    pub lines: u64,
    pub made: usize,
    pub node: Node,
}

impl Bench {
    #[tactic(auto, unfolding(crate::specs::State::bench_start))]
    pub fn start() -> Self
        ensures { result ≡ bench_start }
    {
        Bench {
            phase: Phase::First,
            lines: 0,
            made: 0,
            node: Node::fresh(Plan::none()),
        }
    }

    // A line more; the count stays where it can go no further.
    #[tactic(auto, unfolding(crate::specs::State::with_line, crate::specs::State::counted))]
    pub fn with_line(mut self) -> Self
        ensures { result ≡ with_line self }
    {
        self.lines = self.lines.saturating_add(1);
        self
    }
}

// The first so many of a slice, or all where there are fewer.
pub fn front<T>(s: &[T], n: usize) -> &[T]
    ensures { result.now ≡ take n s.now }
{
    &s[..n.min(s.len())]
}

#[tactic(auto, unfolding(crate::specs::Plans::point_from, unit_plan::specs::Limits::longest_name))]
fn point_from(guarantee: u8, ceiling: u8, octets: &[u8]) -> AccessPoint
    ensures { result ≡ point_from guarantee ceiling octets.now }
{
    let mut name = [0; AccessPoint::LONGEST_NAME];
    base_octets::copy_front(octets, &mut name);
    AccessPoint {
        name,
        size: (octets.len() % 256) as u8,
        guarantee: u16::from(guarantee),
        ceiling: u16::from(ceiling),
    }
}

// How many of them are sessions.
fn sessions(recs: &[Session]) -> usize
    ensures { result ≡ count_by (λ s. not (is_free s)) recs.now }
{
    recs.iter().filter(|s| !s.is_free()).count()
}

// A run: where it stands, the unit's records and its store of kept replies, and the buffer that the output goes into. Each is lent on as
// `&mut *`, also to a call that only reads it, so that two can be lent at once.
// Kept: a buffer and, in `bench`, the place in it, as base_numerals and bench_text write at a place of a lent buffer (`laid`, `line_whole`).
// Kept: `SameLent` in each method's contract, as no invariant speaks of a run before and after a call.
#[derive(Drop)]
pub struct Run<'a> {
    pub bench: Bench,
    pub recs: &'a mut [Session],
    pub store: &'a mut [[u8; Kept::OCTETS]],
    pub out: &'a mut [u8],
}

impl Run<'_> {
    // A bad line ends the run.
    pub fn end_bad(&mut self)
        ensures bad { ran_of self.new ≡ printing end_bad self.old }
        ensures lent { SameLent self.old self.new }
    {
        self.bench.made = bench_text::put_bad(self.out, self.bench.made, self.bench.lines);
        self.bench.phase = Phase::Over;
    }

    // What a call answered: number and reply printed, the node kept.
    pub fn show_answered(&mut self, a: Answer, reply: &[u8])
        ensures answered { ran_of self.new ≡ printing (answered_shown (back a reply.now)) self.old }
        ensures lent { SameLent self.old self.new }
    {
        self.bench.made = bench_text::put_answer(
            self.out,
            self.bench.made,
            a.number,
            front(reply, a.size),
        );
        self.bench.node = a.node;
    }

    // The first line has to be N, the plan without access points.
    pub fn start_line(&mut self, line: Line)
        ensures first { ran_of self.new ≡ printing (start_line line) self.old }
        ensures lent { SameLent self.old self.new }
    {
        match line {
            Line::Node {
                control,
                user,
                pool,
                recovery,
                resend,
                sends,
                interval,
            } => {
                let plan = Plan {
                    control,
                    user,
                    pool,
                    recovery,
                    resend,
                    sends,
                    interval,
                    count: 0,
                    points: [AccessPoint::none(); Plan::MOST_POINTS],
                };
                self.bench.phase = Phase::Plan;
                self.bench.node = Node::fresh(plan);
            },
            _ => self.end_bad(),
        }
    }

    // A: a further access point. The fifth is a bad line.
    pub fn one_more(&mut self, guarantee: u8, ceiling: u8, octets: &[u8])
        ensures point { ran_of self.new ≡ printing (one_more guarantee ceiling octets.now) self.old }
        ensures lent { SameLent self.old self.new }
    {
        let mut plan = self.bench.node.plan;
        let n = usize::from(plan.count);
        if Plan::MOST_POINTS <= n {
            return self.end_bad();
        }
        plan.points[n] = point_from(guarantee, ceiling, octets);
        plan.count += 1;
        self.bench.node.plan = plan;
    }

    // The plan is taken. A refused one is printed and ends the run.
    pub fn take_plan(&mut self)
        ensures taken { ran_of self.new ≡ on plan_taken self.old }
        ensures lent { SameLent self.old self.new }
    {
        let a = lent_fresh::grugavorn_fresh(self.bench.node.plan, self.recs, self.store);
        if a.number != Number::TAKEN {
            self.bench.phase = Phase::Over;
            return self.show_answered(a, &[]);
        }
        self.bench.phase = Phase::Runs;
        self.bench.node = a.node;
    }

    // The line of a place that was ever used.
    fn print_place(&mut self, place: usize)
        ensures printed { ran_of self.new ≡ printing (place_printed self.old.recs.now self.old.store.now place) self.old }
        ensures lent { SameLent self.old self.new }
    {
        if lent_records::read(&mut *self.recs, place).usage == 0 {
            return;
        }
        let mut text = [0; Answer::LEAST_REPLY];
        let a = lent_line::grugavorn_line(
            self.bench.node,
            &mut *self.recs,
            &mut *self.store,
            place,
            &mut text,
        );
        let end = base_numerals::put_text(self.out, self.bench.made, front(&text, a.size));
        self.bench.made = base_numerals::put(self.out, end, b'\n');
    }

    // The live count, then a line for each place that was ever used.
    fn print_places(&mut self)
        ensures printed { ran_of self.new ≡ printing (places_printed self.old.recs.now self.old.store.now) self.old }
        ensures lent { SameLent self.old self.new }
    {
        let n = sessions(front(&mut *self.recs, Unit::PLACES));
        self.bench.made = bench_text::put_live(self.out, self.bench.made, n as u64);
        for place in 0..Unit::PLACES {
            self.print_place(place);
        }
    }

    // At the end of a plan that is not taken yet it is taken.
    fn end_plan(&mut self)
        ensures taken { ran_of self.new ≡ on end_plan self.old }
        ensures lent { SameLent self.old self.new }
    {
        self.take_plan();
        if self.bench.phase.is_over() {
            return;
        }
        self.print_places();
    }

    // The end of the input. Without any line it is a bad first line.
    pub fn end_of_input(&mut self)
        ensures ended { ran_of self.new ≡ on end_of_input self.old }
        ensures lent { SameLent self.old self.new }
    {
        match self.bench.phase {
            Phase::First => {
                self.bench = self.bench.with_line();
                self.end_bad();
            },
            Phase::Plan => self.end_plan(),
            Phase::Runs => self.print_places(),
            Phase::Over => (),
        }
    }
}
