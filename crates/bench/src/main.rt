// The service bench: reads lines from standard input, puts each to the unit, and prints what it did. The unit's records are one array here and
// its store of kept replies another, lent to all that follows. The input may be of any length: a buffer is filled, its whole lines are taken,
// and what is left of the last moves to the front. Started with any argument, it takes many runs one after another: a line N starts a fresh
// unit, after the lines at the end of the unit before it.
#![tactic(auto)]

ghost use Rattle.std.specs.Prelude.{◌≡◌, ◌≤◌, ◌<◌, ◌+◌, ◌==◌, length, take, drop, position, Some, IsOk, IfOk};
ghost use Rattle.bench.specs.Room.{buffer_octets, HasRoom, goes_on, start_anew, run_prints, placed};
ghost use Rattle.bench_unit.specs.State.{on, ran_of, SameLent};
ghost use Rattle.bench_unit.specs.Whole.{end_prints};

use bench_unit::{Bench, Phase, Run, front};
use call_own::Answer;
use std::env::{Env, FillError};
use std::io;
use std::io::Read;
use unit_session::Session;
use unit_store::Kept;
use unit_tunnel::Unit;

// The octets of each of the two buffers, of the output and of the input.
const ROOM: usize = 65536;

// The room that is kept for a line. No line of input prints more, also where one run ends and the next starts (`runs_most`); so nothing is ever
// cut (`run_whole`, and the contract of `run_line`).
const LINE_ROOM: usize = 4400 + (Answer::LEAST_REPLY + 1) * Unit::PLACES;

// What may stand in the output buffer where a line is taken.
const MOST_MADE: usize = ROOM - LINE_ROOM;

// A run with room for what a line prints, and whether runs follow one another.
#[derive(Drop)]
struct Desk<'a> {
    run: Run<'a>,
    many: bool,
    ghost room: { HasRoom run },
}

// What was printed goes out; records, store and buffer stay as they are. Where it cannot be written the program ends with that error: standard
// error has a word on it, and the exit status is 1.
fn emit(rt: &impl Print, run: &mut Run<'_>) -> io::Result<()>
    ensures made { run.new.bench.made ≡ 0 }
    ensures out { run.new.out.now ≡ run.old.out.now }
    ensures unit { (run.new.recs.now ≡ run.old.recs.now) × (run.new.store.now ≡ run.old.store.now) }
    ensures lent { SameLent run.old run.new }
{
    let n = run.bench.made;
    run.bench.made = 0;
    rt.write_all(front(&mut *run.out, n))
}

// Of many runs one after another: N behind the first line ends the run before it, and a fresh one starts.
fn goes_on(b: Bench, many: bool, line: &[u8]) -> bool
    ensures { result ≡ goes_on b many line.now }
{
    if !many || line.is_empty() {
        return true;
    }
    match b.phase {
        Phase::First => true,
        _ => line[0] != b'N',
    }
}

// What was printed so far goes over to the fresh run.
#[tactic(auto, unfolding(crate::specs::Room::start_anew, crate::specs::Room::anew_of, bench_unit::specs::State::with_made))]
fn start_anew(run: &mut Run<'_>, many: bool, line: &[u8])
    ensures anew { ran_of run.new ≡ on (start_anew many line.now) run.old }
    ensures lent { SameLent run.old run.new }
{
    if goes_on(run.bench, many, line) {
        return;
    }
    run.end_of_input();
    let made = run.bench.made;
    run.bench = Bench::start();
    run.bench.made = made;
}

// What the line prints stands whole behind what was printed before, also where it could not be written; then there is room for the next.
fn run_line(rt: &impl Print, desk: &mut Desk<'_>, line: &[u8]) -> io::Result<()>
    ensures prints { desk.new.run.out.now ≡ placed desk.old.run.bench.made (run_prints desk.old.run.bench desk.old.run.recs.now desk.old.run.store.now desk.old.many line.now) desk.old.run.out.now }
    ensures lent { SameLent desk.old.run desk.new.run }
    ensures many { desk.new.many ≡ desk.old.many }
{
    start_anew(&mut desk.run, desk.many, line);
    bench_run::take_line(&mut desk.run, line);
    if MOST_MADE < desk.run.bench.made {
        emit(rt, &mut desk.run)?;
    }
    Ok(())
}

// The line that comes next is taken, from the front of a text up to its first line end: what stands behind that. What the line prints is placed,
// also where it could not be written.
fn take_next<'a>(
    rt: &impl Print,
    desk: &mut Desk<'_>,
    text: &'a [u8],
    end: usize,
) -> io::Result<&'a [u8]>
    requires { position (λ c. c == 10) text.now ≡ Some end }
    ensures prints { desk.new.run.out.now ≡ placed desk.old.run.bench.made (run_prints desk.old.run.bench desk.old.run.recs.now desk.old.run.store.now desk.old.many (take end text.now)) desk.old.run.out.now }
    ensures behind { IfOk result (λ rest. rest.now ≡ drop (end + 1) text.now) }
    ensures lent { SameLent desk.old.run desk.new.run }
    ensures many { desk.new.many ≡ desk.old.many }
{
    run_line(rt, desk, &text[..end])?;
    Ok(&text[end + 1..])
}

// The whole lines of a text taken, up to the end of the run: how much of it that is.
fn take_lines(rt: &impl Print, desk: &mut Desk<'_>, text: &[u8]) -> io::Result<usize>
    ensures within { IfOk result (λ n. n ≤ length text.now) }
    ensures lent { SameLent desk.old.run desk.new.run }
    ensures many { desk.new.many ≡ desk.old.many }
{
    let mut rest = text;
    while let Some(end) = rest.iter().position(|c| *c == b'\n') {
        rest = take_next(rt, desk, rest, end)?;
        if desk.run.bench.phase.is_over() {
            break;
        }
    }
    Ok(text.len() - rest.len())
}

// At the end of the input the last line may lack its line end; a buffer that is full holds a line that is too long, which is a bad one.
// With nothing left nothing is done and there is no error; else what the line prints is placed, also where it could not be written.
fn take_rest(rt: &impl Print, desk: &mut Desk<'_>, rest: &[u8]) -> io::Result<()>
    ensures none { length rest.now ≡ 0 → IsOk result × (ran_of desk.new.run ≡ ran_of desk.old.run) }
    ensures prints { 0 < length rest.now → desk.new.run.out.now ≡ placed desk.old.run.bench.made (run_prints desk.old.run.bench desk.old.run.recs.now desk.old.run.store.now desk.old.many rest.now) desk.old.run.out.now }
    ensures lent { SameLent desk.old.run desk.new.run }
    ensures many { desk.new.many ≡ desk.old.many }
{
    if rest.is_empty() {
        return Ok(());
    }
    run_line(rt, desk, rest)
}

// What the end of the input prints stands whole behind what was printed before, also where it could not be written.
fn end_run(rt: &impl Print, desk: &mut Desk<'_>) -> io::Result<()>
    ensures prints { desk.new.run.out.now ≡ placed desk.old.run.bench.made (end_prints desk.old.run.bench desk.old.run.recs.now desk.old.run.store.now) desk.old.run.out.now }
    ensures lent { SameLent desk.old.run desk.new.run }
    ensures many { desk.new.many ≡ desk.old.many }
{
    desk.run.end_of_input();
    emit(rt, &mut desk.run)
}

// What was read of the input and is not taken yet, at the front of a buffer.
// Kept: a fixed buffer with a length beside, as a line that fills it is too long, and no read fails for want of memory.
#[derive(Drop)]
struct Text {
    octets: [u8; ROOM],
    have: usize,
    ghost within: { have ≤ buffer_octets },
}

impl Text {
    fn octets(&self) -> &[u8]
        ensures { result.now ≡ take self.now.have self.now.octets }
    {
        &self.octets[..self.have]
    }

    // One read behind the octets that are there, which stay, also where it failed: whether any came. None do at the end of the input, nor
    // where the buffer is full.
    fn fill(&mut self, input: &mut impl Read) -> io::Result<bool>
        ensures kept { take self.old.have self.new.octets ≡ take self.old.have self.old.octets }
    {
        let n = input.read(&mut self.octets[self.have..])?;
        self.have += n;
        Ok(0 < n)
    }

    // The first so many are taken: what is left moves to the front.
    fn take(&mut self, n: usize)
        requires { n ≤ self.old.have }
    {
        self.octets.copy_within(n..self.have, 0);
        self.have -= n;
    }
}

// Whether there is an argument behind the program's name, whatever it is.
fn is_many(rt: &impl Env) -> bool {
    let mut front = [0u8; 1];
    !matches!(rt.arg(1, &mut front), Err(FillError::NotPresent))
}

// A buffer is filled and its whole lines are taken, up to the end of the run or of the input. Records, store and output buffer stay those that
// were lent.
fn run(
    rt: &impl Print,
    input: &mut impl Read,
    desk: &mut Desk<'_>,
    text: &mut Text,
) -> io::Result<()>
    ensures lent { SameLent desk.old.run desk.new.run }
    ensures many { desk.new.many ≡ desk.old.many }
{
    for _ in 0..usize::MAX {
        if !text.fill(input)? {
            take_rest(rt, desk, text.octets())?;
            return end_run(rt, desk);
        }
        let n = take_lines(rt, desk, text.octets())?;
        if desk.run.bench.phase.is_over() {
            return emit(rt, &mut desk.run);
        }
        text.take(n);
    }
    Ok(())
}

fn main(rt: HostRuntime) -> io::Result<()> {
    let mut recs = [Session::blank_at(0); Unit::PLACES];
    let mut store = [[0; Kept::OCTETS]; Kept::ROWS];
    let mut out = [0; ROOM];
    let mut desk = Desk {
        run: Run {
            bench: Bench::start(),
            recs: &mut recs,
            store: &mut store,
            out: &mut out,
        },
        many: is_many(&rt),
    };
    let mut text = Text {
        octets: [0; ROOM],
        have: 0,
    };
    run(&rt, &mut rt.stdin(), &mut desk, &mut text)
}
