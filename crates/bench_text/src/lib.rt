// The bench's text: a line of its input read into an enum, and the lines that it prints. Fields are parted by tabs.
#![tactic(auto)]

ghost use Rattle.std.specs.Prelude.{◌≡◌};
ghost use Rattle.base_numerals.specs.Laid.{laid, written};
ghost use Rattle.base_numerals.specs.Hex.{filled};
ghost use Rattle.bench_text.specs.Fields.{tabs_in, field_at};
ghost use Rattle.bench_text.specs.Lines.{letter_of, told, heard, octets_up_to, datagram_read, node_read, point_read, good_read, line_read};
ghost use Rattle.bench_text.specs.Prints.{octets_text, reply_text, counted_text, answer_text, packet_text, due_text, bad_text, live_text};

use base_numerals::{number_in, put, put_decimal, put_hex, put_text, word_in};
use unit_plan::AccessPoint;

// A line of input. The octets of a name, a datagram or a packet are in the buffer that was lent, `size` of them.
// Kept: a size and no slice, since the clause of `read_line` tells the line and the whole buffer apart (`told`).
#[derive(Clone, Copy)]
pub enum Line {
    Node {
        control: u32,
        user: u32,
        pool: u32,
        recovery: u8,
        resend: u8,
        sends: u8,
        interval: u8,
    },
    Point {
        guarantee: u8,
        ceiling: u8,
        size: usize,
    },
    Control {
        size: usize,
    },
    User {
        size: usize,
    },
    Down {
        size: usize,
    },
    Tick,
    Close {
        place: u8,
    },
    // a line of an access point that is no good one
    BadPoint,
    Bad,
}

impl Line {
    // The most octets of a datagram or a packet.
    pub const DATAGRAM: usize = 2048;
    // A line of more characters is a bad one.
    pub const LONGEST: usize = 65535;
}

#[tactic(auto, unfolding(crate::specs::Fields::is_tab))]
fn tabs_in(line: &[u8]) -> usize
    ensures { result ≡ tabs_in line.now }
{
    line.iter().filter(|c| **c == b'\t').count()
}

// The field of a number, from 0; past the last there is nothing.
fn field(line: &[u8], k: usize) -> &[u8]
    ensures { result.now ≡ field_at k line.now }
{
    line.split(|c| *c == b'\t').nth(k).unwrap_or(&[])
}

// The letter that is the first field.
#[tactic(auto, unfolding(crate::specs::Lines::letter_of))]
fn letter_of(line: &[u8]) -> Option<u8>
    ensures { result ≡ letter_of line.now }
{
    match field(line, 0) {
        [letter] => Some(*letter),
        _ => None,
    }
}

// Octets in hex, at most so many.
#[tactic(auto, unfolding(crate::specs::Lines::octets_up_to))]
fn octets_up_to(text: &[u8], most: usize, out: &mut [u8]) -> Option<usize>
    ensures { filled result out.new ≡ octets_up_to most text.now out.old }
{
    if most < text.len() / 2 {
        return None;
    }
    base_numerals::read_octets(text, out)
}

// C, U and D: a datagram or a packet.
#[tactic(auto, unfolding(crate::specs::Lines::datagram_read, crate::specs::Lines::datagram_most))]
fn read_datagram(line: &[u8], octets: &mut [u8]) -> Option<usize>
    ensures { filled result octets.new ≡ datagram_read line.now octets.old }
{
    octets_up_to(field(line, 1), Line::DATAGRAM, octets)
}

// N: control address, user address, pool base, Recovery, T, N and E.
#[tactic(auto, unfolding(crate::specs::Lines::node_read))]
fn read_node(line: &[u8]) -> Option<Line>
    ensures { result ≡ node_read line.now }
{
    Some(Line::Node {
        control: word_in(field(line, 1))?,
        user: word_in(field(line, 2))?,
        pool: word_in(field(line, 3))?,
        recovery: number_in(field(line, 4))?,
        resend: number_in(field(line, 5))?,
        sends: number_in(field(line, 6))?,
        interval: number_in(field(line, 7))?,
    })
}

// A: name, guarantee, ceiling.
#[tactic(auto, unfolding(crate::specs::Lines::point_read, unit_plan::specs::Limits::longest_name))]
fn read_point(line: &[u8], octets: &mut [u8]) -> Option<Line>
    ensures { heard result octets.new ≡ point_read line.now octets.old }
{
    let guarantee = number_in(field(line, 2))?;
    let ceiling = number_in(field(line, 3))?;
    let size = octets_up_to(field(line, 1), AccessPoint::LONGEST_NAME, octets)?;
    Some(Line::Point {
        guarantee,
        ceiling,
        size,
    })
}

// A good line, by its letter and its number of tabs.
#[tactic(auto, unfolding(crate::specs::Lines::good_read, crate::specs::Lines::longest))]
fn read_good(line: &[u8], octets: &mut [u8]) -> Option<Line>
    ensures { heard result octets.new ≡ good_read line.now octets.old }
{
    if Line::LONGEST < line.len() {
        return None;
    }
    match (letter_of(line)?, tabs_in(line)) {
        (b'N', 7) => read_node(line),
        (b'A', 3) => read_point(line, octets),
        (b'C', 1) => Some(Line::Control {
            size: read_datagram(line, octets)?,
        }),
        (b'U', 1) => Some(Line::User {
            size: read_datagram(line, octets)?,
        }),
        (b'D', 1) => Some(Line::Down {
            size: read_datagram(line, octets)?,
        }),
        (b'T', 0) => Some(Line::Tick),
        (b'X', 1) => Some(Line::Close {
            place: number_in(field(line, 1))?,
        }),
        _ => None,
    }
}

// A line without its line end; the octets that it brings are laid over the front of the buffer, which a bad line leaves as lent.
#[tactic(auto, unfolding(crate::specs::Lines::line_read))]
pub fn read_line(line: &[u8], octets: &mut [u8]) -> Line
    ensures { told result octets.new ≡ line_read line.now octets.old }
{
    if let Some(good) = read_good(line, octets) {
        return good;
    }
    match letter_of(line) {
        Some(b'A') => Line::BadPoint,
        _ => Line::Bad,
    }
}

// Octets in hex, a dash where there are none.
#[tactic(auto, unfolding(crate::specs::Prints::octets_text))]
fn put_octets(out: &mut [u8], at: usize, octets: &[u8]) -> usize
    ensures { written result out.new ≡ laid at (octets_text octets.now) out.old }
{
    if octets.is_empty() {
        return put(out, at, b'-');
    }
    put_hex(out, at, octets)
}

// Number and reply.
#[tactic(auto, using(base_numerals::specs::Laid::laid_on), unfolding(crate::specs::Prints::reply_text))]
fn put_reply(out: &mut [u8], at: usize, number: u8, reply: &[u8]) -> usize
    ensures { written result out.new ≡ laid at (reply_text number reply.now) out.old }
{
    let a = put_decimal(out, at, u64::from(number), 1);
    let b = put(out, a, b'\t');
    put_octets(out, b, reply)
}

// What a call answered: number and reply.
#[tactic(auto, using(base_numerals::specs::Laid::laid_on), unfolding(crate::specs::Prints::answer_text))]
pub fn put_answer(out: &mut [u8], at: usize, number: u8, reply: &[u8]) -> usize
    ensures { written result out.new ≡ laid at (answer_text number reply.now) out.old }
{
    let a = put_reply(out, at, number, reply);
    put(out, a, b'\n')
}

// A packet that went through: number, reply, and a third field, the payload or the peer's address.
#[tactic(auto, using(base_numerals::specs::Laid::laid_on), unfolding(crate::specs::Prints::packet_text))]
pub fn put_packet(out: &mut [u8], at: usize, number: u8, reply: &[u8], payload: &[u8]) -> usize
    ensures { written result out.new ≡ laid at (packet_text number reply.now payload.now) out.old }
{
    let a = put_reply(out, at, number, reply);
    let b = put(out, a, b'\t');
    let c = put_octets(out, b, payload);
    put(out, c, b'\n')
}

// A datagram that was due.
pub fn put_due(out: &mut [u8], at: usize, datagram: &[u8]) -> usize
    ensures { written result out.new ≡ laid at (due_text datagram.now) out.old }
{
    let a = put_text(out, at, b"D\t");
    let b = put_octets(out, a, datagram);
    put(out, b, b'\n')
}

// A letter, a tab, a number.
fn put_counted(out: &mut [u8], at: usize, letter: u8, n: u64) -> usize
    ensures { written result out.new ≡ laid at (counted_text letter n) out.old }
{
    let a = put_text(out, at, &[letter, b'\t']);
    let b = put_decimal(out, a, n, 1);
    put(out, b, b'\n')
}

// A bad line, by its number.
#[tactic(auto, unfolding(crate::specs::Prints::bad_text))]
pub fn put_bad(out: &mut [u8], at: usize, n: u64) -> usize
    ensures { written result out.new ≡ laid at (bad_text n) out.old }
{
    put_counted(out, at, b'E', n)
}

// The head of the lines at the end: the live count.
#[tactic(auto, unfolding(crate::specs::Prints::live_text))]
pub fn put_live(out: &mut [u8], at: usize, n: u64) -> usize
    ensures { written result out.new ≡ laid at (live_text n) out.old }
{
    put_counted(out, at, b'L', n)
}
