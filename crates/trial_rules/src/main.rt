// Hand-made tables, each with a store of kept replies, put to the table rules (number 2): a line of standard input is a case, and the verdict
// on it is printed as the line's number and `kept` or `broken`. What is to be printed, the file `stdout`, was written from documents 01 and
// 02, case by case.
//
// A line has decimal numbers parted by single spaces, in triples `place field value`: each triple is an edit of one table, the base
// table of `base`, in the order in which they stand; P is the number of places. What follows a `#` is a comment and says in words what the case is.
//
//   below P   a record: 0 IMSI, 1 use, 2 and 3 peer's control TEID and address, 4 and 5 peer's user TEID and address,
//             6 creating number, 7 timer, 8 sends, 9 own number, 10 state, 11 access point, 12 EBI
//   1000      what goes with the records: 0 echo's timer, 1 its sends, 2 its number, 3 next number, 4 whether a Recovery is stored,
//             5 which; of the plan: 6 pool base, 7 T, 8 N, 9 E, 10 how many access points
//   1001 ..   an access point's slot: 0 name size, 1 guarantee, 2 ceiling, 3 first octet of the name, 4 its last octet
//   1005      so many places as `field` says, from place 10 on, are live on access point `value`, with an IMSI each
//   1006      no place was ever used
//   1007      so many rows of the store are lent as `value` says, 33 at most
//   1008      so many rows as `field` says, from the first on, are Modify's with life `value`, each with a sequence number of its own
//   2000 ..   a row of the store: `field` is a place in it, `value` the octet there. 0 is the type, 1 to 3 the sequence number, 4 to 7 the
//             header TEID, 8 the life, 9 the number, 10 the size, and the reply is from 11 on
//
// The base keeps every rule. Two access points: g 1 and c 3, g 1 and c P; T 3, N 2, E 60; the echo is due in 60 ticks. Place 0 is
// live on access point 0; place 1 is closing on access point 1 and was sent once, with number 5; place 2 is closing on it and was not
// sent; place 3 is free in use 7; no other place was ever used. The store's first row is the reply to a Delete, its second that to a Modify,
// of one sequence number and header TEID; the others are unused.
#![tactic(auto)]

use base_octets::Number;
use std::io;
use unit_plan::{AccessPoint, Plan};
use unit_session::{Opening, OwnRequest, Session};
use unit_store::Kept;
use unit_table::Node;
use unit_tunnel::Unit;
use wire_messages::MessageType;

// A store has as many rows; one more can be lent.
const MOST_ROWS: usize = Kept::ROWS + 1;

// A table with what goes with it: the records, the rows of the store, and how many of them are lent.
#[derive(Clone, Copy)]
struct Case {
    node: Node,
    recs: [Session; Unit::PLACES],
    rows: [[u8; Kept::OCTETS]; MOST_ROWS],
    lent: usize,
}

// The numbers of a triple that are whole, and the one that is being read.
#[derive(Clone, Copy)]
struct Triple {
    place: Option<u64>,
    field: Option<u64>,
    number: Option<u64>,
}

// Where the reading stands: in which line, and what its edits have made so far.
#[derive(Clone, Copy)]
struct Reading {
    case: Case,
    triple: Triple,
    comment: bool,
    line: u64,
}

// ---- numbers into fields
fn low8(v: u64) -> u8 {
    (v % 256) as u8
}

fn low16(v: u64) -> u16 {
    (v % 65536) as u16
}

fn low32(v: u64) -> u32 {
    (v % 4294967296) as u32
}

// ---- the base table
fn point_called(first: u8, guarantee: u16, ceiling: u16) -> AccessPoint {
    let mut name = [0; AccessPoint::LONGEST_NAME];
    name[0] = first;
    AccessPoint {
        name,
        size: 3,
        guarantee,
        ceiling,
    }
}

fn base_plan() -> Plan {
    let a = point_called(b'A', 1, 3);
    let b = point_called(b'B', 1, Unit::PLACES as u16);
    let none = AccessPoint::none();
    Plan {
        control: u32::from_be_bytes([10, 0, 0, 1]),
        user: u32::from_be_bytes([10, 0, 0, 2]),
        pool: u32::from_be_bytes([100, 64, 0, 0]),
        recovery: 7,
        resend: 3,
        sends: 2,
        interval: 60,
        count: 2,
        points: [a, b, none, none],
    }
}

// A live session, by its IMSI and access point, in use 1.
fn live_on(imsi: u64, point: u8) -> Session {
    let o = Opening {
        imsi,
        control: 4096,
        controladdr: u32::from_be_bytes([10, 0, 1, 1]),
        user: 8192,
        useraddr: u32::from_be_bytes([10, 0, 1, 2]),
        created: 100,
        point,
        ebi: 5,
    };
    Session::blank_at(0).opened(o)
}

fn closing_on(imsi: u64, point: u8) -> Session {
    let mut s = live_on(imsi, point);
    s.state = Session::CLOSING;
    s
}

// A reply of 18 octets that was just given.
fn kept_for(kind: u8, sequence: u32, number: u8) -> [u8; Kept::OCTETS] {
    let head = unit_store::head_of(kind, sequence);
    unit_store::row_of(head, 7, number, 18, &[0; 18])
}

fn base() -> Case {
    let mut recs = [Session::blank_at(0); Unit::PLACES];
    recs[0] = live_on(1010000000001, 0);
    let mut sent = closing_on(1010000000002, 1);
    sent.own = OwnRequest {
        timer: 2,
        sends: 1,
        number: 5,
    };
    recs[1] = sent;
    recs[2] = closing_on(1010000000003, 1);
    recs[3] = Session::blank_at(7);
    let mut rows = [[0; Kept::OCTETS]; MOST_ROWS];
    rows[0] = kept_for(MessageType::DELETE, 256, 0);
    rows[1] = kept_for(MessageType::MODIFY, 256, 64);
    Case {
        node: Node::fresh(base_plan()),
        recs,
        rows,
        lent: Kept::ROWS,
    }
}

// ---- edits
fn set_request(r: &mut OwnRequest, field: u64, v: u64) {
    match field {
        0 => r.timer = low8(v),
        1 => r.sends = low8(v),
        _ => r.number = low32(v),
    }
}

fn set_field(s: &mut Session, field: u64, v: u64) {
    match field {
        0 => s.imsi = v,
        1 => s.usage = low32(v),
        2 => s.control = low32(v),
        3 => s.controladdr = low32(v),
        4 => s.user = low32(v),
        5 => s.useraddr = low32(v),
        6 => s.created = low32(v),
        10 => s.state = low8(v),
        11 => s.point = low8(v),
        12 => s.ebi = low8(v),
        _ => set_request(&mut s.own, field % 7, v),
    }
}

fn set_figure(p: &mut Plan, field: u64, v: u64) {
    match field {
        6 => p.pool = low32(v),
        7 => p.resend = low8(v),
        8 => p.sends = low8(v),
        9 => p.interval = low8(v),
        _ => p.count = low8(v),
    }
}

fn set_node(n: &mut Node, field: u64, v: u64) {
    match field {
        0..=2 => set_request(&mut n.echo, field, v),
        3 => n.next = low32(v),
        4 => n.heard = low8(v),
        5 => n.recovery = low8(v),
        _ => set_figure(&mut n.plan, field, v),
    }
}

fn set_point(p: &mut AccessPoint, field: u64, v: u64) {
    match field {
        0 => p.size = low8(v),
        1 => p.guarantee = low16(v),
        2 => p.ceiling = low16(v),
        3 => p.name[0] = low8(v),
        _ => p.name[AccessPoint::LONGEST_NAME - 1] = low8(v),
    }
}

// What a case names beside places: the node, the slots of access points, many places at once, many rows.
const BESIDE: u64 = 1000;

// The rows of the store.
const ROWS: u64 = 2000;

impl Case {
    // The places from 10 on that are below `end` live on an access point.
    fn fill(&mut self, end: u64, point: u8) {
        for place in 10..end.min(Unit::PLACES as u64) {
            self.recs[place as usize] = live_on(1010000001000 + place, point);
        }
    }

    // The rows below `end` kept, each with its place as its sequence number.
    fn keep(&mut self, end: u64, life: u8) {
        for row in 0..end.min(MOST_ROWS as u64) {
            let mut kept = kept_for(MessageType::MODIFY, row as u32, 0);
            kept[8] = life;
            self.rows[row as usize] = kept;
        }
    }

    fn set_octet(&mut self, row: u64, at: u64, v: u8) {
        if (row < MOST_ROWS as u64) & (at < Kept::OCTETS as u64) {
            self.rows[row as usize][at as usize] = v;
        }
    }

    fn set_record(&mut self, place: u64, field: u64, v: u64) {
        if place < Unit::PLACES as u64 {
            set_field(&mut self.recs[place as usize], field, v);
        }
    }

    fn set_slot(&mut self, slot: u64, field: u64, v: u64) {
        if slot < 4 {
            set_point(&mut self.node.plan.points[slot as usize], field, v);
        }
    }

    fn edit(&mut self, place: u64, field: u64, v: u64) {
        if place < BESIDE {
            self.set_record(place, field, v);
        } else if ROWS <= place {
            self.set_octet(place - ROWS, field, low8(v));
        } else {
            match place - BESIDE {
                0 => set_node(&mut self.node, field, v),
                5 => self.fill(field % BESIDE + 10, low8(v)),
                6 => self.recs = [Session::blank_at(0); Unit::PLACES],
                7 => self.lent = v as usize,
                8 => self.keep(field, low8(v)),
                past => self.set_slot(past - 1, field, v),
            }
        }
    }

    // Whether a tick, to which the records and the rows are lent, finds the rules kept.
    fn is_kept(&mut self) -> bool {
        let lent = self.lent.min(MOST_ROWS);
        let rows = &mut self.rows[..];
        let answer = lent_own::grugavorn_tick(self.node, &mut self.recs, &mut rows[..lent]);
        answer.number != Number::RULES_BROKEN
    }
}

// ---- reading
impl Triple {
    fn digit(&mut self, octet: u8) {
        let before = self.number.unwrap_or(0) % 1000000000000000000;
        self.number = Some(before * 10 + u64::from(octet % 16));
    }
}

impl Reading {
    // The start of a line.
    fn started(line: u64) -> Self {
        Reading {
            case: base(),
            triple: Triple {
                place: None,
                field: None,
                number: None,
            },
            comment: false,
            line,
        }
    }

    // A number is whole: the first two of a triple are kept, the third makes the edit.
    fn number_ended(&mut self) {
        if let Some(number) = self.triple.number.take() {
            match (self.triple.place, self.triple.field) {
                (None, _) => self.triple.place = Some(number),
                (Some(_), None) => self.triple.field = Some(number),
                (Some(place), Some(field)) => {
                    self.case.edit(place, field, number);
                    self.triple.place = None;
                    self.triple.field = None;
                }
            }
        }
    }

    // The line is whole: its verdict is printed, and the next begins with the base table.
    fn line_ended(&mut self, rt: &impl Print) -> io::Result<()> {
        let line = self.line;
        if self.case.is_kept() {
            println!(rt; "{line} kept")?;
        } else {
            println!(rt; "{line} broken")?;
        }
        *self = Self::started(line.wrapping_add(1));
        Ok(())
    }

    fn read(&mut self, rt: &impl Print, octet: u8) -> io::Result<()> {
        match octet {
            b'\n' => {
                self.number_ended();
                self.line_ended(rt)?;
            }
            _ if self.comment => {}
            b' ' => self.number_ended(),
            b'#' => self.comment = true,
            _ => self.triple.digit(octet),
        }
        Ok(())
    }
}

fn main(rt: HostRuntime) -> io::Result<()> {
    let mut buf = [0u8; 65536];
    let n = trial_input::read_full(&mut rt.stdin(), &mut buf)?;
    let mut reading = Reading::started(1);
    for octet in &buf[..n] {
        reading.read(&rt, *octet)?;
    }
    Ok(())
}
