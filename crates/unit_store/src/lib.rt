// The store of kept replies: rows that the caller lends, each the reply to a Modify or a Delete that was answered, the newest first.
// A row is octets, so that it is lent as it lies: type, sequence number (3) and header TEID (4) of the request, the life that is left, the
// number that was answered, the size of the reply, and room for its octets. A row of life 0 is unused, and nothing else of it is looked at.
#![tactic(auto)]

ghost use Rattle.std.specs.Prelude.{◌≡◌, ◌/◌, ◌%◌, ◌<◌, ◌≤◌, ◌&&◌, [], ◌∷◌, length, position, slice_index_or, sum_by};
ghost use Rattle.base_octets.specs.BigEndian.{number_of};
ghost use Rattle.base_octets.specs.Every.{every};
ghost use Rattle.base_octets.specs.Overlay.{Wrote};
ghost use Rattle.base_octets.specs.Places.{map_first};
ghost use Rattle.base_octets.specs.Sums.{sum_of};
ghost use Rattle.base_distinct.specs.Apart.{pairwise};
ghost use Rattle.unit_store.specs.Row.{store_rows, life_in, number_in, octets_in, head_of, three_of, three_in, is_unused, holds, scattered, type_unit, type_ok, number_ok, reply_ok, mark_in, kept_ok, life_after, life_taken, blank_row, blanked, row_of};
ghost use Rattle.unit_store.specs.Store.{same_three, store_ok, pushed};

use base_octets::Number;
use wire_fields::Refusal;
use wire_messages::MessageType;

// What a store and a row of it measure.
#[derive(Clone, Copy)]
pub struct Kept {}

impl Kept {
    // how many replies are kept
    pub const ROWS: usize = 32;

    // the octets of a row: what stands before the reply, and the room for it
    // Kept: a row is octets and no struct of fields, since C lends it so (grugavorn_kept in include/grugavorn.h).
    pub const OCTETS: usize = Self::BEFORE + Self::ROOM;

    pub const BEFORE: usize = 11;

    pub const ROOM: usize = 128;

    // where the life, the number and the size stand in a row
    const LIFE_AT: usize = 8;

    const NUMBER_AT: usize = 9;

    const SIZE_AT: usize = 10;

    // the longest reply that is kept
    pub const LONGEST: u8 = 128;

    // what the type of a request counts in its scattered three
    const TYPE: u64 = 72057594054705152;

    // the ticks that a reply is kept: the last of them drops it
    pub const LIFE: u8 = 10;
}

// Type and sequence number of a request, as one number of 32 bits.
#[tactic(auto, unfolding(crate::specs::Row::head_of))]
pub fn head_of(kind: u8, sequence: u32) -> u32
    ensures { result ≡ head_of kind sequence }
{
    u32::from(kind) * 16777216 + sequence % 16777216
}

// With the header TEID, as one number of 64 bits.
#[tactic(auto, unfolding(crate::specs::Row::three_of))]
pub fn three_of(head: u32, teid: u32) -> u64
    ensures { result ≡ three_of head teid }
{
    u64::from(head) * 4294967296 + u64::from(teid)
}

// The three of a row: its first eight octets.
#[tactic(auto, unfolding(crate::specs::Row::three_in))]
fn three_in(r: &[u8; Kept::OCTETS]) -> u64
    ensures { result ≡ three_in r.now }
{
    let head = base_octets::be32(r[0], r[1], r[2], r[3]);
    let teid = base_octets::be32(r[4], r[5], r[6], r[7]);
    three_of(head, teid)
}

// The three scattered, so that the TEID and the sequence number both move the lower half, by which keys have their slots. The sum wraps for types
// over 254, which no reply has.
#[tactic(auto, using(crate::specs::Row::scattered_by))]
fn scattered(head: u32, teid: u32) -> u64
    ensures { result ≡ scattered (three_of head teid) % 18446744073709551616 }
{
    (u64::from(head) * 4294967297).wrapping_add(u64::from(teid))
}

// Whether a number is one that a Modify or a Delete is answered with.
#[tactic(auto, unfolding(crate::specs::Row::number_ok))]
fn number_ok(n: u8) -> bool
    ensures { result ≡ number_ok n }
{
    (n == Number::TAKEN)
        | (n == Refusal::NOT_LIVE)
        | (n == Refusal::SHORT)
        | (n == Refusal::WRONG)
        | (n == Refusal::MISSING)
}

// Whether the type is that of a Modify or a Delete, as it stands in the scattered three.
#[tactic(auto, unfolding(crate::specs::Row::type_ok))]
fn type_ok(key: u64) -> bool
    ensures { result ≡ type_ok (key / type_unit) }
{
    let kind = key / Kept::TYPE;
    (kind == u64::from(MessageType::MODIFY)) | (kind == u64::from(MessageType::DELETE))
}

// Whether a kept reply keeps the rules that are its own.
fn reply_ok(r: &[u8; Kept::OCTETS], key: u64) -> bool
    requires { key ≡ scattered (three_in r.now) % 18446744073709551616 }
    ensures { result ≡ reply_ok r.now }
{
    (life_in(r) <= Kept::LIFE)
        & (r[Kept::SIZE_AT] <= Kept::LONGEST)
        & type_ok(key)
        & number_ok(r[Kept::NUMBER_AT])
}

// Whether a row is unused.
#[tactic(auto, unfolding(crate::specs::Row::is_unused))]
fn is_unused(r: &[u8; Kept::OCTETS]) -> bool
    ensures { result ≡ is_unused r.now }
{
    life_in(r) == 0
}

// A row in one number: 0 for an unused one, 1 for one that breaks a rule, else its type, sequence number and TEID, scattered.
// Kept: a number and no enum, since `distinct` takes marks as keys of 64 bits, of which 0 is none: an enum would be turned into them again.
fn mark_in(r: &[u8; Kept::OCTETS]) -> u64
    ensures { result ≡ mark_in r.now }
{
    if is_unused(r) {
        return 0;
    }
    let head = base_octets::be32(r[0], r[1], r[2], r[3]);
    let teid = base_octets::be32(r[4], r[5], r[6], r[7]);
    let key = scattered(head, teid);
    if !reply_ok(r, key) {
        return 1;
    }
    key
}

// The life that is left of a row.
#[tactic(auto, unfolding(crate::specs::Row::life_in))]
fn life_in(r: &[u8; Kept::OCTETS]) -> u8
    ensures { result ≡ life_in r.now }
{
    r[Kept::LIFE_AT]
}

// The lives that are left, added up: 0 where nothing is kept.
#[tactic(auto, unfolding(crate::specs::Row::life_in))]
fn lives(rows: &[[u8; Kept::OCTETS]]) -> u32
    requires { length rows.now ≤ store_rows }
    ensures { result ≡ sum_by life_in rows.now }
{
    rows.iter().map(|r| u32::from(life_in(r))).sum()
}

// Whether each row keeps its rules, and no two are equal in type, sequence number and TEID. What the lives add up to says where to stop: once
// they are used up, the rows that are left are unused.
// Kept: a `while`, since it ends with the lives and not with the rows: a `for` would make the same test inside and compare in two places.
fn apart(rows: &[[u8; Kept::OCTETS]], sum: u32) -> bool
    requires { (length rows.now ≡ store_rows) × (sum ≡ sum_of life_in rows.now) }
    ensures { result ≡ (every kept_ok rows.now && pairwise same_three rows.now) }
{
    let mut marks = [0u64; Kept::ROWS];
    let mut left = sum;
    let mut i: usize = 0;
    while 0 < left {
        let m = mark_in(&rows[i]);
        if m == 1 {
            return false;
        }
        marks[i] = m;
        left -= u32::from(life_in(&rows[i]));
        i += 1;
    }
    base_distinct::distinct(&marks[..i])
}

// Whether the store keeps its rules; another count of rows breaks them.
pub fn store_ok(rows: &[[u8; Kept::OCTETS]]) -> bool
    ensures { result ≡ store_ok rows.now }
{
    if rows.len() != Kept::ROWS {
        return false;
    }
    let sum = lives(rows);
    if sum == 0 {
        return true;
    }
    apart(rows, sum)
}

// Whether a row is the kept reply to a request.
#[tactic(auto, unfolding(crate::specs::Row::holds))]
fn holds(r: &[u8; Kept::OCTETS], three: u64) -> bool
    ensures { result ≡ holds three r.now }
{
    !is_unused(r) & (three == three_in(r))
}

// The place of the kept reply to a request.
pub fn find(rows: &[[u8; Kept::OCTETS]], three: u64) -> Option<usize>
    ensures { result ≡ position (holds three) rows.now }
{
    rows.iter().position(|r| holds(r, three))
}

// The number that was answered.
#[tactic(auto, unfolding(crate::specs::Row::number_in))]
pub fn number_in(rows: &[[u8; Kept::OCTETS]], at: usize) -> u8
    requires { at < length rows.now }
    ensures { result ≡ number_in (slice_index_or rows.now at []) }
{
    rows[at][Kept::NUMBER_AT]
}

// The kept reply of a row, laid into the reply buffer; its length.
fn lay_row(r: &[u8; Kept::OCTETS], reply: &mut [u8]) -> usize
    ensures { Wrote result reply.new reply.old (octets_in r.now) }
{
    let n = usize::from(r[Kept::SIZE_AT]).min(Kept::ROOM);
    base_octets::copy_front(&r[Kept::BEFORE..Kept::BEFORE + n], reply);
    n
}

// The kept reply of a place.
pub fn lay(rows: &[[u8; Kept::OCTETS]], at: usize, reply: &mut [u8]) -> usize
    requires { at < length rows.now }
    ensures { Wrote result reply.new reply.old (octets_in (slice_index_or rows.now at [])) }
{
    lay_row(&rows[at], reply)
}

// The first unused place.
fn first_unused(rows: &[[u8; Kept::OCTETS]]) -> Option<usize>
    ensures { result ≡ position is_unused rows.now }
{
    rows.iter().position(|r| is_unused(r))
}

// A row put in front; where all places are used the last one makes room.
pub fn keep(rows: &mut [[u8; Kept::OCTETS]], row: [u8; Kept::OCTETS])
    ensures { rows.new ≡ pushed row rows.old }
{
    if rows.is_empty() {
        return;
    }
    let last = first_unused(rows).unwrap_or(rows.len() - 1);
    rows[..last + 1].rotate_right(1);
    rows[0] = row;
}

// The life that is left after a tick, or after a restart of the exchange, which takes all.
#[tactic(auto, unfolding(crate::specs::Row::life_after))]
fn life_after(all: bool, life: u8) -> u8
    ensures { result ≡ life_after all life }
{
    if all { 0 } else { life.saturating_sub(1) }
}

// Life taken from the first n rows, or from all where there are fewer; a row is dropped where none is left.
pub fn take_life(rows: &mut [[u8; Kept::OCTETS]], all: bool, n: usize)
    ensures { rows.new ≡ map_first (life_taken all) n rows.old }
{
    let m = n.min(rows.len());
    for r in &mut rows[..m] {
        r[Kept::LIFE_AT] = life_after(all, r[Kept::LIFE_AT]);
    }
}

// A row of zeros: unused.
#[tactic(auto, unfolding(crate::specs::Row::blank_row))]
fn blank_row() -> [u8; Kept::OCTETS]
    ensures { result ≡ blank_row }
{
    [0; Kept::OCTETS]
}

// A row made of a request and the reply that it got: the first `size` octets of the reply buffer.
pub fn row_of(head: u32, teid: u32, number: u8, size: u8, reply: &[u8]) -> [u8; Kept::OCTETS]
    ensures { result ≡ row_of head teid number size reply.now }
{
    let a = base_octets::octets32(head);
    let b = base_octets::octets32(teid);
    let front = [
        a[0],
        a[1],
        a[2],
        a[3],
        b[0],
        b[1],
        b[2],
        b[3],
        Kept::LIFE,
        number,
        size,
    ];
    let n = usize::from(size).min(reply.len());
    let mut r = blank_row();
    base_octets::copy_front(&front, &mut r);
    base_octets::copy_front(&reply[..n], &mut r[Kept::BEFORE..]);
    r
}

// The first n rows made zero, or all where there are fewer.
pub fn clear(rows: &mut [[u8; Kept::OCTETS]], n: usize)
    ensures { rows.new ≡ map_first blanked n rows.old }
{
    let m = n.min(rows.len());
    rows[..m].fill(blank_row());
}
