// The control call with the store of kept replies: what a datagram asks of the store is found before the records are looked at, and what
// becomes of the store is done after them.
#![tactic(auto)]

ghost use Rattle.std.specs.Prelude.{◌≡◌};
ghost use Rattle.base_octets.specs.Choice.{pick};
ghost use Rattle.wire_header.specs.Header.{header_of};
ghost use Rattle.call_store.specs.Stored.{asks_store};
ghost use Rattle.call_store.specs.Steps.{ask_of, wish_of, told, settled, settled_of, count_with, cleared_rows};

use base_octets::Number;
use call_asked::Asked;
use call_own::Answer;
use unit_store::Kept;
use unit_tunnel::Unit;
use wire_header::HeaderCursor;
use wire_messages::MessageType;

// What a request is known by in the store: its type and sequence number, and its header TEID.
#[derive(Clone, Copy)]
pub struct Query {
    pub head: u32,
    pub teid: u32,
}

// What a datagram asks of the store: whether the store keeps its rules, what the datagram is known by where it is one that asks it, and the
// place of the kept reply, past the last where there is none.
// Kept: `at` is held against the count of rows, below which `number_in` and `lay` require it: an Option would be tested besides.
#[derive(Clone, Copy)]
pub struct Ask {
    pub sound: bool,
    pub query: Option<Query>,
    pub at: usize,
}

// The header of a datagram that asks the store: its type is looked at first, since most are of another.
#[tactic(auto, using(base_octets::specs::Refused::refused_some), unfolding(crate::specs::Stored::asks_store, wire_header::specs::Header::kind_of))]
fn asking(d: &[u8]) -> Option<HeaderCursor>
    ensures { result ≡ pick (asks_store d.now) (Some (header_of d.now)) None }
{
    let kind = wire_fields::octet_at(d, 1);
    if (kind != MessageType::MODIFY) & (kind != MessageType::DELETE) {
        return None;
    }
    wire_header::gate(d).ok()
}

#[tactic(auto, using(base_octets::specs::Search::first_or_none), unfolding(crate::specs::Steps::ask_of, crate::specs::Stored::head_asked, crate::specs::Stored::three_asked, crate::specs::Stored::kept_place, wire_header::specs::Header::header_of))]
pub fn ask_of(store: &[[u8; Kept::OCTETS]], d: &[u8]) -> Ask
    ensures { result ≡ ask_of store.now d.now }
{
    let sound = unit_store::store_ok(store);
    match asking(d) {
        Some(h) => {
            let head = unit_store::head_of(h.kind, h.sequence);
            let three = unit_store::three_of(head, h.teid);
            let query = Query { head, teid: h.teid };
            Ask {
                sound,
                query: Some(query),
                at: unit_store::find(store, three).unwrap_or(store.len()),
            }
        }
        None => Ask {
            sound,
            query: None,
            at: store.len(),
        },
    }
}

// What is asked of the records: nothing where the store breaks its rules, or answers.
pub fn wish_of(store: &[[u8; Kept::OCTETS]], ask: Ask, asked: Asked) -> Asked
    ensures { result ≡ wish_of store.now ask asked }
{
    if !ask.sound {
        return Asked::Silent(Number::RULES_BROKEN);
    }
    if ask.at < store.len() {
        let number = unit_store::number_in(store, ask.at);
        return Asked::Silent(number);
    }
    asked
}

// What the store is asked for, where it answers or keeps the answer: nothing is refused before it is asked.
#[tactic(auto, unfolding(crate::specs::Steps::told, call_own::specs::Outcome::least_reply))]
fn told(room: usize, kept: bool, ask: Ask) -> Option<Query>
    ensures { result ≡ told room kept ask }
{
    if (Answer::LEAST_REPLY <= room) & kept & ask.sound {
        return ask.query;
    }
    None
}

// What becomes of the store, and of the reply that the records gave, with its number and its length: the length of the reply is answered. `kept` says
// whether the records keep the rules, `all` whether all of them were freed.
// Kept: `kept` and `all` come from what was found, `number` and `size` from what was answered: a struct would be built at the one call.
pub fn settled(
    store: &mut [[u8; Kept::OCTETS]],
    ask: Ask,
    kept: bool,
    all: bool,
    number: u8,
    size: usize,
    reply: &mut [u8],
) -> usize
    ensures { settled result reply.new store.new ≡ settled_of store.old ask kept all number size reply.old }
{
    if all {
        unit_store::take_life(store, true, Kept::ROWS);
        return size;
    }
    let Some(query) = told(reply.len(), kept, ask) else {
        return size;
    };
    if store.len() <= ask.at {
        let row = unit_store::row_of(query.head, query.teid, number, (size % 256) as u8, reply);
        unit_store::keep(store, row);
        return size;
    }
    unit_store::lay(store, ask.at, reply)
}

// The count of records that fresh goes by: none where there is another count of rows.
// Kept: this, `cleared_rows`, `aged_count` and `whole` are a test and two figures each, which a shared function would be handed.
pub fn count_with(count: usize, rows: usize) -> usize
    ensures { result ≡ count_with count rows }
{
    if rows == Kept::ROWS {
        return count;
    }
    0
}

// How many rows fresh empties.
pub fn cleared_rows(count: usize) -> usize
    ensures { result ≡ cleared_rows count }
{
    if count == Unit::PLACES {
        return Kept::ROWS;
    }
    0
}
