// The line of a place, on values: what the bench prints of it, without a line end; and where its session is.
#![tactic(auto)]

ghost use Rattle.std.specs.Prelude.{◌≡◌, ◌++◌};
ghost use Rattle.base_numerals.specs.Laid.{laid, written};
ghost use Rattle.call_line.specs.Line.{number_text, imsi_text, address_text, state_letter, held_text, line_text, rest_text};
ghost use Rattle.call_line.specs.Where.{peer_of, address_at};

use unit_session::Session;
use unit_table::Node;
use unit_tunnel::Unit;

// A tab, then a number.
fn put_number(out: &mut [u8], at: usize, n: u32) -> usize
    ensures { written result out.new ≡ laid at (number_text n) out.old }
{
    let p = base_numerals::put(out, at, b'\t');
    base_numerals::put_decimal(out, p, u64::from(n), 1)
}

// A tab, then the fifteen digits of an IMSI.
fn put_imsi(out: &mut [u8], at: usize, imsi: u64) -> usize
    ensures { written result out.new ≡ laid at (imsi_text imsi) out.old }
{
    let p = base_numerals::put(out, at, b'\t');
    base_numerals::put_decimal(out, p, imsi, 15)
}

// A tab, then an address in hex.
fn put_address(out: &mut [u8], at: usize, address: u32) -> usize
    ensures { written result out.new ≡ laid at (address_text address) out.old }
{
    let p = base_numerals::put(out, at, b'\t');
    base_numerals::put_hex(out, p, &base_octets::octets32(address))
}

// A peer's TEID and address.
fn put_peer(out: &mut [u8], at: usize, teid: u32, address: u32) -> usize
    ensures { written result out.new ≡ laid at (number_text teid ++ address_text address) out.old }
{
    let p = put_number(out, at, teid);
    put_address(out, p, address)
}

// What a session holds.
fn put_held(out: &mut [u8], at: usize, s: Session) -> usize
    ensures { written result out.new ≡ laid at (held_text s) out.old }
{
    let a = put_number(out, at, u32::from(s.point));
    let b = put_imsi(out, a, s.imsi);
    let c = put_number(out, b, u32::from(s.ebi));
    let d = put_peer(out, c, s.control, s.controladdr);
    let e = put_peer(out, d, s.user, s.useraddr);
    put_number(out, e, s.created)
}

// F, L, or X for closing.
fn state_letter(s: Session) -> u8
    ensures { result ≡ state_letter s }
{
    if s.is_free() {
        return b'F';
    }
    if s.state == Session::CLOSING {
        return b'X';
    }
    b'L'
}

// What stands behind the state: of a free place eight dashes.
fn put_rest(out: &mut [u8], at: usize, s: Session) -> usize
    ensures { written result out.new ≡ laid at (rest_text s) out.old }
{
    if s.is_free() {
        return base_numerals::put_text(out, at, b"\t-\t-\t-\t-\t-\t-\t-\t-");
    }
    put_held(out, at, s)
}

pub fn put_line(out: &mut [u8], place: usize, s: Session) -> usize
    ensures { written result out.new ≡ laid 0 (line_text place s) out.old }
{
    let a = base_numerals::put_decimal(out, 0, place as u64, 1);
    let b = put_number(out, a, s.usage);
    let c = base_numerals::put(out, b, b'\t');
    let d = base_numerals::put(out, c, state_letter(s));
    put_rest(out, d, s)
}

// The control address of a session's peer; 0 of a free place.
// Kept: 0 and no Option: C has it as it is, from `grugavorn_peer`.
pub fn peer_of(s: Session) -> u32
    ensures { result ≡ peer_of s }
{
    if s.is_free() {
        return 0;
    }
    s.controladdr
}

// The address of a place's session, by the plan; 0 past the last place.
// Kept: 0 and no Option: C has it as it is, from `grugavorn_address`.
pub fn address_at(node: Node, place: usize) -> u32
    ensures { result ≡ address_at node place }
{
    if place < Unit::PLACES {
        return node.plan.address(place);
    }
    0
}
