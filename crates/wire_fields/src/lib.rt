// The fields of a control datagram. A walk finds the first field of a type and instance, and whether one runs past the end; two values have
// several octets, IMSI and F-TEID; one reader a field gives its value, or its flaw: that it is missing, short or wrong. A Bearer Context
// holds fields of the same form, so the same functions read its octets.
#![tactic(auto)]

ghost use Rattle.std.specs.Prelude.{◌≡◌, get_or, length, ◌+◌, ◌*◌, ◌≤◌};
ghost use Rattle.std.specs.Iterator.{YieldsFirst, item_count};
ghost use Rattle.wire_fields.specs.Walk.{part, overruns, fields_at};
ghost use Rattle.wire_fields.specs.Search.{named, find};
ghost use Rattle.wire_fields.specs.Overrun.{over_in};
ghost use Rattle.wire_fields.specs.Imsi.{imsi_of, digits_from, halves};
ghost use Rattle.wire_fields.specs.Tunnel.{tunnel_of};
ghost use Rattle.wire_fields.specs.Refusal.{missing, short, wrong, bare_refusal, refusal_of};
ghost use Rattle.wire_fields.specs.Readers.{octet_in, rat_in, paa_in, ebi_in, imsi_in, tunnel_in, recovery_in};

// Where a field's value stands.
#[derive(Clone, Copy)]
pub struct Found {
    pub start: usize,
    pub size: usize,
}

impl Found {
    // type, length and instance stand before the value
    pub const BEFORE_VALUE: usize = 4;

    // the field that holds fields
    pub const BEARER_CONTEXT: u8 = 93;

    // The octets of the value: none where it lies past the end.
    #[tactic(auto, unfolding(crate::specs::Walk::part))]
    pub fn of(self, s: &[u8]) -> &[u8]
        ensures { result.now ≡ part s.now self.start self.size }
    {
        let behind = &s[self.start.min(s.len())..];
        &behind[..self.size.min(behind.len())]
    }
}

// The octet at a place, 0 past the end.
pub fn octet_at(s: &[u8], at: usize) -> u8
    ensures { result ≡ get_or s.now at 0 }
{
    s.get(at).copied().unwrap_or(0)
}

// A whole field: its type, its instance, and where its value stands.
#[derive(Clone, Copy)]
pub struct Field {
    pub kind: u8,
    pub instance: u8,
    pub found: Found,
}

impl Field {
    #[tactic(auto, unfolding(crate::specs::Search::named))]
    fn named(self, kind: u8, instance: u8) -> bool
        ensures { result ≡ named self kind instance }
    {
        (self.kind == kind) & (self.instance == instance)
    }
}

// The whole fields from a place on, one after the other. A field that is cut, or runs past the end, ends the walk.
#[derive(Clone, Copy)]
struct Fields<'a> {
    s: &'a [u8],
    at: usize,
    ghost within: { at ≤ length s.now },
}

impl Iterator for Fields<'_> {
    type Item = Field;

    ghost next_gives = { YieldsFirst (λ f. fields_at f.s.now f.at) };

    ghost remaining = { item_count (λ f. fields_at f.s.now f.at) };

    fn next(&mut self) -> Option<Field> {
        let [kind, high, low, fourth, behind @ ..] = &self.s[self.at..] else {
            return None;
        };
        let size = usize::from(base_octets::be16(*high, *low));
        if behind.len() < size {
            return None;
        }
        let start = self.at + Found::BEFORE_VALUE;
        self.at = start + size;
        Some(Field {
            kind: *kind,
            instance: *fourth % 16,
            found: Found { start, size },
        })
    }
}

// Whether a field runs past the end: the last whole field ends before the octets do. Fewer than 4 octets left over are an overrun too.
pub fn overruns(s: &[u8]) -> bool
    ensures { result ≡ overruns s.now }
{
    match (Fields { s, at: 0 }).last() {
        Some(f) => f.found.start + f.found.size < s.len(),
        None => !s.is_empty(),
    }
}

// The first field of a type and instance, among the whole fields.
pub fn find(s: &[u8], kind: u8, instance: u8) -> Option<Found>
    ensures { result ≡ find s.now kind instance }
{
    let field = (Fields { s, at: 0 }).find(|f| f.named(kind, instance))?;
    Some(field.found)
}

// Whether a field runs past the end of the message, or past the end of its first Bearer Context.
#[tactic(auto, unfolding(crate::specs::Overrun::over_in, crate::specs::Overrun::over_within))]
pub fn over_in(s: &[u8]) -> bool
    ensures { result ≡ over_in s.now }
{
    if overruns(s) {
        return true;
    }
    let Some(bearer) = find(s, Found::BEARER_CONTEXT, 0) else {
        return false;
    };
    overruns(bearer.of(s))
}

// Why a read gives no value: the field is not there, has too few octets, or has a value that is not accepted.
#[derive(Clone, Copy, Debug, PartialEq, Eq)]
pub enum Flaw {
    Missing,
    Short,
    Wrong,
}

// The field of the IMSI: fifteen digits, kept as one number, the first most significant.
#[derive(Clone, Copy)]
pub struct Imsi {}

// A tunnel end: its TEID and its IPv4 address.
#[derive(Clone, Copy)]
pub struct Tunnel {
    pub teid: u32,
    pub address: u32,
}

impl Imsi {
    // the field's type
    pub const FIELD: u8 = 1;

    pub const SIZE: usize = 8;

    // the half behind the fifteenth digit
    pub const FILLER: u8 = 15;
}

impl Tunnel {
    pub const FIELD: u8 = 87;

    pub const SIZE: usize = 9;

    // The top bit of the first octet is the V4 flag, its low 6 bits are the interface.
    pub const V4: u8 = 128;

    pub const INTERFACES: u8 = 64;
}

// The two digits of an octet, the low half first.
fn two_digits(low: u8, high: u8) -> u64
    ensures { result ≡ low * 10 + high }
{
    u64::from(low) * 10 + u64::from(high)
}

// The halves are tested from the sixteenth, the filler, back to the first: an IMSI that is wrong is mostly wrong at its end.
fn digits(v: &[u8; Imsi::SIZE]) -> Result<u64, Flaw>
    ensures { result ≡ digits_from 0 (halves v.now) }
{
    let end = Imsi::SIZE - 1;
    let last = v[end];
    if last / 16 != Imsi::FILLER {
        return Err(Flaw::Wrong);
    }
    if 9 < last % 16 {
        return Err(Flaw::Wrong);
    }
    let mut n = u64::from(last % 16);
    // what 1 is worth in front of the digits that n has
    let mut worth: u64 = 10;
    for x in v[..end].iter().rev() {
        if 9 < x / 16 {
            return Err(Flaw::Wrong);
        }
        if 9 < x % 16 {
            return Err(Flaw::Wrong);
        }
        n += two_digits(x % 16, x / 16) * worth;
        worth *= 100;
    }
    Ok(n)
}

// The IMSI that a field's value holds.
#[tactic(auto, unfolding(crate::specs::Imsi::imsi_of, crate::specs::Imsi::imsi_size))]
pub fn imsi_of(v: &[u8]) -> Result<u64, Flaw>
    ensures { result ≡ imsi_of v.now }
{
    digits(v.first_chunk().ok_or(Flaw::Short)?)
}

// The F-TEID with an IPv4 address that a field's value holds, for the interface that is asked for.
#[tactic(auto, unfolding(crate::specs::Tunnel::tunnel_of, crate::specs::Tunnel::tunnel_good, crate::specs::Tunnel::tunnel_size, crate::specs::Tunnel::word_at))]
pub fn tunnel_of(v: &[u8], interface: u8) -> Result<Tunnel, Flaw>
    ensures { result ≡ tunnel_of v.now interface }
{
    if v.len() < Tunnel::SIZE {
        return Err(Flaw::Short);
    }
    let teid = base_octets::be32(v[1], v[2], v[3], v[4]);
    let address = base_octets::be32(v[5], v[6], v[7], v[8]);
    let flags = v[0];
    if (Tunnel::V4 <= flags) & (flags % Tunnel::INTERFACES == interface) & (0 < teid) {
        return Ok(Tunnel { teid, address });
    }
    Err(Flaw::Wrong)
}

// The field that a refusal names, by type and instance.
#[derive(Clone, Copy)]
pub struct Fault {
    pub kind: u8,
    pub instance: u8,
}

// A cause, and the field that it names, where it names one.
// Kept: a cause is an octet of the wire and a number that C sees, beside those of base_octets' Number.
#[derive(Clone, Copy)]
pub struct Refusal {
    pub cause: u8,
    pub fault: Option<Fault>,
}

// The fields that are read for one octet.
// Kept: their types are octets of the wire, and `find` and `octet_in` take any: an enum would ask more of callers.
#[derive(Clone, Copy)]
pub struct Octet {}

impl Flaw {
    // What a request is refused with for it, by the type and instance of the field that was to be read.
    #[tactic(auto, unfolding(crate::specs::Refusal::refusal_of))]
    pub fn refusal(self, kind: u8, instance: u8) -> Refusal
        ensures { result ≡ refusal_of self kind instance }
    {
        match self {
            Flaw::Missing => Refusal::missing(kind, instance),
            Flaw::Short => Refusal::short(kind, instance),
            Flaw::Wrong => Refusal::wrong(kind, instance),
        }
    }
}

impl Refusal {
    // not a refusal: what is accepted has a Cause too
    pub const ACCEPTED: u8 = 16;

    pub const NOT_LIVE: u8 = 64;

    pub const SHORT: u8 = 67;

    pub const WRONG: u8 = 69;

    pub const MISSING: u8 = 70;

    pub const NO_ROOM: u8 = 73;

    pub const UNKNOWN_APN: u8 = 78;

    pub const ADDRESS_TYPE: u8 = 83;

    // Kept: three constructors for the paper's three words, each with its definition.
    pub fn missing(kind: u8, instance: u8) -> Self
        ensures { result ≡ missing kind instance }
    {
        Refusal {
            cause: Self::MISSING,
            fault: Some(Fault { kind, instance }),
        }
    }

    pub fn short(kind: u8, instance: u8) -> Self
        ensures { result ≡ short kind instance }
    {
        Refusal {
            cause: Self::SHORT,
            fault: Some(Fault { kind, instance }),
        }
    }

    pub fn wrong(kind: u8, instance: u8) -> Self
        ensures { result ≡ wrong kind instance }
    {
        Refusal {
            cause: Self::WRONG,
            fault: Some(Fault { kind, instance }),
        }
    }

    // A cause that names no field.
    pub fn bare(cause: u8) -> Self
        ensures { result ≡ bare_refusal cause }
    {
        Refusal { cause, fault: None }
    }
}

impl Octet {
    // the types of the fields that are read for one octet, or only for being there and long enough
    pub const CAUSE: u8 = 2;

    pub const RECOVERY: u8 = 3;

    pub const EBI: u8 = 73;

    pub const PAA: u8 = 79;

    pub const QOS: u8 = 80;

    pub const RAT: u8 = 82;

    // what each has at least; the others are one octet
    pub const CAUSE_SIZE: usize = 2;

    pub const PAA_SIZE: usize = 5;

    pub const QOS_SIZE: usize = 22;
}

// The first octet of a field of instance 0 that has at least so many octets.
#[tactic(auto, unfolding(crate::specs::Readers::octet_in, crate::specs::Readers::octet_at))]
pub fn octet_in(s: &[u8], kind: u8, least: usize) -> Result<u8, Flaw>
    ensures { result ≡ octet_in s.now kind least }
{
    let found = find(s, kind, 0).ok_or(Flaw::Missing)?;
    if found.size < least {
        return Err(Flaw::Short);
    }
    Ok(octet_at(s, found.start))
}

// RAT Type: 1 or 6.
#[tactic(auto, unfolding(crate::specs::Readers::rat_in))]
pub fn rat_in(s: &[u8]) -> Result<u8, Flaw>
    ensures { result ≡ rat_in s.now }
{
    let x = octet_in(s, Octet::RAT, 1)?;
    if (x == 1) | (x == 6) {
        return Ok(x);
    }
    Err(Flaw::Wrong)
}

// The type of address that the PAA asks for.
#[tactic(auto, unfolding(crate::specs::Readers::paa_in))]
pub fn paa_in(s: &[u8]) -> Result<u8, Flaw>
    ensures { result ≡ paa_in s.now }
{
    let x = octet_in(s, Octet::PAA, Octet::PAA_SIZE)?;
    Ok(x % 8)
}

// EBI: 5 to 15 in the low half.
#[tactic(auto, unfolding(crate::specs::Readers::ebi_in))]
pub fn ebi_in(s: &[u8]) -> Result<u8, Flaw>
    ensures { result ≡ ebi_in s.now }
{
    let x = octet_in(s, Octet::EBI, 1)?;
    if x % 16 < 5 {
        return Err(Flaw::Wrong);
    }
    Ok(x % 16)
}

#[tactic(auto, unfolding(crate::specs::Readers::imsi_in, crate::specs::Readers::imsi_at))]
pub fn imsi_in(s: &[u8]) -> Result<u64, Flaw>
    ensures { result ≡ imsi_in s.now }
{
    let found = find(s, Imsi::FIELD, 0).ok_or(Flaw::Missing)?;
    imsi_of(found.of(s))
}

// The F-TEID of an instance, for an interface.
#[tactic(auto, unfolding(crate::specs::Readers::tunnel_in, crate::specs::Readers::tunnel_at))]
pub fn tunnel_in(s: &[u8], instance: u8, interface: u8) -> Result<Tunnel, Flaw>
    ensures { result ≡ tunnel_in s.now instance interface }
{
    let found = find(s, Tunnel::FIELD, instance).ok_or(Flaw::Missing)?;
    tunnel_of(found.of(s), interface)
}

// The Recovery value; absent or empty is none.
#[tactic(auto, unfolding(crate::specs::Readers::recovery_in, crate::specs::Readers::recovery_of))]
pub fn recovery_in(s: &[u8]) -> Option<u8>
    ensures { result ≡ recovery_in s.now }
{
    octet_in(s, Octet::RECOVERY, 1).ok()
}
