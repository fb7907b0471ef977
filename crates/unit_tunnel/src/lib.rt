// Tunnel numbers: two kinds that are never used for each other, each found from a place and its use, and each giving them back.
#![tactic(auto)]

ghost use Rattle.std.specs.Prelude.{ℕ, ◌+◌, ◌%◌, ◌≤◌, ◌≡◌};
ghost use Rattle.unit_tunnel.specs.Numbering.{places, base, control_offset, user_offset, teids, control_fits, user_fits};
ghost use Rattle.unit_tunnel.specs.Tunnel.{number_at, holder_of, next_use};

// The unit, for the figure that every layer goes by.
#[derive(Clone, Copy)]
pub struct Unit {}

impl Unit {
    // The number of places.
    pub const PLACES: usize = 64;
}

// Who holds a number: a place in one of its uses.
#[derive(Clone, Copy)]
pub struct Holder {
    pub place: usize,
    pub usage: u32,
}

impl Holder {
    pub const BASE: u32 = 256;

    pub const LAST_USE: u32 = 16777215;

    // A tunnel number has 32 bits.
    pub const TEIDS: u64 = 4294967296;
}

// Tunnel numbers of one kind: where they begin, and the number as octets write it.
pub trait Teid: Copy {
    const OFFSET: u32;

    ghost OFFSET: { ℕ };

    ghost number: { Self → ℕ };

    fn new(n: u32) -> Self
        ensures { number result ≡ n };

    fn number(self) -> u32
        ensures { result ≡ number self };

    // The numbers of all places of one use lie within its base.
    ghost fits: { OFFSET + places ≤ base };

    // The number of a place in its use.
    final fn of(usage: u32, place: usize) -> Self
        ensures { number result ≡ number_at OFFSET usage place % teids }
    {
        Self::new(number_at(Self::OFFSET, usage, place))
    }

    // Who holds it; none where nobody ever does.
    final fn holder(self) -> Option<Holder>
        ensures { result ≡ holder_of OFFSET (number self) }
    {
        holder_of(Self::OFFSET, self.number())
    }
}

// A number for control datagrams (GTPv2-C).
#[derive(Clone, Copy)]
pub struct ControlTeid(pub u32);

// A number for user datagrams (GTPv1-U).
#[derive(Clone, Copy)]
pub struct UserTeid(pub u32);

impl Teid for ControlTeid {
    const OFFSET: u32 = 0;

    ghost OFFSET = { control_offset };

    ghost number = { λ t. t.0 };

    ghost fits = { control_fits };

    fn new(n: u32) -> Self {
        ControlTeid(n)
    }

    fn number(self) -> u32 {
        self.0
    }
}

impl Teid for UserTeid {
    const OFFSET: u32 = 128;

    ghost OFFSET = { user_offset };

    ghost number = { λ t. t.0 };

    ghost fits = { user_fits };

    fn new(n: u32) -> Self {
        UserTeid(n)
    }

    fn number(self) -> u32 {
        self.0
    }
}

#[tactic(auto, unfolding(crate::specs::Tunnel::number_at, crate::specs::Numbering::base, crate::specs::Numbering::teids))]
fn number_at(offset: u32, usage: u32, place: usize) -> u32
    ensures { result ≡ number_at offset usage place % teids }
{
    let low = place as u64 % Holder::TEIDS;
    ((u64::from(usage) * u64::from(Holder::BASE) + u64::from(offset) + low) % Holder::TEIDS) as u32
}

#[tactic(auto, unfolding(crate::specs::Tunnel::holder_of, crate::specs::Tunnel::numbers, crate::specs::Numbering::places, crate::specs::Numbering::base))]
fn holder_of(offset: u32, n: u32) -> Option<Holder>
    ensures { result ≡ holder_of offset n }
{
    let low = n % Holder::BASE;
    let usage = n / Holder::BASE;
    let at = low as usize;
    let first = offset as usize;
    if (first <= at) & (at < first + Unit::PLACES) & (1 <= usage) {
        Some(Holder {
            place: at - first,
            usage,
        })
    } else {
        None
    }
}

// The use that a place has once it is taken again.
#[tactic(auto, using(crate::specs::Tunnel::next_step, crate::specs::Tunnel::next_round), unfolding(crate::specs::Numbering::last_use))]
pub fn next_use(usage: u32) -> u32
    ensures { result ≡ next_use usage }
{
    if usage < Holder::LAST_USE {
        usage + 1
    } else {
        1
    }
}
