// The plan of a unit: its addresses and figures, its access points with what each has rented, the limits of all that, whose a
// name is, the address of a place, and the place of an address.
#![tactic(auto)]

ghost use Rattle.std.specs.Prelude.{ℕ, true, ◌≡◌, ◌≤◌, length, position, sum_by};
ghost use Rattle.base_octets.specs.Every.{every};
ghost use Rattle.std.specs.List.{list_all};
ghost use Rattle.unit_plan.specs.Limits.{no_point, no_plan, parties, used, figures_ok, point_ok};
ghost use Rattle.unit_plan.specs.Names.{name_of, goes_by, unlike, names_differ, named_in};
ghost use Rattle.unit_plan.specs.Plan.{guaranteed, accepted};
ghost use Rattle.unit_plan.specs.Address.{address_of, place_of};

// An access point: its name, of which the first `size` octets count, and the places it is promised and may have at most.
#[repr(C)]
#[derive(Clone, Copy)]
pub struct AccessPoint {
    // Kept: a name with its size beside it, as C lends it (include/grugavorn.h).
    pub name: [u8; AccessPoint::LONGEST_NAME],
    pub size: u8,
    pub guarantee: u16,
    pub ceiling: u16,
}

#[repr(C)]
#[derive(Clone, Copy)]
pub struct Plan {
    // the unit's own addresses, for control and for user datagrams
    pub control: u32,
    pub user: u32,
    // sessions get the addresses after it
    pub pool: u32,
    // the unit's own restart counter
    pub recovery: u8,
    // T: ticks until an unanswered request is sent again
    pub resend: u8,
    // N: how often it is sent, the first included
    pub sends: u8,
    // E: ticks between echoes
    pub interval: u8,
    // how many of the access points are there
    pub count: u8,
    pub points: [AccessPoint; 4],
}

impl AccessPoint {
    pub const LONGEST_NAME: usize = 63;

    #[tactic(auto, unfolding(crate::specs::Limits::no_point, crate::specs::Limits::longest_name))]
    pub fn none() -> Self
        ensures { result ≡ no_point }
    {
        AccessPoint {
            name: [0; Self::LONGEST_NAME],
            size: 0,
            guarantee: 0,
            ceiling: 0,
        }
    }

    // The limits of one access point.
    #[tactic(auto, unfolding(crate::specs::Limits::point_ok, crate::specs::Limits::longest_name, unit_tunnel::specs::Numbering::places))]
    pub fn fits(&self) -> bool
        ensures { result ≡ point_ok self.now }
    {
        (1 <= self.size)
            & (usize::from(self.size) <= Self::LONGEST_NAME)
            & (self.guarantee <= self.ceiling)
            & (1 <= self.ceiling)
            & (usize::from(self.ceiling) <= unit_tunnel::Unit::PLACES)
    }

    // The octets of the name.
    fn octets(&self) -> &[u8]
        ensures { result.now ≡ name_of self.now }
    {
        &self.name[..usize::from(self.size).min(Self::LONGEST_NAME)]
    }

    // Whether a name is this access point's.
    #[tactic(auto, using(base_octets::specs::Same::same_slices), unfolding(crate::specs::Names::goes_by, crate::specs::Names::same_name))]
    pub fn goes_by(&self, d: &[u8]) -> bool
        ensures { result ≡ goes_by d.now self.now }
    {
        self.octets() == d
    }

    // Whether two access points have two names.
    #[tactic(auto, unfolding(crate::specs::Names::unlike))]
    pub fn unlike(&self, other: &AccessPoint) -> bool
        ensures { result ≡ unlike self.now other.now }
    {
        !self.goes_by(other.octets())
    }
}

// Whether each access point keeps its limits.
fn all_fit(points: &[AccessPoint]) -> bool
    ensures { result ≡ list_all point_ok points.now }
{
    points.iter().all(|p| p.fits())
}

// Whether a name is unlike those of others.
fn all_unlike(first: &AccessPoint, rest: &[AccessPoint]) -> bool
    ensures { result ≡ list_all (unlike first.now) rest.now }
{
    rest.iter().all(|p| first.unlike(p))
}

// Whether every two names differ.
fn names_differ(points: &[AccessPoint]) -> bool
    ensures { result ≡ names_differ points.now }
{
    let mut left = points;
    while let Some((first, rest)) = left.split_first() {
        if !all_unlike(first, rest) {
            return false;
        }
        left = rest;
    }
    true
}

// The guarantees, added.
fn promised(points: &[AccessPoint]) -> u32
    requires { length points.now ≤ 4 }
    ensures { result ≡ sum_by (λ (a : AccessPoint). a.guarantee) points.now }
{
    points.iter().map(|p| u32::from(p.guarantee)).sum()
}

// The first access point that a name is of.
fn first_named(points: &[AccessPoint], d: &[u8]) -> Option<usize>
    ensures { result ≡ position (goes_by d.now) points.now }
{
    points.iter().position(|p| p.goes_by(d))
}

impl Plan {
    pub const MOST_POINTS: usize = 4;

    pub const MOST_SENDS: u8 = 10;

    pub const POOL_STEP: u32 = 256;

    // An address has 32 bits.
    pub const ADDRESSES: u64 = 4294967296;

    // A plan with no access points: what a unit without an accepted plan has.
    #[tactic(auto, unfolding(crate::specs::Limits::no_plan))]
    pub fn none() -> Self
        ensures { result ≡ no_plan }
    {
        let p = AccessPoint::none();
        Plan {
            control: 0,
            user: 0,
            pool: 0,
            recovery: 0,
            resend: 0,
            sends: 0,
            interval: 0,
            count: 0,
            points: [p; 4],
        }
    }

    // The access points: a slot past the count is not looked at.
    pub fn used(&self) -> &[AccessPoint]
        ensures { result.now ≡ used self.now }
    {
        &self.points[..usize::from(self.count).min(Self::MOST_POINTS)]
    }

    // How many access points there are.
    pub fn parties(&self) -> usize
        ensures { result ≡ parties self.now }
    {
        self.used().len()
    }

    // The limits of the plan's own figures.
    #[tactic(auto, unfolding(crate::specs::Limits::figures_ok, crate::specs::Limits::most_points, crate::specs::Limits::most_sends, crate::specs::Limits::pool_step))]
    fn figures_ok(&self) -> bool
        ensures { result ≡ figures_ok self.now }
    {
        (1 <= self.count)
            & (usize::from(self.count) <= Self::MOST_POINTS)
            & (1 <= self.resend)
            & (1 <= self.sends)
            & (self.sends <= Self::MOST_SENDS)
            & (1 <= self.interval)
            & (self.pool % Self::POOL_STEP == 0)
    }

    // The places that are promised, in all.
    pub fn guaranteed(&self) -> u32
        ensures { result ≡ guaranteed self.now }
    {
        promised(self.used())
    }

    // Whether the plan keeps every limit; where it does not, number 16.
    #[tactic(auto, using(base_octets::specs::Every::every_all), unfolding(crate::specs::Plan::accepted, unit_tunnel::specs::Numbering::places))]
    pub fn accepted(&self) -> bool
        ensures { result ≡ accepted self.now }
    {
        let points = self.used();
        self.figures_ok()
            & all_fit(points)
            & (self.guaranteed() as usize <= unit_tunnel::Unit::PLACES)
            & names_differ(points)
    }

    // The access point that a name is of, by its number.
    #[tactic(auto, using(base_octets::specs::Search::first_position), unfolding(crate::specs::Names::named_in))]
    pub fn named(&self, d: &[u8]) -> Option<usize>
        ensures { result ≡ named_in (used self.now) d.now }
    {
        first_named(self.used(), d)
    }

    // The address of the session at a place.
    #[tactic(auto, unfolding(crate::specs::Address::address_of, crate::specs::Address::addresses))]
    pub fn address(self, place: usize) -> u32
        ensures { result ≡ address_of self.pool place }
    {
        let after = place as u64 % Self::ADDRESSES;
        self.pool.wrapping_add(1).wrapping_add(after as u32)
    }

    // The place that has an address; past the last where none has it.
    // Kept: a place and no Option, since the law `addressee_is` reads the record at it, which past the last is one that nobody took.
    #[tactic(auto, using(crate::specs::Address::place_least), unfolding(crate::specs::Address::away, crate::specs::Address::addresses, unit_tunnel::specs::Numbering::places))]
    pub fn place_of(self, a: u32) -> usize
        ensures { result ≡ place_of self.pool a }
    {
        let away = a.wrapping_sub(self.pool.wrapping_add(1));
        (away as usize).min(unit_tunnel::Unit::PLACES)
    }
}
