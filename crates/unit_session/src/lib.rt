// A session record: its rules, and every way in which one is made or changed. Later fields are added here.
#![tactic(auto)]

ghost use Rattle.std.specs.Prelude.{◌≡◌};
ghost use Rattle.unit_session.specs.OwnRequest.{idle, awaits, request_ok, sent_once, counted_down, spent};
ghost use Rattle.unit_session.specs.Session.{is_free, waits_for, free_ok, held_ok, blank_at, freed, opened, moved, closed, sent, ticked};

// A request of the unit's own: a closing place's Delete Bearer, or the echo.
#[repr(C)]
#[derive(Clone, Copy)]
pub struct OwnRequest {
    // ticks until it is due; 0: due, or nothing under way
    pub timer: u8,
    // how often it was sent; over 0 its number is awaited
    pub sends: u8,
    pub number: u32,
}

// What a record is held to of its plan: the number of access points, T and N.
#[derive(Clone, Copy)]
pub struct Bounds {
    pub parties: usize,
    pub resend: u8,
    pub sends: u8,
}

// What a Create brings that a session keeps.
// Kept: TEID and address side by side, here and in Peers, as in the record that C lends.
#[derive(Clone, Copy)]
pub struct Opening {
    pub imsi: u64,
    pub control: u32,
    pub controladdr: u32,
    pub user: u32,
    pub useraddr: u32,
    pub created: u32,
    pub point: u8,
    pub ebi: u8,
}

// The peer's TEIDs and addresses.
#[derive(Clone, Copy)]
pub struct Peers {
    pub control: u32,
    pub controladdr: u32,
    pub user: u32,
    pub useraddr: u32,
}

// The record of one place.
#[repr(C)]
#[derive(Clone, Copy)]
pub struct Session {
    pub imsi: u64,
    // the use number: how often the place was taken
    pub usage: u32,
    pub control: u32,
    pub controladdr: u32,
    pub user: u32,
    pub useraddr: u32,
    // the sequence number of the Create
    pub created: u32,
    pub own: OwnRequest,
    // Kept: FREE, LIVE or CLOSING as a number, which C sees in the record that it lends (include/grugavorn.h).
    pub state: u8,
    // the access point, by its number in the plan
    pub point: u8,
    pub ebi: u8,
}

impl OwnRequest {
    pub const LAST_NUMBER: u32 = 8388607;

    pub const NUMBERS: u32 = Self::LAST_NUMBER + 1;

    #[tactic(auto, unfolding(crate::specs::OwnRequest::idle))]
    pub fn idle() -> Self
        ensures { result ≡ idle }
    {
        OwnRequest {
            timer: 0,
            sends: 0,
            number: 0,
        }
    }

    // Whether it is in range: `first` bounds the timer before the first send, T after it; N bounds the sends.
    // Kept: three parameters, since `first` is 0 for a place and E for the echo: a struct of them would be made for this call alone.
    #[tactic(auto, unfolding(crate::specs::OwnRequest::request_ok, crate::specs::OwnRequest::last_number))]
    pub fn fits(self, first: u8, resend: u8, most: u8) -> bool
        ensures { result ≡ request_ok first resend most self }
    {
        let known = self.number <= Self::LAST_NUMBER;
        if self.sends == 0 {
            return known & (self.timer <= first);
        }
        known
            & ((self.timer <= resend)
                & (self.sends <= most)
                & !((self.sends == most) & (self.timer == 0)))
    }

    // Sent: T ticks to wait; the first send takes the number, a resend keeps its own.
    #[tactic(auto, unfolding(crate::specs::OwnRequest::sent_once))]
    pub fn sent_once(self, resend: u8, number: u32) -> Self
        ensures { result ≡ sent_once resend number self }
    {
        let sends = self.sends.wrapping_add(1);
        if self.sends == 0 {
            return OwnRequest {
                timer: resend,
                sends,
                number,
            };
        }
        OwnRequest {
            timer: resend,
            sends,
            ..self
        }
    }

    #[tactic(auto, unfolding(crate::specs::OwnRequest::counted_down))]
    pub fn counted_down(self) -> Self
        ensures { result ≡ counted_down self }
    {
        OwnRequest {
            timer: self.timer.saturating_sub(1),
            ..self
        }
    }

    // Whether it awaits a number.
    #[tactic(auto, unfolding(crate::specs::OwnRequest::awaits))]
    pub fn awaits(self, number: u32) -> bool
        ensures { result ≡ awaits number self }
    {
        (self.sends != 0) & (self.number == number)
    }

    // Whether this tick gives it up.
    #[tactic(auto, unfolding(crate::specs::OwnRequest::spent))]
    pub fn spent(self, most: u8) -> bool
        ensures { result ≡ spent most self }
    {
        (self.timer == 1) & (most <= self.sends)
    }
}

impl Session {
    pub const FREE: u8 = 0;

    pub const LIVE: u8 = 1;

    pub const CLOSING: u8 = 2;

    // 15 digits write a number below it.
    pub const IMSIS: u64 = 1000000000000000;

    pub const LEAST_EBI: u8 = 5;

    pub const MOST_EBI: u8 = 15;

    pub const LAST_CREATED: u32 = 16777215;

    // A word has 32 bits.
    const WORDS: u64 = 4294967296;

    // A free place in its use.
    #[tactic(auto, unfolding(crate::specs::Session::blank_at))]
    pub fn blank_at(usage: u32) -> Self
        ensures { result ≡ blank_at usage }
    {
        Session {
            imsi: 0,
            usage,
            control: 0,
            controladdr: 0,
            user: 0,
            useraddr: 0,
            created: 0,
            own: OwnRequest::idle(),
            state: Self::FREE,
            point: 0,
            ebi: 0,
        }
    }

    #[tactic(auto, unfolding(crate::specs::Session::is_free))]
    pub fn is_free(self) -> bool
        ensures { result ≡ is_free self }
    {
        self.state == Self::FREE
    }

    // Whether its own request awaits a number.
    #[tactic(auto, unfolding(crate::specs::Session::waits_for))]
    pub fn waits_for(self, number: u32) -> bool
        ensures { result ≡ waits_for number self }
    {
        self.own.awaits(number)
    }

    // What a free record has to be: its use in range, all else zero. The use and the control TEID are tested as one number, then the others
    // by their bits.
    pub fn free_ok(self) -> bool
        ensures { result ≡ free_ok self }
    {
        let own = self.own;
        let first = u64::from(self.usage) + u64::from(self.control) * Self::WORDS;
        let words = self.controladdr | self.user | self.useraddr | self.created | own.number;
        let octets = self.point | self.ebi | own.timer | own.sends;
        // Two tests that return, for speed: so a packet over 64 free records takes 2,713 instructions, with `&` 2,878, with `&&` 2,841.
        if first <= u64::from(unit_tunnel::Holder::LAST_USE) {
            if self.imsi | u64::from(words) | u64::from(octets) == 0 {
                return true;
            }
        }
        false
    }

    // What a live place holds, as it was read.
    #[tactic(auto, unfolding(crate::specs::Session::held_ok, crate::specs::Session::read_ok, crate::specs::Session::imsis, crate::specs::Session::last_created))]
    pub fn held(self, b: Bounds) -> bool
        ensures { result ≡ held_ok b self }
    {
        (1 <= self.usage)
            & ((usize::from(self.point) < b.parties)
                & (self.imsi < Self::IMSIS)
                & (Self::LEAST_EBI <= self.ebi)
                & (self.ebi <= Self::MOST_EBI)
                & (self.control != 0)
                & (self.user != 0)
                & (self.created <= Self::LAST_CREATED))
    }

    // Zero but for its use.
    #[tactic(auto, unfolding(crate::specs::Session::freed))]
    pub fn freed(self) -> Self
        ensures { result ≡ freed self }
    {
        Self::blank_at(self.usage)
    }

    // The place taken: its use stepped, a session opened.
    #[tactic(auto, unfolding(crate::specs::Session::opened))]
    pub fn opened(self, o: Opening) -> Self
        ensures { result ≡ opened o self }
    {
        Session {
            imsi: o.imsi,
            usage: unit_tunnel::next_use(self.usage),
            control: o.control,
            controladdr: o.controladdr,
            user: o.user,
            useraddr: o.useraddr,
            created: o.created,
            own: OwnRequest::idle(),
            state: Self::LIVE,
            point: o.point,
            ebi: o.ebi,
        }
    }

    // Other peers, by a Modify.
    #[tactic(auto, unfolding(crate::specs::Session::moved))]
    pub fn moved(mut self, p: Peers) -> Self
        ensures { result ≡ moved p self }
    {
        self.control = p.control;
        self.controladdr = p.controladdr;
        self.user = p.user;
        self.useraddr = p.useraddr;
        self
    }

    // Marked closing; closing or free it stays as it is.
    #[tactic(auto, unfolding(crate::specs::Session::closed, crate::specs::Session::turned))]
    pub fn closed(mut self) -> Self
        ensures { result ≡ closed self }
    {
        if self.state == Self::LIVE {
            self.state = Self::CLOSING;
        }
        self
    }

    // Its request sent, with T and the number for a first send.
    #[tactic(auto, unfolding(crate::specs::Session::sent, crate::specs::Session::turned))]
    pub fn sent(mut self, resend: u8, number: u32) -> Self
        ensures { result ≡ sent resend number self }
    {
        self.own = self.own.sent_once(resend, number);
        self
    }

    // A tick: given up after N sends and freed, else counted down.
    #[tactic(auto, unfolding(crate::specs::Session::ticked, crate::specs::Session::turned))]
    pub fn ticked(mut self, most: u8) -> Self
        ensures { result ≡ ticked most self }
    {
        if self.own.spent(most) {
            return self.freed();
        }
        self.own = self.own.counted_down();
        self
    }
}
