// Whether keys differ, 0 being no key. The contract says it pair by pair; the work is one pass from the last key to the first, in which
// each key is compared with those behind it that share its slot, by a chain of them (specs/Chains.antt), and put in front of that chain.
// Few keys have small chains that are quickly cleared, many have more slots.
#![tactic(auto)]

ghost use Rattle.std.specs.Prelude.{ℕ, ◌≡◌, ◌-◌, ◌^◌, ◌<◌, ◌≤◌, length, drop, map};
ghost use Rattle.std.specs.Mem.{type_size};
ghost use Rattle.base_distinct.specs.Apart.{none_clash, pairwise, same_key};
ghost use Rattle.base_distinct.specs.Chains.{Search, slot_of};
ghost use Rattle.base_distinct.specs.Lacks.{lacks};

// Whether x, if it is a key, is none of the keys.
#[tactic(auto, using(crate::specs::Lacks::absent_zero, crate::specs::Lacks::absent_rest))]
pub fn absent(keys: &[u64], x: u64) -> bool
    ensures { result ≡ none_clash same_key x keys.now }
{
    x == 0 || !keys.contains(&x)
}

// The number of a key, in as few octets as serve. The type's last number is past each key, and ends a chain.
trait Link: Copy {
    const END: usize;

    ghost END: { ℕ };

    ghost number: { Self → ℕ };

    fn of(n: usize) -> Self
        requires { n ≤ END }
        ensures { number result ≡ n };

    fn number(self) -> usize
        ensures { result ≡ number self };
}

impl Link for u8 {
    const END: usize = u8::MAX as usize;

    ghost END = { 255 };

    ghost number = { λ n. n };

    fn of(n: usize) -> u8 {
        n as u8
    }

    fn number(self) -> usize {
        usize::from(self)
    }
}

impl Link for u16 {
    const END: usize = u16::MAX as usize;

    ghost END = { 65535 };

    ghost number = { λ n. n };

    fn of(n: usize) -> u16 {
        n as u16
    }

    fn number(self) -> usize {
        usize::from(self)
    }
}

// The slot of a key: bits of a product.
#[tactic(auto, unfolding(crate::specs::Chains::slot_of))]
fn slot_of<const SLOTS: usize>(x: u64) -> usize
    requires some { 0 < SLOTS }
    requires most { SLOTS ≤ 2 ^ 32 }
    ensures { result ≡ slot_of SLOTS x }
{
    let slots = SLOTS as u64;
    (x % (1 << 32) * 1023530803 / ((1 << 32) / slots) % slots) as usize
}

// Whether x is none of the keys from a number on, by the chain that starts there.
fn chain_lacks<L: Link, const SLOTS: usize>(keys: &[u64], links: &[L], x: u64, from: usize) -> bool
    requires { Search (slot_of SLOTS) keys.now (map L.number links.now) x from }
    ensures { result ≡ lacks x (drop (from - 1) keys.now) }
{
    let mut j = from;
    while j <= keys.len() {
        if x == keys[j - 1] {
            return false;
        }
        j = links[j].number();
    }
    true
}

// Whether no two of fewer keys than there are links are the same. It is no part of its caller, so that few keys have no stack that
// many need.
// Kept: the chains are arrays beside the keys, of the fewest octets: a store of every message clears them, and there is no heap.
#[inline(never)]
fn chained_differ<L: Link, const SLOTS: usize, const LINKS: usize>(keys: &[u64]) -> bool
    requires some { 0 < SLOTS }
    requires most { SLOTS ≤ 2 ^ 32 }
    requires room { length keys.now < LINKS }
    requires numbered { LINKS ≤ L.END }
    requires few { LINKS ≤ 2 ^ 32 }
    requires narrow { type_size L.row ≤ 8 }
    ensures { result ≡ pairwise same_key keys.now }
{
    let mut heads = [L::of(L::END); SLOTS];
    let mut links = [L::of(L::END); LINKS];
    for at in (0..keys.len()).rev() {
        let x = keys[at];
        if x != 0 {
            let h = slot_of::<SLOTS>(x);
            let first = heads[h];
            heads[h] = L::of(at + 1);
            if first.number() != L::END {
                if !chain_lacks::<L, SLOTS>(keys, &links, x, first.number()) {
                    return false;
                }
                links[at + 1] = first;
            }
        }
    }
    true
}

// Whether no two keys are the same: the last 1,024 by their chains, those before by a search each.
pub fn distinct(keys: &[u64]) -> bool
    ensures { result ≡ pairwise same_key keys.now }
{
    if keys.len() <= 128 {
        return chained_differ::<u8, 256, 129>(keys);
    }
    let last = keys.len().saturating_sub(1024);
    if !chained_differ::<u16, 2048, 1025>(&keys[last..]) {
        return false;
    }
    for i in (0..last).rev() {
        if !absent(&keys[i + 1..], keys[i]) {
            return false;
        }
    }
    true
}
