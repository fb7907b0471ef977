// For measuring alone: keys are put to the check that no two are the same, and how often it found none is printed. tests/keys counts the
// instructions of one such check.
//
// The keys are those of bearer 5 of IMSIs one after the other; strewn about where the first octet of standard input is `r`. Each octet
// after it is a check, with so many batches of keys as it says: they are read, so that nothing of a check is known
// to the compiler.
#![tactic(auto)]

use std::io;

// How the IMSIs follow one another.
#[derive(Clone, Copy)]
enum Order {
    InTurn,
    Strewn,
}

impl Order {
    fn of(octet: u8) -> Self {
        if octet == b'r' {
            Order::Strewn
        } else {
            Order::InTurn
        }
    }

    // The IMSI after this one.
    fn next(self, imsi: u64) -> u64 {
        match self {
            Order::InTurn => imsi.wrapping_add(1),
            Order::Strewn => imsi % 1000000007 * 777777 + 12345,
        }
    }
}

fn all_keys(order: Order) -> [u64; 1024] {
    let mut keys = [0u64; 1024];
    let mut imsi: u64 = 262010000000000;
    for key in &mut keys {
        *key = step_keys::id_key(imsi, 5);
        imsi = order.next(imsi);
    }
    keys
}

// The keys of a batch; fewer batches than it has keys are checked at once.
const BATCH: usize = 64;

// One check, with so many batches of keys.
fn apart_with(keys: &[u64], count: u8) -> bool {
    match keys.get(..usize::from(count) % BATCH * BATCH) {
        Some(batches) => base_distinct::distinct(batches),
        None => false,
    }
}

// How many of the checks, one an octet after the first, find the keys apart.
fn apart_in(d: &[u8]) -> usize {
    match d.split_first() {
        Some((first, checks)) => {
            let keys = all_keys(Order::of(*first));
            checks
                .iter()
                .filter(|count| apart_with(&keys, **count))
                .count()
        }
        None => 0,
    }
}

fn main(rt: HostRuntime) -> io::Result<()> {
    let mut buf = [0u8; 4096];
    let n = trial_input::read_full(&mut rt.stdin(), &mut buf)?;
    println!(rt; "{}", apart_in(&buf[..n]))
}
