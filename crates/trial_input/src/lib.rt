// What the trial programs share: standard input read into a lent buffer, and the octets that a line of hex spells.
#![tactic(auto)]

ghost use Rattle.std.specs.Prelude.{◌≡◌, ◌≤◌, ◌/◌, length, min, IfOk};

use std::io;
use std::io::Read;

// Reads until the buffer is full or the input ends: how many octets were put at its start.
pub fn read_full(input: &mut impl Read, buf: &mut [u8]) -> io::Result<usize>
    ensures room { IfOk result (λ n. n ≤ length buf.new) }
    ensures left { length buf.new ≡ length buf.old }
{
    let mut done: usize = 0;
    while done < buf.len() {
        let n = input.read(&mut buf[done..])?;
        if n == 0 {
            break;
        }
        done += n;
    }
    Ok(done)
}

// The octets that the pairs of a line of hex spell, as many as there is room for: how many. What a digit is worth the caller says.
pub fn spelled<F: Fn(u8) -> u8>(line: &[u8], octets: &mut [u8], half: F) -> usize
    requires { F.IsAlwaysCallable half }
    ensures count { result ≡ min (length octets.old) (length line.now / 2) }
    ensures left { length octets.new ≡ length octets.old }
{
    let n = octets.len().min(line.len() / 2);
    for (octet, pair) in octets.iter_mut().zip(line.chunks_exact(2)) {
        *octet = half(pair[0]) % 16 * 16 + half(pair[1]) % 16;
    }
    n
}
