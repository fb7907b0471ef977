// Reads user datagrams, one line of hex each, and prints how each is read: as it came, and in its damaged forms, with each of E, S
// and PN set alone and together and cut at every octet, once with the length as it came and once with the length set right.
#![tactic(auto)]

ghost use Rattle.std.specs.Prelude.{◌≡◌, ◌<◌, length};

use base_octets::Number;
use std::io;
use wire_user::Header;

// A hex digit's value; 0 for what is none.
fn nibble(b: u8) -> u8
    ensures { result < 16 }
{
    match b {
        b'0'..=b'9' => b - b'0',
        b'A'..=b'F' => b - b'A' + 10,
        _ => 0,
    }
}

// Kept: trial_messages has the same two lines in its `show`; a shared function would need a clause on what is printed.
fn put_hex(rt: &impl Print, part: &[u8]) -> io::Result<()> {
    for b in part {
        print!(rt; "{:02x}", *b)?;
    }
    Ok(())
}

// What the datagram is, and its payload in hex.
fn show(rt: &impl Print, d: &[u8]) -> io::Result<()> {
    match wire_user::payload(d) {
        Ok(part) => {
            rt.print(Number::TAKEN)?;
            match Header::of(d) {
                Header::Echo { sequence } => print!(rt; " echo {sequence} ")?,
                Header::Packet { teid } => print!(rt; " packet {} ", teid.0)?,
            }
            put_hex(rt, part)?;
        }
        Err(why) => rt.print(u8::from(why))?,
    }
    rt.write_all(b"\n")
}

// The number alone, and where the payload begins if it is taken.
#[tactic(auto, using(wire_user::specs::Part::rest_length))]
fn mark(rt: &impl Print, d: &[u8]) -> io::Result<()> {
    match wire_user::payload(d) {
        Ok(part) => print!(rt; " {}@{}", Number::TAKEN, d.len() - part.len()),
        Err(why) => print!(rt; " {}", u8::from(why)),
    }
}

// The length set to that of a datagram of n octets, if it is to be right.
fn set_length(d: &mut [u8], n: usize, right: bool)
    ensures { length d.new ≡ length d.old }
{
    if right & (Header::FIXED <= n) & (n <= d.len()) {
        let length = (n - Header::FIXED).to_be_bytes();
        d[2] = length[6];
        d[3] = length[7];
    }
}

// The datagram cut at every octet.
fn cuts(rt: &impl Print, d: &mut [u8], right: bool) -> io::Result<()>
    ensures { length d.new ≡ length d.old }
{
    for n in 0..=d.len() {
        set_length(d, n, right);
        mark(rt, &d[..n])?;
    }
    rt.write_all(b"\n")
}

// The first octet with these flags E, S and PN.
fn set_flags(d: &mut [u8], flags: u8)
    ensures { length d.new ≡ length d.old }
{
    if let Some(first) = d.first_mut() {
        *first = *first / 8 * 8 + flags % 8;
    }
}

// The datagram with each set of those flags.
fn damaged(rt: &impl Print, d: &mut [u8], right: bool) -> io::Result<()>
    ensures { length d.new ≡ length d.old }
{
    for flags in 0..8u8 {
        set_flags(d, flags);
        rt.print(flags)?;
        cuts(rt, d, right)?;
    }
    Ok(())
}

// One line.
fn answer(rt: &impl Print, line: &[u8]) -> io::Result<()> {
    let mut space = [0u8; 256];
    let size = trial_input::spelled(line, &mut space, nibble);
    let d = &mut space[..size];
    show(rt, d)?;
    damaged(rt, d, false)?;
    damaged(rt, d, true)
}

fn main(rt: HostRuntime) -> io::Result<()> {
    let mut buffer = [0u8; 4096];
    let n = trial_input::read_full(&mut rt.stdin(), &mut buffer)?;
    for line in buffer[..n].split_inclusive(|b| *b == b'\n') {
        answer(&rt, line.strip_suffix(b"\n").unwrap_or(line))?;
    }
    Ok(())
}
