// Runs the decoder over control datagrams. Standard input has a datagram in hex on each line; a line that begins with # is a note and is
// written as it is. Each datagram's line has the first refusal by its header; where that is 0, type, TEID and sequence number follow, and
// what the fields give, as numbers, under the trial plan and for a session of EBI 5.
#![tactic(auto)]

ghost use Rattle.std.specs.Prelude.{◌<◌};

use base_octets::Number;
use std::io;
use trial_readers::{Carried, Decoding};
use wire_messages::MessageType;

// The EBI of the session that a Modify or a Delete is for.
const SESSION_EBI: u8 = 5;

fn show_row(rt: &impl Print, row: &[u64]) -> io::Result<()> {
    for n in row {
        print!(rt; " {}", *n)?;
    }
    Ok(())
}

fn show_answer(rt: &impl Print, a: Decoding) -> io::Result<()> {
    show_row(rt, &trial_readers::answer_row(a))
}

fn show_carried(rt: &impl Print, c: Carried) -> io::Result<()> {
    show_row(rt, &trial_readers::carried_row(c))
}

fn show_fields(rt: &impl Print, kind: u32, s: &[u8]) -> io::Result<()> {
    match u8::try_from(kind) {
        Ok(MessageType::CREATE) => show_answer(rt, trial_readers::requests_create(s)),
        Ok(MessageType::MODIFY) => show_answer(rt, trial_readers::requests_modify(s, SESSION_EBI)),
        Ok(MessageType::DELETE) => show_answer(rt, trial_readers::requests_delete(s, SESSION_EBI)),
        _ => show_carried(rt, trial_readers::requests_carried(s)),
    }
}

fn show(rt: &impl Print, d: &[u8]) -> io::Result<()> {
    let h = trial_readers::requests_head(d);
    rt.print(h.number)?;
    if h.number == u32::from(Number::TAKEN) {
        show_row(
            rt,
            &[u64::from(h.kind), u64::from(h.teid), u64::from(h.sequence)],
        )?;
        if let Some(fields) = d.get(h.fields as usize..) {
            show_fields(rt, h.kind, fields)?;
        }
    }
    rt.write_all(b"\n")
}

// The half octet that a capital hex digit writes.
fn half(b: u8) -> u8
    ensures { result < 16 }
{
    if b <= b'9' { b % 16 } else { (b % 16 + 9) % 16 }
}

fn show_line(rt: &impl Print, line: &[u8]) -> io::Result<()> {
    match line {
        [] => Ok(()),
        [b'#', ..] => {
            rt.write_all(line)?;
            rt.write_all(b"\n")
        }
        _ => {
            let mut d = [0u8; 2048];
            let n = trial_input::spelled(line, &mut d, half);
            show(rt, &d[..n])
        }
    }
}

fn main(rt: HostRuntime) -> io::Result<()> {
    let mut text = [0u8; 65536];
    let n = trial_input::read_full(&mut rt.stdin(), &mut text)?;
    for ended in text[..n].split_inclusive(|b| *b == b'\n') {
        // what no line feed ends is no line
        if let Some(line) = ended.strip_suffix(b"\n") {
            show_line(&rt, line)?;
        }
    }
    Ok(())
}
