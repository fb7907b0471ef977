// Prints each kind of message that the unit writes, one line each: its kind, a space, its octets in hex. The octets are those of
// `messages`, with fixed sample values; tests/messages has an independent decoder read them. What is to be printed, the file
// `stdout`, was written from the papers with the sample values put in, and not taken from a run.
//
// The samples: the peer's control TEID is 287454020 (11223344), its user TEID 1432778632 (55667788); sequence numbers are 658188 (0A0B0C) and those after it; place 5 in
// use 1 has the TEIDs 261 and 389 and the address 100.64.0.6; the unit has 10.0.0.1 for control, 10.0.0.2 for user packets, and
// Recovery 7.
#![tactic(auto)]

use call_own::Answer;
use std::io;
use unit_session::OwnRequest;
use wire_fields::Refusal;
use wire_messages::{Accepted, MessageType};

// The peer's control and user TEIDs, and the unit's.
const PEER_CONTROL: u32 = 0x11223344;

const PEER_USER: u32 = 0x55667788;

const OWN_CONTROL: u32 = 261;

const OWN_USER: u32 = 389;

// The unit's addresses for control and for user packets, and the session's.
const CONTROL_ADDRESS: u32 = 0x0A000001;

const USER_ADDRESS: u32 = 0x0A000002;

const SESSION_ADDRESS: u32 = 0x64400006;

const SEQUENCE: u32 = 0x0A0B0C;

// The least packet: a header alone, of protocol 254, from 192.0.2.1 to the session's address.
const PACKET: [u8; 20] = [
    0x45, 0, 0, 20, 0, 0, 0, 0, 64, 254, 0x53, 0xa5, 192, 0, 2, 1, 100, 64, 0, 6,
];

// A line: the kind, and the octets of the message that is written into a buffer, which is longer than any message.
fn show<F: FnOnce(&mut [u8]) -> usize>(rt: &impl Print, kind: &[u8], write: F) -> io::Result<()>
    requires { F.IsAlwaysCallable write }
{
    let mut m = [0xEEu8; Answer::LEAST_REPLY];
    let n = write(&mut m);
    if let Some(message) = m.get(..n) {
        rt.write_all(kind)?;
        for octet in message {
            print!(rt; "{:02x}", *octet)?;
        }
        rt.write_all(b"\n")?;
    }
    Ok(())
}

fn echo(rt: &impl Print, kind: &[u8], number: u8, seq: u32) -> io::Result<()> {
    show(rt, kind, |m| wire_messages::echo_of(m, number, seq, 7))
}

// A reply with a cause alone, and one that names a field.
fn cause(
    rt: &impl Print,
    kind: &[u8],
    number: u8,
    teid: u32,
    seq: u32,
    value: u8,
) -> io::Result<()> {
    show(
        rt,
        kind,
        |m| wire_messages::cause_reply(m, number, teid, seq, value),
    )
}

fn fault(
    rt: &impl Print,
    kind: &[u8],
    number: u8,
    seq: u32,
    value: u8,
    field: u8,
    instance: u8,
) -> io::Result<()> {
    show(rt, kind, |m| {
        wire_messages::fault_reply(m, number, PEER_CONTROL, seq, value, field, instance)
    })
}

fn create_accepted(rt: &impl Print) -> io::Result<()> {
    let accepted = Accepted {
        teid: PEER_CONTROL,
        sequence: SEQUENCE,
        control: OWN_CONTROL,
        controladdr: CONTROL_ADDRESS,
        address: SESSION_ADDRESS,
        user: OWN_USER,
        useraddr: USER_ADDRESS,
        ebi: 5,
        recovery: 7,
    };
    show(
        rt,
        b"create_accepted ",
        |m| wire_messages::create_accepted(m, accepted),
    )
}

// The messages without a cause, but for those of an echo and of an accepted Create.
fn others(rt: &impl Print) -> io::Result<()> {
    show(
        rt,
        b"delete_bearer ",
        |m| wire_messages::delete_bearer(m, PEER_CONTROL, OwnRequest::LAST_NUMBER, 15),
    )?;
    show(rt, b"user_echo ", |m| wire_messages::user_echo(m, 0x1234))?;
    show(
        rt,
        b"error_indication ",
        |m| wire_messages::error_indication(m, OWN_USER, USER_ADDRESS),
    )?;
    show(
        rt,
        b"gpdu ",
        |m| wire_messages::gpdu_of(m, PEER_USER, &PACKET),
    )
}

fn main(rt: HostRuntime) -> io::Result<()> {
    show(
        &rt,
        b"version_not_supported ",
        |m| wire_messages::version_not_supported(m),
    )?;
    echo(&rt, b"echo_response ", MessageType::ECHO_REPLY, SEQUENCE)?;
    echo(&rt, b"own_echo ", MessageType::ECHO, 5)?;
    create_accepted(&rt)?;
    let create = MessageType::CREATE_REPLY;
    cause(&rt, b"create_cause ", create, PEER_CONTROL, SEQUENCE, 73)?;
    fault(&rt, b"create_fault ", create, SEQUENCE, 70, 87, 2)?;
    let modify = MessageType::MODIFY_REPLY;
    cause(
        &rt,
        b"modify_accepted ",
        modify,
        PEER_CONTROL,
        SEQUENCE + 1,
        16,
    )?;
    show(
        &rt,
        b"modify_bearer ",
        |m| wire_messages::modify_bearer(m, PEER_CONTROL, SEQUENCE + 1, 5),
    )?;
    cause(
        &rt,
        b"modify_cause ",
        modify,
        0,
        SEQUENCE + 1,
        Refusal::NOT_LIVE,
    )?;
    fault(&rt, b"modify_fault ", modify, SEQUENCE + 1, 69, 73, 0)?;
    let delete = MessageType::DELETE_REPLY;
    cause(
        &rt,
        b"delete_accepted ",
        delete,
        PEER_CONTROL,
        SEQUENCE + 2,
        16,
    )?;
    cause(
        &rt,
        b"delete_cause ",
        delete,
        PEER_CONTROL,
        SEQUENCE + 2,
        Refusal::NOT_LIVE,
    )?;
    fault(&rt, b"delete_fault ", delete, SEQUENCE + 2, 67, 73, 0)?;
    others(&rt)
}
