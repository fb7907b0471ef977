// What control datagrams carry, decoded from the octets behind the header: Create, Modify and Delete, each a value or the cause and field that
// refuse it; and what Echo Request (1), Echo Response (2) and Delete Bearer Response (100) carry.
#![tactic(auto)]

ghost use Rattle.std.specs.Prelude.{◌≡◌};
ghost use Rattle.wire_requests.specs.Chain.{if_present};
ghost use Rattle.wire_requests.specs.Create.{create_of, reply_to};
ghost use Rattle.wire_requests.specs.Change.{modify_of, delete_of, moves_of, means_of};
ghost use Rattle.wire_requests.specs.Carried.{echo_read, echo_reply_read, bearer_reply_read};

use unit_plan::Plan;
use wire_fields::{Flaw, Found, Imsi, Octet, Refusal, Tunnel};

// A session that is asked for.
// Kept: TEID and address stand side by side, as document 01 names the form: a struct of plain numbers.
#[derive(Clone, Copy)]
pub struct Create {
    pub imsi: u64,
    pub ebi: u8,
    // the peer's control and user TEIDs and addresses
    pub control: u32,
    pub controladdr: u32,
    pub user: u32,
    pub useraddr: u32,
    // the access point's number in the plan
    pub point: usize,
    // the peer's restart counter, where it came
    pub recovery: Option<u8>,
}

// A Bearer Context of a Modify: its EBI, and its F-TEID as it was read, which is judged once the EBI is known to be the session's.
#[derive(Clone, Copy)]
pub struct Context {
    pub ebi: u8,
    pub user: Result<Tunnel, Flaw>,
}

// A session's peer, moved: a tunnel end that is not there is as it was.
#[derive(Clone, Copy)]
pub struct Modify {
    pub control: Option<Tunnel>,
    pub context: Option<Context>,
}

// A session given up.
#[derive(Clone, Copy)]
pub struct Delete {
    // the EBI, if it came
    pub ebi: Option<u8>,
}

#[derive(Clone, Copy)]
pub enum Request {
    Create(Create),
    Modify(Modify),
    Delete(Delete),
}

impl Request {
    // interfaces of the peer's F-TEIDs: control, and user plane
    pub const CONTROL_INTERFACE: u8 = 6;

    pub const USER_INTERFACE: u8 = 4;

    // the instance of the user F-TEID in a Create and in a Modify
    pub const CREATE_USER: u8 = 2;

    pub const MODIFY_USER: u8 = 1;

    // the field that names the access point
    pub const ACCESS_POINT: u8 = 71;

    // the PAA type that is served
    pub const IPV4: u8 = 1;
}

// A Create, from the octets behind its header.
#[tactic(auto, unfolding(crate::specs::Create::create_of))]
pub fn read_create(plan: Plan, s: &[u8]) -> Result<Request, Refusal>
    ensures { result ≡ create_of plan s.now }
{
    if wire_fields::over_in(s) {
        return Err(Refusal::bare(Refusal::SHORT));
    }
    let imsi = wire_fields::imsi_in(s).map_err(|f| f.refusal(Imsi::FIELD, 0))?;
    wire_fields::rat_in(s).map_err(|f| f.refusal(Octet::RAT, 0))?;
    let control = wire_fields::tunnel_in(s, 0, Request::CONTROL_INTERFACE).map_err(|f| f.refusal(
        Tunnel::FIELD,
        0,
    ))?;
    let apn = wire_fields::find(s, Request::ACCESS_POINT, 0).ok_or(Refusal::missing(
        Request::ACCESS_POINT,
        0,
    ))?;
    let paa = wire_fields::paa_in(s).map_err(|f| f.refusal(Octet::PAA, 0))?;
    let bearer = wire_fields::find(s, Found::BEARER_CONTEXT, 0).ok_or(Refusal::missing(
        Found::BEARER_CONTEXT,
        0,
    ))?;
    let b = bearer.of(s);
    let ebi = wire_fields::ebi_in(b).map_err(|f| f.refusal(Octet::EBI, 0))?;
    let user = wire_fields::tunnel_in(b, Request::CREATE_USER, Request::USER_INTERFACE).map_err(
        |f| f.refusal(Tunnel::FIELD, Request::CREATE_USER),
    )?;
    wire_fields::octet_in(b, Octet::QOS, Octet::QOS_SIZE).map_err(|f| f.refusal(Octet::QOS, 0))?;
    let point = plan
        .named(apn.of(s))
        .ok_or(Refusal::bare(Refusal::UNKNOWN_APN))?;
    if paa != Request::IPV4 {
        return Err(Refusal::bare(Refusal::ADDRESS_TYPE));
    }
    Ok(Request::Create(Create {
        imsi,
        ebi,
        control: control.teid,
        controladdr: control.address,
        user: user.teid,
        useraddr: user.address,
        point,
        recovery: wire_fields::recovery_in(s),
    }))
}

// The TEID that a cause reply to a Create goes to.
// Kept: 0 is the TEID that a reply to nobody has, by document 01 and the definition `reply_to`.
#[tactic(auto, unfolding(crate::specs::Create::reply_to, crate::specs::Create::teid_in))]
pub fn reply_to(s: &[u8]) -> u32
    ensures { result ≡ reply_to s.now }
{
    if wire_fields::over_in(s) {
        return 0;
    }
    match wire_fields::tunnel_in(s, 0, Request::CONTROL_INTERFACE) {
        Ok(t) => t.teid,
        Err(_) => 0,
    }
}

// A field that may be missing: its value if it is there.
fn if_present<T>(read: Result<T, Flaw>) -> Result<Option<T>, Flaw>
    ensures { result ≡ if_present read }
{
    match read {
        Ok(x) => Ok(Some(x)),
        Err(Flaw::Missing) => Ok(None),
        Err(f) => Err(f),
    }
}

// A Modify, from the octets behind its header.
#[tactic(auto, unfolding(crate::specs::Change::modify_of))]
pub fn read_modify(s: &[u8]) -> Result<Request, Refusal>
    ensures { result ≡ modify_of s.now }
{
    if wire_fields::over_in(s) {
        return Err(Refusal::bare(Refusal::SHORT));
    }
    let control = if_present(wire_fields::tunnel_in(s, 0, Request::CONTROL_INTERFACE)).map_err(
        |f| f.refusal(Tunnel::FIELD, 0),
    )?;
    let Some(bearer) = wire_fields::find(s, Found::BEARER_CONTEXT, 0) else {
        return Ok(Request::Modify(Modify {
            control,
            context: None,
        }));
    };
    let b = bearer.of(s);
    let ebi = wire_fields::ebi_in(b).map_err(|f| f.refusal(Octet::EBI, 0))?;
    let user = wire_fields::tunnel_in(b, Request::MODIFY_USER, Request::USER_INTERFACE);
    Ok(Request::Modify(Modify {
        control,
        context: Some(Context { ebi, user }),
    }))
}

// A Delete, from the octets behind its header.
#[tactic(auto, unfolding(crate::specs::Change::delete_of))]
pub fn read_delete(s: &[u8]) -> Result<Request, Refusal>
    ensures { result ≡ delete_of s.now }
{
    if wire_fields::over_in(s) {
        return Err(Refusal::bare(Refusal::SHORT));
    }
    let x = if_present(wire_fields::octet_in(s, Octet::EBI, 1)).map_err(|f| f.refusal(
        Octet::EBI,
        0,
    ))?;
    Ok(Request::Delete(Delete {
        ebi: x.map(|n| n % 16),
    }))
}

// What a Modify comes to for a session: where its peer is from now on. A tunnel end that is not there is as it was.
#[derive(Clone, Copy)]
pub struct Moves {
    pub control: Option<Tunnel>,
    pub user: Option<Tunnel>,
}

#[tactic(auto, unfolding(crate::specs::Change::moves_of, crate::specs::Change::context_moves, crate::specs::Change::end_moves))]
pub fn moves_of(m: Modify, ebi: u8) -> Result<Moves, Refusal>
    ensures { result ≡ moves_of m ebi }
{
    let control = m.control;
    let Some(context) = m.context else {
        return Ok(Moves {
            control,
            user: None,
        });
    };
    if context.ebi != ebi {
        return Err(Refusal::wrong(Octet::EBI, 0));
    }
    let user = if_present(context.user).map_err(|f| f.refusal(
        Tunnel::FIELD,
        Request::MODIFY_USER,
    ))?;
    Ok(Moves { control, user })
}

// Whether a Delete means a session: the EBI that came, if one came, is the session's.
#[tactic(auto, unfolding(crate::specs::Change::means_of, crate::specs::Change::ebi_means))]
pub fn means_of(d: Delete, ebi: u8) -> bool
    ensures { result ≡ means_of d ebi }
{
    d.ebi.is_none_or(|x| x == ebi)
}

// A reply that cannot be read.
#[derive(Clone, Copy, Debug, PartialEq, Eq)]
pub struct Unreadable;

// The Recovery of an Echo Request.
#[tactic(auto, unfolding(crate::specs::Carried::echo_read))]
pub fn read_echo(s: &[u8]) -> Option<u8>
    ensures { result ≡ echo_read s.now }
{
    if wire_fields::overruns(s) {
        return None;
    }
    wire_fields::recovery_in(s)
}

// The Recovery of an Echo Response.
#[tactic(auto, unfolding(crate::specs::Carried::echo_reply_read))]
pub fn read_echo_reply(s: &[u8]) -> Result<Option<u8>, Unreadable>
    ensures { result ≡ echo_reply_read s.now }
{
    if wire_fields::overruns(s) {
        return Err(Unreadable);
    }
    Ok(wire_fields::recovery_in(s))
}

// The Cause of a Delete Bearer Response.
#[tactic(auto, unfolding(crate::specs::Carried::bearer_reply_read, crate::specs::Carried::cause_of))]
pub fn read_bearer_reply(s: &[u8]) -> Result<u8, Unreadable>
    ensures { result ≡ bearer_reply_read s.now }
{
    if wire_fields::overruns(s) {
        return Err(Unreadable);
    }
    wire_fields::octet_in(s, Octet::CAUSE, Octet::CAUSE_SIZE).map_err(|_| Unreadable)
}
