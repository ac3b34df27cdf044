//! A client, which starts tops and children that set a record, and what its managers ask.
ghost use Rattle.std.specs.Prelude.{ℕ, ◌≡◌, ◌<◌, length, Some, IfOk, IfSome, OnOk};
ghost use Rattle.qc_event.specs.Grants.{grant_with};
ghost use Rattle.qc_event.specs.History.{Past};
ghost use Rattle.qc_event.specs.Standing.{Started, IsUser};
ghost use Rattle.qc_desk.specs.Entries.{IsOlder};
ghost use Rattle.qc_desk.specs.Rules.{IsClient};
ghost use Rattle.qc_desk.specs.Answers.{IsGranted};
ghost use Rattle.rows_serve.specs.Requests.{IsFirst, IsFirstOf, IsPut, IsPutOf, Knows, MayPut, RequestStands};
ghost use Rattle.rows_serve.specs.TwoRecords.{IsOver};

use qc_config::{Op, Tuple};
use qc_desk::{Desk, DeskNo, Pass, Store};
use qc_event::{Answer, Ask, Cause, Kind, Name, Val};
use std::sync::Wait;

/// A manager that writes a value.
#[derive(Clone, Copy)]
pub struct Writer {
    pub manager: Name,
    pub value: Val,
}

/// A request of a client: its user transaction, what was asked, whose it is where it is the first of a manager that has
/// asked nothing else, whose where it is the second, which puts the value, and what the copy granted.
#[derive(Clone, Copy)]
pub struct Request {
    pub user: Name,
    pub ask: Ask,
    pub writer: Option<Writer>,
    pub putter: Option<Writer>,
    pub granted: Option<Tuple>,
}

/// The request of a client, and the one before.
#[derive(Clone, Copy)]
pub struct Client {
    pub now: Option<Request>,
    pub before: Option<Request>,
}

impl Client {
    /// A client without a request.
    pub(crate) fn new() -> Self
        ensures none { (past : Past) (seat : ℕ) → Knows past seat result }
    {
        Client {
            now: None,
            before: None,
        }
    }
}

/// The request, as that of no known manager.
pub(crate) fn plain(request: &Option<Request>) -> Option<Request>
    ensures stands { (past : Past) → IfSome request.now (RequestStands past)
        → IfSome result (RequestStands past) }
    ensures first { (past : Past) (seat : ℕ) → IfSome result (IsFirstOf past seat) }
    ensures put { (past : Past) (seat : ℕ) → IfSome result (IsPutOf past seat) }
{
    let request = request.as_ref()?;
    Some(Request {
        writer: None,
        putter: None,
        ..*request
    })
}

// A manager below a user transaction sets a record: its first access asks for the tuple.
fn set_below<N: Store, R: Wait>(
    rt: &R,
    desk: &Desk<N>,
    pass: &mut Pass<N>,
    user: &Name,
    rec: u8,
    value: Val,
) -> Result<Request, DeskNo>
    requires client { IsClient pass.old }
    requires over { IsOver N.table N.base }
    requires within { rec < 2 }
    requires user { Started pass.old.seen user.now (λ b. IsUser b.kind) }
    ensures same { (pass.new.live ≡ pass.old.live) × (pass.new.number ≡ pass.old.number)
        × (pass.new.out ≡ pass.old.out) }
    ensures older { OnOk result (IsOlder pass.old.seen pass.new.seen) }
    ensures stands { IfOk result (RequestStands pass.new.seen) }
    ensures first { IfOk result (IsFirstOf pass.new.seen pass.old.number) }
    ensures put { IfOk result (IsPutOf pass.new.seen pass.old.number) }
{
    pass.known();
    let manager = desk.start(rt, pass, user, Kind::Write { rec, value })?;
    pass.known();
    let access = desk.start(rt, pass, &manager, Kind::Access)?;
    pass.known();
    let ask = Ask {
        access,
        copy: 0,
        rec,
        op: Op::Get,
    };
    desk.ask(rt, pass, &ask)?;
    pass.known();
    Ok(Request {
        user: *user,
        ask,
        writer: Some(Writer { manager, value }),
        putter: None,
        granted: None,
    })
}

/// Starts a top with a manager that sets a record, whose first access asks for the tuple.
pub(crate) fn set<N: Store, R: Wait>(
    rt: &R,
    desk: &Desk<N>,
    pass: &mut Pass<N>,
    rec: u8,
    value: Val,
) -> Result<Request, DeskNo>
    requires client { IsClient pass.old }
    requires over { IsOver N.table N.base }
    requires within { rec < 2 }
    ensures same { (pass.new.live ≡ pass.old.live) × (pass.new.number ≡ pass.old.number)
        × (pass.new.out ≡ pass.old.out) }
    ensures older { OnOk result (IsOlder pass.old.seen pass.new.seen) }
    ensures stands { IfOk result (RequestStands pass.new.seen) }
    ensures first { IfOk result (IsFirstOf pass.new.seen pass.old.number) }
    ensures put { IfOk result (IsPutOf pass.new.seen pass.old.number) }
{
    let top = desk.start_top(rt, pass, 0, 0)?;
    pass.known();
    set_below(rt, desk, pass, &top, rec, value)
}

/// Starts a child of a request's user transaction, with a manager that sets a record.
pub(crate) fn set_child<N: Store, R: Wait>(
    rt: &R,
    desk: &Desk<N>,
    pass: &mut Pass<N>,
    request: &Request,
    rec: u8,
    value: Val,
) -> Result<Request, DeskNo>
    requires client { IsClient pass.old }
    requires over { IsOver N.table N.base }
    requires within { rec < 2 }
    requires deep { length request.now.user < 16 }
    requires stands { RequestStands pass.old.seen request.now }
    ensures same { (pass.new.live ≡ pass.old.live) × (pass.new.number ≡ pass.old.number)
        × (pass.new.out ≡ pass.old.out) }
    ensures older { OnOk result (IsOlder pass.old.seen pass.new.seen) }
    ensures stands { IfOk result (RequestStands pass.new.seen) }
    ensures first { IfOk result (IsFirstOf pass.new.seen pass.old.number) }
    ensures put { IfOk result (IsPutOf pass.new.seen pass.old.number) }
{
    pass.known();
    let kind = Kind::User {
        session: 0,
        body: 0,
    };
    let child = desk.start(rt, pass, &request.user, kind)?;
    pass.known();
    set_below(rt, desk, pass, &child, rec, value)
}

/// The manager of a first request and the tuple that it was told, where it may go on from there.
pub(crate) fn replied(request: &Request) -> Option<(Writer, Tuple)>
    ensures writer { IfSome result (λ r. request.now.writer ≡ Some r.0) }
    ensures tuple { IfSome result (λ r. request.now.granted ≡ Some r.1) }
    ensures next { IfSome result (λ r. MayPut r.1) }
{
    let writer = request.writer?;
    let tuple = request.granted?;
    if tuple.generation == 0 && tuple.version < u64::MAX {
        Some((writer, tuple))
    } else {
        None
    }
}

/// The manager of a first request takes the reply, and its next access puts the value.
pub(crate) fn put<N: Store, R: Wait>(
    rt: &R,
    desk: &Desk<N>,
    pass: &mut Pass<N>,
    request: &Request,
    writer: &Writer,
    tuple: &Tuple,
) -> Result<Request, DeskNo>
    requires client { IsClient pass.old }
    requires over { IsOver N.table N.base }
    requires stands { RequestStands pass.old.seen request.now }
    requires first { IsFirst pass.old.seen pass.old.number request.now.ask writer.now.manager
        writer.now.value }
    requires granted { IsGranted 0 pass.old.seen (grant_with request.now.ask tuple.now) }
    requires next { MayPut tuple.now }
    ensures same { (pass.new.live ≡ pass.old.live) × (pass.new.number ≡ pass.old.number)
        × (pass.new.out ≡ pass.old.out) }
    ensures older { OnOk result (IsOlder pass.old.seen pass.new.seen) }
    ensures stands { IfOk result (RequestStands pass.new.seen) }
    ensures first { IfOk result (IsFirstOf pass.new.seen pass.old.number) }
    ensures put { IfOk result (IsPutOf pass.new.seen pass.old.number) }
{
    desk.take_reply(rt, pass, &request.ask.access, tuple)?;
    pass.known();
    let access = desk.start(rt, pass, &writer.manager, Kind::Access)?;
    pass.known();
    let ask = Ask {
        access,
        copy: 0,
        rec: request.ask.rec,
        op: Op::PutData {
            version: tuple.version + 1,
            value: writer.value,
        },
    };
    desk.ask(rt, pass, &ask)?;
    pass.known();
    Ok(Request {
        user: request.user,
        ask,
        writer: None,
        putter: Some(*writer),
        granted: None,
    })
}

/// The manager of a request that put its value, and the tuple that it was told.
pub(crate) fn told_put(request: &Request) -> Option<(Writer, Tuple)>
    ensures putter { IfSome result (λ r. request.now.putter ≡ Some r.0) }
    ensures tuple { IfSome result (λ r. request.now.granted ≡ Some r.1) }
{
    let putter = request.putter?;
    let tuple = request.granted?;
    Some((putter, tuple))
}

/// The manager of a request that put its value takes the reply, and commits.
pub(crate) fn complete<N: Store, R: Wait>(
    rt: &R,
    desk: &Desk<N>,
    pass: &mut Pass<N>,
    request: &Request,
    putter: &Writer,
    tuple: &Tuple,
) -> Result<(), DeskNo>
    requires client { IsClient pass.old }
    requires over { IsOver N.table N.base }
    requires put { IsPut pass.old.seen pass.old.number request.now.ask putter.now.manager
        putter.now.value }
    requires granted { IsGranted 0 pass.old.seen (grant_with request.now.ask tuple.now) }
    ensures same { (pass.new.live ≡ pass.old.live) × (pass.new.number ≡ pass.old.number)
        × (pass.new.out ≡ pass.old.out) }
    ensures older { OnOk result (IsOlder pass.old.seen pass.new.seen) }
{
    desk.take_reply(rt, pass, &request.ask.access, tuple)?;
    pass.known();
    desk.end(rt, pass, &putter.manager, &Answer::Nothing)
}

/// The user transaction of a request is aborted as it asked.
pub(crate) fn abort<N: Store, R: Wait>(
    rt: &R,
    desk: &Desk<N>,
    pass: &mut Pass<N>,
    request: &Request,
) -> Result<(), DeskNo>
    requires client { IsClient pass.old }
    requires stands { RequestStands pass.old.seen request.now }
    ensures same { (pass.new.live ≡ pass.old.live) × (pass.new.number ≡ pass.old.number)
        × (pass.new.out ≡ pass.old.out) }
    ensures older { OnOk result (IsOlder pass.old.seen pass.new.seen) }
{
    let user = request.user;
    desk.abort(rt, pass, &user, &Cause::Asked { by: user })
}
