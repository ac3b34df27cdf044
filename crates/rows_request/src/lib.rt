//! A desk over one record at one copy, and a client's request to the copy: what programs of rows share.
#![tactic(auto)]

ghost use Rattle.std.specs.Prelude.{◌≡◌, IfOk, IfSome, OnOk};
ghost use Rattle.qc_desk.specs.Entries.{IsOlder};
ghost use Rattle.qc_desk.specs.Rules.{IsClient};
ghost use Rattle.rows_request.specs.OneCopy as words;

use qc_config::{Config, Op, Tuple, Val};
use qc_desk::{Desk, DeskNo, Pass, Store};
use qc_event::{Ask, Kind, Name};
use std::sync::Wait;

/// The configuration of the one record: its one copy has the one vote.
pub fn one_vote() -> Option<Config>
    ensures { IfSome result (λ c. c ≡ words.config) }
{
    match Config::new(&[1], 1, 1) {
        Ok(config) => Some(config),
        Err(_) => None,
    }
}

/// The tuple with which the copy starts.
pub fn first_tuple(config: &Config) -> Tuple
    requires { config.now ≡ words.config }
    ensures { result ≡ words.first }
{
    Tuple {
        version: 0,
        value: Val::number(0),
        generation: 0,
        config: *config,
    }
}

/// A client starts a top with a reading manager, whose access asks the copy.
pub fn one_request<N: Store, R: Wait>(
    rt: &R,
    desk: &Desk<N>,
    pass: &mut Pass<N>,
) -> Result<(Name, Ask), DeskNo>
    requires client { IsClient pass.old }
    requires over { (N.table ≡ words.table) × (N.base ≡ words.base) }
    ensures same { (pass.new.live ≡ pass.old.live) × (pass.new.number ≡ pass.old.number)
        × (pass.new.out ≡ pass.old.out) }
    ensures older { OnOk result (IsOlder pass.old.seen pass.new.seen) }
    ensures asked { IfOk result
        (λ r. words.IsRequest pass.new.seen pass.old.number r.0 r.1) }
{
    let top = desk.start_top(rt, pass, 0, 0)?;
    pass.known();
    let manager = desk.start(rt, pass, &top, Kind::Read { rec: 0 })?;
    pass.known();
    let access = desk.start(rt, pass, &manager, Kind::Access)?;
    pass.known();
    let ask = Ask {
        access,
        copy: 0,
        rec: 0,
        op: Op::Get,
    };
    desk.ask(rt, pass, &ask)?;
    pass.known();
    Ok((top, ask))
}
