//! A client's request, served by the site.
ghost use Rattle.std.specs.Prelude.{◌≡◌};
ghost use Rattle.qc_config.specs.declared.tuple.Tuple.{Tuple};
ghost use Rattle.qc_event.specs.Grants.{grant_with};
ghost use Rattle.qc_event.specs.declared.event.Answered.TheVariants.{Granted};
ghost use Rattle.qc_event.specs.History.{Past};
ghost use Rattle.qc_desk.specs.Entries.{IsOlder};
ghost use Rattle.qc_desk.specs.Rules.{IsClient};
ghost use Rattle.qc_desk.specs.Answers.{IsGranted};
ghost use Rattle.rows_serve.specs.Requests.{IsFirstOf, IsPutOf, RequestStands};
ghost use Rattle.rows_serve.specs.TwoRecords.{IsOver};

use crate::client::Request;
use qc_desk::{Desk, Pass, Store};
use qc_disk::HomeDisk;
use qc_event::{Answered, Short};
use qc_site::Site;
use std::sync::Wait;

// A request keeps what it was granted.
fn note(request: &mut Request, answer: &Answered)
    ensures stands { (past : Past) → RequestStands past request.old
        → ((tuple : Tuple) → answer.now ≡ Granted tuple
        → IsGranted 0 past (grant_with request.old.ask tuple)) → RequestStands past request.new }
    ensures ask { request.new.ask ≡ request.old.ask }
    ensures writer { request.new.writer ≡ request.old.writer }
    ensures putter { request.new.putter ≡ request.old.putter }
{
    match answer {
        Answered::Granted(tuple) => request.granted = Some(*tuple),
        _ => {}
    }
}

/// The site serves a request, which keeps what it was granted.
pub(crate) fn serve<N: Store, R: Wait>(
    rt: &R,
    desk: &Desk<N>,
    pass: &mut Pass<N>,
    site: &mut Site<HomeDisk, N, 0>,
    request: &mut Request,
) -> Result<Answered, Short>
    requires client { IsClient pass.old }
    requires over { IsOver N.table N.base }
    requires stands { RequestStands pass.old.seen request.old }
    requires first { IsFirstOf pass.old.seen pass.old.number request.old }
    requires put { IsPutOf pass.old.seen pass.old.number request.old }
    ensures same { (pass.new.live ≡ pass.old.live) × (pass.new.number ≡ pass.old.number)
        × (pass.new.out ≡ pass.old.out) }
    ensures older { IsOlder pass.old.seen pass.new.seen }
    ensures stands { RequestStands pass.new.seen request.new }
    ensures first { IsFirstOf pass.new.seen pass.old.number request.new }
    ensures put { IsPutOf pass.new.seen pass.old.number request.new }
{
    pass.known();
    let served = site.serve(rt, desk, pass, &request.ask);
    pass.known();
    match served {
        Ok(answer) => {
            note(request, &answer);
            Ok(answer)
        }
        Err(short) => Err(short),
    }
}
