//! Two clients in threads over one desk.
ghost use Rattle.std.specs.Prelude.{◌≡◌, ◌+◌, ◌<◌, ◌≤◌, [], true, reverse};
ghost use Rattle.qc_event.specs.Legal.{Legal};
ghost use Rattle.qc_event.specs.Tables.{setting_of};
ghost use Rattle.qc_desk.specs.Rules.{IsClient};

use qc_desk::{Blank, Desk, DeskNo, Pass, Store};
use qc_event::{Base, Cause};
use qc_trail::Trail;
use std::alloc::{AllocError, Global};
use std::marker::Brand;
use std::sync::Wait;
use std::thread::{Threads, join};

// The numbers of the ledger and of sixteen copies, which the first pass gives first.
const LOW: u32 = 17;

// A top is started, and aborted as it asked.
fn one_top<N: Store, R: Wait>(
    rt: &R,
    desk: &Desk<N>,
    pass: &mut Pass<N>,
    session: u8,
) -> Result<(), DeskNo>
    requires client { IsClient pass.old }
    ensures same { (pass.new.live ≡ pass.old.live) × (pass.new.number ≡ pass.old.number)
        × (pass.new.out ≡ pass.old.out) }
{
    let top = desk.start_top(rt, pass, session, 0)?;
    pass.known();
    desk.abort(rt, pass, &top, &Cause::Asked { by: top })
}

// One client: so many tops, or as many as there is memory for.
fn visit<N: Store, R: Wait>(
    rt: &R,
    desk: &Desk<N>,
    mut pass: Pass<N>,
    session: u8,
    tops: u32,
) -> Pass<N>
    requires client { IsClient pass }
    ensures same { (result.live ≡ pass.live) × (result.number ≡ pass.number)
        × (result.out ≡ pass.out) }
{
    for _ in 0..tops {
        if one_top(rt, desk, &mut pass, session).is_err() {
            return pass;
        }
    }
    pass
}

// The first pass gives a low number away.
fn give_low<N: Store, R: Wait>(rt: &R, desk: &Desk<N>, pass: &mut Pass<N>)
    requires first { (pass.old.live ≡ true) × (pass.old.number ≡ 0) × (pass.old.count < 17) }
    ensures { (pass.new.live ≡ true) × (pass.new.number ≡ 0) × (pass.new.out ≡ pass.old.out)
        × (pass.new.seen ≡ pass.old.seen) × (pass.new.count ≡ pass.old.count + 1) }
{
    let _low = desk.split(rt, pass);
}

// The first pass gives so many low numbers away.
pub(crate) fn give_low_numbers<N: Store, R: Wait>(
    rt: &R,
    desk: &Desk<N>,
    pass: &mut Pass<N>,
    many: u32,
)
    requires first { (pass.old.live ≡ true) × (pass.old.number ≡ 0)
        × (pass.old.count + many ≤ 17) }
    ensures { (pass.new.live ≡ true) × (pass.new.number ≡ 0) × (pass.new.out ≡ pass.old.out)
        × (pass.new.seen ≡ pass.old.seen) × (pass.new.count ≡ pass.old.count + many) }
{
    for _ in 0..many {
        give_low(rt, desk, pass);
    }
}

fn run_named<N: Store + Send + Sync, R: Threads + Wait + Sync>(
    rt: &R,
    blank: Blank,
    tops: u32,
) -> (Base, Trail)
    requires desk { blank.room.shared.table_id ≡ N.desk }
    requires base { blank.base ≡ N.base }
    ensures legal { Legal (setting_of N.table N.base) (reverse result.1) }
{
    let (desk, mut first) = blank.name::<N>();
    give_low_numbers(rt, &desk, &mut first, LOW);
    let one = desk.split(rt, &mut first);
    let two = desk.split(rt, &mut first);
    let (one, two) = join(
        rt,
        || -> Pass<N>
            requires { IsClient one }
            ensures { (result.live ≡ one.live) × (result.number ≡ one.number)
                × (result.out ≡ one.out) }
        { visit(rt, &desk, one, 0, tops) },
        || -> Pass<N>
            requires { IsClient two }
            ensures { (result.live ≡ two.live) × (result.number ≡ two.number)
                × (result.out ≡ two.out) }
        { visit(rt, &desk, two, 1, tops) },
    );
    desk.join(rt, &mut first, one);
    desk.join(rt, &mut first, two);
    desk.close(first)
}

/// Two clients start so many tops each in threads of their own, and abort each.
pub fn run<R: Threads + Wait + Sync>(
    rt: &R,
    alloc: Global,
    tops: u32,
) -> Result<(Base, Trail), AllocError> {
    let blank = Blank::new(alloc, Base::new(Vec::new(alloc)), 1)?;
    Ok(run_named::<Brand, R>(rt, blank, tops))
}
