//! One thread offers tops as another draws.
ghost use Rattle.std.specs.Prelude.{◌≡◌};
ghost use Rattle.qc_desk.specs.Rules.{IsClient};

use crate::scene::{NO_MEMORY, offer_next};
use qc_desk::{Blank, Desk, DeskNo, Pass, Store};
use qc_event::{Base, Name};
use qc_group::Group;
use std::alloc::Global;
use std::marker::Brand;
use std::sync::Wait;
use std::thread::{Threads, join};

// How many are drawn at most at once.
const MOST: usize = 15;

// So many tops are offered, or as many as there is memory for.
fn offer_many<N: Store, R: Wait>(
    rt: &R,
    desk: &Desk<N>,
    mut pass: Pass<N>,
    group: &Group<N>,
    many: usize,
)
    requires client { IsClient pass }
{
    for _ in 0..many {
        if offer_next(rt, desk, &mut pass, group).is_err() {
            return;
        }
    }
}

// How many are drawn in so many draws for a top.
fn draw_many<N: Store, R: Wait>(
    rt: &R,
    desk: &Desk<N>,
    group: &Group<N>,
    own: &Name,
    many: usize,
) -> usize {
    let mut count = 0_usize;
    for _ in 0..many {
        if let Ok(drawn) = group.draw(rt, desk, own, MOST) {
            count = count.saturating_add(drawn.len());
        }
    }
    count
}

fn threads_at<N: Store + Send + Sync, R: Threads + Wait + Sync>(
    rt: &R,
    alloc: Global,
    blank: Blank,
    tops: usize,
) -> Result<usize, DeskNo>
    requires desk { blank.room.shared.table_id ≡ N.desk }
    requires base { blank.base ≡ N.base }
{
    let (desk, mut pass) = blank.name::<N>();
    let own = desk.start_top(rt, &mut pass, 0, 0)?;
    let group = Group::new(alloc);
    let ((), beside) = join(
        rt,
        || -> ()
            requires { IsClient pass }
        { offer_many(rt, &desk, pass, &group, tops) },
        || -> usize { draw_many(rt, &desk, &group, &own, tops) },
    );
    let behind = draw_many(rt, &desk, &group, &own, tops);
    Ok(beside.saturating_add(behind))
}

/// How many tops are drawn of so many that one thread offers, by another beside it, and behind both. An error is the
/// desk's, or want of memory.
pub fn run_threads<R: Threads + Wait + Sync>(
    rt: &R,
    alloc: Global,
    tops: usize,
) -> Result<usize, DeskNo> {
    let Ok(blank) = Blank::new(alloc, Base::new(Vec::new(alloc)), 1) else {
        return Err(NO_MEMORY);
    };
    threads_at::<Brand, R>(rt, alloc, blank, tops)
}
