//! Sessions get their ends of all queues.
ghost use Rattle.std.specs.Prelude.{◌≡◌, ◌<◌, ◌+◌, [], IfOk, OnOk, map, set, get_or, All};
ghost use Rattle.std.specs.List.{range_with_len};
ghost use Rattle.qc_mail.specs.Mails.{got_at, known_at, made_at, put_at};

use crate::letter::Letter;
use crate::mail::{Mail, Post};
use crate::stub::Stub;
use qc_desk::Store;
use qc_lane::{Inlet, Mailed};
use std::alloc::{AllocError, Global};

// A session's end of a copy's queue.
fn seat_end<N: Store, M: Mailed>(
    mail: &Mail<N, M>,
    stubs: &mut Vec<Stub<N, M>>,
    copy: u8,
    session: u8,
) -> Inlet<Letter<N>, M>
    requires copies { map (λ s. s.outlet.copy) stubs.old.items ≡ range_with_len 0 M.copies }
    requires within { copy < M.copies }
    requires next { get_or (map (λ s. made_at s.outlet.pass) stubs.old.items) copy 0 ≡ session }
    ensures copies { map (λ s. s.outlet.copy) stubs.new.items ≡ range_with_len 0 M.copies }
    ensures got { map (λ s. got_at s.outlet.pass) stubs.new.items
        ≡ map (λ s. got_at s.outlet.pass) stubs.old.items }
    ensures made { map (λ s. made_at s.outlet.pass) stubs.new.items
        ≡ set (map (λ s. made_at s.outlet.pass) stubs.old.items) copy (session + 1) }
    ensures inlet { (result.copy ≡ copy) × (result.session ≡ session) }
    ensures put { (put_at result.pass ≡ []) × (known_at result.pass ≡ 0) }
{
    stubs[usize::from(copy)]
        .outlet
        .seat(mail.tray(copy), session)
}

// A session's ends of all queues.
fn seat_one<N: Store, M: Mailed>(
    alloc: Global,
    mail: &Mail<N, M>,
    stubs: &mut Vec<Stub<N, M>>,
    copies: u8,
    session: u8,
) -> Result<Post<N, M>, AllocError>
    requires numbers { (copies ≡ M.copies) × (session < M.sessions) }
    requires copies { map (λ s. s.outlet.copy) stubs.old.items ≡ range_with_len 0 M.copies }
    requires next { All (λ made. made ≡ session)
        (map (λ s. made_at s.outlet.pass) stubs.old.items) }
    ensures copies { OnOk result (map (λ s. s.outlet.copy) stubs.new.items
        ≡ range_with_len 0 M.copies) }
    ensures got { OnOk result (map (λ s. got_at s.outlet.pass) stubs.new.items
        ≡ map (λ s. got_at s.outlet.pass) stubs.old.items) }
    ensures made { OnOk result (All (λ made. made ≡ session + 1)
        (map (λ s. made_at s.outlet.pass) stubs.new.items)) }
    ensures post { IfOk result (λ p. (p.session ≡ session)
        × All (λ e. put_at e.pass ≡ []) p.ends.items) }
{
    let mut ends = Vec::new(alloc);
    for copy in 0..copies {
        ends.push(seat_end(mail, stubs, copy, session))?;
    }
    Ok(Post { session, ends })
}

/// The posts of so many sessions.
pub(crate) fn seat_all<N: Store, M: Mailed>(
    alloc: Global,
    mail: &Mail<N, M>,
    stubs: &mut Vec<Stub<N, M>>,
    copies: u8,
    sessions: u8,
) -> Result<Vec<Post<N, M>>, AllocError>
    requires numbers { (copies ≡ M.copies) × (sessions ≡ M.sessions) }
    requires copies { map (λ s. s.outlet.copy) stubs.old.items ≡ range_with_len 0 M.copies }
    requires next { All (λ made. made ≡ 0) (map (λ s. made_at s.outlet.pass) stubs.old.items) }
    ensures copies { OnOk result (map (λ s. s.outlet.copy) stubs.new.items
        ≡ range_with_len 0 M.copies) }
    ensures got { OnOk result (map (λ s. got_at s.outlet.pass) stubs.new.items
        ≡ map (λ s. got_at s.outlet.pass) stubs.old.items) }
    ensures posts { IfOk result (λ r. map (λ p. p.session) r.items
        ≡ range_with_len 0 M.sessions) }
    ensures none { IfOk result (λ r. All (λ p. All (λ e. put_at e.pass ≡ []) p.ends.items)
        r.items) }
{
    let mut posts = Vec::new(alloc);
    for session in 0..sessions {
        posts.push(seat_one(alloc, mail, stubs, copies, session)?)?;
    }
    Ok(posts)
}
