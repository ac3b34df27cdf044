//! A session and a copy's server in threads of their own.
ghost use Rattle.std.specs.Prelude.{◌≡◌, map};
ghost use Rattle.std.specs.List.{range_with_len};
ghost use Rattle.qc_lane.specs.Ends.{queue_id};
ghost use Rattle.qc_desk.specs.Rules.{IsClient};
ghost use Rattle.rows_request.specs.OneCopy as words;

use crate::downs::{CopyPass, Downs};
use crossbeam_queue::ArrayQueue;
use qc_desk::{Blank, Desk, DeskNo, Pass, Store};
use qc_event::Answered;
use qc_lane::{Inlet, Mailed, Request};
use qc_mail::{Letter, Mail, Post, Reply, Serve, Stub, Unnamed};
use rows_request::one_request;
use std::alloc::{AllocError, Global};
use std::marker::Brand;
use std::sync::{Mutex, Wait};
use std::thread;
use std::thread::{Threads, join};

/// How often a session looks into its reply queue.
const TURNS: u32 = 1_000_000;

/// What a session saw of its copy's server.
#[derive(Drop)]
pub enum Seen {
    /// What two requests were answered.
    Answers(Answered, Answered),
    /// Whether a reply came in time.
    Reply(bool),
}

/// What a session saw of its copy's server, and how many requests the server took.
#[derive(Drop)]
pub struct Told {
    pub seen: Result<Seen, DeskNo>,
    pub taken: u64,
}

// Two requests are delivered.
fn deliver_two<N: Store, M: Mailed, R: Wait>(
    rt: &R,
    mail: &Mail<N, M>,
    post: &mut Post<N, M>,
    desk: &Desk<N>,
    pass: &mut Pass<N>,
) -> Result<Seen, DeskNo>
    requires client { IsClient pass.old }
    requires over { (N.table ≡ words.table) × (N.base ≡ words.base) }
    requires copies { M.copies ≡ 1 }
{
    let (_, ask) = one_request(rt, desk, pass)?;
    let one = post.deliver(rt, mail, desk, pass, &ask)?;
    let (_, ask) = one_request(rt, desk, pass)?;
    let two = post.deliver(rt, mail, desk, pass, &ask)?;
    Ok(Seen::Answers(one, two))
}

// Whether a reply comes while the queue is looked into so often.
fn comes_in_time<N: Store, M: Mailed, R: Wait>(rt: &R, replies: &ArrayQueue<Reply<N, M>>) -> bool {
    for _ in 0..TURNS {
        if replies.pop(rt).is_some() {
            return true;
        }
        thread::yield_now();
    }
    false
}

// A request is sent, and nothing is done but to look for its reply.
fn send_and_look<N: Store, M: Mailed, R: Wait>(
    rt: &R,
    mail: &Mail<N, M>,
    end: &mut Inlet<Letter<N>, M>,
    desk: &Desk<N>,
    pass: &mut Pass<N>,
) -> Result<Seen, DeskNo>
    requires client { IsClient pass.old }
    requires over { (N.table ≡ words.table) × (N.base ≡ words.base) }
    requires mail { (M.copies ≡ 1) × (M.sessions ≡ 1) }
    requires copy { end.old.copy ≡ 0 }
    ensures copy { end.new.copy ≡ 0 }
{
    let (_, ask) = one_request(rt, desk, pass)?;
    let note = desk.note(pass);
    let request = Request {
        from: end.session,
        number: end.sent,
        ask,
    };
    end.send(rt, mail.tray(0), &ask, Letter::of(request, note));
    Ok(Seen::Reply(comes_in_time(rt, &mail.replies[0])))
}

// The session delivers two requests, and says the word to stop. Its post comes back.
fn deliver_and_stop<N: Store, M: Mailed, R: Wait>(
    rt: &R,
    mail: &Mail<N, M>,
    post: Post<N, M>,
    desk: &Desk<N>,
    pass: Pass<N>,
) -> (Result<Seen, DeskNo>, Option<Post<N, M>>)
    requires client { IsClient pass }
    requires over { (N.table ≡ words.table) × (N.base ≡ words.base) }
    requires copies { M.copies ≡ 1 }
{
    let mut post = post;
    let mut pass = pass;
    let seen = deliver_two(rt, mail, &mut post, desk, &mut pass);
    post.stop(rt, mail, 0);
    (seen, Some(post))
}

// The session looks for a reply, and says the word to stop. Its post does not come back: it took in no receipt.
fn look_and_stop<N: Store, M: Mailed, R: Wait>(
    rt: &R,
    mail: &Mail<N, M>,
    post: Post<N, M>,
    desk: &Desk<N>,
    pass: Pass<N>,
) -> (Result<Seen, DeskNo>, Option<Post<N, M>>)
    requires client { IsClient pass }
    requires over { (N.table ≡ words.table) × (N.base ≡ words.base) }
    requires mail { (M.copies ≡ 1) × (M.sessions ≡ 1) }
{
    let mut pass = pass;
    let Post { mut ends, .. } = post;
    let end = &mut ends[0];
    let seen = send_and_look(rt, mail, end, desk, &mut pass);
    end.stop(rt, mail.tray(0), Letter::stop());
    (seen, None)
}

// A session does one or the other.
fn act<N: Store, M: Mailed, R: Wait>(
    rt: &R,
    mail: &Mail<N, M>,
    post: Post<N, M>,
    desk: &Desk<N>,
    pass: Pass<N>,
    looks: bool,
) -> (Result<Seen, DeskNo>, Option<Post<N, M>>)
    requires client { IsClient pass }
    requires over { (N.table ≡ words.table) × (N.base ≡ words.base) }
    requires mail { (M.copies ≡ 1) × (M.sessions ≡ 1) }
{
    if looks {
        look_and_stop(rt, mail, post, desk, pass)
    } else {
        deliver_and_stop(rt, mail, post, desk, pass)
    }
}

// A server's loop, with its stub handed back.
fn works<N: Store, M: Mailed, B: Serve<N>, R: Wait>(
    rt: &R,
    mail: &Mail<N, M>,
    stub: Stub<N, M>,
    to: &B,
) -> Stub<N, M> {
    let mut stub = stub;
    stub.work(rt, mail, to);
    stub
}

// The session and the server run beside each other.
fn run_both<N: Store + Send + Sync, M: Mailed + Send + Sync, R: Threads + Wait + Sync>(
    rt: &R,
    mail: &Mail<N, M>,
    post: Post<N, M>,
    stub: Stub<N, M>,
    downs: &Downs<N>,
    pass: Pass<N>,
    looks: bool,
) -> ((Result<Seen, DeskNo>, Option<Post<N, M>>), Stub<N, M>)
    requires client { IsClient pass }
    requires over { (N.table ≡ words.table) × (N.base ≡ words.base) }
    requires mail { (M.copies ≡ 1) × (M.sessions ≡ 1) }
{
    let desk = downs.desk;
    join(
        rt,
        || -> (Result<Seen, DeskNo>, Option<Post<N, M>>)
            requires { IsClient pass × (N.table ≡ words.table) × (N.base ≡ words.base)
                × (M.copies ≡ 1) × (M.sessions ≡ 1) }
        { act(rt, mail, post, desk, pass, looks) },
        || works(rt, mail, stub, downs),
    )
}

// The same over queues that get their names.
fn play_named<N: Store + Send + Sync, M: Mailed + Send + Sync, R: Threads + Wait + Sync>(
    rt: &R,
    alloc: Global,
    unnamed: Unnamed<N>,
    downs: &Downs<N>,
    pass: Pass<N>,
    looks: bool,
) -> Result<Option<Told>, AllocError>
    requires client { IsClient pass }
    requires over { (N.table ≡ words.table) × (N.base ≡ words.base) }
    requires lanes { map (λ o. queue_id o.queue) unnamed.opened.items
        ≡ map M.lanes (range_with_len 0 M.copies) }
    requires numbers { (unnamed.copies ≡ M.copies) × (unnamed.sessions ≡ M.sessions) }
    requires mail { (M.copies ≡ 1) × (M.sessions ≡ 1) }
{
    let (mail, mut posts, mut stubs) = unnamed.name::<M>(alloc)?;
    let Some(post) = posts.pop() else {
        return Ok(None);
    };
    let Some(stub) = stubs.pop() else {
        return Ok(None);
    };
    let ((seen, post), stub) = run_both(rt, &mail, post, stub, downs, pass, looks);
    let taken = stub.taken();
    if let Some(post) = post {
        posts.push(post)?;
    }
    stubs.push(stub)?;
    mail.close(posts, stubs);
    Ok(Some(Told { seen, taken }))
}

// The same over a desk that gets its name.
fn play_desk<N: Store + Send + Sync, R: Threads + Wait + Sync>(
    rt: &R,
    alloc: Global,
    blank: Blank,
    looks: bool,
) -> Result<Option<Told>, AllocError>
    requires desk { blank.room.shared.table_id ≡ N.desk }
    requires base { (blank.base ≡ N.base) × (N.base ≡ words.base) }
    requires table { N.table ≡ words.table }
{
    let unnamed = Unnamed::new(alloc, 1, 1)?;
    let (desk, mut first) = blank.name::<N>();
    let _ledger = desk.split(rt, &mut first);
    let copy = desk.split(rt, &mut first);
    let downs = Downs {
        desk: &desk,
        locked: Mutex::new(CopyPass { pass: copy }),
    };
    play_named::<N, Brand, R>(rt, alloc, unnamed, &downs, first, looks)
}

/// A session beside the server of a copy that is down: it delivers two requests, or looks for the reply to one.
pub fn play<R: Threads + Wait + Sync>(
    rt: &R,
    alloc: Global,
    blank: Blank,
    looks: bool,
) -> Result<Option<Told>, AllocError>
    requires { blank.base ≡ words.base }
{
    play_desk::<Brand, R>(rt, alloc, blank, looks)
}
