//! A mail is closed.
ghost use Rattle.std.specs.Prelude.{◌≡◌, map, All};
ghost use Rattle.qc_mail.specs.Mails.{put_at, taken_at, HasAll};

use crate::mail::{Mail, Post};
use crate::stub::Stub;
use qc_desk::Store;
use qc_lane::Mailed;

// A post is held against a stub: what the stub took of its session is what the post sent to its copy.
fn settle_one<N: Store, M: Mailed>(mail: &Mail<N, M>, post: &mut Post<N, M>, stub: &mut Stub<N, M>)
    ensures post { (post.new.session ≡ post.old.session)
        × (map (λ e. put_at e.pass) post.new.ends.items
        ≡ map (λ e. put_at e.pass) post.old.ends.items) }
    ensures stub { taken_at stub.new.outlet.copy stub.new.outlet.pass
        ≡ taken_at stub.old.outlet.copy stub.old.outlet.pass }
    ensures all { HasAll post.old.session (map (λ e. put_at e.pass) post.old.ends.items)
        (taken_at stub.old.outlet.copy stub.old.outlet.pass) }
{
    let copy = stub.outlet.copy;
    post.ends[usize::from(copy)].settle(mail.tray(copy), &mut stub.outlet);
}

// A post is held against all stubs.
fn settle_post<N: Store, M: Mailed>(
    mail: &Mail<N, M>,
    post: &mut Post<N, M>,
    stubs: &mut Vec<Stub<N, M>>,
)
    ensures post { (post.new.session ≡ post.old.session)
        × (map (λ e. put_at e.pass) post.new.ends.items
        ≡ map (λ e. put_at e.pass) post.old.ends.items) }
    ensures stubs { map (λ s. taken_at s.outlet.copy s.outlet.pass) stubs.new.items
        ≡ map (λ s. taken_at s.outlet.copy s.outlet.pass) stubs.old.items }
    ensures all { All (HasAll post.old.session (map (λ e. put_at e.pass) post.old.ends.items))
        (map (λ s. taken_at s.outlet.copy s.outlet.pass) stubs.old.items) }
{
    for i in 0..stubs.len() {
        settle_one(mail, post, &mut stubs[i]);
    }
}

impl<N: Store, M: Mailed> Mail<N, M> {
    /// Closes the mail. What each of the stubs took of the session of each of the posts is what the post sent to its
    /// copy, in its order, each once.
    pub fn close(self, posts: Vec<Post<N, M>>, stubs: Vec<Stub<N, M>>)
        ensures { All (λ p. All (HasAll p.session (map (λ e. put_at e.pass) p.ends.items))
            (map (λ s. taken_at s.outlet.copy s.outlet.pass) stubs.items)) posts.items }
    {
        let mut posts = posts;
        let mut stubs = stubs;
        for i in 0..posts.len() {
            settle_post(&self, &mut posts[i], &mut stubs);
        }
    }
}
