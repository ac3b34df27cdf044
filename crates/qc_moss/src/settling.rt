//! Locks that go up or away as transactions end.
ghost use Rattle.std.specs.Prelude.{ℕ, List, ◌≡◌, ◌<◌, ◌≤◌, ◌+◌, ◌⊎◌, true, false, [], None, Some, All, is_some, take, drop, vec_len, vec_capacity};
ghost use Rattle.qc_event.specs.Dead as dead_words;
ghost use Rattle.qc_event.specs.History.{Past};
ghost use Rattle.qc_moss.specs.Follows.{HoldsStill, IsInherited, Becomes};
ghost use Rattle.qc_moss.specs.Locks as locks;

use crate::holder::Holder;
use crate::source::Source;
use qc_config::Tuple;
use qc_names::Name;

// Who inherited what was done at a transaction; none where it is dead.
fn raised<S: Source>(at: &Name, source: &S) -> Option<Name>
    ensures gone { (past : Past) → S.tells source.now past → result ≡ None
        → is_some (dead_words.dead past at.now) ≡ true }
    ensures up { (past : Past) (to : List ℕ) → S.tells source.now past → result ≡ Some to
        → IsInherited past at.now to }
    ensures alive { (past : Past) (to : List ℕ) → S.tells source.now past → result ≡ Some to
        → dead_words.dead past to ≡ None }
    ensures still { (past : Past) (to : List ℕ) → S.tells source.now past → result ≡ Some to
        → (to ≡ []) ⊎ (dead_words.is_committed (dead_words.outcome past to) ≡ false) }
{
    if source.dead(at).is_some() {
        return None;
    }
    let mut to = *at;
    while !to.is_empty() && source.outcome(&to).is_committed() {
        to = to.ancestor(to.len() - 1);
    }
    Some(to)
}

fn is_held(held: &[Holder], at: &Name) -> bool
    ensures { result ≡ locks.is_held held.now at.now }
{
    for holder in held {
        if holder.at == *at {
            return true;
        }
    }
    false
}

// Puts a lock after the first ones, or makes it one with the last of them, and says how many there are then.
fn place_next(held: &mut Vec<Holder>, kept: usize, holder: &Holder) -> usize
    requires { kept < vec_len held.old }
    ensures first { take result held.new.items
        ≡ locks.with_neighbour (take kept held.old.items) holder.now }
    ensures rest { (n : ℕ) → kept < n → drop n held.new.items ≡ drop n held.old.items }
    ensures len { vec_len held.new ≡ vec_len held.old }
    ensures room { vec_capacity held.new ≡ vec_capacity held.old }
    ensures bound { result ≤ kept + 1 }
{
    if kept > 0 && held[kept - 1].at == holder.at {
        held[kept - 1] = held[kept - 1].joined(holder);
        kept
    } else {
        held[kept] = *holder;
        kept + 1
    }
}

// Puts a lock after the first ones, or makes it one of them, and says how many there are then.
fn place(held: &mut Vec<Holder>, kept: usize, holder: &Holder) -> usize
    requires { kept < vec_len held.old }
    ensures first { take result held.new.items
        ≡ locks.with_next (take kept held.old.items) holder.now }
    ensures rest { (n : ℕ) → kept < n → drop n held.new.items ≡ drop n held.old.items }
    ensures len { vec_len held.new ≡ vec_len held.old }
    ensures room { vec_capacity held.new ≡ vec_capacity held.old }
    ensures bound { result ≤ kept + 1 }
{
    if holder.is_read() && is_held(&held[..kept], &holder.at) {
        return kept;
    }
    place_next(held, kept, holder)
}

/// Settles the locks of one record: each goes up as far as it was inherited, those of the dead go, and what one
/// transaction holds becomes one lock where it is next to another, or a read. It takes no memory.
pub fn settle_list<S: Source>(held: &mut Vec<Holder>, source: &S)
    ensures becomes { (past : Past) → S.tells source.now past
        → Becomes past held.old.items held.new.items }
    ensures settled { (past : Past) → S.tells source.now past
        → All (HoldsStill past) held.new.items }
    ensures short { locks.is_short held.new.items ≡ true }
    ensures room { locks.HoldersHaveRoom held.old → locks.HoldersHaveRoom held.new }
{
    let mut kept = 0;
    for i in 0..held.len() {
        let holder = held[i];
        if let Some(at) = raised(&holder.at, source) {
            kept = place(held, kept, &holder.held_at(&at));
        }
    }
    held.truncate(kept);
}

/// Folds the first lock into the tuple where the root holds it. It takes no memory.
pub fn fold_first(held: &mut Vec<Holder>, base: &mut Tuple)
    ensures rest { held.new.items ≡ locks.unfolded held.old.items }
    ensures base { base.new ≡ locks.folded_into base.old held.old.items }
    ensures room { locks.HoldersHaveRoom held.old → locks.HoldersHaveRoom held.new }
{
    if held.is_empty() || !held[0].at.is_empty() {
        return;
    }
    *base = held[0].effect(base);
    held.remove(0);
}
