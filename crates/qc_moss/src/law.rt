//! What lock tables have to do with histories, as a law.
ghost use Rattle.std.specs.Prelude.{ℕ, ◌≡◌, ◌<◌, not, List, [], ◌∷◌, ◌++◌, length, filter, find, None};
ghost use Rattle.std.specs.Option.{option_map};
ghost use Rattle.qc_config.specs.declared.tuple.Op.{Op};
ghost use Rattle.qc_config.specs.declared.tuple.Tuple.{Tuple};
ghost use Rattle.qc_event.specs.Clear.{is_get};
ghost use Rattle.qc_event.specs.History.{Past, Name};
ghost use Rattle.qc_event.specs.Seen.{is_in_way, is_live_at, changed_by};
ghost use Rattle.qc_event.specs.declared.event.Entry.{Entry};
ghost use Rattle.qc_event.specs.declared.event.Grant.{Grant};
ghost use Rattle.qc_event.specs.Dead.{dead};
ghost use Rattle.qc_moss.specs.Follows.{TableFollows, IsSettled};
ghost use Rattle.qc_moss.specs.Locks.{Table, unheld, test_of, test_by, start_of, tuple_of, granted_to};

/// A lock table that follows a history, and in which nothing of a record is left to settle, answers for this
/// record what the definitions on histories say of the grants: who is the first in an access's way, and what
/// the copy holds. The history need not be a legal one, but the root is not aborted in it: what the root held was
/// folded into the copy's tuples, and stays. The empty table follows every history, and a table goes on to follow
/// where the history grows and where an access is granted; when a record is settled is left open (Moss).
pub fn locks_follow_histories()
    ensures free { (past : Past) (given : List Grant) (table : Table) (access : Name)
        (rec : ℕ) (op : Op)
        → TableFollows past given table → IsSettled past table rec → dead past [] ≡ None
        → test_of table access rec (not (is_get op))
        ≡ test_by (option_map (λ (g : Grant). g.access)
        (find (is_in_way past rec op access) given)) }
    ensures tuple { (past : Past) (given : List Grant) (table : Table) (rec : ℕ)
        → TableFollows past given table
        → IsSettled past table rec → dead past [] ≡ None
        → tuple_of table rec ≡ changed_by (start_of table rec)
        (filter (is_live_at past rec) given) }
    ensures starts { (past : Past) (start : List Tuple) → TableFollows past [] (unheld start) }
    ensures grows { (past : Past) (e : Entry) (given : List Grant) (table : Table)
        → TableFollows past given table
        → TableFollows (e ∷ past) given table }
    ensures granted { (past : Past) (given : List Grant) (table : Table) (g : Grant)
        → g.rec < length table.held → TableFollows past given table
        → TableFollows past (given ++ g ∷ []) (granted_to table g.access g.rec g.op) }
{}
