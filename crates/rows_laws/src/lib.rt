//! Laws that tell by example what it is to follow a script: trails that do, and trails that only seem to.
#![tactic(auto)]

ghost use Rattle.std.specs.Prelude.{◌≡◌, true, false, [], ◌∷◌, ◌++◌, IsTrue, map, reverse};
ghost use Rattle.std.specs.List.{list_all};
ghost use Rattle.qc_event.specs.declared.event.Event.TheVariants as event;
ghost use Rattle.qc_event.specs.History.{children};
ghost use Rattle.qc_interp.specs.Asking.{Asks, BodiesAsk};
ghost use Rattle.qc_interp.specs.Deeds.{deeds};
ghost use Rattle.qc_interp.specs.Follows.{FollowsBody};
ghost use Rattle.qc_interp.specs.FollowsScript.{EachRuns, is_in_session, started};
ghost use Rattle.qc_interp.specs.Reach.{Reach};
ghost use Rattle.qc_interp.specs.Session.{FollowsBodies, RunsBodies};
ghost use Rattle.qc_interp.specs.Sessions.{RunsInTurn, tops_of, meets, is_settled};
ghost use Rattle.qc_script.specs.Numbers.{each, is_next_top};
ghost use Rattle.rows_laws.specs.Branches as branches;
ghost use Rattle.rows_laws.specs.BranchSeats as seats;
ghost use Rattle.rows_laws.specs.Crashes as crashes;
ghost use Rattle.rows_laws.specs.Marks as marks;
ghost use Rattle.rows_laws.specs.Musts as musts;
ghost use Rattle.rows_laws.specs.Scripts.{Begins, PastFollows, session_of};
ghost use Rattle.rows_laws.specs.Trails as trails;
ghost use Rattle.rows_laws.specs.TwoSessions as two;
ghost use Rattle.rows_laws.specs.Values as values;

/// The first run follows its script, in turn, with its numbers and its messages; a try after a lost request, another
/// configuration, an abort from two levels below, a copy that is down, and a ready top that the ledger was unable to log
/// follow theirs.
pub fn accepts()
    ensures first_run { FollowsBodies 0 (reverse trails.first_run) trails.set_then_read
        (trails.top ∷ []) }
    ensures first_turns { RunsInTurn 0 (reverse trails.first_run) }
    ensures first_numbers { IsTrue (each (is_next_top 1) (reverse trails.first_run)) }
    ensures first_messages { IsTrue (meets 0 trails.net (reverse trails.first_run)) }
    ensures first_settled { IsTrue (list_all (is_settled (reverse trails.first_run))
        (started (reverse trails.first_run))) }
    ensures tried_again { FollowsBodies 0 (reverse trails.tried_again) trails.read_twice
        (trails.top ∷ trails.top2 ∷ []) }
    ensures tried_turns { RunsInTurn 0 (reverse trails.tried_again) }
    ensures tried_messages { IsTrue (meets 0 trails.first_lost (reverse trails.tried_again)) }
    ensures reconfigured { FollowsBodies 0 (reverse trails.reconfigured) trails.reconfigure
        (trails.top ∷ []) }
    ensures reconfigured_turns { RunsInTurn 0 (reverse trails.reconfigured) }
    ensures copy_down { FollowsBodies 0 (reverse trails.copy_down) trails.read_alone
        (trails.top ∷ []) }
    ensures down_turns { RunsInTurn 0 (reverse trails.copy_down) }
    ensures down_settled { IsTrue (list_all (is_settled (reverse trails.copy_down))
        (started (reverse trails.copy_down))) }
    ensures not_logged { FollowsBodies 0 (reverse trails.not_logged) trails.set_then_read
        (trails.top ∷ []) }
    ensures not_logged_turns { RunsInTurn 0 (reverse trails.not_logged) }
    ensures not_logged_settled { IsTrue (list_all (is_settled (reverse trails.not_logged))
        (started (reverse trails.not_logged))) }
    ensures far_abort { FollowsBody 0 (reverse trails.far_abort) (trails.abort_body 2) trails.top }
    ensures far_turns { RunsInTurn 0 (reverse trails.far_abort) }
    ensures far_named { Asks (reverse trails.far_abort) trails.top (trails.abort_body 2).plan
        (deeds (reverse trails.far_abort) trails.top) trails.grandchild trails.top }
{}

/// None of these follows its script: a read before the set that stands before it, or beside it; steps that no one runs;
/// a top before the one before it has ended; a request that is lost as no fate says, or is not lost as one says; a top
/// that stays ready, though no one was unable to log it; another number and a mark; and a session under two seats.
pub fn refuses()
    ensures read_before_set { PastFollows trails.net trails.set_then_read
        (reverse trails.read_before_set) → ⊥ }
    ensures own_conflict { PastFollows trails.net trails.set_then_read
        (reverse trails.own_conflict) → ⊥ }
    ensures dropped_steps { PastFollows trails.net trails.child_and_abort
        (reverse trails.dropped_steps) → ⊥ }
    ensures late_commit { PastFollows trails.net trails.set_and_read
        (reverse trails.late_commit) → ⊥ }
    ensures lost_elsewhere { PastFollows trails.net trails.read_alone
        (reverse trails.lost_elsewhere) → ⊥ }
    ensures elsewhere_lossy { PastFollows trails.lossy trails.set_then_read
        (reverse (map trails.moved trails.first_run)) → ⊥ }
    ensures stays_ready { PastFollows trails.net trails.set_then_read
        (reverse (trails.first_cut trails.top_ready)) → ⊥ }
    ensures marked_elsewhere { PastFollows trails.net trails.no_step
        (reverse trails.marked_elsewhere) → ⊥ }
    ensures two_seats { PastFollows trails.net trails.two_steps (reverse trails.two_seats)
        → ⊥ }
{}

/// A grandchild that is to abort its parent does not name the top, so a trail in which it aborts both follows no script
/// of that body.
pub fn names_no_other()
    ensures parent_named { Asks (reverse trails.aborts_two) trails.top (trails.abort_body 1).plan
        (deeds (reverse trails.aborts_two) trails.top) trails.grandchild trails.first_child }
    ensures top_not_named { PastFollows trails.net (trails.abort_body 1 ∷ [])
        (reverse trails.aborts_two) → ⊥ }
{}

/// The first run, cut off within a manager, between two steps, or as its top is ready, is a beginning of what follows its
/// script.
pub fn begins()
    ensures in_manager { RunsBodies Reach.cut_off 0 (reverse (trails.first_cut trails.read_asked))
        trails.set_then_read
        (trails.top ∷ []) }
    ensures in_manager_turns { RunsInTurn 0
        (reverse (trails.first_cut trails.read_asked)) }
    ensures between_steps { RunsBodies Reach.cut_off 0 (reverse (trails.first_cut trails.set_ended))
        trails.set_then_read
        (trails.top ∷ []) }
    ensures between_turns { RunsInTurn 0 (reverse (trails.first_cut trails.set_ended)) }
    ensures ready { RunsBodies Reach.cut_off 0 (reverse (trails.first_cut trails.top_ready))
        trails.set_then_read
        (trails.top ∷ []) }
    ensures not_begun { RunsBodies Reach.cut_off 0 [] trails.set_then_read [] }
{}

/// None of these is a beginning of what follows its script: a top that is ready before its last step, a read whose set
/// is left out, and a read before the set has ended that stands before it. Nor does a run follow its script that was cut
/// off.
pub fn begins_otherwise()
    ensures ready_too_soon { Begins trails.net trails.set_then_read
        (reverse trails.ready_too_soon) → ⊥ }
    ensures set_skipped { Begins trails.net trails.set_then_read
        (reverse trails.set_skipped) → ⊥ }
    ensures read_before_set { Begins trails.net trails.set_then_read
        (reverse trails.both_started) → ⊥ }
    ensures cut_off { PastFollows trails.net trails.set_then_read
        (reverse (trails.first_cut trails.read_asked)) → ⊥ }
{}

/// A step `add` or `sub` follows its script where what was read is written changed, also past either end of the numbers,
/// and a step `need` where the top goes on with as much as is needed and aborts itself with less. Where any of them reads a
/// text, the top aborts itself, also where no more than 0 is added or needed.
pub fn goes_by_values()
    ensures added { FollowsBodies 0 (reverse (values.changed 4 7)) (values.add 3) (trails.top ∷ []) }
    ensures added_past { FollowsBodies 0 (reverse (values.changed values.last_value 0))
        (values.add 1)
        (trails.top ∷ []) }
    ensures taken { FollowsBodies 0 (reverse (values.changed 7 4)) (values.sub 3) (trails.top ∷ []) }
    ensures taken_past { FollowsBodies 0 (reverse (values.changed 0 values.last_value))
        (values.sub 1)
        (trails.top ∷ []) }
    ensures enough { FollowsBodies 0 (reverse (values.enough 30)) (values.need 30)
        (trails.top ∷ []) }
    ensures too_little { FollowsBodies 0 (reverse (values.too_little 29)) (values.need 30)
        (trails.top ∷ []) }
    ensures text_added { FollowsBodies 0 (reverse (values.text_then values.aborts)) (values.add 0)
        (trails.top ∷ []) }
    ensures text_taken { FollowsBodies 0 (reverse (values.text_then values.aborts)) (values.sub 3)
        (trails.top ∷ []) }
    ensures text_needed { FollowsBodies 0 (reverse (values.text_then values.aborts)) (values.need 0)
        (trails.top ∷ []) }
{}

/// None of these follows its script: an `add` that writes what it read, stops at the last number, or writes nothing; a
/// `sub` that stops at 0; a `need` that fails with as much as is needed, or holds with less; and an `add` that takes a
/// text for a number, or leaves it as it is, and a `need` that holds with a text.
pub fn goes_by_no_other_value()
    ensures nothing_added { PastFollows trails.net (values.add 3)
        (reverse (values.changed 4 4)) → ⊥ }
    ensures stops_at_the_last { PastFollows trails.net (values.add 1)
        (reverse (values.changed values.last_value values.last_value)) → ⊥ }
    ensures not_written { PastFollows trails.net (values.add 3) (reverse (values.enough 4))
        → ⊥ }
    ensures stops_at_0 { PastFollows trails.net (values.sub 1) (reverse (values.changed 0 0))
        → ⊥ }
    ensures fails_with_enough { PastFollows trails.net (values.need 30)
        (reverse (values.too_little 30)) → ⊥ }
    ensures holds_with_less { PastFollows trails.net (values.need 30)
        (reverse (values.enough 29)) → ⊥ }
    ensures text_added { PastFollows trails.net (values.add 3)
        (reverse (values.text_then (values.writes 33))) → ⊥ }
    ensures text_left { PastFollows trails.net (values.add 0)
        (reverse (values.text_then values.commits)) → ⊥ }
    ensures text_enough { PastFollows trails.net (values.need 0)
        (reverse (values.text_then values.commits)) → ⊥ }
{}

/// A top follows its script that is aborted for a child that must commit and did not, and is then begun again where tries
/// are left; one that goes on behind a child that need not; and one whose child ends as an orphan, though the child's own
/// child must commit.
pub fn goes_by_children()
    ensures aborted { FollowsBodies 0 (reverse musts.aborted) (musts.child true) (trails.top ∷ []) }
    ensures aborted_turns { RunsInTurn 0 (reverse musts.aborted) }
    ensures aborted_twice { FollowsBodies 0 (reverse musts.aborted_twice) musts.child_twice
        (trails.top ∷ trails.top2 ∷ []) }
    ensures went_on { FollowsBodies 0 (reverse musts.went_on) (musts.child false)
        (trails.top ∷ []) }
    ensures went_on_turns { RunsInTurn 0 (reverse musts.went_on) }
    ensures orphan { FollowsBody 0 (reverse trails.far_abort) musts.far_body trails.top }
{}

/// None of these follows its script: a top that goes on behind a child that must commit and did not; one that is aborted
/// for a child that need not; and a transaction that is aborted for an orphan, and no orphan.
pub fn goes_by_no_other_child()
    ensures goes_on { PastFollows trails.net (musts.child true) (reverse musts.went_on) → ⊥ }
    ensures aborted { PastFollows trails.net (musts.child false) (reverse musts.aborted) → ⊥ }
    ensures no_orphan { PastFollows trails.net (musts.far_body ∷ []) (reverse musts.no_orphan)
        → ⊥ }
{}

/// A step at which a copy crashes asks for nothing and ends nothing. So a trail follows its script with such steps as it
/// does without: around a set and a read, in a child and behind it, and in a child that is aborted already.
pub fn passes_over_crashes()
    ensures around { FollowsBodies 0 (reverse trails.first_run) crashes.around (trails.top ∷ []) }
    ensures in_child { FollowsBodies 0 (reverse musts.went_on) crashes.in_child (trails.top ∷ []) }
    ensures in_aborted { FollowsBodies 0 (reverse crashes.aborts_parent) crashes.in_aborted
        (trails.top ∷ []) }
    ensures in_aborted_turns { RunsInTurn 0 (reverse crashes.aborts_parent) }
{}

/// None of these follows its script: a top that commits where a copy crashes, before the set that stands behind, and one
/// that reads and leaves out the set.
pub fn stops_at_no_crash()
    ensures nothing_done { PastFollows trails.net crashes.around
        (reverse crashes.nothing_done) → ⊥ }
    ensures set_left_out { PastFollows trails.net crashes.around (reverse (values.enough 0))
        → ⊥ }
{}

/// A step `kill` follows its script where its transaction marks the session: its own, for which it is killed before it
/// does more, or another, and then it goes on. A transaction is killed before any step, whoever marked its session, and
/// what is marked by one that is aborted already counts for nothing.
pub fn goes_by_marks()
    ensures itself { FollowsBodies 0 (reverse (marks.marks_then 0 marks.is_killed))
        (marks.kill_then_read 0)
        (trails.top ∷ []) }
    ensures itself_turns { RunsInTurn 0 (reverse (marks.marks_then 0 marks.is_killed)) }
    ensures itself_at_last { FollowsBodies 0 (reverse (marks.marks_then 0 marks.is_killed))
        (marks.kill_alone 0)
        (trails.top ∷ []) }
    ensures another { FollowsBodies 0 (reverse (marks.marks_then 1 marks.reads_on))
        (marks.kill_then_read 1)
        (trails.top ∷ []) }
    ensures another_turns { RunsInTurn 0 (reverse (marks.marks_then 1 marks.reads_on)) }
    ensures killed { FollowsBodies 0 (reverse (trails.user trails.client trails.top
        ∷ marks.is_killed))
        trails.read_alone
        (trails.top ∷ []) }
    ensures late { FollowsBodies 0 (reverse marks.marks_late) marks.kills_in_aborted
        (trails.top ∷ []) }
    ensures late_turns { RunsInTurn 0 (reverse marks.marks_late) }
{}

/// None of these follows its script: a mark that no step asks for; a step's mark that is left out, made twice, of another
/// session, by another transaction, or under another seat; a top that goes on, or commits, though it marked its own
/// session; and one that is aborted by a step `abort` of a transaction that was killed before it.
pub fn goes_by_no_other_mark()
    ensures of_no_step { PastFollows trails.net trails.no_step (reverse trails.marked) → ⊥ }
    ensures left_out { PastFollows trails.net (marks.kill_then_read 1)
        (reverse (trails.user trails.client trails.top ∷ marks.reads_on)) → ⊥ }
    ensures left_out_at_last { PastFollows trails.net (marks.kill_alone 1)
        (reverse crashes.nothing_done) → ⊥ }
    ensures twice { PastFollows trails.net (marks.kill_then_read 1) (reverse (marks.marks_then 1
        (trails.by trails.client (event.Mark trails.top 1) ∷ marks.reads_on))) → ⊥ }
    ensures another_session { PastFollows trails.net (marks.kill_then_read 1)
        (reverse (marks.marks_then 2 marks.reads_on)) → ⊥ }
    ensures by_another { PastFollows trails.net marks.child_kills
        (reverse marks.parent_marks) → ⊥ }
    ensures another_seat { PastFollows trails.net (marks.kill_alone 1)
        (reverse marks.marks_elsewhere) → ⊥ }
    ensures goes_on { PastFollows trails.net (marks.kill_then_read 0)
        (reverse (marks.marks_then 0 marks.reads_on)) → ⊥ }
    ensures commits { PastFollows trails.net (marks.kill_alone 0)
        (reverse (marks.marks_then 0 values.commits)) → ⊥ }
    ensures killed_asks { PastFollows trails.net (trails.abort_body 2 ∷ [])
        (reverse marks.killed_asks) → ⊥ }
{}

/// A top follows its body whose branches run at once: both begin in order, one is tried again between the other's steps,
/// and the top goes on behind both; where one that must commit failed at last, the top is aborted for its last try, and
/// else goes on; where one aborts the top meanwhile, the other is not tried again; and one that was begun does nothing
/// where the top is killed before the other begins.
pub fn goes_by_branches()
    ensures tried_again { FollowsBodies 0 (reverse branches.tried_again) (branches.two_read true)
        (trails.top ∷ []) }
    ensures aborted { FollowsBodies 0 (reverse branches.aborted) (branches.two_read true)
        (trails.top ∷ []) }
    ensures went_on { FollowsBodies 0 (reverse branches.went_on) (branches.two_read false)
        (trails.top ∷ []) }
    ensures stopped { FollowsBodies 0 (reverse branches.stopped) branches.one_aborts
        (trails.top ∷ []) }
    ensures turned_back { FollowsBodies 0 (reverse (branches.turned_back []))
        (branches.two_read true)
        (trails.top ∷ []) }
    ensures stopped_named { BodiesAsk (reverse branches.stopped) branches.one_aborts
        (trails.top ∷ []) trails.second_child trails.top }
{}

/// None of these follows its body: a top that goes on though a branch was left out, or one that must commit failed; one
/// with a branch that is tried again before the other has begun, or though it committed; one with a branch that begins
/// only once the other has started its read, or has ended; and one with a branch that reads though the other was not
/// begun.
pub fn goes_by_no_other_branch()
    ensures left_out { FollowsBodies 0 (reverse branches.one_left_out) (branches.two_read false)
        (trails.top ∷ []) → ⊥ }
    ensures goes_on { FollowsBodies 0 (reverse branches.went_on) (branches.two_read true)
        (trails.top ∷ []) → ⊥ }
    ensures too_early { FollowsBodies 0 (reverse branches.tried_too_early)
        (branches.two_read false) (trails.top ∷ []) → ⊥ }
    ensures too_often { FollowsBodies 0 (reverse branches.tried_too_often)
        (branches.two_read false) (trails.top ∷ []) → ⊥ }
    ensures begins_late { FollowsBodies 0 (reverse seats.begins_late) seats.both
        (trails.top ∷ []) → ⊥ }
    ensures begins_at_last { FollowsBodies 0 (reverse (seats.in_a_row trails.third_client))
        seats.both
        (trails.top ∷ []) → ⊥ }
    ensures ran_alone { FollowsBodies 0
        (reverse (branches.turned_back branches.read_meanwhile))
        (branches.two_read true) (trails.top ∷ []) → ⊥ }
{}

/// Two sessions whose tops run between each other's entries, each under its seat, follow their script: each runs its own
/// bodies in turn, and tops are numbered in order, whatever their sessions.
pub fn runs_together()
    ensures only { IsTrue (list_all (is_in_session 2 (reverse two.interleaved))
        (children (reverse two.interleaved) [])) }
    ensures each_runs { EachRuns Reach.to_the_end 0 trails.net.patience two.reader_and_idler
        (reverse two.interleaved) }
    ensures numbers { IsTrue (each (is_next_top 1) (reverse two.interleaved)) }
    ensures settled { IsTrue (list_all (is_settled (reverse two.interleaved))
        (started (reverse two.interleaved))) }
{}

/// None of these follows its script: two sessions where the script has one, or has the bodies of each for the other, or
/// has a third; one session that runs its next top before the one before it is over; and a top that another session's
/// aborts.
pub fn runs_not_together()
    ensures not_in_script { PastFollows trails.net trails.read_alone (reverse two.interleaved) → ⊥ }
    ensures swapped { two.FollowsBoth (session_of trails.net trails.no_step
        ∷ session_of trails.net trails.read_alone ∷ [])
        (reverse two.interleaved) → ⊥ }
    ensures third { two.FollowsBoth (two.reader_and_idler
        ++ session_of trails.net trails.no_step ∷ [])
        (reverse two.interleaved) → ⊥ }
    ensures of_one_session { PastFollows trails.net (trails.read_alone ++ trails.no_step)
        (reverse two.of_one_session) → ⊥ }
    ensures aborts_the_other { two.FollowsBoth two.reader_and_idler
        (reverse two.aborts_the_other) → ⊥ }
{}

/// Branches begin, and then run at once or one after the other, each under a seat of its own, and each is tried again
/// under its seat; those of the next step begin once those of the first are done. So the session runs in turn, and
/// follows its bodies.
pub fn runs_branches()
    ensures at_once { RunsInTurn 0 (reverse (seats.at_once trails.third_client)) }
    ensures at_once_followed { FollowsBodies 0 (reverse (seats.at_once trails.third_client))
        seats.both
        (trails.top ∷ []) }
    ensures in_turn { RunsInTurn 0 (reverse (seats.in_turn trails.third_client)) }
    ensures in_turn_followed { FollowsBodies 0 (reverse (seats.in_turn trails.third_client))
        seats.both
        (trails.top ∷ []) }
    ensures steps { RunsInTurn 0 (reverse (seats.in_a_row trails.third_client)) }
    ensures steps_followed { FollowsBodies 0 (reverse (seats.in_a_row trails.third_client))
        seats.two_rows
        (trails.top ∷ []) }
    ensures tried_again { RunsInTurn 0 (reverse (seats.tried_under trails.other_client)) }
    ensures tried_again_followed { FollowsBodies 0 (reverse (seats.tried_under trails.other_client))
        seats.one_twice
        (trails.top ∷ []) }
{}

/// In none of these does a session run in turn: two children at once under one seat, or under the parent's; one that is
/// tried again before its first try has ended; and a parent that marks, or starts a manager, as a branch runs.
pub fn runs_no_branches()
    ensures one_seat_at_once { RunsInTurn 0 (reverse (seats.at_once trails.other_client)) → ⊥ }
    ensures parents_seat { RunsInTurn 0 (reverse (seats.at_once trails.client)) → ⊥ }
    ensures tried_at_once { RunsInTurn 0 (reverse seats.tried_at_once) → ⊥ }
    ensures parent_marks { RunsInTurn 0 (reverse seats.parent_marks) → ⊥ }
    ensures parent_reads { RunsInTurn 0 (reverse seats.parent_reads) → ⊥ }
{}

/// None of these follows its body: children under seats of their own that are no branches, at once or one after the
/// other; a manager under another seat than its transaction's; two branches under one seat, one after the other; a
/// branch under its parent's seat, or that is tried again under another; and branches of two steps at once.
pub fn keeps_no_seats()
    ensures no_branches { FollowsBodies 0 (reverse (seats.at_once trails.third_client))
        seats.one_by_one
        (trails.top ∷ []) → ⊥ }
    ensures no_branches_in_a_row { FollowsBodies 0 (reverse (seats.in_a_row trails.third_client))
        seats.one_by_one
        (trails.top ∷ []) → ⊥ }
    ensures reads_elsewhere { FollowsBodies 0 (reverse seats.reads_elsewhere) trails.read_alone
        (trails.top ∷ []) → ⊥ }
    ensures one_seat { FollowsBodies 0 (reverse (seats.in_turn trails.other_client)) seats.both
        (trails.top ∷ []) → ⊥ }
    ensures parents_seat { FollowsBodies 0 (reverse (seats.in_turn trails.client)) seats.both
        (trails.top ∷ []) → ⊥ }
    ensures tried_elsewhere { FollowsBodies 0 (reverse (seats.tried_under trails.third_client))
        seats.one_twice
        (trails.top ∷ []) → ⊥ }
    ensures steps_at_once { FollowsBodies 0 (reverse (seats.at_once trails.third_client))
        seats.two_rows
        (trails.top ∷ []) → ⊥ }
{}
