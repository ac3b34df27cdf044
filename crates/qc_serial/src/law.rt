//! What the rules of a legal history give of its serial orders, as laws over all histories.
ghost use Rattle.std.specs.Prelude.{ℕ, ◌≡◌, ◌<◌, ◌==◌, ◌&&◌, List, ◌++◌, length, None, true, Contains, filter};
ghost use Rattle.qc_config.specs.Val.{Datum};
ghost use Rattle.qc_event.specs.Dead.{dead, is_committed, outcome};
ghost use Rattle.qc_event.specs.declared.event.Grant.{Grant};
ghost use Rattle.qc_event.specs.History.{Past, Name, Given, grants};
ghost use Rattle.qc_event.specs.Base.{Setting, start_tuple};
ghost use Rattle.qc_event.specs.Legal.{Legal};
ghost use Rattle.qc_event.specs.Seen.{changed_by};
ghost use Rattle.qc_serial.specs.Machine.{begin, first_refused};
ghost use Rattle.qc_serial.specs.Shape.{Reads, first_unfound};
ghost use Rattle.qc_serial.specs.Serial.{IsSerialFor, IsUserOf};
ghost use Rattle.qc_serial.specs.Visible.{served_order, left_at, Finds, is_visible, IsVisible, KeepsTurns};
ghost use Rattle.qc_serial.specs.Walk.{serialise, walk};

/// In a legal history the serial machine accepts the serial order of every user
/// transaction without an aborted ancestor, and has exactly its own starts, ends and answers there, where
/// each read in that order finds the value that was written last. How sessions interleave is left open
/// (Lynch and Merritt's serial scheduler).
pub fn serial_where_reads_agree()
    ensures { (setting : Setting) (values : List Datum) (past : Past) (t : Name) → Legal setting past
        → IsUserOf past t
        → dead past t ≡ None → Reads values (serialise past t) → IsSerialFor values past t }
{}

/// In a legal history the serial machine refuses the serial order of such a transaction, where it does, first at a read
/// that does not find its value, or at a write of no record: how names stand is never in the way.
pub fn refused_for_values_alone()
    ensures { (setting : Setting) (values : List Datum) (past : Past) (t : Name) → Legal setting past
        → IsUserOf past t
        → dead past t ≡ None
        → first_refused (begin values) (serialise past t)
        ≡ first_unfound values (serialise past t) }
{}

/// The walk of a transaction is taken at its commit. What its children did is settled then: in a legal history
/// that is its walk through all that the history has.
pub fn walks_are_settled()
    ensures { (setting : Setting) (later past : Past) (c : Name) → Legal setting (later ++ past)
        → 0 < length c
        → is_committed (outcome past c) ≡ true → walk (later ++ past) c ≡ walk past c }
{}

/// In a legal history each user transaction without an aborted ancestor is served, in the order that
/// completion gives, exactly the grants that it sees. Each of them finds at its copy and record what the
/// earlier ones leave, and those of one manager stand in the order in which they were given. What they leave
/// at a copy is what the grants that the transaction sees leave there in the order of the history (Moss's
/// nested locks).
pub fn locks_serve_in_order()
    ensures finds { (setting : Setting) (past : Past) (t : Name) → Legal setting past
        → IsUserOf past t
        → dead past t ≡ None → Finds setting.base (served_order past t) }
    ensures visible { (setting : Setting) (past : Past) (t : Name) → Legal setting past
        → IsUserOf past t
        → dead past t ≡ None → (g : Given) → Contains (served_order past t) g → IsVisible past g t }
    ensures all { (setting : Setting) (past : Past) (t : Name) → Legal setting past
        → IsUserOf past t
        → dead past t ≡ None → (g : Given) → IsVisible past g t → Contains (served_order past t) g }
    ensures in_order { (setting : Setting) (past : Past) (t : Name) → Legal setting past
        → IsUserOf past t
        → dead past t ≡ None → KeepsTurns past (served_order past t) }
    ensures leaves { (setting : Setting) (past : Past) (t : Name) → Legal setting past
        → IsUserOf past t
        → dead past t ≡ None → (copy rec : ℕ) → left_at setting.base (served_order past t) copy rec
        ≡ changed_by (start_tuple setting.base copy rec)
        (filter (λ (g : Grant). (g.rec == rec) && is_visible past g.access t) (grants past copy)) }
{}
