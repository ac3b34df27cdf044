//! What complete managers do at the copies of a record, and the serial order that follows from it, as laws.
#![tactic(auto)]

mod complete;
mod folded;
mod last_values;
mod pairs;

ghost use Rattle.std.specs.Prelude.{ℕ, ◌≡◌, ◌∷◌, ◌++◌, All, List, [], length, None};
ghost use Rattle.qc_config.specs.Config.{Voting};
ghost use Rattle.qc_config.specs.Val.{Datum};
ghost use Rattle.qc_config.specs.declared.tuple.Tuple.{Tuple};
ghost use Rattle.qc_event.specs.Base.{Setting};
ghost use Rattle.qc_event.specs.Dead.{dead};
ghost use Rattle.qc_event.specs.History.{Past, Name, Given};
ghost use Rattle.qc_event.specs.Legal.{Legal};
ghost use Rattle.qc_event.specs.Sound.{Carries, IsSound};
ghost use Rattle.qc_serial.specs.Serial.{final_values, IsSerialFor, IsUserOf};
ghost use Rattle.qc_serial.specs.Visible.{Finds, served_order};
ghost use Rattle.qc_refine.specs.Completed.{after_all, CarriesMore, FindsThere, MoveDone, ReadDone, Within, WriteDone};
ghost use Rattle.qc_refine.specs.InTurn.{AnswerValues, Done, given_to, IsDone, KeepsSound, left_setting, values_after};
ghost use Rattle.qc_refine.specs.Turns.{dones_order};

pub use complete::committed_managers_are_complete;
pub use folded::folded_pairs_restore_alike;
pub use last_values::last_values_are_serial;
pub use pairs::restored_pairs_are_serial;

/// Where the copies carry a value of a record and a complete manager finds what is there, a read answers the
/// value and changes nothing, a write leaves copies that carry what it wrote, and a reconfiguration copies that
/// carry the value, with its configuration as the newest.
pub fn managers_keep_copies_sound()
    ensures read { (first : Voting) (tuples : List Tuple) (value answer : Datum) (given : List Given)
        → Carries first tuples value
        → Within (length tuples) given → FindsThere tuples given → ReadDone first answer given
        → answer ≡ value }
    ensures read_leaves { (first : Voting) (tuples : List Tuple) (answer : Datum) (given : List Given)
        → ReadDone first answer given
        → after_all tuples given ≡ tuples }
    ensures write { (first : Voting) (tuples : List Tuple) (value new : Datum) (given : List Given)
        → Carries first tuples value
        → Within (length tuples) given → FindsThere tuples given → WriteDone first new given
        → Carries first (after_all tuples given) new }
    ensures reconfigure { (first config : Voting) (tuples : List Tuple) (value : Datum) (answer : ℕ)
        (given : List Given) (was : Carries first tuples value)
        → Within (length tuples) given → FindsThere tuples given
        → MoveDone first config answer given
        → CarriesMore config (after_all tuples given) was }
{}

/// From sound start tuples on, where complete managers come one after another and each grant finds what the earlier
/// ones left: each read answers the value that was written last, and the tuples that are left are sound for the
/// values after all of them.
pub fn managers_in_turn_serve_values()
    ensures reads { (setting : Setting) (values : List Datum) (dones : List Done)
        → IsSound setting values → All (IsDone setting) dones
        → Finds setting.base (given_to dones) → AnswerValues values dones }
    ensures sound { (setting : Setting) (values : List Datum) (dones : List Done)
        → IsSound setting values → All (IsDone setting) dones
        → Finds setting.base (given_to dones) → IsSound (left_setting setting (given_to dones))
        (values_after values dones) }
{}

/// In a legal history over sound start tuples the serial machine accepts the serial order of every user transaction
/// without an aborted ancestor, from the values that the tuples carry on, and has exactly its own starts, ends and
/// answers there: each reading manager answers the value that was written last. What the root was given leaves
/// tuples that are sound for the final values.
pub fn copies_keep_serial_order()
    ensures serial { (setting : Setting) (values : List Datum) (past : Past) (t : Name)
        → Legal setting past
        → IsSound setting values → IsUserOf past t → dead past t ≡ None
        → IsSerialFor values past t }
    ensures managers { (setting : Setting) (values : List Datum) (past : Past) (t : Name)
        → Legal setting past → IsSound setting values
        → IsUserOf past t → dead past t ≡ None → (earlier later : List Done) (d : Done)
        → dones_order past t ≡ earlier ++ d ∷ later
        → KeepsSound setting values earlier d }
    ensures left { (setting : Setting) (values : List Datum) (past : Past) → Legal setting past
        → IsSound setting values → IsSound (left_setting setting (served_order past []))
        (final_values values past) }
{}
