//! What a manager that committed was given, as a law over all legal histories.
ghost use Rattle.std.specs.Prelude.{◌≡◌, length, Some};
ghost use Rattle.qc_event.specs.declared.event.Answer.{Answer};
ghost use Rattle.qc_event.specs.declared.event.How.TheVariants.{Commit};
ghost use Rattle.qc_event.specs.Base.{Setting};
ghost use Rattle.qc_event.specs.History.{Begun, end, Name, Past, start};
ghost use Rattle.qc_event.specs.Legal.{Legal};
ghost use Rattle.qc_event.specs.Manager.{first_for};
ghost use Rattle.qc_event.specs.Standing.{IsManager};
ghost use Rattle.qc_refine.specs.Complete.{AllWithin, HasDone};
ghost use Rattle.qc_serial.specs.Visible.{served};

/// In a legal history a manager that committed was given, one after another, the reads of a read quorum, and then
/// what its kind writes, at write quorums. All of it is of its record, and where the record's first configuration
/// is for as many copies as there are, from these copies.
pub fn committed_managers_are_complete()
    ensures done { (setting : Setting) (past : Past) (m : Name) (b : Begun) (given : Answer)
        → Legal setting past → start past m ≡ Some b
        → IsManager b.kind → end past m ≡ Some (Commit given)
        → HasDone setting past m given b.kind }
    ensures within { (setting : Setting) (past : Past) (m : Name) (b : Begun) → Legal setting past
        → start past m ≡ Some b
        → IsManager b.kind → length (first_for setting b.kind).votes ≡ length setting.base
        → AllWithin setting b.kind (served past m) }
{}
