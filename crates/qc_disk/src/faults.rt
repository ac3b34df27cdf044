//! Which calls of a disk in memory fail.
ghost use Rattle.std.specs.Prelude.{◌≡◌};
ghost use Rattle.qc_disk.specs.Replay.{fault_at};

/// A call that fails, counted from 1, after doing its work or without.
#[derive(Clone, Copy, PartialEq, Eq, Debug)]
pub struct FailAt {
    pub call: u64,
    pub done: bool,
}

/// Whether a call is one of the listed, and whether it does its work. The first entry of a call counts.
pub(crate) fn fault_of(fails: &[FailAt], call: u64) -> Option<bool>
    ensures { result ≡ fault_at fails.now call }
{
    let mut rest = fails;
    while let [fail, after @ ..] = rest {
        if fail.call == call {
            return Some(fail.done);
        }
        rest = after;
    }
    None
}
