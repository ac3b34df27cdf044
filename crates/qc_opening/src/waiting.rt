//! Pairs of disks that wait to be mounted.
ghost use Rattle.std.specs.Prelude.{ℕ, ◌≡◌, ◌≤◌, ◌<◌, ◌+◌, [], ◌∷◌, length};
ghost use Rattle.std.specs.Vec.{vec_capacity};

/// Pairs of disks that wait, each disk and its spare in a row of its own, the next one at the end. What is put back takes
/// no memory.
pub(crate) struct Waiting<D> {
    disks: Vec<D>,
    spares: Vec<D>,
    ghost as_many: { length spares.items ≡ length disks.items },
}

impl<D> Waiting<D> {
    ghost use Rattle.qc_opening.specs.Waiting.{waiting_in, HasRoom};
    ghost use Rattle.qc_system.specs.Pairs.{own_then_spares};

    /// These disks, of which the second half are the spares of the first, into a row for these.
    pub(crate) fn new(mut disks: Vec<D>, mut spares: Vec<D>) -> Self
        ghost pairs: { ℕ }
        requires none { spares.items ≡ [] }
        requires even { length disks.items ≡ pairs + pairs }
        requires room { pairs ≤ vec_capacity spares }
        ensures disks { own_then_spares (waiting_in result) ≡ disks.items }
        ensures all { length (waiting_in result) ≡ pairs }
        ensures room { HasRoom pairs result }
    {
        while spares.len() < disks.len() {
            spares.push_reserved(disks.take_last());
        }
        disks.as_mut_slice().reverse();
        Waiting { disks, spares }
    }

    /// Takes the next one, the disk and its spare.
    pub(crate) fn take(&mut self) -> (D, D)
        requires { 0 < length (waiting_in self.old) }
        ensures pairs { waiting_in self.old ≡ result ∷ waiting_in self.new }
        ensures room { (pairs : ℕ) → HasRoom pairs self.old → HasRoom pairs self.new }
    {
        (self.disks.take_last(), self.spares.take_last())
    }

    /// Puts one back before the next one.
    pub(crate) fn put_back(&mut self, disk: D, spare: D)
        requires { HasRoom (length (waiting_in self.old) + 1) self.old }
        ensures pairs { waiting_in self.new ≡ (disk, spare) ∷ waiting_in self.old }
        ensures room { (pairs : ℕ) → HasRoom pairs self.old → HasRoom pairs self.new }
    {
        self.disks.push_reserved(disk);
        self.spares.push_reserved(spare);
    }

    /// The disks in their order, and then their spares.
    pub(crate) fn into_disks(self) -> Vec<D>
        requires { HasRoom (length (waiting_in self)) self }
        ensures { result.items ≡ own_then_spares (waiting_in self) }
    {
        let Waiting {
            mut disks,
            mut spares,
        } = self;
        disks.as_mut_slice().reverse();
        while let Some(spare) = spares.pop() {
            disks.push_reserved(spare);
        }
        spares.destroy_empty();
        disks
    }

    /// Ends it, where none waits.
    pub(crate) fn finish(self)
        requires { waiting_in self ≡ [] }
    {
        let Waiting { disks, spares } = self;
        disks.destroy_empty();
        spares.destroy_empty();
    }
}
