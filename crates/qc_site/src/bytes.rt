//! That bodies in memory are of bytes.
ghost use Rattle.std.specs.Prelude.{ℕ, ◌<◌, All};
ghost use Rattle.qc_journal.specs.Image.{bodies_of};
ghost use Rattle.qc_site.specs.Image.{AreBytes};

use qc_journal::Body;

// Each number of a slice of bytes is one.
fn is_of_bytes(bytes: &[u8])
    ensures { All (λ byte. byte < 256) bytes.now }
{
    let _length = bytes.len();
}

/// What a mounting asks of the records of each disk in `kept_pairs_stand`: that each number of these bodies is a byte. It
/// does nothing else, in as many steps as there are bodies.
pub fn are_bytes(bodies: &[Body])
    ensures { AreBytes (bodies_of bodies.now) }
{
    for body in bodies {
        is_of_bytes(body.as_slice());
    }
}
