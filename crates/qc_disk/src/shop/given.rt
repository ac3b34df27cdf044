//! What a shop gave.
ghost use Rattle.std.specs.Prelude.{◌≡◌, ◌∷◌, ◌++◌, [], OnOk, OnErr, string_bytes};

use std::alloc::{AllocError, Global};

/// A disk that was given, by its place and number.
#[derive(Drop)]
struct GivenDisk {
    place: String,
    which: u8,
}

/// The disks that a shop gave, the first one first.
#[derive(Drop)]
pub(crate) struct Given {
    disks: Vec<GivenDisk>,
}

// A push of a value that is made in place gets no proof.
fn given_disk(place: String, which: u8) -> GivenDisk
    ensures place { string_bytes result.place ≡ string_bytes place }
    ensures which { result.which ≡ which }
{
    GivenDisk { place, which }
}

impl Given {
    ghost use Rattle.qc_disk.specs.Given.{given_list};

    /// None so far.
    pub(crate) fn new(alloc: Global) -> Self
        ensures { given_list result ≡ [] }
    {
        Given {
            disks: Vec::new(alloc),
        }
    }

    /// One more was given.
    pub(crate) fn add(&mut self, alloc: Global, place: &str, which: u8) -> Result<(), AllocError>
        ensures ok { OnOk result (given_list self.new
            ≡ given_list self.old ++ (place.now, which) ∷ []) }
        ensures err { OnErr result (given_list self.new ≡ given_list self.old) }
    {
        let place = place.to_string(alloc)?;
        self.disks.reserve(1)?;
        self.disks.push_reserved(given_disk(place, which));
        Ok(())
    }
}
