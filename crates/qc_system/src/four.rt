//! The sites of four copies.
ghost use Rattle.std.specs.Prelude.{is_some, length};
ghost use Rattle.qc_system.specs.Parts.{IsThere};

use crate::boxed::Boxed;
use crate::held::Held;
use crate::mounting::Mounting;
use qc_disk::Disk;
use std::sync::Mutex;

/// The sites of four copies, one behind another, each in a lock of its own. There is none for a copy that the store does
/// not have.
#[derive(Drop)]
pub(crate) struct Four<
    D: Disk + Drop,
    N: Mounting,
    const C0: u8,
    const C1: u8,
    const C2: u8,
    const C3: u8,
>
where
    Boxed<D>: Disk,
{
    pub(crate) s0: Option<Mutex<Held<D, N, C0>>>,
    pub(crate) s1: Option<Mutex<Held<D, N, C1>>>,
    pub(crate) s2: Option<Mutex<Held<D, N, C2>>>,
    pub(crate) s3: Option<Mutex<Held<D, N, C3>>>,
    ghost there0: { IsThere C0 (length N.base) (is_some s0) },
    ghost there1: { IsThere C1 (length N.base) (is_some s1) },
    ghost there2: { IsThere C2 (length N.base) (is_some s2) },
    ghost there3: { IsThere C3 (length N.base) (is_some s3) },
}
