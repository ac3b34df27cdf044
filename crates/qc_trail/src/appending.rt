//! Lists that grow.
ghost use Rattle.std.specs.Prelude.{◌≡◌, ◌<◌, length, IfOk, Some, slice_get};
ghost use Rattle.qc_trail.specs.Told.{GoesOn};

use std::alloc::AllocError;

/// Adds an item, and tells its place.
pub(crate) fn append<T: Drop>(items: &mut Vec<T>, item: T) -> Result<u32, AllocError>
    ensures grows { GoesOn items.old.items items.new.items }
    ensures within { IfOk result (λ at. at < length items.new.items) }
    ensures there { IfOk result (λ at. slice_get items.new.items at ≡ Some item) }
{
    let Ok(at) = u32::try_from(items.len()) else {
        return Err(AllocError);
    };
    items.push(item)?;
    Ok(at)
}
