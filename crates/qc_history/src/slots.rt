//! Lists of numbers, which are read as 0 where nothing was put. They take memory as far as something was put.
ghost use Rattle.std.specs.Prelude.{◌≡◌, ℕ, ◌<◌, OnOk, length, slice_index, slice_set};
ghost use Rattle.qc_history.specs.Index.{IsOf};
ghost use Rattle.qc_history.specs.Standing.{OfEach};
ghost use Rattle.qc_history.specs.Slots.{Reaches};

use crate::index::Index;
use qc_event::Name;
use std::alloc::AllocError;

/// Lets a list reach as far as a place. What stands at the places stays, after an error too.
pub(crate) fn reach(items: &mut Vec<u32>, at: u32) -> Result<(), AllocError>
    ensures same { (i : ℕ) → slice_index items.new.items i ≡ slice_index items.old.items i }
    ensures reached { OnOk result (at < length items.new.items) }
{
    let wide = at as usize + 1;
    if items.len() < wide {
        items.resize(wide, 0)?;
    }
    Ok(())
}

/// Lets a list reach as far as a name's place, where there is a name, and it was started. What stands at the places
/// stays, after an error too.
pub(crate) fn reach_name(
    items: &mut Vec<u32>,
    name: Option<Name>,
    names: &Index,
) -> Result<(), AllocError>
    ensures same { (i : ℕ) → slice_index items.new.items i ≡ slice_index items.old.items i }
    ensures reached { OnOk result
        (OfEach (IsOf names.now) (λ past. Reaches past name items.new.items)) }
{
    let Some(name) = name else {
        return Ok(());
    };
    let Some(place) = names.place(&name) else {
        return Ok(());
    };
    reach(items, place)
}

/// What stands at a place.
pub(crate) fn slot(items: &[u32], at: usize) -> u32
    ensures { result ≡ slice_index items.now at }
{
    if at < items.len() { items[at] } else { 0 }
}

/// Puts a number at a place, where the list reaches so far.
pub(crate) fn set_slot(items: &mut Vec<u32>, at: usize, value: u32)
    ensures { items.new.items ≡ slice_set items.old.items at value }
{
    if at < items.len() {
        items[at] = value;
    }
}
