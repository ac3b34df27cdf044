//! Who is next among those who wait.
ghost use Rattle.std.specs.Prelude.{◌≡◌, false, None, IfSome};
ghost use Rattle.qc_turns.specs.Choosing.{AllCame, NoneWaits, WaitsAt};

use crate::row::Row;

/// Whether someone is to come.
pub(crate) fn someone_is_to_come(rows: &[Row]) -> bool
    ensures { result ≡ false → AllCame rows.now }
{
    let first = rows.iter().position(|row| row.is_to_come());
    first.is_some()
}

// The first of some who waits.
fn first_waiting(rows: &[Row]) -> Option<usize>
    ensures waits { IfSome result (WaitsAt rows.now) }
    ensures none { result ≡ None → NoneWaits rows.now }
{
    rows.iter().position(|row| row.waits())
}

/// Where in the rows one stands who waits: the first from a place on that a number gives, or else the first of all. It goes
/// by the rows and the number alone.
pub(crate) fn next(rows: &[Row], number: u64) -> Option<usize>
    ensures waits { IfSome result (WaitsAt rows.now) }
    ensures none { result ≡ None → NoneWaits rows.now }
{
    if rows.is_empty() {
        return None;
    }
    let from = number % rows.len() as u64;
    let (front, back) = rows.split_at(from as usize);
    match first_waiting(back) {
        Some(behind) => Some(front.len() + behind),
        None => first_waiting(front),
    }
}
