//! Seats, and the names of tops.
ghost use Rattle.std.specs.Prelude.{◌≡◌};
ghost use Rattle.qc_event.specs.Seats as seats;

use qc_names::Name;

/// The seat of the ledger, under which tops commit.
pub const LEDGER_SEAT: u32 = 1;

/// The first seat of clients.
pub const CLIENT_SEAT: u32 = 18;

/// The seat of a copy, under which it grants and refuses.
pub fn copy_seat(copy: u8) -> u32
    ensures { result ≡ seats.copy_seat copy }
{
    u32::from(copy) + 2
}

/// Whether a seat is a client's: 0, or above the seats of the ledger and of sixteen copies.
pub fn is_client(seat: u32) -> bool
    ensures { result ≡ seats.is_client seat }
{
    seat == 0 || seat > copy_seat(15)
}

/// The name of a top by its place in an epoch, both counted from 1.
pub fn top_name(epoch: u32, place: u32) -> Name
    ensures { result ≡ seats.top_name epoch place }
{
    Name::top(u64::from(epoch) * 0x1_0000_0000 + u64::from(place))
}
