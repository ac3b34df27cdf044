//! What is asked of boards.
ghost use Rattle.std.specs.Prelude.{◌≤◌, ◌<◌, ◌^◌, IfOk, IsBitSet, IsTrue};

use crate::Answer;
use qc_board::Board;
use rows_text::{BadLine, Words};
use std::alloc::Global;
use std::io;

/// A board of so many sessions, and which of them may be marked.
#[derive(Drop)]
struct Size {
    sessions: u8,
    may: u16,
    ghost few: { sessions ≤ 16 },
    ghost some: { 1 ≤ sessions },
    ghost within: { may < 2 ^ sessions },
}

fn size_of(words: &mut Words<'_>) -> Result<Size, BadLine> {
    let sessions = words.number::<u8>()?;
    let may = words.number::<u16>()?;
    if (1..=16).contains(&sessions) && u32::from(may) < 1 << u32::from(sessions) {
        Ok(Size { sessions, may })
    } else {
        Err(BadLine::Number)
    }
}

// Whether a session may be marked.
fn may_mark(may: u16, session: u8) -> bool
    requires { session < 16 }
    ensures { IsTrue result → IsBitSet may session }
{
    may & (1 << session) != 0
}

/// `board SESSIONS MAY MARKED UPTO SESSION TOP`: one seat marks a session, where it may be marked, and another that
/// this one is joined into looks at a session for a top.
pub fn board(rt: &HostRuntime, alloc: Global, mut words: Words<'_>) -> Answer {
    let size = size_of(&mut words)?;
    let marked = words.number::<u8>()?;
    let upto = words.number::<u64>()?;
    let session = words.number::<u8>()?;
    let top = words.number::<u64>()?;
    words.end()?;
    if marked >= size.sessions || session >= size.sessions || top == 0 {
        return Err(BadLine::Number);
    }
    let Ok((board, mut seat)) = Board::new(alloc, size.sessions, size.may) else {
        return Ok(println!(rt; "no memory"));
    };
    let mut other = board.split(&mut seat);
    if may_mark(size.may, marked) {
        board.doom(&mut other, marked, upto);
    }
    board.join(&mut seat, other);
    let found = board.look(&mut seat, session, top);
    Ok(println!(rt; "{found}"))
}
