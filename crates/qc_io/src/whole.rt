//! Whole texts over streams.
ghost use Rattle.std.specs.Prelude.{◌≡◌, ◌<◌, ◌≤◌, ◌+◌, ◌^◌, ℕ, List, [], ◌++◌, length, take, IfOk, OnOk, OnErr, IfSome, IsOk, IsErr, IsErrOf};
ghost use Rattle.qc_io.specs.Io.{HasCause, Takes, Drops, LosesWithin, Appends, AppendsFront};
ghost use Rattle.qc_io.specs.declared.whole.Untaken.TheVariants.{Failed, Memory};

use super::{Failed, Sink, Source};
use std::alloc::{AllocError, Global};
use thiserror::Error;

/// The most bytes that one read is asked for.
const PIECE: usize = 4096;

/// Why bytes were not taken.
#[derive(Clone, Copy, PartialEq, Eq, Debug, Error)]
pub enum Untaken {
    /// The source failed.
    #[error("the source failed")]
    Failed,
    /// There was no memory.
    #[error("no memory")]
    Memory,
}

impl From<Failed> for Untaken {
    ghost from_gives = { λ _ e. e ≡ Failed };

    fn from(_: Failed) -> Self {
        Untaken::Failed
    }
}

impl From<AllocError> for Untaken {
    ghost from_gives = { λ _ e. e ≡ Memory };

    fn from(_: AllocError) -> Self {
        Untaken::Memory
    }
}

// Reads at most this number of bytes behind the others, and says how many. It reads none only at the end.
fn take_piece<S: Source>(source: &mut S, bytes: &mut Vec<u8>, most: usize) -> Result<usize, Untaken>
    requires { 0 < most }
    ensures taken { IfOk result
        (Takes (S.view source.old).left (S.view source.new).left bytes.old.items bytes.new.items
        most) }
    ensures lost { OnErr result (LosesWithin (S.view source.old).left (S.view source.new).left
        most) }
    ensures cause { HasCause (S.view source.old).faults (S.view source.new).faults
        (IsErrOf result Untaken.Failed) }
{
    let mut buffer = [0; PIECE];
    let piece = &mut buffer[..most.min(PIECE)];
    let count = source.read(piece)?;
    bytes.extend_from_slice(&piece[..count])?;
    Ok(count)
}

/// Reads to the end, or one byte past the limit.
pub fn take_all<S: Source>(alloc: Global, source: &mut S, limit: usize) -> Result<Vec<u8>, Untaken>
    requires { limit < 2 ^ 32 }
    ensures bytes { IfOk result
        (λ all. IfSome (S.view source.old).left (λ left. all.items ≡ take (limit + 1) left)) }
    ensures left { OnOk result (Drops (S.view source.old).left (S.view source.new).left
        (limit + 1)) }
    ensures ended { OnOk result (IfSome (S.view source.old).left
        (λ left. length left ≤ limit → (S.view source.new).left ≡ Some [])) }
    ensures within { IfOk result (λ all. length all.items ≤ limit + 1) }
    ensures lost { OnErr result (LosesWithin (S.view source.old).left (S.view source.new).left
        (limit + 1)) }
    ensures cause { HasCause (S.view source.old).faults (S.view source.new).faults
        (IsErrOf result Untaken.Failed) }
{
    let mut bytes = Vec::new(alloc);
    while bytes.len() <= limit {
        let most = limit + 1 - bytes.len();
        if take_piece(source, &mut bytes, most)? == 0 {
            return Ok(bytes);
        }
    }
    Ok(bytes)
}

/// Writes all of the bytes. It makes no call where there are none.
pub fn write_all<K: Sink>(sink: &mut K, bytes: &[u8]) -> Result<(), Failed>
    ensures ok { OnOk result (Appends (K.view sink.old).taken (K.view sink.new).taken bytes.now) }
    ensures failed { OnErr result (AppendsFront (K.view sink.old).taken (K.view sink.new).taken
        bytes.now) }
    ensures cause { HasCause (K.view sink.old).faults (K.view sink.new).faults (IsErr result) }
    ensures none { bytes.now ≡ [] → IsOk result × (sink.new ≡ sink.old) }
{
    let mut done = 0;
    while done < bytes.len() {
        done += sink.write(&bytes[done..])?;
    }
    Ok(())
}
