//! The records of an image, and the bytes of one more.
ghost use Rattle.std.specs.Prelude.{◌≡◌, ◌<◌, ◌≤◌, ◌+◌, ◌++◌, ◌∷◌, [], ◌^◌, ℕ, length, take, replicate, IfOk, IfErr, IfSome, IsNone, OnOk, OnErr, Ok, Err};
ghost use Rattle.std.specs.Int.{w32, to_be_bytes};
ghost use Rattle.qc_journal.specs.Image.{IsShort, IsCutOff, EndsAt, IsBroken, behind_gate, bodies_of};
ghost use Rattle.qc_journal.specs.Fault.{IsOfBytes};
ghost use Rattle.qc_journal.specs.declared.fault.Fault.TheVariants.{Broken, Memory};

use crate::fault::Fault;
use std::alloc::{AllocError, Global};
use std::iter;

/// The bytes of a record.
pub type Body = Vec<u8>;

/// What stands in an image.
#[derive(Drop)]
pub(crate) struct Found {
    /// How many bytes there are.
    pub(crate) size: u64,
    /// Where the first closed gate is, if any.
    pub(crate) place: u64,
    pub(crate) bodies: Vec<Body>,
}

// A generic push: one at the type of bodies may get no proof.
fn append<T: Drop>(items: &mut Vec<T>, item: T) -> Result<(), AllocError>
    ensures ok { OnOk result (items.new.items ≡ items.old.items ++ item ∷ []) }
    ensures err { OnErr result (items.new.items ≡ items.old.items) }
{
    items.push(item)?;
    Ok(())
}

// The length of the body behind an open gate, where the record and the next gate are whole.
fn body_size(after: &[u8]) -> Option<usize>
    ensures whole { IfSome result (λ n. 5 + n ≤ length after.now) }
    ensures length { IfSome result (λ n. take 4 after.now ≡ to_be_bytes w32 n) }
    ensures short { IfSome result (λ n. n < 2 ^ 32) }
    ensures none { IsNone result → IsCutOff after.now }
{
    let [a, b, c, d, rest @ ..] = after else {
        return None;
    };
    let size = u32::from_be_bytes([*a, *b, *c, *d]) as usize;
    if rest.len() <= size {
        return None;
    }
    Some(size)
}

/// Reads the records of an image of more than one byte.
pub(crate) fn scan(alloc: Global, bytes: &[u8]) -> Result<Found, Fault>
    requires { 1 < length bytes.now }
    ensures records { IfOk result (λ found. EndsAt found.place
        (bodies_of found.bodies.items) bytes.now) }
    ensures within { IfOk result (λ found. found.place < length bytes.now) }
    ensures size { IfOk result (λ found. found.size ≡ length bytes.now) }
    ensures broken { (place : ℕ) → result ≡ Err (Broken place) → IsBroken place bytes.now }
    ensures fault { IfErr result IsOfBytes }
{
    let mut bodies = Vec::new(alloc);
    let mut place = 0;
    while bytes[place] == 1 {
        let after = &bytes[place + 1..];
        let Some(size) = body_size(after) else {
            let place = place as u64;
            return Err(Fault::Broken { place });
        };
        append(&mut bodies, after[4..4 + size].to_vec(alloc)?)?;
        place += 5 + size;
    }
    Ok(Found {
        size: bytes.len() as u64,
        place: place as u64,
        bodies,
    })
}

/// What is written behind a gate, after a number of bytes that are missing.
pub(crate) fn block_of(alloc: Global, missing: u64, body: &[u8]) -> Result<Vec<u8>, AllocError>
    requires { IsShort body.now }
    ensures { IfOk result (λ block. block.items ≡ replicate missing 0 ++ behind_gate body.now) }
{
    let mut block: Vec<u8> = iter::repeat_n(0, missing as usize).collect(alloc)?;
    block.extend_from_slice(&(body.len() as u32).to_be_bytes())?;
    block.extend_from_slice(body)?;
    block.push(0)?;
    Ok(block)
}
