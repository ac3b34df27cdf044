//! Bytes in words.

use std::alloc::{AllocError, Global};

/// Bytes, in hex behind `0x` or as their text; a stroke is none.
pub(crate) fn bytes(alloc: Global, word: &str) -> Result<Vec<u8>, AllocError> {
    if word == "-" {
        return Ok(Vec::new(alloc));
    }
    if let Some(digits) = word.strip_prefix("0x")
        && let Ok(bytes) = hex::decode(alloc, digits)
    {
        return Ok(bytes);
    }
    word.as_bytes().to_vec(alloc)
}
