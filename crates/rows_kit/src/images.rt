//! Images of journals, made of bytes alone.

use crate::step::bytes;
use std::alloc::{AllocError, Global};

/// The image of a journal with records of these bodies, in hex.
pub fn image(alloc: Global, bodies: &[&str]) -> Result<Vec<u8>, AllocError> {
    let mut image = Vec::new(alloc);
    for word in bodies {
        let body = bytes(alloc, word)?;
        let size = u32::try_from(body.len()).unwrap_or(u32::MAX);
        image.push(1)?;
        image.extend_from_slice(&size.to_be_bytes())?;
        image.extend_from_slice(&body)?;
    }
    image.push(0)?;
    Ok(image)
}
