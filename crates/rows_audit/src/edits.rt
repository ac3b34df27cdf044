//! Changes to bytes.
use std::alloc::{AllocError, Global};

/// From a place on so many bytes are taken out, and others put in.
#[derive(Drop)]
struct Edit {
    place: usize,
    taken: usize,
    put: Vec<u8>,
}

impl Edit {
    /// The edit that a text tells: `PLACE=BYTES` puts bytes over others, `PLACE+BYTES` between others, and
    /// `PLACE-NUMBER` takes some out.
    fn of(alloc: Global, text: &str) -> Option<Self> {
        if let Some((place, number)) = text.split_once('-') {
            return Some(Edit {
                place: place.parse::<usize>().ok()?,
                taken: number.parse::<usize>().ok()?,
                put: Vec::new(alloc),
            });
        }
        let (place, bytes, over) = match text.split_once('=') {
            Some((place, bytes)) => (place, bytes, true),
            None => {
                let (place, bytes) = text.split_once('+')?;
                (place, bytes, false)
            }
        };
        let put = hex::decode(alloc, bytes).ok()?;
        Some(Edit {
            place: place.parse::<usize>().ok()?,
            taken: if over { put.len() } else { 0 },
            put,
        })
    }

    // What it makes of bytes. Beyond their end it takes nothing out.
    fn apply(&self, alloc: Global, bytes: &[u8]) -> Result<Vec<u8>, AllocError> {
        let place = self.place.min(bytes.len());
        let behind = place.saturating_add(self.taken).min(bytes.len());
        let mut changed = bytes[..place].to_vec(alloc)?;
        changed.extend_from_slice(self.put.as_slice())?;
        changed.extend_from_slice(&bytes[behind..])?;
        Ok(changed)
    }
}

/// What edits make of bytes, one after another; none where a text is no edit.
pub(crate) fn edited(
    alloc: Global,
    bytes: &[u8],
    edits: &str,
) -> Result<Option<Vec<u8>>, AllocError> {
    let mut changed = bytes.to_vec(alloc)?;
    for text in edits.split_whitespace() {
        match Edit::of(alloc, text) {
            Some(edit) => changed = edit.apply(alloc, changed.as_slice())?,
            None => return Ok(None),
        }
    }
    Ok(Some(changed))
}
