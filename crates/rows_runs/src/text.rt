//! Texts that are written piece by piece.

use std::alloc::{AllocError, Global};

/// A text that grows. Where memory was wanting for a piece, that is told of the whole alone: so what writes it has no
/// exits, which each would have a proof.
#[derive(Drop)]
pub struct Text {
    text: String,
    is_short: bool,
}

impl Text {
    /// An empty text.
    pub fn new(alloc: Global) -> Self {
        Text {
            text: String::new(alloc),
            is_short: false,
        }
    }

    /// Adds a piece.
    pub fn add(&mut self, piece: &str) {
        if self.text.push_str(piece).is_err() {
            self.is_short = true;
        }
    }

    /// The whole text.
    pub fn whole(self) -> Result<String, AllocError> {
        if self.is_short {
            Err(AllocError)
        } else {
            Ok(self.text)
        }
    }
}
