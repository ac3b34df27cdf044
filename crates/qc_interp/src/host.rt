//! What branches run by.
use crate::mode::Mode;
use std::alloc::Global;

/// The runtime, the memory for lists of branches, and whether branches run in threads.
#[derive(Clone, Copy)]
pub struct Host<'a, R> {
    pub rt: &'a R,
    pub alloc: Global,
    pub mode: Mode,
}
