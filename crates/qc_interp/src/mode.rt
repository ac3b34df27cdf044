//! Whether sessions run at once.

/// Whether sessions run in threads or one after another.
#[derive(Debug, Clone, Copy, PartialEq, Eq)]
pub enum Mode {
    /// In order.
    Serial,
    /// In threads.
    Threads,
}
