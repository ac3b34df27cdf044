//! What is printed of bytes, records and tuples.

use qc_config::Tuple;
use qc_journal::Body;
use std::alloc::{AllocError, Global};

/// A text of its own.
pub fn said(alloc: Global, text: &str) -> Result<String, AllocError> {
    String::from_str(alloc, text)
}

/// Bytes in hex; none are a stroke.
pub fn hex(alloc: Global, bytes: &[u8]) -> Result<String, AllocError> {
    if bytes.is_empty() {
        return said(alloc, "-");
    }
    hex::encode(alloc, bytes)
}

/// Puts bytes in hex behind a text; none are a stroke.
pub fn put_hex(alloc: Global, text: &mut String, bytes: &[u8]) -> Result<(), AllocError> {
    text.push_str(hex(alloc, bytes)?.as_str())
}

/// How many records there are, and each in hex.
pub fn records(alloc: Global, bodies: &[Body]) -> Result<String, AllocError> {
    let mut text = bodies.len().to_string(alloc)?;
    text.push_str(" records")?;
    for body in bodies {
        text.push(' ')?;
        put_hex(alloc, &mut text, body)?;
    }
    Ok(text)
}

/// A tuple behind a blank: its value and version, the read and write quorum of its configuration, and its generation.
pub fn tuple(alloc: Global, tuple: &Tuple) -> Result<String, AllocError> {
    let (version, value, generation) = (tuple.version, tuple.value, tuple.generation);
    let (read, write) = (tuple.config.read(), tuple.config.write());
    format!(in alloc; " {value:?} v{version} {read}/{write} g{generation}")
}
