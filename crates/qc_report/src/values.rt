//! Values as a report has them.
ghost use Rattle.std.specs.Prelude.{◌≡◌, ◌<◌, ◌++◌, OnOk};
ghost use Rattle.std.specs.List.{flat_map};
ghost use Rattle.qc_report.specs.Report as spec;

use crate::page::Page;
use qc_event::Val;
use std::alloc::AllocError;

// A digit to the base 16.
fn digit(n: u8) -> u8
    requires { n < 16 }
    ensures { result ≡ spec.digit n }
{
    if n < 10 { b'0' + n } else { b'a' - 10 + n }
}

// Appends a byte of a text.
fn push_byte(page: &mut Page, byte: u8) -> Result<(), AllocError>
    ensures { OnOk result (page.new ≡ page.old ++ spec.quoted_byte byte) }
{
    if byte == b'"' || byte == b'\\' {
        page.push(&[b'\\', byte])
    } else if byte < 0x20 {
        let (high, low) = (digit(byte / 16), digit(byte % 16));
        page.push(&[b'\\', b'u', b'0', b'0', high, low])
    } else {
        page.push(&[byte])
    }
}

// Appends the bytes of a text.
fn push_bytes(page: &mut Page, text: &[u8]) -> Result<(), AllocError>
    ensures { OnOk result (page.new ≡ page.old ++ flat_map spec.quoted_byte text.now) }
{
    for byte in text {
        push_byte(page, *byte)?;
    }
    Ok(())
}

/// Appends a value: a number in digits, and a text between quotes.
pub fn push_value(page: &mut Page, value: &Val) -> Result<(), AllocError>
    ensures { OnOk result (page.new ≡ page.old ++ spec.value_text value.now) }
{
    match value.as_text() {
        Some(text) => {
            page.push(b"\"")?;
            push_bytes(page, text)?;
            page.push(b"\"")
        }
        None => {
            let number = value.as_number().unwrap_or(0);
            write!(page, "{number}")
        }
    }
}
