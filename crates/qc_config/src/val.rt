//! Values of records.
ghost use Rattle.std.specs.Prelude.{◌≡◌, option_map};
ghost use Rattle.qc_config.specs.Same.{same_is_equal, same_is_partly_equal};
ghost use Rattle.qc_config.specs.Val as val;

use std::fmt;
use std::marker::Model;

/// The most bytes that a text has.
pub const LONGEST: usize = 1024;

// A number, or the bytes of a text at the front of an array, with zeros behind them.
#[derive(Clone, Copy)]
enum Kept {
    Number(u64),
    Text { count: u16, bytes: [u8; 1024] },
}

/// A record's value: a number, or a text of at most 1,024 bytes, which stands in place.
#[derive(Clone, Copy)]
pub struct Val {
    kept: Kept,
}

impl Model for Val {
    ghost use Rattle.qc_config.specs.Val.{Datum};

    ghost Value = { Datum };

    ghost use Rattle.qc_config.specs.Held.{told, is_held, held, held_back};

    ghost view = { told };

    ghost invariant = { is_held };

    ghost inverse = { held };

    ghost inverse_ok = { held_back };
}

// A byte of a text: as its sign where it has one, and else by its number.
fn write_byte<W: fmt::Write>(f: &mut fmt::Formatter<W>, byte: u8) -> fmt::Result {
    match byte {
        b'"' | b'\\' => write!(f, "\\{}", char::from(byte)),
        0x20..=0x7e => f.write_char(char::from(byte)),
        _ => write!(f, "\\{byte}"),
    }
}

// A number in digits, and a text between quotes.
impl fmt::Debug for Val {
    fn fmt<W: fmt::Write>(&self, f: &mut fmt::Formatter<W>) -> fmt::Result {
        let Some(text) = self.as_text() else {
            return self.as_number().unwrap_or(0).fmt(f);
        };
        f.write_char('"')?;
        for byte in text {
            write_byte(f, *byte)?;
        }
        f.write_char('"')
    }
}

impl Val {
    /// A number.
    pub fn number(n: u64) -> Self
        ensures { result ≡ val.Number n }
    {
        Val {
            kept: Kept::Number(n),
        }
    }

    /// A text of these bytes; none where it would be too long.
    pub fn text(bytes: &[u8]) -> Option<Self>
        ensures { result ≡ val.text_of bytes.now }
    {
        if bytes.len() > LONGEST {
            return None;
        }
        let mut kept = [0; 1024];
        kept[..bytes.len()].copy_from_slice(bytes);
        Some(Val {
            kept: Kept::Text {
                count: bytes.len() as u16,
                bytes: kept,
            },
        })
    }

    /// The number; none of a text.
    pub fn as_number(&self) -> Option<u64>
        ensures number { result ≡ val.number_of self.now }
        ensures possible { val.IsPossible self.now }
    {
        match self.kept {
            Kept::Number(n) => Some(n),
            Kept::Text { .. } => None,
        }
    }

    /// The bytes of a text; none of a number.
    pub fn as_text(&self) -> Option<&[u8]>
        ensures bytes { option_map (λ text. text.now) result ≡ val.bytes_of self.now }
        ensures possible { val.IsPossible self.now }
    {
        match &self.kept {
            Kept::Number(_) => None,
            Kept::Text { count, bytes } => Some(&bytes[..*count as usize]),
        }
    }
}

impl PartialEq for Val {
    ghost eq = { val.same };

    ghost laws = { same_is_partly_equal };

    fn eq(&self, other: &Self) -> bool {
        match (self.as_text(), other.as_text()) {
            (Some(text), Some(another)) => text == another,
            (None, None) => self.as_number() == other.as_number(),
            _ => false,
        }
    }
}

impl Eq for Val {
    ghost laws = { same_is_equal };
}
