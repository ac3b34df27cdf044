//! Kinds of pairs.

/// Of which kind the journals of a pair are: the base of a copy's has a tuple for each record, that of the ledger's none.
#[derive(Clone, Copy, Debug)]
pub enum Kind {
    Ledger,
    Copy,
}
