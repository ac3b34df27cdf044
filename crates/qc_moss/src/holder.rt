//! Locks, and what they keep to be put.
ghost use Rattle.std.specs.Prelude.{◌≡◌};
ghost use Rattle.qc_moss.specs.Locks as words;

use qc_config::{Config, Op, Tuple, Val};
use qc_names::Name;

/// A version and its value.
#[derive(Clone, Copy, Debug)]
pub struct Put {
    pub version: u64,
    pub value: Val,
}

/// A generation and its configuration.
#[derive(Clone, Copy, Debug)]
pub struct Change {
    pub generation: u64,
    pub config: Config,
}

/// A lock: the first access to which it was granted, who holds it now, the first access that writes under it,
/// and what was put under it last.
#[derive(Clone, Copy, Debug)]
pub struct Holder {
    pub first: Name,
    pub at: Name,
    pub writer: Option<Name>,
    pub put: Option<Put>,
    pub change: Option<Change>,
}

impl Holder {
    /// The lock of one grant, which the access itself holds.
    pub fn alone(access: &Name, op: &Op) -> Self
        ensures { result ≡ words.alone access.now access.now op.now }
    {
        let (writer, put, change) = match *op {
            Op::Get => (None, None, None),
            Op::PutData { version, value } => (Some(*access), Some(Put { version, value }), None),
            Op::PutConfig { generation, config } => {
                (Some(*access), None, Some(Change { generation, config }))
            }
        };
        Holder {
            first: *access,
            at: *access,
            writer,
            put,
            change,
        }
    }

    /// The lock of two neighbours that one transaction holds.
    pub fn joined(&self, next: &Self) -> Self
        ensures { result ≡ words.joined self.now next.now }
    {
        Holder {
            first: self.first,
            at: self.at,
            writer: self.writer.or(next.writer),
            put: next.put.or(self.put),
            change: next.change.or(self.change),
        }
    }

    /// Whether nothing was put under the lock.
    pub fn is_read(&self) -> bool
        ensures { result ≡ words.is_read self.now }
    {
        self.writer.is_none() && self.put.is_none() && self.change.is_none()
    }

    /// The lock, held by another transaction.
    pub fn held_at(&self, at: &Name) -> Self
        ensures { result ≡ words.held_at self.now at.now }
    {
        Holder {
            first: self.first,
            at: *at,
            writer: self.writer,
            put: self.put,
            change: self.change,
        }
    }

    /// A tuple after all that was done under the lock.
    pub fn effect(&self, tuple: &Tuple) -> Tuple
        ensures { result ≡ words.effect tuple.now self.now }
    {
        let mut tuple = *tuple;
        if let Some(put) = self.put {
            tuple.version = put.version;
            tuple.value = put.value;
        }
        if let Some(change) = self.change {
            tuple.generation = change.generation;
            tuple.config = change.config;
        }
        tuple
    }

    /// The first access under the lock that is in the way of a read, or of a write.
    pub fn in_way(&self, access: &Name, write: bool) -> Option<Name>
        ensures { result ≡ words.in_way access.now write self.now }
    {
        if self.at.is_ancestor(access) {
            None
        } else if write {
            Some(self.first)
        } else {
            self.writer
        }
    }
}
