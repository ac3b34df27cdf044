//! Causes, and whether they are the same.

use qc_event::{Cause, Config, Lack};

/// Whether two configurations are the same.
pub(crate) fn same_config(one: &Config, other: &Config) -> bool {
    one.count() == other.count()
        && one.read() == other.read()
        && one.write() == other.write()
        && (0..16).all(|copy| one.votes(copy) == other.votes(copy))
}

fn same_lack(one: &Lack, other: &Lack) -> bool {
    one.phase == other.phase && one.replied == other.replied && one.missing == other.missing
}

/// Whether two causes are the same.
pub(crate) fn same_cause(one: &Cause, other: &Cause) -> bool {
    match (one, other) {
        (Cause::Asked { by }, Cause::Asked { by: another }) => by == another,
        (
            Cause::Conflict { copy, holder },
            Cause::Conflict {
                copy: another,
                holder: holding,
            },
        ) => copy == another && holder == holding,
        (Cause::NoQuorum(lack), Cause::NoQuorum(another)) => same_lack(lack, another),
        (Cause::Last, Cause::Last) => true,
        (Cause::Orphan(of), Cause::Orphan(another)) => of == another,
        (Cause::Killed, Cause::Killed) => true,
        (Cause::Child(child), Cause::Child(another)) => child == another,
        (Cause::Missed, Cause::Missed) => true,
        _ => false,
    }
}

/// Whether a manager's cause is handed on to its transaction.
pub(crate) fn is_handed_on(cause: &Cause) -> bool {
    matches!(
        cause,
        Cause::Conflict { .. } | Cause::NoQuorum(_) | Cause::Last
    )
}
