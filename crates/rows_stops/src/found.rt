//! What stands in a history.

use qc_event::{Answer, Entry, Event, How};
use qc_trail::Trail;
use std::alloc::{AllocError, Global};

fn is_commit_of_top(entry: &Entry) -> bool {
    match &entry.event {
        Event::End {
            name,
            how: How::Commit(_),
        } => name.len() == 1,
        _ => false,
    }
}

fn value_read(entry: &Entry) -> Option<u64> {
    match &entry.event {
        Event::End {
            how: How::Commit(Answer::Value(value)),
            ..
        } => value.as_number(),
        _ => None,
    }
}

/// Whether a top was committed.
pub(crate) fn has_committed(trail: &Trail) -> bool {
    for at in 0..trail.len() {
        if let Some(entry) = trail.get(at)
            && is_commit_of_top(&entry)
        {
            return true;
        }
    }
    false
}

/// What each manager that reads and was committed answered, in order.
pub(crate) fn values_read(alloc: Global, trail: &Trail) -> Result<Vec<u64>, AllocError> {
    let mut values = Vec::new(alloc);
    for at in 0..trail.len() {
        if let Some(entry) = trail.get(at)
            && let Some(value) = value_read(&entry)
        {
            values.push(value)?;
        }
    }
    Ok(values)
}
