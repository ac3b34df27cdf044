//! Folders around a case.

use crate::step::Step;
use std::fs;

/// Makes or removes a folder in the folder that the program runs in, and tells whether it did; none where the step is
/// another.
pub fn on_folders(rt: &HostRuntime, step: &Step<'_>) -> Option<bool> {
    let made = match step.name {
        "folder" => fs::create_dir(rt, step.word(0)),
        "remove" => fs::remove_dir_all(rt, step.word(0)),
        _ => return None,
    };
    Some(made.is_ok())
}
