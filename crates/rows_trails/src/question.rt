//! Questions of a line, and their answers.

use crate::case::Case;
use crate::edit::{copied, edited};
use crate::told::TrailTold;
use crate::wrong::Wrong;
use crate::{copies, histories, indexed, locks, orders};
use qc_event::Entry;
use rows_text::{BadLine, Words};

fn told(case: &Case, h: &[Entry], word: &str, words: &mut Words<'_>) -> Result<TrailTold, Wrong> {
    match word {
        "entries" => Ok(TrailTold::Count(h.len())),
        "ancestor" => histories::ancestor(words),
        "meet" => histories::meet(words),
        "kind" => histories::started(h, words),
        "outcome" => histories::standing(h, words),
        "dead" => histories::dead_by(h, words),
        "clear" => histories::clear_for(h, words),
        "holder" => histories::held_by(h, words),
        "seen" => histories::left(case, h, words),
        "tuple" => histories::first(case, words),
        "base" => histories::copies(case),
        "row" => histories::records(case, words),
        "audit" => histories::verdict(case, h),
        "looks" => indexed::looks(case.alloc, h),
        "tops" => indexed::tops(case.alloc, h),
        "indexed_kind" | "start" | "end" | "ready" | "is_ready" | "children" | "open_child" => {
            indexed::told(case.alloc, h, word, words)
        }
        "serialise" => orders::order(case, h, words),
        "accepts" => orders::accepted(case, h, words),
        "machine" => orders::machine(case, case.events.as_slice()),
        "serve" => copies::serve(case, h, words),
        "again" => copies::again(case, h, words),
        "records" => Ok(locks::records(&case.copy.locks)),
        "granted" => locks::granted(&case.copy, words),
        "may_read" => locks::test(&case.copy.locks, words, false),
        "may_write" => locks::test(&case.copy.locks, words, true),
        "locks" => locks::holders(case, words),
        "holds" => locks::holds(&case.copy.locks, words),
        _ => Err(Wrong::Line(BadLine::Word)),
    }
}

// What a question without edits is answered of a history.
fn asked(case: &Case, h: &[Entry], question: &str) -> Result<TrailTold, Wrong> {
    let mut words = Words::new(question);
    let word = words.word()?;
    let told = told(case, h, word, &mut words)?;
    words.end()?;
    Ok(told)
}

/// What the question of a line is answered, of the history with the line's edits.
pub fn answer(case: &Case, line: &str) -> Result<TrailTold, Wrong> {
    let Some((edits, question)) = line.rsplit_once(';') else {
        return asked(case, case.history(), line);
    };
    let mut log = copied(case.alloc, case.history())?;
    for text in edits.split(';') {
        log = edited(case.alloc, log.as_slice(), text)?;
    }
    asked(case, log.as_slice(), question)
}
