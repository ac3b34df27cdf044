//! The report of a run: its text, and the last values that stand in it.
#![tactic(auto)]

ghost use Rattle.std.specs.Prelude.{◌≡◌, ◌++◌, IfOk, OnOk};
ghost use Rattle.std.specs.List.{zip};
ghost use Rattle.qc_report.specs.Counts.{tally_text};
ghost use Rattle.qc_report.specs.Report as spec;

mod history;
mod lack;
mod last_values;
mod lines;
mod managers;
mod page;
mod scan;
mod sums;
mod tally;
mod values;

pub use history::{History, index_of};
pub use last_values::finals;
use lines::push_final;
pub use page::Page;
use qc_event::{Table, Val};
use std::alloc::{AllocError, Global};
use sums::Sums;
use tally::Tally;
pub use tally::has_doubt;
pub use values::push_value;

/// The report of a run: a line for each end in its history, a line for each top in doubt, the value of
/// each record, and how many tops there were. It goes over the entries once. Its time grows with the history's
/// length where the history has an index, and else with the square of it.
pub fn report(
    alloc: Global,
    table: &Table,
    finals: &[Val],
    history: &History<'_>,
) -> Result<Vec<u8>, AllocError>
    ensures { IfOk result (λ text. text.items ≡ spec.report table.now finals.now history.now) }
{
    let Sums {
        ends: mut page,
        doubts,
        tally,
    } = Sums::of(alloc, table, history)?;
    page.append(&doubts)?;
    push_summary(&mut page, table, finals, tally)?;
    Ok(page.into_bytes())
}

/// The end of a report alone: the value of each record, and how many tops there were. Its time grows as that of the
/// report.
pub fn summary(
    alloc: Global,
    table: &Table,
    finals: &[Val],
    history: &History<'_>,
) -> Result<Vec<u8>, AllocError>
    ensures { IfOk result (λ text. text.items ≡ spec.summary table.now finals.now history.now) }
{
    let mut page = Page::new(alloc);
    push_summary(&mut page, table, finals, Tally::of(history))?;
    Ok(page.into_bytes())
}

fn push_summary(
    page: &mut Page,
    table: &Table,
    finals: &[Val],
    tally: Tally,
) -> Result<(), AllocError>
    ensures { OnOk result (page.new
        ≡ page.old ++ (spec.final_lines (zip table.now.records finals.now) ++ tally_text tally)) }
{
    push_finals(page, table, finals)?;
    tally.push(page)
}

fn push_finals(page: &mut Page, table: &Table, finals: &[Val]) -> Result<(), AllocError>
    ensures { OnOk result
        (page.new ≡ page.old ++ spec.final_lines (zip table.now.records finals.now)) }
{
    for (row, value) in table.records.as_slice().iter().zip(finals) {
        push_final(page, row, value)?;
    }
    Ok(())
}
