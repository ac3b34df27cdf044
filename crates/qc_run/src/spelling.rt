//! That the table of a script is one that the disks can keep.
ghost use Rattle.std.specs.Prelude.{ℕ, ◌≡◌, All, List};
ghost use Rattle.qc_codec.specs.Bodies as body;
ghost use Rattle.qc_codec.specs.Fields.{current_format, datum};
ghost use Rattle.qc_script.specs.MadePlan.{made_plan};
ghost use Rattle.qc_script.specs.Reading.{IsProper, IsScript};
ghost use Rattle.qc_script.specs.Steps.{plan_of_script};

use qc_event::Row;
use qc_script::Script;

// The start value of a row has a spelling.
fn start_fits(row: &Row)
    ensures { (datum current_format).fits row.now.start }
{
    let _start = row.start.as_number();
}

// So has each row's.
fn starts_fit(rows: &[Row])
    ensures { All (λ row. (datum current_format).fits row.start) rows.now }
{
    for row in rows {
        start_fits(row);
    }
}

/// A script that was read has a table that the disks can keep. It does nothing else.
pub(crate) fn is_spelled(script: &Script)
    requires { IsProper (plan_of_script script.now) }
    ensures { (bytes : List ℕ) → IsScript bytes (plan_of_script script.now)
        → (body.table current_format).fits script.now.table }
{
    starts_fit(script.table.records.as_slice());
}

/// So has one that is made of a number. It does nothing else.
pub(crate) fn made_is_spelled(script: &Script)
    ensures { (n : ℕ) → plan_of_script script.now ≡ made_plan n
        → (body.table current_format).fits script.now.table }
{
    starts_fit(script.table.records.as_slice());
}
