//! Who replied to a manager that got no quorum, and who did not.
ghost use Rattle.std.specs.Prelude.{◌≡◌, [], ◌++◌, codes, if◌then◌else◌, OnOk};
ghost use Rattle.qc_report.specs.Report as spec;

use crate::page::Page;
use qc_event::{Copies, Lack, Phase, Why};
use std::alloc::AllocError;

fn phase_word(phase: Phase) -> &'static str
    ensures { result.now ≡ spec.phase_word phase }
{
    match phase {
        Phase::Collect => "collect",
        Phase::Values => "values",
        Phase::Configs => "configs",
    }
}

fn why_word(why: Why) -> &'static str
    ensures { result.now ≡ spec.why_word why }
{
    match why {
        Why::Lost => "lost",
        Why::Late => "late",
        Why::Down => "down",
        Why::Full => "full",
        Why::Strange => "strange",
    }
}

// Appends what stands between two items of a list, and nothing before the first.
fn push_comma(page: &mut Page, is_first: bool) -> Result<(), AllocError>
    ensures { OnOk result (page.new ≡ page.old ++ (if is_first then [] else codes ",")) }
{
    if is_first { Ok(()) } else { write!(page, ",") }
}

// Appends what stands for a list without items, and nothing for another.
fn push_dash(page: &mut Page, is_empty: bool) -> Result<(), AllocError>
    ensures { OnOk result (page.new ≡ page.old ++ (if is_empty then codes "-" else [])) }
{
    if is_empty { write!(page, "-") } else { Ok(()) }
}

// Appends the numbers of the copies that replied.
fn push_replied(page: &mut Page, replied: Copies) -> Result<(), AllocError>
    ensures { OnOk result (page.new ≡ page.old ++ spec.replied_list replied) }
{
    let mut is_empty = true;
    for copy in 0..16 {
        if replied.has(copy) {
            push_comma(page, is_empty)?;
            write!(page, "{copy}")?;
            is_empty = false;
        }
    }
    push_dash(page, is_empty)
}

// Appends the numbers of the copies that are missing, each with the reason.
fn push_missing(page: &mut Page, missing: &[Option<Why>; 16]) -> Result<(), AllocError>
    ensures { OnOk result (page.new ≡ page.old ++ spec.missing_list missing.now) }
{
    let mut is_empty = true;
    for copy in 0..16 {
        if let Some(why) = missing[copy] {
            push_comma(page, is_empty)?;
            let word = why_word(why);
            write!(page, "{copy}:{word}")?;
            is_empty = false;
        }
    }
    push_dash(page, is_empty)
}

/// Appends the phase in which a quorum is lacking, who replied and who did not.
pub(crate) fn push_lack(page: &mut Page, lack: &Lack) -> Result<(), AllocError>
    ensures { OnOk result (page.new ≡ page.old ++ spec.lack_text lack.now) }
{
    let phase = phase_word(lack.phase);
    write!(page, "{phase} replied ")?;
    push_replied(page, lack.replied)?;
    write!(page, " missing ")?;
    push_missing(page, &lack.missing)
}
