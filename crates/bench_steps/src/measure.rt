//! The time of a run, and that of its report.
ghost use Rattle.std.specs.Prelude.{reverse};
ghost use Rattle.qc_history.specs.Index.{IsOf};
ghost use Rattle.qc_report.specs.Indexed.{IsLegal};

use crate::trouble::Trouble;
use qc_disk::{MemDisk, MemShop};
use qc_event::Table;
use qc_history::Index;
use qc_report::{History, finals, index_of, report};
use qc_run::io::{MemSink, MemSource};
use qc_run::{NoGate, Ran, Status, run};
use qc_script::Script;
use std::alloc::{AllocError, Global};
use std::sync::Wait;
use std::thread::Threads;
use std::time::{Clock, Duration, Instant};

/// How long the whole run took and how long its report took alone, and how many entries its history has.
#[derive(Clone, Copy)]
pub(crate) struct Times {
    pub(crate) run: Duration,
    pub(crate) report: Duration,
    pub(crate) entries: usize,
}

/// The words of the command, with an option where there is one.
pub(crate) fn run_words(alloc: Global, option: Option<&str>) -> Result<Vec<String>, AllocError> {
    let mut words = Vec::new(alloc);
    words.push(String::from_str(alloc, "run")?)?;
    if let Some(option) = option {
        words.push(String::from_str(alloc, option)?)?;
    }
    Ok(words)
}

// The report of a run over a table, made as the run made it.
fn report_of(
    alloc: Global,
    table: &Table,
    ran: &Ran<MemDisk>,
    index: &Index,
) -> Result<Vec<u8>, Trouble>
    requires legal { IsLegal ran.now.trail }
    requires index { IsOf index.now (reverse ran.now.trail) }
{
    let records = table.records.as_slice().len();
    if ran.start.copies() > 16 || records > 64 {
        return Err(Trouble::Script);
    }
    let history = History::indexed(&ran.trail, index);
    let values = finals(alloc, &ran.start, &history, records)?;
    Ok(report(alloc, table, values.as_slice(), &history)?)
}

/// Runs the script that the bytes are, over streams and disks in memory, and then makes its report once more.
pub(crate) fn both_times<R: Threads + Wait + Sync>(
    handle: &R,
    clock: &impl Clock,
    alloc: Global,
    bytes: Vec<u8>,
) -> Result<Times, Trouble> {
    let script = Script::read(alloc, bytes.as_slice())?;
    let words = run_words(alloc, None)?;
    let mut source = MemSource::new(bytes, Vec::new(alloc));
    let mut sink = MemSink::new(alloc, Vec::new(alloc));
    let mut shop = MemShop::new(Vec::new(alloc), Vec::new(alloc));
    let words = words.as_slice();
    let start = Instant::now(clock)?;
    let ran = run(
        handle,
        alloc,
        words,
        &mut source,
        &mut sink,
        &mut shop,
        &NoGate,
    );
    let run = start.elapsed(clock)?;
    let Status::Done = ran.status else {
        return Err(Trouble::Script);
    };
    let index = index_of(alloc, &ran.trail)?;
    let start = Instant::now(clock)?;
    let text = report_of(alloc, &script.table, &ran, &index)?;
    let report = start.elapsed(clock)?;
    if text.as_slice() != sink.bytes() {
        return Err(Trouble::Differs);
    }
    Ok(Times {
        run,
        report,
        entries: ran.trail.len(),
    })
}
