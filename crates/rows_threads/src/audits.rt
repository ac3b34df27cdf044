//! Histories before the checker, the audit and the judge.

use qc_run::NoGate;
use rows_judge::Fault;
use rows_runs::{Random, Tops, make_script, run_script};
use std::alloc::{AllocError, Global};
use std::fmt;
use std::sync::Wait;
use std::thread::Threads;

/// How many of a seed's scripts were run to their end, with a legal history that passes the audit and follows the script;
/// whether in one a transaction was killed; and the last fault.
#[derive(Clone, Copy)]
pub(crate) struct Count {
    follow: u64,
    killed: bool,
    fault: Option<Fault>,
}

impl fmt::Display for Count {
    fn fmt<W: fmt::Write>(&self, f: &mut fmt::Formatter<W>) -> fmt::Result {
        write!(f, "{} follow", self.follow)?;
        if self.killed {
            write!(f, ", some are killed")?;
        }
        if let Some(fault) = &self.fault {
            write!(f, ", but {fault}")?;
        }
        Ok(())
    }
}

/// How many of so many scripts of a seed are run to their end with a legal history that follows the script and passes the
/// audit.
pub(crate) fn count_following<R: Threads + Wait + Sync>(
    handle: &R,
    alloc: Global,
    tops: Tops,
    seed: u64,
    runs: u64,
    options: &str,
) -> Result<Count, AllocError> {
    let mut random = Random::new(seed);
    let mut count = Count {
        follow: 0,
        killed: false,
        fault: None,
    };
    for _ in 0..runs {
        let text = make_script(alloc, &mut random, tops)?;
        if let Some(judged) = run_script(handle, alloc, options, text.as_str(), &NoGate)? {
            count.killed |= judged.has_killed();
            match judged.fault(alloc) {
                Some(fault) => count.fault = Some(fault),
                None if judged.is_legal(alloc)? && judged.passes_audit(handle, alloc)? => {
                    count.follow = count.follow.saturating_add(1);
                }
                None => {}
            }
        }
    }
    Ok(count)
}
