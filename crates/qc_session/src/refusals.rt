//! Why a desk or the ledger did not do what a client asked, as it tells its session.
ghost use Rattle.std.specs.Prelude.{◌≡◌};
ghost use Rattle.qc_session.specs.Acting as words;
ghost use Rattle.qc_session.specs.Managing as managing;

use qc_desk::DeskNo;
use qc_event::{Name, Short};
use qc_ledger::LedgerNo;
use qc_managers::MgrNo;
use qc_script::TxNo;

/// Why, where a desk refused.
pub(crate) fn no_of(no: &DeskNo) -> TxNo
    ensures { result ≡ words.no_of no.now }
{
    match no {
        DeskNo::Orphan(ancestor) => TxNo::Orphan(*ancestor),
        DeskNo::Ended => TxNo::Ended,
        DeskNo::ChildrenOpen(child) => TxNo::ChildrenOpen(*child),
        DeskNo::Ready => TxNo::Ready,
        DeskNo::Short(short) => TxNo::Short(*short),
    }
}

/// The aborted ancestor, where a desk refused for one.
pub(crate) fn orphan_told(no: &DeskNo) -> Option<Name>
    ensures { result ≡ words.orphan_told no.now }
{
    match no {
        DeskNo::Orphan(ancestor) => Some(*ancestor),
        _ => None,
    }
}

/// What was wanting, where a desk refused a manager's end for nothing else.
pub(crate) fn short_of(no: &DeskNo) -> Short
    ensures { result ≡ words.short_of no.now }
{
    match no {
        DeskNo::Short(short) => *short,
        _ => Short::Memory,
    }
}

/// Why, where the ledger refused. A ledger that is mounted refuses no image.
pub(crate) fn log_no(no: &LedgerNo) -> TxNo
    ensures { result ≡ words.log_no no.now }
{
    match no {
        LedgerNo::Disk | LedgerNo::Full { .. } => TxNo::Ledger,
        LedgerNo::Image(_) => TxNo::Short(Short::Memory),
        LedgerNo::Short(short) => TxNo::Short(*short),
    }
}

/// Why, where a manager came to no answer.
pub(crate) fn told(no: &MgrNo) -> TxNo
    ensures { result ≡ managing.told no.now }
{
    match *no {
        MgrNo::Orphan(ancestor) => TxNo::Orphan(ancestor),
        MgrNo::Conflict { copy, holder } => TxNo::Conflict { copy, holder },
        MgrNo::NoQuorum(lack) => TxNo::NoQuorum(lack),
        MgrNo::Last => TxNo::Last,
        MgrNo::Short(short) => TxNo::Short(short),
    }
}
