//! How a manager of a kind stands, from its record's first configuration. None of these calls takes memory.
ghost use Rattle.std.specs.Prelude.{◌≡◌};
ghost use Rattle.qc_event.specs.Manager as words;

use crate::looks::Looks;
use crate::manager::{Stage, at_last_number, current_stage, is_complete, record_of};
use crate::setting::Setting;
use qc_event::{Kind, Name};

/// The stage at which a manager of a kind is.
pub fn stage_for<H: Looks>(setting: &Setting, h: &H, m: &Name, kind: &Kind) -> Option<Stage>
    ensures { result
        ≡ words.stage (H.past h.now) (words.first_for setting.now kind.now) m.now kind.now }
{
    current_stage(h, &setting.first(record_of(kind)), m, kind)
}

/// Whether a manager of a kind is complete.
pub fn is_done<H: Looks>(setting: &Setting, h: &H, m: &Name, kind: &Kind) -> bool
    ensures { result
        ≡ words.is_complete (H.past h.now) (words.first_for setting.now kind.now) m.now kind.now }
{
    is_complete(h, &setting.first(record_of(kind)), m, kind)
}

/// Whether a manager of a kind is at its last number.
pub fn is_at_last_number<H: Looks>(setting: &Setting, h: &H, m: &Name, kind: &Kind) -> bool
    ensures { result ≡ words.at_last_number (H.past h.now)
        (words.first_for setting.now kind.now) m.now kind.now }
{
    at_last_number(h, &setting.first(record_of(kind)), m, kind)
}
