//! Which want a run ends with that several sessions or branches stopped for.
ghost use Rattle.std.specs.Prelude.{◌≡◌};
ghost use Rattle.qc_interp.specs.AtOnce as at_once;

use qc_event::Short;

/// Of two wants that of memory is told.
pub fn told_want(one: Short, other: Short) -> Short
    ensures { result ≡ at_once.told_want one other }
{
    match one {
        Short::Memory => Short::Memory,
        Short::Room => other,
    }
}
