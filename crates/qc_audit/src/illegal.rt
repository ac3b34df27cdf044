//! The first entry of a trail that those before it do not allow.
ghost use Rattle.std.specs.Prelude.{◌≡◌, ◌↔◌, ◌≤◌, None, IfErr, IfOk, IfSome, OnOk, length, reverse};
ghost use Rattle.qc_event.specs.Base.{IsProper};
ghost use Rattle.qc_event.specs.History.{limit};
ghost use Rattle.qc_event.specs.Legal.{Legal};
ghost use Rattle.qc_event.specs.Tables.{first_configs, setting_of};
ghost use Rattle.qc_audit.specs.Illegal.{IsFirstIllegal, StopsAt};
ghost use Rattle.qc_audit.specs.declared.illegal.Stop.TheVariants as stop;

use qc_check::is_allowed;
use qc_event::{Base, Config, Entry, Table};
use qc_looks::Indexed;
use qc_scan::Setting;
use std::alloc::{AllocError, Global};

/// Why a trail was not gone through to its end.
#[derive(Clone, Copy, Debug)]
pub(crate) enum Stop {
    /// The entry at this place is the first that those before it do not allow.
    Illegal(u64),
    /// There was no memory.
    Memory,
}

impl From<AllocError> for Stop {
    ghost from_gives = { λ _ e. e ≡ stop.Memory };

    fn from(_: AllocError) -> Self {
        Stop::Memory
    }
}

/// The first configuration of each record.
pub(crate) fn firsts_of(alloc: Global, table: &Table) -> Result<Vec<Config>, AllocError>
    ensures { IfOk result (λ firsts. firsts.items ≡ first_configs table.now) }
{
    let rows = table.records.as_slice();
    rows.iter().map(|row| row.config).collect(alloc)
}

/// Goes through a trail, as far as each entry may come next. A legal one is kept with its index.
pub(crate) fn look_through<'a>(
    alloc: Global,
    base: &'a Base,
    firsts: &'a [Config],
    trail: &[Entry],
) -> Result<Indexed<'a>, Stop>
    requires proper { IsProper (record { firsts = firsts.now; base = base.now }) }
    requires few { length trail.now ≤ limit }
    ensures known { IfOk result (λ known. known ≡ record {
      setting = record { firsts = firsts.now; base = base.now };
      past = reverse trail.now;
    }) }
    ensures legal { OnOk result
        (Legal (record { firsts = firsts.now; base = base.now }) (reverse trail.now)) }
    ensures stop { IfErr result
        (StopsAt (record { firsts = firsts.now; base = base.now }) trail.now) }
{
    let setting = Setting::new(base, firsts);
    let mut known = Indexed::new(alloc, base, firsts)?;
    for (place, entry) in trail.iter().enumerate() {
        if !is_allowed(&setting, &mut known, entry) {
            return Err(Stop::Illegal(place as u64));
        }
        known = known.push(entry)?;
    }
    Ok(known)
}

/// The place of the first entry, counted from 0, that those before it do not allow; none exactly where the trail is
/// a legal history. It goes over the trail once, with an index of the history so far.
pub fn first_illegal(
    alloc: Global,
    table: &Table,
    base: &Base,
    trail: &[Entry],
) -> Result<Option<u64>, AllocError>
    requires proper { IsProper (setting_of table.now base.now) }
    requires few { length trail.now ≤ limit }
    ensures none { IfOk result (λ first. (first ≡ None)
        ↔ Legal (setting_of table.now base.now) (reverse trail.now)) }
    ensures some { IfOk result (λ first. IfSome first
        (IsFirstIllegal (setting_of table.now base.now) trail.now)) }
{
    let firsts = firsts_of(alloc, table)?;
    match look_through(alloc, base, firsts.as_slice(), trail) {
        Ok(_) => Ok(None),
        Err(Stop::Illegal(place)) => Ok(Some(place)),
        Err(Stop::Memory) => Err(AllocError),
    }
}
