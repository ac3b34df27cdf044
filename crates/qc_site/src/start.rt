//! The tuples with which a copy starts: what its grants restore that logged tops keep, from its base.
ghost use Rattle.std.specs.Prelude.{◌≡◌, length, map, IfOk};
ghost use Rattle.qc_codec.specs.Base.{tuples_of_base};
ghost use Rattle.qc_codec.specs.Restored as kept;
ghost use Rattle.qc_desk.specs.Held.{from_row};
ghost use Rattle.qc_event.specs.Tables.{first_tuple};

use crate::beginning::Beginning;
use crate::tops::{is_kept, places_of};
use qc_codec::{BaseRecord, Logged};
use qc_config::{Op, Tuple};
use qc_desk::change_tuple;
use qc_event::{Grant, Table};
use qc_names::lists::append;
use std::alloc::{AllocError, Global};

// The first tuples of a table's records.
fn first_tuples(alloc: Global, table: &Table) -> Result<Vec<Tuple>, AllocError>
    ensures { IfOk result (λ tuples. tuples.items ≡ map first_tuple table.now.records) }
{
    let mut tuples = Vec::new(alloc);
    for row in table.records.as_slice() {
        let first = Tuple {
            version: 0,
            value: row.start,
            generation: 0,
            config: row.config,
        };
        append(&mut tuples, first)?;
    }
    Ok(tuples)
}

// The tuples of the base, where there is one, else the first ones.
fn base_tuples(
    alloc: Global,
    table: &Table,
    base: &Option<BaseRecord>,
) -> Result<Vec<Tuple>, AllocError>
    ensures { IfOk result (λ tuples. tuples.items ≡ tuples_of_base table.now base.now) }
{
    match base {
        Some(base) => base.tuples.as_slice().to_vec(alloc),
        None => first_tuples(alloc, table),
    }
}

// It makes the type known that a grant holds.
fn is_op(_op: &Op) {}

// The tuples of a copy that its grants restore.
fn restored_row(
    alloc: Global,
    table: &Table,
    tops: &[Logged],
    base: &Option<BaseRecord>,
    grants: &[Grant],
) -> Result<Vec<Tuple>, AllocError>
    requires { length (tuples_of_base table.now base.now) ≡ length table.now.records }
    ensures { IfOk result (λ tuples. tuples.items ≡ kept.restored_row tops.now
        (length table.now.records) (from_row (tuples_of_base table.now base.now)) grants.now) }
{
    let places = places_of(alloc, tops)?;
    let mut tuples = base_tuples(alloc, table, base)?;
    for grant in grants {
        is_op(&grant.op);
        if is_kept(tops, &places, &grant.access) {
            change_tuple(&mut tuples, grant);
        }
    }
    Ok(tuples)
}

/// What a copy starts with that its grants restore, from its base.
pub(crate) fn restored_beginning(
    alloc: Global,
    table: &Table,
    tops: &[Logged],
    base: &Option<BaseRecord>,
    grants: &[Grant],
) -> Result<Beginning, AllocError>
    requires { length (tuples_of_base table.now base.now) ≡ length table.now.records }
    ensures { IfOk result (λ b. b ≡ kept.restored_row tops.now
        (length table.now.records) (from_row (tuples_of_base table.now base.now)) grants.now) }
{
    let tuples = restored_row(alloc, table, tops, base, grants)?;
    Beginning::new(alloc, tuples)
}
