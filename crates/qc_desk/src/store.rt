//! Which desk it is.
ghost use Rattle.atomic_table.specs.Seated.{TableId};

use crate::view::{OneHistory, View};
use atomic_table::Table;
use qc_event::Entry;
use std::alloc::Global;
use std::marker::Brand;

/// Which desk it is, and over what: its table of records, and the tuples with which its copies start. Each call
/// that names a desk picks them.
pub trait Store {
    ghost use Rattle.std.specs.Prelude.{List};
    ghost use Rattle.qc_config.specs.declared.tuple.Tuple.{Tuple};
    ghost use Rattle.qc_event.specs.declared.table.Table.{Table};
    ghost use Rattle.atomic_table.specs.Seated.{TableId};

    ghost desk: { TableId };

    ghost table: { Table };

    ghost base: { List (List Tuple) };
}

impl Store for Brand {
    ghost use Rattle.std.specs.Prelude.{[]};
    ghost use Rattle.qc_desk.specs.Nothing.{no_desk, no_table};

    ghost desk = { no_desk };

    ghost table = { no_table };

    ghost base = { [] };
}

/// The words of a desk: the length of the history, and the next number to draw.
pub(crate) type Room = Table<Entry, View, (), OneHistory, Global>;
