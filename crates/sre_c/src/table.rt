//! The table of a caller's lists.

ghost use Rattle.std.specs.Prelude.{◌≡◌, IfSome, IfNone};
ghost use Rattle.sre_c.specs.Known.{table_in};
ghost use Rattle.sre_c.specs.Checked.{IsFaulty, TableChecked};

use crate::status::Status;
use crate::types::SreTable;
use sre_engine::LentTable;
use std::alloc::Global;

/// The table of a caller's lists, or `None` if one has a fault. The lists are read only if they are not `checked`.
#[inline]
pub fn table<'a>(alloc: Global, lists: &SreTable<'a>) -> Option<LentTable<'a>>
    ensures table { IfSome result (λ table. table ≡ table_in lists.now) }
    ensures faulty { IfNone result (IsFaulty lists.now) }
{
    if lists.checked {
        return Some(LentTable::lent_faultless(
            alloc,
            lists.lower,
            lists.upper,
            lists.alnum,
            lists.digits,
        ));
    }
    LentTable::lent(alloc, lists.lower, lists.upper, lists.alnum, lists.digits).ok()
}

/// Checks the lists of a table, and sets `error` and `checked`.
pub fn check_table(alloc: Global, lists: &mut SreTable<'_>) -> Status
    ensures checked { TableChecked result lists.new }
    ensures table { table_in lists.new ≡ table_in lists.old }
{
    let (error, status) = match LentTable::lent(
        alloc,
        lists.lower,
        lists.upper,
        lists.alnum,
        lists.digits,
    ) {
        Ok(_) => (0, Status::Yes),
        Err(error) => (error.number(), Status::FaultyTable),
    };
    *lists = SreTable {
        lower: lists.lower,
        upper: lists.upper,
        alnum: lists.alnum,
        digits: lists.digits,
        error,
        checked: error == 0,
    };
    status
}
