//! The orders that were given and have not ended, each with the number of its lookup.
ghost use Rattle.std.specs.Prelude.{◌≡◌, false, None, if◌then◌else◌};
ghost use Rattle.server_pool.specs.OpenLookups.{under, is_open_in};
ghost use Rattle.server_pool.specs.LookupOrders.{without_order, given_by};

use crate::open_lookups::open_lookup::{OpenLookup, is_open_in};
use dns_core::NoMemory;
use pool_lookup::LookupStep;
use std::collections::BTreeMap;

/// Forgets the order of a number.
pub fn take_out(orders: &mut BTreeMap<u64, u64>, number: u64)
    ensures entries { orders.new.entries ≡ without_order number orders.old.entries }
    ensures gone { under number orders.new.entries ≡ None }
{
    let _order = orders.remove(&number);
}

/// Keeps the order that has the next number, if the step gave it, which is the last one then. Else its
/// room is taken back.
pub fn keep_order(
    orders: &mut BTreeMap<u64, u64>,
    given: &mut u64,
    number: u64,
    made: &Result<LookupStep, NoMemory>,
)
    ensures orders { orders.new.entries ≡ given_by made.now orders.old.entries (without_order number orders.old.entries) }
    ensures given { given.new ≡ given_by made.now number given.old }
{
    match made {
        Ok(LookupStep::Order(_)) => {
            *given = number;
        }
        Ok(LookupStep::Waiting) => take_out(orders, number),
        Ok(LookupStep::Done(_)) => take_out(orders, number),
        Err(NoMemory) => take_out(orders, number),
    }
}

/// Forgets an order, where it is not open any more at its lookup.
pub fn drop_closed(
    lookups: &BTreeMap<u64, OpenLookup>,
    orders: &mut BTreeMap<u64, u64>,
    lookup: u64,
    number: u64,
)
    ensures entries { orders.new.entries ≡ (if is_open_in number lookups.now.entries lookup then orders.old.entries else without_order number orders.old.entries) }
    ensures gone { is_open_in number lookups.now.entries lookup ≡ false → under number orders.new.entries ≡ None }
{
    if !is_open_in(lookups, lookup, number) {
        take_out(orders, number);
    }
}
