//! What is kept when a lookup begins: the lookup under its number, and whose turn it is then.
ghost use Rattle.std.specs.Prelude.{◌≡◌, ◌≢◌, ◌+◌, ℕ, IfOk, OnOk, OnErr, None, unwrap_or};
ghost use Rattle.std.specs.BTreeMap.{insert_entry};
ghost use Rattle.std.specs.Ordering.{nat_cmp};
ghost use Rattle.server_pool.specs.OpenLookups.{under};

use crate::open_lookups::open_lookup::{OpenLookup, take_lookup};
use dns_core::NoMemory;
use std::collections::BTreeMap;

/// Keeps whose turn it is in the pool of a number, where that has changed.
fn keep_turn(
    turns: &mut BTreeMap<u64, usize>,
    pool: u64,
    before: usize,
    turn: usize,
) -> Result<(), NoMemory>
    requires { unwrap_or (under pool turns.old.entries) 0 ≡ before }
    ensures ok { OnOk result (unwrap_or (under pool turns.new.entries) 0 ≡ turn) }
    ensures others { (n : ℕ) → n ≢ pool → under n turns.new.entries ≡ under n turns.old.entries }
    ensures err { OnErr result (turns.new.entries ≡ turns.old.entries) }
{
    if turn == before {
        return Ok(());
    }
    let _before = turns.insert(pool, turn)?;
    Ok(())
}

fn add_lookup(
    lookups: &mut BTreeMap<u64, OpenLookup>,
    number: u64,
    lookup: OpenLookup,
) -> Result<(), NoMemory>
    ensures ok { OnOk result (lookups.new.entries ≡ insert_entry nat_cmp lookups.old.entries number lookup) }
    ensures err { OnErr result (lookups.new.entries ≡ lookups.old.entries) }
{
    let _none = lookups.insert(number, lookup)?;
    Ok(())
}

/// Keeps a lookup under its number, which is new, and whose turn it is then in the pool of a number.
/// Where memory runs out, nothing has changed.
pub fn add_begun(
    lookups: &mut BTreeMap<u64, OpenLookup>,
    turns: &mut BTreeMap<u64, usize>,
    number: u64,
    lookup: OpenLookup,
    before: usize,
    turn: usize,
) -> Result<(), NoMemory>
    requires fresh { under number lookups.old.entries ≡ None }
    requires turns { unwrap_or (under lookup.pool turns.old.entries) 0 ≡ before }
    ensures ok { OnOk result (lookups.new.entries ≡ insert_entry nat_cmp lookups.old.entries number lookup) }
    ensures turn { OnOk result (unwrap_or (under lookup.pool turns.new.entries) 0 ≡ turn) }
    ensures turns { (n : ℕ) → n ≢ lookup.pool → under n turns.new.entries ≡ under n turns.old.entries }
    ensures err { OnErr result ((lookups.new.entries ≡ lookups.old.entries) × (turns.new.entries ≡ turns.old.entries)) }
{
    let pool = lookup.pool;
    add_lookup(lookups, number, lookup)?;
    match keep_turn(turns, pool, before, turn) {
        Ok(()) => Ok(()),
        Err(NoMemory) => {
            take_lookup(lookups, number);
            Err(NoMemory)
        }
    }
}
