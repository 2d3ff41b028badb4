//! The verdict on a world.
ghost use Rattle.std.specs.Prelude.{◌≡◌, IfOk, IsOk};
ghost use Rattle.world_layout.specs.Layout.{is_laid_out};
ghost use Rattle.world_layout.specs.Sight.{world_of};
ghost use Rattle.world_check.specs.Clauses.{clauses, first_failing, IsVerdict};

use crate::filters::{WorldFilters, has_allowed_addresses};
use crate::looked_up;
use crate::serving::{has_served_root, has_served_zones, is_delegated_well};
use dns_core::NoMemory;
use std::alloc::Global;
use std::net::IpAddr;
use world_layout::{Sight, has_sound_names, is_laid_out};
use zone_worlds::{IndexedWorld, World};

/// Whether a world is well served, or the number of the lowest clause that fails.
#[derive(Clone, Copy, Debug, PartialEq, Eq)]
pub enum Verdict {
    Yes,
    No(u8),
}

/// The first clause that fails, tried in their order, where it is known whether the second holds.
fn verdict_of(
    sight: Sight,
    laid_out: bool,
    roots: &[IpAddr],
    filters: &WorldFilters,
    patience: u32,
) -> Verdict
    requires { laid_out ≡ is_laid_out (world_of sight) }
    ensures { result ≡ first_failing 1 (clauses (world_of sight.entry) roots.now filters.now patience) }
{
    let world = sight.world();
    if !has_served_root(sight, roots) {
        return Verdict::No(1);
    }
    if !laid_out {
        return Verdict::No(2);
    }
    if !is_delegated_well(world) {
        return Verdict::No(3);
    }
    if !has_served_zones(sight) {
        return Verdict::No(4);
    }
    if !has_sound_names(sight) {
        return Verdict::No(5);
    }
    if !has_allowed_addresses(world, filters) {
        return Verdict::No(6);
    }
    if world.delay >= patience {
        return Verdict::No(7);
    }
    Verdict::Yes
}

/// Whether a world is well served for a recursor that begins at these root addresses, has these filters
/// and waits for so many polls; and else the number of the lowest clause that fails. Memory never
/// runs out for that.
pub fn check_world(
    _alloc: Global,
    world: &World,
    roots: &[IpAddr],
    options: &WorldFilters,
    patience: u32,
) -> Result<Verdict, NoMemory>
    ensures verdict { IfOk result (IsVerdict (clauses world.now roots.now options.now patience)) }
    ensures ok { IsOk result }
{
    let laid_out = is_laid_out(world);
    Ok(verdict_of(Sight::Plain(world), laid_out, roots, options, patience))
}

/// The verdict of `check_world`, by look-ups: each record costs a few, whatever the world.
pub fn check_indexed(
    alloc: Global,
    world: &IndexedWorld,
    roots: &[IpAddr],
    options: &WorldFilters,
    patience: u32,
) -> Result<Verdict, NoMemory>
    ensures { IfOk result (IsVerdict (clauses world.now roots.now options.now patience)) }
{
    let laid_out = looked_up::is_laid_out(alloc, world)?;
    Ok(verdict_of(Sight::Indexed(world), laid_out, roots, options, patience))
}
