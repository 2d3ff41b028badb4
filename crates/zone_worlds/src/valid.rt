//! Which questions a recursor must answer as the world does.
ghost use Rattle.std.specs.Prelude.{◌≡◌, ◌↔◌, ◌&&◌, ◌==◌, not, IfOk, IsTrue};
ghost use Rattle.dns_core.specs.Codes.{is_data_type};
ghost use Rattle.zone_worlds.specs.Index.{IsIndex};
ghost use Rattle.zone_worlds.specs.Valid.{is_askable, IsValid};

use crate::answer::way_of;
use crate::index::Index;
use dns_core::{NoMemory, Query};
use std::alloc::Global;
use zone_rules::{World, is_short};

/// Whether the question is of class IN, of a fully qualified name, for data other than SOA.
fn is_askable(query: &Query) -> bool
    ensures { result ≡ is_askable query.now }
{
    query.query_class.code == 1
        && query.name.is_fqdn()
        && query.query_type.is_data()
        && query.query_type.code != 6
}

/// Whether a question is valid, found by the index of the world.
pub(crate) fn is_valid(
    alloc: Global,
    world: &World,
    index: &Index,
    recursion_limit: u8,
    ns_recursion_limit: u8,
    query: &Query,
) -> Result<bool, NoMemory>
    requires { IsIndex world.now index.now }
    ensures { IfOk result (λ valid. IsTrue valid ↔ IsValid world.now recursion_limit ns_recursion_limit query.now) }
{
    if !is_askable(query) {
        return Ok(false);
    }
    let Some(way) = way_of(alloc, world, index, query)? else {
        return Ok(false);
    };
    Ok(is_short(way.names.as_slice(), recursion_limit, ns_recursion_limit))
}

/// Whether a recursor with these depth limits must answer the question as the world does. Makes an index
/// of the world for one question.
pub fn valid_question(
    alloc: Global,
    world: &World,
    recursion_limit: u8,
    ns_recursion_limit: u8,
    query: &Query,
) -> Result<bool, NoMemory>
    ensures { IfOk result (λ valid. IsTrue valid ↔ IsValid world.now recursion_limit ns_recursion_limit query.now) }
{
    let index = Index::of(alloc, world)?;
    is_valid(
        alloc,
        world,
        &index,
        recursion_limit,
        ns_recursion_limit,
        query,
    )
}
