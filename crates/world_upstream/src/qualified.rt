//! Whether a world has fully qualified names alone.
ghost use Rattle.std.specs.Prelude.{◌≡◌};
ghost use Rattle.std.specs.List.{list_all};
ghost use Rattle.dns_core.specs.Record.{is_qualified_data as qualified_data};
ghost use Rattle.dns_core.specs.Message.{is_qualified_record as qualified_record};
ghost use Rattle.world_upstream.specs.Qualified.{is_qualified_world as qualified_world};

use dns_core::{RData, Record, Records};
use zone_worlds::World;

fn is_qualified_data(rdata: &RData) -> bool
    ensures { result ≡ qualified_data rdata.now }
{
    match rdata {
        RData::NS(target) | RData::CNAME(target) => target.is_fqdn(),
        RData::SOA(soa) => soa.get().mname.is_fqdn() && soa.get().rname.is_fqdn(),
        RData::A(_) | RData::AAAA(_) | RData::RRSIG { .. } | RData::Opaque(_) => true,
    }
}

fn is_qualified_record(r: &Record) -> bool
    ensures { result ≡ qualified_record r.now }
{
    r.name.is_fqdn() && is_qualified_data(&r.rdata)
}

fn are_qualified(records: &Records) -> bool
    ensures { result ≡ list_all qualified_record records.now }
{
    records.items().iter().all(|r| is_qualified_record(r))
}

/// Whether every name in the records of the world is fully qualified.
pub fn is_qualified_world(world: &World) -> bool
    ensures { result ≡ qualified_world world.now }
{
    world
        .zones
        .items()
        .iter()
        .all(|z| are_qualified(&z.records))
}
