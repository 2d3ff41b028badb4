//! What has come of a world so far.
ghost use Rattle.std.specs.Prelude.{◌≡◌, OnOk, is_some};
ghost use Rattle.recursor_text.specs.declared.world_reading.lines.WorldForm.TheVariants as form;
ghost use Rattle.recursor_text.specs.WorldSteps.{Steps, may_delay, may_alias, may_zone, may_host, start, opened, settled, filled, name_zones, put, added, taken, may_close, world_of};

use crate::world_reading::counts::Count;
use crate::world_reading::lines::{WorldForm, ZoneHead, world_line};
use crate::world_reading::listed::{HostList, ZoneList};
use dns_core::{NoMemory, Record, Records};
use std::alloc::Global;
use text_lines::{LineError, pass, record_line};
use zone_worlds::{Host, World, Zone};

/// How many zones and hosts a world may have.
const MOST_ZONES: usize = 10_000;

const MOST_HOSTS: usize = 65_535;

/// The last kind of line of a world that was taken.
#[derive(Clone, Copy)]
pub enum WorldStage {
    Start,
    Delayed,
    Aliased,
    Zoned,
    Hosted,
}

/// A zone that still owes records: it is whole where it has as many as its count says.
#[derive(Drop)]
pub struct OpenZone {
    pub zone: Zone,
    pub count: Count,
}

/// What the lines of a world so far say: `pending` is a zone that owes records.
#[derive(Drop)]
pub struct WorldDraft {
    pub stage: WorldStage,
    pub delay: u32,
    pub chain: bool,
    pub zones: ZoneList,
    pub pending: Option<OpenZone>,
    pub hosts: HostList,
}

impl WorldStage {
    fn may_delay(self) -> bool
        ensures { result ≡ may_delay self }
    {
        matches!(&self, WorldStage::Start)
    }

    fn may_alias(self) -> bool
        ensures { result ≡ may_alias self }
    {
        matches!(&self, WorldStage::Delayed)
    }

    fn may_zone(self) -> bool
        ensures { result ≡ may_zone self }
    {
        matches!(&self, WorldStage::Aliased | WorldStage::Zoned)
    }

    fn may_host(self) -> bool
        ensures { result ≡ may_host self }
    {
        matches!(&self, WorldStage::Zoned | WorldStage::Hosted)
    }
}

/// A zone none of whose records is there yet.
fn opened(alloc: Global, head: ZoneHead) -> OpenZone
    ensures { result ≡ opened head }
{
    OpenZone {
        zone: Zone {
            apex: head.apex,
            records: Records::empty(alloc),
        },
        count: head.count,
    }
}

/// Adds a record to the zone.
fn fill(open: &mut OpenZone, entry: Record) -> Result<(), NoMemory>
    ensures { OnOk result (open.new ≡ filled open.old entry) }
{
    open.zone.records.push(entry)?;
    Ok(())
}

/// Each number is that of one of so many zones.
fn name_zones(numbers: &[u32], zones: usize) -> bool
    ensures { result ≡ name_zones zones numbers.now }
{
    numbers.iter().all(|number| *number as usize <= zones)
}

impl WorldDraft {
    pub fn new(alloc: Global) -> Self
        ensures { result ≡ start }
    {
        WorldDraft {
            stage: WorldStage::Start,
            delay: 0,
            chain: false,
            zones: ZoneList::new(alloc),
            pending: None,
            hosts: HostList::new(alloc),
        }
    }

    /// Whether the next line is that of a record.
    pub fn owes(&self) -> bool
        ensures { result ≡ is_some self.now.pending }
    {
        self.pending.is_some()
    }

    /// Whether the lines so far are a whole world.
    pub fn may_close(&self) -> bool
        ensures { result ≡ may_close self.now }
    {
        self.stage.may_host() && self.pending.is_none()
    }

    /// The world, with the zones and the hosts that are there.
    pub fn into_world(self) -> World
        ensures { result ≡ world_of self }
    {
        World {
            zones: self.zones.into_items(),
            hosts: self.hosts.into_items(),
            chain: self.chain,
            delay: self.delay,
        }
    }

    fn settle(&mut self, alloc: Global, partial: OpenZone) -> Result<(), NoMemory>
        ensures { OnOk result (self.new ≡ settled self.old partial) }
    {
        if partial.count.is(partial.zone.records.len()) {
            self.zones.push(alloc, partial.zone)?;
            self.pending = None;
        } else {
            self.pending = Some(partial);
        }
        Ok(())
    }

    fn put_delay(&mut self, delay: u32) -> Result<(), LineError>
        ensures { Steps result self.new (put self.old (form.Delay delay)) }
    {
        pass(self.stage.may_delay())?;
        self.delay = delay;
        self.stage = WorldStage::Delayed;
        Ok(())
    }

    fn put_aliases(&mut self, chain: bool) -> Result<(), LineError>
        ensures { Steps result self.new (put self.old (form.Aliases chain)) }
    {
        pass(self.stage.may_alias())?;
        self.chain = chain;
        self.stage = WorldStage::Aliased;
        Ok(())
    }

    fn put_zone(&mut self, alloc: Global, head: ZoneHead) -> Result<(), LineError>
        ensures { Steps result self.new (put self.old (form.Zone head)) }
    {
        pass(
            self.stage.may_zone() && self.zones.len() < MOST_ZONES && !self.zones.has(&head.apex),
        )?;
        self.stage = WorldStage::Zoned;
        self.settle(alloc, opened(alloc, head))?;
        Ok(())
    }

    fn put_host(&mut self, host: Host) -> Result<(), LineError>
        ensures { Steps result self.new (put self.old (form.Host host)) }
    {
        pass(
            self.stage.may_host()
                && self.hosts.len() < MOST_HOSTS
                && !self.hosts.has(&host.ip)
                && name_zones(host.zones.items(), self.zones.len()),
        )?;
        self.hosts.push(host)?;
        self.stage = WorldStage::Hosted;
        Ok(())
    }

    fn put(&mut self, alloc: Global, form: WorldForm) -> Result<(), LineError>
        ensures { Steps result self.new (put self.old form) }
    {
        match form {
            WorldForm::Delay(delay) => self.put_delay(delay),
            WorldForm::Aliases(chain) => self.put_aliases(chain),
            WorldForm::Zone(head) => self.put_zone(alloc, head),
            WorldForm::Host(host) => self.put_host(host),
        }
    }

    /// A record of the zone that owes it.
    fn add(&mut self, alloc: Global, partial: OpenZone, line: &[u8]) -> Result<(), LineError>
        ensures { Steps result self.new (added self.old partial line.now) }
    {
        let entry = record_line(alloc, line)?;
        pass(entry.dns_class.code == 1)?;
        let mut open = partial;
        fill(&mut open, entry)?;
        self.settle(alloc, open)?;
        Ok(())
    }

    /// Takes the next line. After an error the draft is of no use.
    pub fn take(&mut self, alloc: Global, line: &[u8]) -> Result<(), LineError>
        ensures { Steps result self.new (taken self.old line.now) }
    {
        match self.pending.take() {
            Some(open) => self.add(alloc, open, line),
            None => {
                let form = world_line(alloc, line)?;
                self.put(alloc, form)
            }
        }
    }
}
