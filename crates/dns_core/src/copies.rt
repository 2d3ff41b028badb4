//! Copies, which may want memory.
ghost use Rattle.std.specs.Prelude.{◌≡◌, IfOk};

use crate::boxed::Boxed;
use crate::connection::{ConnectOptions, ConnectionConfig, ProtocolConfig};
use crate::errors::NoMemory;
use crate::items::{Items, Text};
use crate::label::{Label, Letter};
use crate::log::{LogEntry, ToldOutcome};
use crate::memory_streams::{MemorySink, MemorySource};
use crate::message::{Message, Query};
use crate::name::Name;
use crate::net_error::{DnsError, ForwardNsData, NetError, NoRecords};
use crate::record::{RData, Record, Soa};
use crate::request::{DnsRequest, Question};
use std::alloc::Global;
use std::net::IpAddr;

/// What can be copied: the copy is the value.
pub trait TryClone: Drop {
    fn try_clone(&self, alloc: Global) -> Result<Self, NoMemory>
        ensures { IfOk result (λ copy. copy ≡ self.now) };
}

impl TryClone for u8 {
    fn try_clone(&self, _alloc: Global) -> Result<Self, NoMemory> {
        Ok(*self)
    }
}

impl TryClone for Letter {
    fn try_clone(&self, _alloc: Global) -> Result<Self, NoMemory> {
        Ok(*self)
    }
}

impl TryClone for u16 {
    fn try_clone(&self, _alloc: Global) -> Result<Self, NoMemory> {
        Ok(*self)
    }
}

impl TryClone for u64 {
    fn try_clone(&self, _alloc: Global) -> Result<Self, NoMemory> {
        Ok(*self)
    }
}

impl TryClone for IpAddr {
    fn try_clone(&self, _alloc: Global) -> Result<Self, NoMemory> {
        Ok(*self)
    }
}

impl<T: TryClone> TryClone for Option<T> {
    fn try_clone(&self, alloc: Global) -> Result<Self, NoMemory> {
        match self {
            Some(value) => {
                let copy = value.try_clone(alloc)?;
                Ok(Some(copy))
            }
            None => Ok(None),
        }
    }
}

/// The copies of some values, in their order.
pub fn try_clone_all<T: TryClone>(alloc: Global, items: &[T]) -> Result<Vec<T>, NoMemory>
    ensures { IfOk result (λ copy. copy.items ≡ items.now) }
{
    let mut all = Vec::with_capacity(alloc, items.len())?;
    for item in items {
        all.push(item.try_clone(alloc)?)?;
    }
    Ok(all)
}

impl<T: TryClone> TryClone for Items<T> {
    fn try_clone(&self, alloc: Global) -> Result<Self, NoMemory> {
        if self.is_empty() {
            return Ok(Items::empty(alloc));
        }
        let items = try_clone_all(alloc, self.items())?;
        Ok(Items::new(items))
    }
}

impl<T: TryClone> TryClone for Boxed<T> {
    fn try_clone(&self, alloc: Global) -> Result<Self, NoMemory> {
        let copy = self.get().try_clone(alloc)?;
        Boxed::new(alloc, copy)
    }
}

impl TryClone for Soa {
    fn try_clone(&self, alloc: Global) -> Result<Self, NoMemory> {
        let mname = self.mname.try_clone(alloc)?;
        let rname = self.rname.try_clone(alloc)?;
        Ok(Soa {
            mname,
            rname,
            serial: self.serial,
            refresh: self.refresh,
            retry: self.retry,
            expire: self.expire,
            minimum: self.minimum,
        })
    }
}

impl TryClone for RData {
    fn try_clone(&self, alloc: Global) -> Result<Self, NoMemory> {
        match self {
            RData::A(ip) => Ok(RData::A(*ip)),
            RData::AAAA(ip) => Ok(RData::AAAA(*ip)),
            RData::NS(name) => Ok(RData::NS(name.try_clone(alloc)?)),
            RData::CNAME(name) => Ok(RData::CNAME(name.try_clone(alloc)?)),
            RData::SOA(soa) => Ok(RData::SOA(soa.try_clone(alloc)?)),
            RData::RRSIG { covered, rest } => {
                let rest = rest.try_clone(alloc)?;
                Ok(RData::RRSIG {
                    covered: *covered,
                    rest,
                })
            }
            RData::Opaque(bytes) => Ok(RData::Opaque(bytes.try_clone(alloc)?)),
        }
    }
}

impl TryClone for Record {
    fn try_clone(&self, alloc: Global) -> Result<Self, NoMemory> {
        let name = self.name.try_clone(alloc)?;
        let rdata = self.rdata.try_clone(alloc)?;
        Ok(Record {
            name,
            ttl: self.ttl,
            dns_class: self.dns_class,
            record_type: self.record_type,
            rdata,
        })
    }
}

impl TryClone for Query {
    fn try_clone(&self, alloc: Global) -> Result<Self, NoMemory> {
        let name = self.name.try_clone(alloc)?;
        Ok(Query {
            name,
            query_type: self.query_type,
            query_class: self.query_class,
        })
    }
}

impl TryClone for Message {
    fn try_clone(&self, alloc: Global) -> Result<Self, NoMemory> {
        let query = self.query.try_clone(alloc)?;
        let answers = self.answers.try_clone(alloc)?;
        let authorities = self.authorities.try_clone(alloc)?;
        let additionals = self.additionals.try_clone(alloc)?;
        Ok(Message {
            query,
            response_code: self.response_code,
            authoritative: self.authoritative,
            truncation: self.truncation,
            answers,
            authorities,
            additionals,
        })
    }
}

impl TryClone for ForwardNsData {
    fn try_clone(&self, alloc: Global) -> Result<Self, NoMemory> {
        let ns = self.ns.try_clone(alloc)?;
        let glue = self.glue.try_clone(alloc)?;
        Ok(ForwardNsData { ns, glue })
    }
}

impl TryClone for NoRecords {
    fn try_clone(&self, alloc: Global) -> Result<Self, NoMemory> {
        let query = self.query.try_clone(alloc)?;
        let soa = self.soa.try_clone(alloc)?;
        let ns = self.ns.try_clone(alloc)?;
        let authorities = self.authorities.try_clone(alloc)?;
        Ok(NoRecords {
            query,
            soa,
            ns,
            response_code: self.response_code,
            authorities,
        })
    }
}

impl TryClone for DnsError {
    fn try_clone(&self, alloc: Global) -> Result<Self, NoMemory> {
        match self {
            DnsError::NoRecordsFound(data) => Ok(DnsError::NoRecordsFound(data.try_clone(alloc)?)),
            DnsError::ResponseCode(code) => Ok(DnsError::ResponseCode(*code)),
        }
    }
}

impl TryClone for NetError {
    fn try_clone(&self, alloc: Global) -> Result<Self, NoMemory> {
        match self {
            NetError::Busy => Ok(NetError::Busy),
            NetError::Io(kind) => Ok(NetError::Io(*kind)),
            NetError::Timeout => Ok(NetError::Timeout),
            NetError::NoConnections => Ok(NetError::NoConnections),
            NetError::Truncated => Ok(NetError::Truncated),
            NetError::QueryCaseMismatch => Ok(NetError::QueryCaseMismatch),
            NetError::ForeignClassRecord {
                record_name,
                record_class,
                record_type,
            } => {
                let record_name = record_name.try_clone(alloc)?;
                Ok(NetError::ForeignClassRecord {
                    record_name,
                    record_class: *record_class,
                    record_type: *record_type,
                })
            }
            NetError::Dns(error) => Ok(NetError::Dns(error.try_clone(alloc)?)),
            NetError::Msg(text) => Ok(NetError::Msg(text.try_clone(alloc)?)),
            NetError::NoMemory => Ok(NetError::NoMemory),
        }
    }
}

impl TryClone for Name {
    fn try_clone(&self, _alloc: Global) -> Result<Self, NoMemory> {
        self.copied()
    }
}

impl TryClone for Text {
    fn try_clone(&self, alloc: Global) -> Result<Self, NoMemory> {
        self.copied(alloc)
    }
}

impl TryClone for ToldOutcome {
    fn try_clone(&self, alloc: Global) -> Result<Self, NoMemory> {
        match self {
            ToldOutcome::Connected => Ok(ToldOutcome::Connected),
            ToldOutcome::Message(message) => Ok(ToldOutcome::Message(message.try_clone(alloc)?)),
            ToldOutcome::Error(error) => Ok(ToldOutcome::Error(error.try_clone(alloc)?)),
        }
    }
}

impl TryClone for LogEntry {
    fn try_clone(&self, alloc: Global) -> Result<Self, NoMemory> {
        match self {
            LogEntry::Opened {
                ip,
                protocol,
                moment,
                refused,
            } => {
                let refused = refused.try_clone(alloc)?;
                Ok(LogEntry::Opened {
                    ip: *ip,
                    protocol: *protocol,
                    moment: *moment,
                    refused,
                })
            }
            LogEntry::Asked {
                ip,
                protocol,
                query,
                moment,
                refused,
            } => {
                let query = query.try_clone(alloc)?;
                let refused = refused.try_clone(alloc)?;
                Ok(LogEntry::Asked {
                    ip: *ip,
                    protocol: *protocol,
                    query,
                    moment: *moment,
                    refused,
                })
            }
            LogEntry::Waited { of } => Ok(LogEntry::Waited { of: *of }),
            LogEntry::Told {
                of,
                moment,
                outcome,
            } => {
                let outcome = outcome.try_clone(alloc)?;
                Ok(LogEntry::Told {
                    of: *of,
                    moment: *moment,
                    outcome,
                })
            }
            LogEntry::GaveUp { of, moment } => Ok(LogEntry::GaveUp {
                of: *of,
                moment: *moment,
            }),
        }
    }
}

impl TryClone for ProtocolConfig {
    fn try_clone(&self, alloc: Global) -> Result<Self, NoMemory> {
        match self {
            ProtocolConfig::Udp => Ok(ProtocolConfig::Udp),
            ProtocolConfig::Tcp => Ok(ProtocolConfig::Tcp),
            ProtocolConfig::Tls { server_name } => Ok(ProtocolConfig::Tls {
                server_name: server_name.try_clone(alloc)?,
            }),
            ProtocolConfig::Https { server_name, path } => {
                let server_name = server_name.try_clone(alloc)?;
                let path = path.try_clone(alloc)?;
                Ok(ProtocolConfig::Https { server_name, path })
            }
            ProtocolConfig::Quic { server_name } => Ok(ProtocolConfig::Quic {
                server_name: server_name.try_clone(alloc)?,
            }),
            ProtocolConfig::H3 {
                server_name,
                path,
                disable_grease,
            } => {
                let server_name = server_name.try_clone(alloc)?;
                let path = path.try_clone(alloc)?;
                Ok(ProtocolConfig::H3 {
                    server_name,
                    path,
                    disable_grease: *disable_grease,
                })
            }
        }
    }
}

impl TryClone for ConnectionConfig {
    fn try_clone(&self, alloc: Global) -> Result<Self, NoMemory> {
        let protocol = self.protocol.try_clone(alloc)?;
        Ok(ConnectionConfig {
            port: self.port,
            protocol,
            bind_addr: self.bind_addr,
        })
    }
}

impl TryClone for ConnectOptions {
    fn try_clone(&self, alloc: Global) -> Result<Self, NoMemory> {
        let avoid_local_udp_ports = self.avoid_local_udp_ports.try_clone(alloc)?;
        Ok(ConnectOptions {
            timeout: self.timeout,
            max_active_requests: self.max_active_requests,
            case_randomization: self.case_randomization,
            os_port_selection: self.os_port_selection,
            avoid_local_udp_ports,
        })
    }
}

impl TryClone for DnsRequest {
    fn try_clone(&self, alloc: Global) -> Result<Self, NoMemory> {
        let query = self.query.try_clone(alloc)?;
        Ok(DnsRequest {
            query,
            options: self.options,
        })
    }
}

impl TryClone for Question {
    fn try_clone(&self, alloc: Global) -> Result<Self, NoMemory> {
        let query = self.query.try_clone(alloc)?;
        Ok(Question {
            query,
            dnssec_ok: self.dnssec_ok,
        })
    }
}

impl TryClone for Label {
    fn try_clone(&self, alloc: Global) -> Result<Self, NoMemory> {
        let letters = try_clone_all(alloc, self.letters())?;
        Ok(Label::new(letters))
    }
}

impl TryClone for MemorySource {
    fn try_clone(&self, alloc: Global) -> Result<Self, NoMemory> {
        self.copied(alloc)
    }
}

impl TryClone for MemorySink {
    fn try_clone(&self, alloc: Global) -> Result<Self, NoMemory> {
        self.copied(alloc)
    }
}
