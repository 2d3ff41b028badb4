//! Whether a script has fully qualified names alone.
ghost use Rattle.std.specs.Prelude.{◌≡◌};
ghost use Rattle.std.specs.List.{list_all};
ghost use Rattle.dns_core.specs.Record.{is_qualified_data as qualified_data};
ghost use Rattle.dns_core.specs.Message.{is_qualified_record as qualified_record, is_qualified_message as qualified_message};
ghost use Rattle.dns_core.specs.NetError.{is_qualified_option as qualified_option, is_qualified_forward as qualified_forward, are_qualified_forwards as qualified_forwards, is_qualified_dns as qualified_dns, is_qualified_error as qualified_error};
ghost use Rattle.script_upstream.specs.Script.{is_plain as plain, is_qualified_line as qualified_line, is_qualified_script};

use crate::script::script::{Script, ScriptLine};
use dns_core::{Boxed, DnsError, ForwardNsData, Items, Message, NetError, RData, Record, Records};

impl Script {
    /// Whether the name of each line, and every name in the records that it tells, is fully
    /// qualified, and no connection is told a negative response.
    pub fn is_qualified(&self) -> bool
        ensures { result ≡ is_qualified_script self.now }
    {
        self.lines
            .items()
            .iter()
            .all(|line| is_qualified_line(line))
    }
}

fn is_qualified_line(line: &ScriptLine) -> bool
    ensures { result ≡ qualified_line line.now }
{
    match line {
        ScriptLine::Connect { error, .. } => is_plain(error),
        ScriptLine::Refuse { .. } => true,
        ScriptLine::Reply { name, outcome, .. } => {
            name.is_fqdn()
                && match outcome {
                    Ok(message) => is_qualified_message(message),
                    Err(error) => is_qualified_error(error),
                }
        }
    }
}

fn is_plain(error: &Option<NetError>) -> bool
    ensures { result ≡ plain error.now }
{
    match error {
        None => true,
        Some(error) => is_qualified_error(error) && !error.is_no_records_found(),
    }
}

fn is_qualified_data(rdata: &RData) -> bool
    ensures { result ≡ qualified_data rdata.now }
{
    match rdata {
        RData::NS(target) | RData::CNAME(target) => target.is_fqdn(),
        RData::SOA(soa) => soa.get().mname.is_fqdn() && soa.get().rname.is_fqdn(),
        RData::A(_) | RData::AAAA(_) | RData::RRSIG { .. } | RData::Opaque(_) => true,
    }
}

fn is_qualified_record(r: &Record) -> bool
    ensures { result ≡ qualified_record r.now }
{
    r.name.is_fqdn() && is_qualified_data(&r.rdata)
}

fn are_qualified(records: &Records) -> bool
    ensures { result ≡ list_all qualified_record records.now }
{
    records.items().iter().all(|r| is_qualified_record(r))
}

fn is_qualified_message(message: &Message) -> bool
    ensures { result ≡ qualified_message message.now }
{
    are_qualified(&message.answers)
        && are_qualified(&message.authorities)
        && are_qualified(&message.additionals)
}

fn is_qualified_forward(forward: &ForwardNsData) -> bool
    ensures { result ≡ qualified_forward forward.now }
{
    is_qualified_record(&forward.ns) && are_qualified(&forward.glue)
}

fn are_qualified_forwards(forwards: &Option<Items<ForwardNsData>>) -> bool
    ensures { result ≡ qualified_forwards forwards.now }
{
    match forwards {
        None => true,
        Some(forwards) => all_qualified(forwards),
    }
}

fn all_qualified(forwards: &Items<ForwardNsData>) -> bool
    ensures { result ≡ list_all qualified_forward forwards.now }
{
    forwards.items().iter().all(|f| is_qualified_forward(f))
}

fn is_qualified_option(found: &Option<Boxed<Record>>) -> bool
    ensures { result ≡ qualified_option found.now }
{
    match found {
        None => true,
        Some(record) => is_qualified_record(record.get()),
    }
}

fn is_qualified_dns(error: &DnsError) -> bool
    ensures { result ≡ qualified_dns error.now }
{
    match error {
        DnsError::NoRecordsFound(found) => {
            is_qualified_option(&found.soa)
                && are_qualified_forwards(&found.ns)
                && are_qualified(&found.authorities)
        }
        DnsError::ResponseCode(_) => true,
    }
}

fn is_qualified_error(error: &NetError) -> bool
    ensures { result ≡ qualified_error error.now }
{
    match error {
        NetError::ForeignClassRecord { record_name, .. } => record_name.is_fqdn(),
        NetError::Dns(error) => is_qualified_dns(error),
        _ => true,
    }
}
