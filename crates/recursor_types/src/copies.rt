//! Copies of what a recursor is handed and of what it answers.
ghost use Rattle.std.specs.Prelude.{◌≡◌, IfOk};

use crate::error::{AuthorityData, RecursorError};
use crate::options::RecursorOptions;
use crate::reply::Reply;
use dns_core::{Message, NoMemory, TryClone};
use resolver_settings::Nets;
use std::alloc::Global;

fn nets_copy(alloc: Global, nets: &Nets) -> Result<Nets, NoMemory>
    ensures { IfOk result (λ copy. copy ≡ nets.now) }
{
    let copy = Vec::from_slice(alloc, nets.items())?;
    Ok(Nets::new(copy))
}

impl TryClone for RecursorOptions {
    fn try_clone(&self, alloc: Global) -> Result<Self, NoMemory> {
        let allow_answers = nets_copy(alloc, &self.allow_answers)?;
        let deny_answers = nets_copy(alloc, &self.deny_answers)?;
        let allow_server = nets_copy(alloc, &self.allow_server)?;
        let deny_server = nets_copy(alloc, &self.deny_server)?;
        let avoid_local_udp_ports = self.avoid_local_udp_ports.try_clone(alloc)?;
        let cache_policy = self.cache_policy.try_clone(alloc)?;
        let first_delays = self.first_delays.try_clone(alloc)?;
        Ok(RecursorOptions {
            response_cache_size: self.response_cache_size,
            recursion_limit: self.recursion_limit,
            ns_recursion_limit: self.ns_recursion_limit,
            allow_answers,
            deny_answers,
            allow_server,
            deny_server,
            avoid_local_udp_ports,
            cache_policy,
            case_randomization: self.case_randomization,
            edns_payload_len: self.edns_payload_len,
            first_delays,
        })
    }
}

impl TryClone for AuthorityData {
    fn try_clone(&self, alloc: Global) -> Result<Self, NoMemory> {
        let query = self.query.try_clone(alloc)?;
        let soa = self.soa.try_clone(alloc)?;
        let authorities = self.authorities.try_clone(alloc)?;
        Ok(AuthorityData {
            query,
            soa,
            no_records_found: self.no_records_found,
            nx_domain: self.nx_domain,
            authorities,
        })
    }
}

impl TryClone for RecursorError {
    fn try_clone(&self, alloc: Global) -> Result<Self, NoMemory> {
        match self {
            RecursorError::MaxRecordLimitExceeded { count, record_type } => {
                Ok(RecursorError::MaxRecordLimitExceeded {
                    count: *count,
                    record_type: *record_type,
                })
            }
            RecursorError::Message(kind) => Ok(RecursorError::Message(*kind)),
            RecursorError::Msg(text) => Ok(RecursorError::Msg(text.try_clone(alloc)?)),
            RecursorError::Negative(data) => Ok(RecursorError::Negative(data.try_clone(alloc)?)),
            RecursorError::ForwardNS(servers) => {
                Ok(RecursorError::ForwardNS(servers.try_clone(alloc)?))
            }
            RecursorError::Io(kind) => Ok(RecursorError::Io(*kind)),
            RecursorError::Net(error) => Ok(RecursorError::Net(error.try_clone(alloc)?)),
            RecursorError::Timeout => Ok(RecursorError::Timeout),
            RecursorError::RecursionLimitExceeded { count } => {
                Ok(RecursorError::RecursionLimitExceeded { count: *count })
            }
            RecursorError::QueryBudgetExceeded => Ok(RecursorError::QueryBudgetExceeded),
            RecursorError::NoNameServer { zone, cause } => {
                let zone = zone.try_clone(alloc)?;
                Ok(RecursorError::NoNameServer {
                    zone,
                    cause: *cause,
                })
            }
            RecursorError::NoMemory => Ok(RecursorError::NoMemory),
        }
    }
}

/// A copy of what a question came to.
fn outcome_copy(
    alloc: Global,
    outcome: &Result<Message, RecursorError>,
) -> Result<Result<Message, RecursorError>, NoMemory>
    ensures { IfOk result (λ copy. copy ≡ outcome.now) }
{
    match outcome {
        Ok(message) => Ok(Ok(message.try_clone(alloc)?)),
        Err(error) => Ok(Err(error.try_clone(alloc)?)),
    }
}

impl TryClone for Reply {
    fn try_clone(&self, alloc: Global) -> Result<Self, NoMemory> {
        let outcome = outcome_copy(alloc, &self.outcome)?;
        let grounds = self.grounds.try_clone(alloc)?;
        Ok(Reply { outcome, grounds })
    }
}
