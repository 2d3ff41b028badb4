//! The name that a question is walked to, and what a walk looks for on its way there: the NS records of
//! each candidate in turn (RFC 1034 section 5.3.3).
ghost use Rattle.std.specs.Prelude.{◌≡◌, IfOk};
ghost use Rattle.resolution.specs.Names.{walk};
ghost use Rattle.walk_response.specs.Candidate.{candidate_query};

use dns_core::{DnsClass, Name, NoMemory, Query, RecordType, TryClone};
use std::alloc::Global;

/// The name that a question is walked to: its own, and for DS the parent's, since DS records are
/// the parent's (RFC 4035 section 3.1.4.1).
pub fn walked_name(alloc: Global, query: &Query) -> Result<Name, NoMemory>
    ensures { IfOk result (λ name. name ≡ walk query.now) }
{
    if query.query_type == RecordType::DS {
        query.name.base_name(alloc)
    } else {
        query.name.try_clone(alloc)
    }
}

/// What is looked for at the candidate that has the last labels of the name, so many of them.
pub fn candidate_query(alloc: Global, name: &Name, labels: usize) -> Result<Query, NoMemory>
    ensures { IfOk result (λ asked. asked ≡ candidate_query name.now labels) }
{
    Ok(Query {
        name: name.trim_to(alloc, labels)?,
        query_type: RecordType::NS,
        query_class: DnsClass::IN,
    })
}
