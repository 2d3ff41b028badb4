//! The recursor in a program of one's own: a transport, options, one question, its answer.
#![tactic(auto)]

mod transport;

use crate::transport::OneHost;
use dns_core::{DnsClass, Name, Query, Question, RData, RecordType};
use recursor_core::{Recursor, RecursorOptions, drive};
use std::alloc::Global;
use std::io;
use std::net::{IpAddr, Ipv4Addr};

/// The question for the addresses of a name; none where this is no name, or out of memory.
fn question(alloc: Global, name: &str) -> Option<Question> {
    let name = Name::parse(alloc, name).ok()?;
    let query = Query {
        name,
        query_type: RecordType::A,
        query_class: DnsClass { code: 1 },
    };
    Some(Question {
        query,
        dnssec_ok: false,
    })
}

/// The addresses of a name, found by a recursor that begins at one root; none where it cannot be set up or asked.
fn addresses(alloc: Global, name: &str) -> Option<Vec<Ipv4Addr>> {
    let roots = [IpAddr::V4(Ipv4Addr::new(198, 41, 0, 4))];
    let options = RecursorOptions::standard(alloc).ok()?;
    let transport = OneHost {
        alloc,
        address: Ipv4Addr::new(203, 0, 113, 7),
    };
    let mut recursor = Recursor::with_options(alloc, &roots, options, transport).ok()?;
    let questions = [question(alloc, name)?];
    let replies = drive(alloc, &mut recursor, &questions, &[], 3).ok()?;
    let mut found = Vec::new(alloc);
    for reply in replies.iter() {
        let Ok(message) = &reply.outcome else {
            continue;
        };
        for record in message.answers.items() {
            if let RData::A(address) = &record.rdata {
                found.push(*address).ok()?;
            }
        }
    }
    Some(found)
}

fn main(rt: HostRuntime) -> io::Result<()> {
    match addresses(rt.alloc(), "www.example.com.") {
        Some(found) => {
            for address in found.iter() {
                println!(rt; "www.example.com. {address}")?;
            }
        }
        None => println!(rt; "not resolved")?,
    }
    Ok(())
}
