//! Where aliases lead, and what of a further response is appended.

use alias_rules::{append, follow};
use dns_core::{
    Bytes, Message, NameError, Query, RData, Record, RecordType, Records, ResponseCode,
};
use resolution::Follow;
use std::alloc::Global;
use std::test::Fail;
use tests_samples::{address, alias, domain, is_wanted, put, query, record, response, v4};

/// A response with these answers, and no other records.
fn answered(alloc: Global, answers: Records) -> Result<Message, NameError> {
    let none = Records::empty(alloc);
    Ok(response(
        query(alloc, "a.")?,
        ResponseCode::NoError,
        answers,
        none,
        Records::empty(alloc),
    ))
}

/// A response whose answers are these aliases, each from a name to a target.
fn aliases(alloc: Global, links: &[(&str, &str)]) -> Result<Message, NameError> {
    let mut answers = Records::empty(alloc);
    for (owner, target) in links {
        put(&mut answers, alias(alloc, owner, target))?;
    }
    answered(alloc, answers)
}

/// The question for the addresses of `a.` goes on at this name.
fn goes_on(alloc: Global, links: &[(&str, &str)], name: &str) -> Result<(), Fail> {
    let found = follow(alloc, &aliases(alloc, links)?, &query(alloc, "a.")?)?;
    is_wanted(found, Follow::Restart(domain(alloc, name)?))
}

/// It goes on nowhere.
fn ends(alloc: Global, links: &[(&str, &str)]) -> Result<(), Fail> {
    let found = follow(alloc, &aliases(alloc, links)?, &query(alloc, "a.")?)?;
    is_wanted(found, Follow::Done)
}

#[test]
fn an_alias_leads_to_the_first_name_that_is_not_answered(rt: HostRuntime) -> Result<(), Fail> {
    goes_on(rt.alloc(), &[("a.", "b.")], "b.")?;
    goes_on(rt.alloc(), &[("b.", "c."), ("A.", "B.")], "c.")?;
    goes_on(rt.alloc(), &[("a.", "b."), ("a.", "c.")], "b.")
}

#[test]
fn a_ring_leads_nowhere(rt: HostRuntime) -> Result<(), Fail> {
    ends(rt.alloc(), &[("a.", "A.")])?;
    ends(rt.alloc(), &[("a.", "b."), ("b.", "a.")])?;
    ends(rt.alloc(), &[("b.", "a.")])
}

/// A signature of records of this type at `b.`.
fn signature(alloc: Global, covered: RecordType) -> Result<Record, NameError> {
    let rest = Bytes::empty(alloc);
    let rdata = RData::RRSIG { covered, rest };
    record(alloc, "b.", 60, RecordType::RRSIG, rdata)
}

/// An address, and signatures of records of three types.
fn signed(alloc: Global) -> Result<Message, NameError> {
    let mut answers = Records::empty(alloc);
    put(&mut answers, address(alloc, "b.", 300, v4(7)))?;
    put(&mut answers, signature(alloc, RecordType::A))?;
    put(&mut answers, signature(alloc, RecordType::CNAME))?;
    put(&mut answers, signature(alloc, RecordType::AAAA))?;
    answered(alloc, answers)
}

fn joined(alloc: Global, asked: &Query) -> Result<usize, NameError> {
    let mut message = aliases(alloc, &[("a.", "b.")])?;
    append(alloc, &mut message, asked, signed(alloc)?)?;
    Ok(message.answers.len())
}

#[test]
fn signatures_of_other_types_are_not_appended(rt: HostRuntime) -> Result<(), Fail> {
    let count = joined(rt.alloc(), &query(rt.alloc(), "a.")?)?;
    is_wanted(count, 4)
}
