//! Where the aliases inside a response lead. Only its answers are read.
ghost use Rattle.std.specs.Prelude.{◌≡◌, ◌||◌, ◌==◌, [], suc, length, IfOk};
ghost use Rattle.std.specs.Option.{option_copied};
ghost use Rattle.resolution.specs.Following.{is_owned, owns, alias_of, alias_at, follow_from, follow};
ghost use Rattle.alias_rules.specs.Restarts.{restart_at};

use dns_core::{Message, Name, NoMemory, Query, RData, Record, RecordType, TryClone};
use resolution::Follow;
use std::alloc::Global;

fn is_owned(r: &Record, asked: RecordType, name: &Name) -> bool
    ensures { result ≡ is_owned asked name.now r.now }
{
    r.name == *name && r.record_type == asked
}

/// Whether the name owns a record of the type.
fn owns(answers: &[Record], asked: RecordType, name: &Name) -> bool
    ensures { result ≡ owns answers.now asked name.now }
{
    answers.iter().any(|r| is_owned(r, asked, name))
}

/// The target of a CNAME record at the name.
fn alias_of<'a>(r: &'a Record, name: &Name) -> Option<&'a Name>
    ensures { option_copied result ≡ alias_of name.now r.now }
{
    if r.name != *name {
        return None;
    }
    match &r.rdata {
        RData::CNAME(target) => Some(target),
        _ => None,
    }
}

/// The target of the first CNAME record at the name.
fn alias_at<'a>(answers: &'a [Record], name: &Name) -> Option<&'a Name>
    ensures { option_copied result ≡ alias_at answers.now name.now }
{
    for r in answers {
        if let Some(target) = alias_of(r, name) {
            return Some(target);
        }
    }
    None
}

/// The name at which a question goes on, by the aliases from a name on: the first of which nothing is said.
/// There is none where a name owns the asked type, and in a ring, which is left after as many steps as a
/// chain of all the answers would have.
fn restart_from<'a>(answers: &'a [Record], asked: RecordType, name: &'a Name) -> Option<&'a Name>
    ensures { restart_at (option_copied result) ≡ follow_from (suc (length answers.now)) answers.now asked [] name.now }
{
    let mut current = name;
    let mut left = answers.len();
    'links: loop {
        if owns(answers, asked, current) {
            return None;
        }
        let Some(target) = alias_at(answers, current) else {
            return Some(current);
        };
        if left == 0 {
            return None;
        }
        left -= 1;
        current = target;
    }
}

/// Whether a question for the type is not led on by aliases: one for CNAME, or for all types.
fn is_final(asked: RecordType) -> bool
    ensures { result ≡ (asked.code == 5 || asked.code == 255) }
{
    asked == RecordType::CNAME || asked == RecordType::ANY
}

/// The name at which a question goes on behind a response.
fn restart_of<'a>(message: &'a Message, query: &'a Query) -> Option<&'a Name>
    ensures { restart_at (option_copied result) ≡ follow message.now query.now }
{
    let answers = message.answers.items();
    if is_final(query.query_type) {
        return None;
    }
    let Some(_target) = alias_at(answers, &query.name) else {
        return None;
    };
    restart_from(answers, query.query_type, &query.name)
}

/// Where the aliases of a response to a question lead.
pub fn follow(alloc: Global, message: &Message, query: &Query) -> Result<Follow, NoMemory>
    ensures { IfOk result (λ led. led ≡ follow message.now query.now) }
{
    match restart_of(message, query) {
        Some(name) => Ok(Follow::Restart(name.try_clone(alloc)?)),
        None => Ok(Follow::Done),
    }
}
