//! The lines of a scenario that are no record lines, each read on its own.
ghost use Rattle.std.specs.Prelude.{◌≡◌};
ghost use Rattle.text_lines.specs.Fields.{Gives, GivesFields, field, in_table};
ghost use Rattle.text_lines.specs.Lines.{protocols, failures, flags, dnssec_words, counts_fields, message_fields, delay_field, connected_fields, answered_fields, bare_message, connect_rule, head_of, root_of, option_of, patience_of, told_of, connect_of, refuse_of, reply_of, question_of, turn_of, end_line_of, form_of};

use crate::lines::option_form::{OptionLine, option_line};
use crate::lines::rules::{Counts, MessageHead, OpenRule};
use crate::words::{LineError, Words};
use dns_core::{
    DnsClass, IoKind, Message, Name, NetError, Protocol, Query, Question, RecordType, Records, Turn,
};
use script_upstream::ScriptLine;
use std::alloc::Global;
use std::net::IpAddr;

/// What a line says that is no record line.
#[derive(Drop)]
pub enum Form {
    Head,
    Root(IpAddr),
    Option(OptionLine),
    Patience(u32),
    ToldScript,
    /// A rule, none of whose records is there yet.
    Reply(OpenRule),
    /// A line of a script that is whole: no records follow it.
    Rule(ScriptLine),
    Question(Question),
    Turn(Turn),
    End,
}

// ---- words that stand for values

fn protocol(words: &mut Words) -> Result<Protocol, LineError>
    ensures { GivesFields result words.new (field (in_table protocols) words.old) }
{
    let Some(word) = words.next() else {
        return Err(LineError::Refused);
    };
    if word == b"udp".as_slice() {
        return Ok(Protocol::Udp);
    }
    if word == b"tcp".as_slice() {
        return Ok(Protocol::Tcp);
    }
    Err(LineError::Refused)
}

/// An error that a connection or a question comes to.
fn failure(words: &mut Words) -> Result<NetError, LineError>
    ensures { GivesFields result words.new (field (in_table failures) words.old) }
{
    let Some(word) = words.next() else {
        return Err(LineError::Refused);
    };
    if word == b"busy".as_slice() {
        return Ok(NetError::Busy);
    }
    if word == b"io".as_slice() {
        return Ok(NetError::Io(IoKind::Other));
    }
    if word == b"closed".as_slice() {
        return Ok(NetError::Io(IoKind::Closed));
    }
    if word == b"refused".as_slice() {
        return Ok(NetError::Io(IoKind::Refused));
    }
    if word == b"timeout".as_slice() {
        return Ok(NetError::Timeout);
    }
    if word == b"noconnections".as_slice() {
        return Ok(NetError::NoConnections);
    }
    if word == b"mismatch".as_slice() {
        return Ok(NetError::QueryCaseMismatch);
    }
    Err(LineError::Refused)
}

/// Whether AA is set, and whether TC is.
fn flags(words: &mut Words) -> Result<(bool, bool), LineError>
    ensures { GivesFields result words.new (field (in_table flags) words.old) }
{
    let Some(word) = words.next() else {
        return Err(LineError::Refused);
    };
    if word == b"none".as_slice() {
        return Ok((false, false));
    }
    if word == b"aa".as_slice() {
        return Ok((true, false));
    }
    if word == b"tc".as_slice() {
        return Ok((false, true));
    }
    if word == b"aa+tc".as_slice() {
        return Ok((true, true));
    }
    Err(LineError::Refused)
}

/// Whether DNSSEC records are asked for.
pub fn dnssec_word(words: &mut Words) -> Result<bool, LineError>
    ensures { GivesFields result words.new (field (in_table dnssec_words) words.old) }
{
    let Some(word) = words.next() else {
        return Err(LineError::Refused);
    };
    if word == b"plain".as_slice() {
        return Ok(false);
    }
    if word == b"dnssec".as_slice() {
        return Ok(true);
    }
    Err(LineError::Refused)
}

// ---- the kinds of lines, each after its first word

#[tactic(auto, unfolding(crate::specs::Lines::head_of))]
fn head_line(words: &mut Words) -> Result<Form, LineError>
    ensures { Gives result (head_of words.old) }
{
    words.literal(b"1")?;
    words.end()?;
    Ok(Form::Head)
}

#[tactic(auto, unfolding(crate::specs::Lines::root_of))]
fn root_line(alloc: Global, words: &mut Words) -> Result<Form, LineError>
    ensures { Gives result (root_of words.old) }
{
    let ip = words.ip(alloc)?;
    words.end()?;
    Ok(Form::Root(ip))
}

#[tactic(auto, unfolding(crate::specs::Lines::option_of))]
fn written_line(alloc: Global, words: &mut Words) -> Result<Form, LineError>
    ensures { Gives result (option_of words.old) }
{
    let line = option_line(alloc, words)?;
    Ok(Form::Option(line))
}

#[tactic(auto, unfolding(crate::specs::Lines::patience_of))]
fn patience_line(words: &mut Words) -> Result<Form, LineError>
    ensures { Gives result (patience_of words.old) }
{
    let patience = words.number(1, 1000)?;
    words.end()?;
    Ok(Form::Patience(patience as u32))
}

#[tactic(auto, unfolding(crate::specs::Lines::told_of))]
fn told_line(words: &mut Words) -> Result<Form, LineError>
    ensures { Gives result (told_of words.old) }
{
    words.literal(b"script")?;
    words.end()?;
    Ok(Form::ToldScript)
}

fn counts(words: &mut Words) -> Result<Counts, LineError>
    ensures { GivesFields result words.new (counts_fields words.old) }
{
    let answers = words.number(0, 65_535)?;
    let authorities = words.number(0, 65_535)?;
    let additionals = words.number(0, 65_535)?;
    Ok(Counts {
        answers: answers as u32,
        authorities: authorities as u32,
        additionals: additionals as u32,
    })
}

/// A message, after its first word.
fn message_head(words: &mut Words) -> Result<MessageHead, LineError>
    ensures { GivesFields result words.new (message_fields words.old) }
{
    let response_code = words.response_code()?;
    let (authoritative, truncation) = flags(words)?;
    let owed = counts(words)?;
    Ok(MessageHead {
        response_code,
        authoritative,
        truncation,
        owed,
    })
}

/// How many polls find nothing yet.
pub fn delay(words: &mut Words) -> Result<u32, LineError>
    ensures { GivesFields result words.new (delay_field words.old) }
{
    let delay = words.number(0, 1_000_000)?;
    Ok(delay as u32)
}

/// What a connection comes to.
pub fn connected(words: &mut Words) -> Result<Result<(), NetError>, LineError>
    ensures { GivesFields result words.new (connected_fields words.old) }
{
    let Some(word) = words.next() else {
        return Err(LineError::Refused);
    };
    if word == b"ok".as_slice() {
        return Ok(Ok(()));
    }
    if word == b"error".as_slice() {
        let error = failure(words)?;
        return Ok(Err(error));
    }
    Err(LineError::Refused)
}

/// What a question comes to.
pub fn answered(words: &mut Words) -> Result<Result<MessageHead, NetError>, LineError>
    ensures { GivesFields result words.new (answered_fields words.old) }
{
    let Some(word) = words.next() else {
        return Err(LineError::Refused);
    };
    if word == b"message".as_slice() {
        let head = message_head(words)?;
        return Ok(Ok(head));
    }
    if word == b"error".as_slice() {
        let error = failure(words)?;
        return Ok(Err(error));
    }
    Err(LineError::Refused)
}

/// A message without records.
fn bare_message(alloc: Global, name: Name, query_type: RecordType, head: MessageHead) -> Message
    ensures { result ≡ bare_message name query_type head }
{
    Message {
        query: Query {
            name,
            query_type,
            query_class: DnsClass::IN,
        },
        response_code: head.response_code,
        authoritative: head.authoritative,
        truncation: head.truncation,
        answers: Records::empty(alloc),
        authorities: Records::empty(alloc),
        additionals: Records::empty(alloc),
    }
}

/// The rule of a connection, where no word is left.
fn connect_rule(
    words: &Words,
    ip: IpAddr,
    protocol: Protocol,
    delay: u32,
    outcome: Result<(), NetError>,
) -> Result<Form, LineError>
    ensures { Gives result (connect_rule words.now (ip, (protocol, (delay, outcome)))) }
{
    words.end()?;
    Ok(Form::Rule(ScriptLine::Connect {
        ip,
        protocol,
        delay,
        error: outcome.err(),
    }))
}

#[tactic(auto, unfolding(crate::specs::Lines::connect_of))]
fn connect_line(alloc: Global, words: &mut Words) -> Result<Form, LineError>
    ensures { Gives result (connect_of words.old) }
{
    let ip = words.ip(alloc)?;
    let protocol = protocol(words)?;
    let delay = delay(words)?;
    let outcome = connected(words)?;
    connect_rule(words, ip, protocol, delay, outcome)
}

#[tactic(auto, unfolding(crate::specs::Lines::refuse_of))]
fn refuse_line(alloc: Global, words: &mut Words) -> Result<Form, LineError>
    ensures { Gives result (refuse_of words.old) }
{
    let ip = words.ip(alloc)?;
    let protocol = protocol(words)?;
    words.end()?;
    Ok(Form::Rule(ScriptLine::Refuse { ip, protocol }))
}

#[tactic(auto, unfolding(crate::specs::Lines::reply_of))]
fn reply_line(alloc: Global, words: &mut Words) -> Result<Form, LineError>
    ensures { Gives result (reply_of words.old) }
{
    let ip = words.ip(alloc)?;
    let protocol = protocol(words)?;
    let name = words.full_name(alloc)?;
    let query_type = words.record_type()?;
    let delay = delay(words)?;
    let outcome = answered(words)?;
    words.end()?;
    match outcome {
        Ok(head) => Ok(Form::Reply(OpenRule {
            ip,
            protocol,
            delay,
            message: bare_message(alloc, name, query_type, head),
            owed: head.owed,
        })),
        Err(error) => Ok(Form::Rule(ScriptLine::Reply {
            ip,
            protocol,
            name,
            query_type,
            delay,
            outcome: Err(error),
        })),
    }
}

#[tactic(auto, unfolding(crate::specs::Lines::question_of))]
fn question_line(alloc: Global, words: &mut Words) -> Result<Form, LineError>
    ensures { Gives result (question_of words.old) }
{
    let name = words.relaxed_name(alloc)?;
    let query_type = words.record_type()?;
    let dnssec_ok = dnssec_word(words)?;
    words.end()?;
    let query = Query {
        name,
        query_type,
        query_class: DnsClass::IN,
    };
    Ok(Form::Question(Question { query, dnssec_ok }))
}

#[tactic(auto, unfolding(crate::specs::Lines::turn_of))]
fn turn_line(words: &mut Words) -> Result<Form, LineError>
    ensures { Gives result (turn_of words.old) }
{
    let question = words.number(0, 4_294_967_295)?;
    let moment = words.number(0, 4_611_686_018_427_387_903)?;
    words.end()?;
    Ok(Form::Turn(Turn {
        question: question as u32,
        moment,
    }))
}

#[tactic(auto, unfolding(crate::specs::Lines::end_line_of))]
fn end_line(words: &mut Words) -> Result<Form, LineError>
    ensures { Gives result (end_line_of words.old) }
{
    words.end()?;
    Ok(Form::End)
}

/// What a line says that is no record line.
#[tactic(auto, unfolding(crate::specs::Lines::forms_of))]
pub fn form_line(alloc: Global, line: &[u8]) -> Result<Form, LineError>
    ensures { Gives result (form_of line.now) }
{
    let mut words = Words::new(line);
    let Some(word) = words.next() else {
        return Err(LineError::Refused);
    };
    if word == b"reply".as_slice() {
        return reply_line(alloc, &mut words);
    }
    if word == b"recursor".as_slice() {
        return head_line(&mut words);
    }
    if word == b"root".as_slice() {
        return root_line(alloc, &mut words);
    }
    if word == b"option".as_slice() {
        return written_line(alloc, &mut words);
    }
    if word == b"patience".as_slice() {
        return patience_line(&mut words);
    }
    if word == b"told".as_slice() {
        return told_line(&mut words);
    }
    if word == b"question".as_slice() {
        return question_line(alloc, &mut words);
    }
    if word == b"turn".as_slice() {
        return turn_line(&mut words);
    }
    if word == b"connect".as_slice() {
        return connect_line(alloc, &mut words);
    }
    if word == b"refuse".as_slice() {
        return refuse_line(alloc, &mut words);
    }
    if word == b"end".as_slice() {
        return end_line(&mut words);
    }
    Err(LineError::Refused)
}
