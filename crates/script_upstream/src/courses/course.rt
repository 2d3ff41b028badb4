//! What a connection or a question comes to.
ghost use Rattle.std.specs.Prelude.{◌≡◌, ◌↔◌, IfOk, IfSome, IsTrue};
ghost use Rattle.dns_core.specs.NetError.{negative_query};
ghost use Rattle.script_upstream.specs.Course.{dns_error_about, error_about, answer};

use crate::script::script::ScriptLine;
use dns_core::{DnsError, Message, NetError, NoMemory, Query, ToldOutcome, TryClone};
use std::alloc::Global;
use std::mem;

/// What a connection or a question comes to: it is told an outcome after some polls, or waits for
/// ever.
#[derive(Drop)]
pub enum ScriptedReply {
    Never,
    After { polls: u32, outcome: ToldOutcome },
}

/// What is to be done at a poll.
#[derive(Clone, Copy)]
pub enum Stage {
    /// The entry is not open, or cannot be told the outcome.
    Unknown,
    Waits,
    Due,
}

impl ScriptedReply {
    ghost use Rattle.script_upstream.specs.Course.{shortened, IsWaiting, connect_course, reply_course};
    ghost use Rattle.script_upstream.specs.Stage.{IsStageOf, OutcomeIs, TellsConnection, TellsQuestion};

    /// What a connect line says.
    pub fn of_connection(alloc: Global, line: &ScriptLine) -> Result<ScriptedReply, NoMemory>
        ensures { IfOk result (λ course. course ≡ connect_course line.now) }
    {
        match line {
            ScriptLine::Connect { delay, error, .. } => {
                let outcome = match error {
                    None => ToldOutcome::Connected,
                    Some(error) => ToldOutcome::Error(error.try_clone(alloc)?),
                };
                Ok(ScriptedReply::After {
                    polls: *delay,
                    outcome,
                })
            }
            ScriptLine::Refuse { .. } | ScriptLine::Reply { .. } => Ok(ScriptedReply::Never),
        }
    }

    /// What a reply line says of a question.
    pub fn of_question(
        alloc: Global,
        query: &Query,
        line: &ScriptLine,
    ) -> Result<ScriptedReply, NoMemory>
        ensures { IfOk result (λ course. course ≡ reply_course query.now line.now) }
    {
        match line {
            ScriptLine::Reply { delay, outcome, .. } => {
                let outcome = answered(alloc, query, outcome)?;
                Ok(ScriptedReply::After {
                    polls: *delay,
                    outcome,
                })
            }
            ScriptLine::Connect { .. } | ScriptLine::Refuse { .. } => Ok(ScriptedReply::Never),
        }
    }

    /// What is to be done at a poll, where it is known whether the outcome can be told here.
    pub fn stage(&self, fits: bool) -> Stage
        ensures { IsStageOf (IsTrue fits) result self.now }
    {
        match self {
            ScriptedReply::Never => Stage::Waits,
            ScriptedReply::After { polls, .. } => {
                if *polls > 0 {
                    Stage::Waits
                } else if fits {
                    Stage::Due
                } else {
                    Stage::Unknown
                }
            }
        }
    }

    /// Whether a connection can be told the outcome.
    pub fn tells_connection(&self) -> bool
        ensures { IsTrue result → OutcomeIs TellsConnection self.now }
    {
        match self {
            ScriptedReply::Never => false,
            ScriptedReply::After { outcome, .. } => match outcome {
                ToldOutcome::Connected => true,
                ToldOutcome::Message(_) => false,
                ToldOutcome::Error(error) => !error.is_memory() && !error.is_no_records_found(),
            },
        }
    }

    /// Whether the question can be told the outcome.
    pub fn tells_question(&self, query: &Query) -> bool
        ensures { IsTrue result → OutcomeIs (TellsQuestion query.now) self.now }
    {
        match self {
            ScriptedReply::Never => false,
            ScriptedReply::After { outcome, .. } => match outcome {
                ToldOutcome::Connected => false,
                ToldOutcome::Message(message) => is_same_query(&message.query, query),
                ToldOutcome::Error(error) => !error.is_memory() && is_error_about(error, query),
            },
        }
    }

    /// One poll less.
    pub fn wait(&mut self)
        requires { IsWaiting self.old }
        ensures { self.new ≡ shortened self.old }
    {
        if let ScriptedReply::After { polls, .. } = self {
            *polls -= 1;
        }
    }
}

fn answered(
    alloc: Global,
    query: &Query,
    outcome: &Result<Message, NetError>,
) -> Result<ToldOutcome, NoMemory>
    ensures { IfOk result (λ told. told ≡ answer query.now outcome.now) }
{
    match outcome {
        Ok(message) => {
            let mut message = message.try_clone(alloc)?;
            message.query = query.try_clone(alloc)?;
            Ok(ToldOutcome::Message(message))
        }
        Err(error) => {
            let error = asked_about(alloc, query, error)?;
            Ok(ToldOutcome::Error(error))
        }
    }
}

fn asked_about(alloc: Global, query: &Query, error: &NetError) -> Result<NetError, NoMemory>
    ensures { IfOk result (λ about. about ≡ error_about query.now error.now) }
{
    match error {
        NetError::Dns(error) => {
            let error = denied_about(alloc, query, error)?;
            Ok(NetError::Dns(error))
        }
        other => other.try_clone(alloc),
    }
}

fn denied_about(alloc: Global, query: &Query, error: &DnsError) -> Result<DnsError, NoMemory>
    ensures { IfOk result (λ about. about ≡ dns_error_about query.now error.now) }
{
    match error {
        DnsError::NoRecordsFound(found) => {
            let asked = query.try_clone(alloc)?;
            let mut found = found.try_clone(alloc)?;
            drop(mem::replace(&mut found.query, asked));
            Ok(DnsError::NoRecordsFound(found))
        }
        DnsError::ResponseCode(code) => Ok(DnsError::ResponseCode(*code)),
    }
}

/// Whether an error is no negative response, or one to this question.
fn is_error_about(error: &NetError, query: &Query) -> bool
    ensures { IsTrue result → IfSome (negative_query error.now) (λ q. q ≡ query.now) }
{
    match error {
        NetError::Dns(DnsError::NoRecordsFound(found)) => is_same_query(&found.query, query),
        _ => true,
    }
}

/// Whether two questions are equal with case.
fn is_same_query(left: &Query, right: &Query) -> bool
    ensures { IsTrue result ↔ (left.now ≡ right.now) }
{
    left.name.eq_case(&right.name)
        && left.query_type == right.query_type
        && left.query_class == right.query_class
}
