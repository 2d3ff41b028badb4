//! What became of each question of a run.
ghost use Rattle.std.specs.Prelude.{All, ◌≡◌, ◌≢◌, ◌≤◌, ◌<◌, ◌⊎◌, ℕ, [], Some, Err, IfOk, length, slice_get, slice_set, vec_len};
ghost use Rattle.dns_core.specs.Log.{Log};
ghost use Rattle.recursor_core.specs.Derived.{Derived};
ghost use Rattle.recursor_core.specs.Machine.{IsOneMore};
ghost use Rattle.recursor_core.specs.Plays.{open_plays, is_waiting, IsBegunAt, IsUnderWay, Begins, BeginsAt, ReplyOf};
ghost use Rattle.recursor_types.specs.declared.reply.Reply.{Reply};

use crate::machine::resolutions::RecursorCore;
use dns_core::{NoMemory, Numbers, Question, TryClone, in_box};
use recursor_types::{RecursorError, Reply};
use std::alloc::Global;
use std::mem;

/// A question: not begun, under way as the resolution at a place, answered, or without an answer for want
/// of memory.
#[derive(Drop)]
pub enum QuestionState {
    Waiting,
    Begun { place: usize },
    Answered(Box<Reply>),
    Unanswered,
}

/// The reply where memory runs out.
pub fn no_memory(alloc: Global) -> Reply
    ensures { result ≡ record { outcome = Err RecursorError.NoMemory; grounds = [] } }
{
    Reply {
        outcome: Err(RecursorError::NoMemory),
        grounds: Numbers::empty(alloc),
    }
}

/// A question as it begins: under way, or refused.
pub fn begun(alloc: Global, core: &mut RecursorCore, question: &Question, now: u64) -> QuestionState
    ensures derived { (log : Log) → core.old.moment ≤ now → Derived core.old log → Derived core.new log }
    ensures policy { core.new.policy ≡ core.old.policy }
    ensures moment { core.old.moment ≤ now → (core.new.moment ≡ core.old.moment) ⊎ (core.new.moment ≡ now) }
    ensures others { IsOneMore core.old core.new }
    ensures begun { Begins question.now now core.new result }
{
    let Ok(question) = question.try_clone(alloc) else {
        return QuestionState::Unanswered;
    };
    match core.begin(alloc, question, now) {
        Ok(place) => QuestionState::Begun { place },
        Err(error) => {
            let reply = Reply {
                outcome: Err(error),
                grounds: Numbers::empty(alloc),
            };
            match in_box(alloc, reply) {
                Ok(reply) => QuestionState::Answered(reply),
                Err(NoMemory) => QuestionState::Unanswered,
            }
        }
    }
}

/// Begins the question at a place, where it has not begun.
pub fn begin_at(
    alloc: Global,
    core: &mut RecursorCore,
    plays: &mut Vec<QuestionState>,
    questions: &[Question],
    q: usize,
    now: u64,
)
    requires { core.old.moment ≤ now }
    ensures derived { (log : Log) → Derived core.old log → Derived core.new log }
    ensures same { (core.new.policy ≡ core.old.policy) × ((core.new.moment ≡ core.old.moment) ⊎ (core.new.moment ≡ now)) }
    ensures begun { IsOneMore core.old core.new }
    ensures others { (k : ℕ) → k ≢ q → slice_get plays.new.items k ≡ slice_get plays.old.items k }
    ensures count { vec_len plays.new ≡ vec_len plays.old }
    ensures begins { BeginsAt questions.now q now core.new (slice_get plays.old.items q) (slice_get plays.new.items q) }
{
    if q >= plays.len() || q >= questions.len() {
        return;
    }
    if matches!(&plays[q], QuestionState::Waiting) {
        plays[q] = begun(alloc, core, &questions[q], now);
    }
}

/// Whether the question at a place has not begun.
pub fn is_waiting(plays: &[QuestionState], q: usize) -> bool
    ensures { result ≡ is_waiting (slice_get plays.now q) }
{
    matches!(plays.get(q), Some(QuestionState::Waiting))
}

/// The place of the resolution of a question that is under way.
pub fn under_way(plays: &[QuestionState], q: usize) -> Option<usize>
    ensures { IsUnderWay plays.now q result }
{
    match plays.get(q) {
        Some(QuestionState::Begun { place }) => Some(*place),
        _ => None,
    }
}

pub fn put_answer(plays: &mut Vec<QuestionState>, q: usize, reply: Box<Reply>)
    requires { IsBegunAt plays.old.items q }
    ensures set { plays.new.items ≡ slice_set plays.old.items q (QuestionState.Answered reply) }
    ensures falls { open_plays plays.new.items < open_plays plays.old.items }
    ensures count { vec_len plays.new ≡ vec_len plays.old }
{
    plays[q] = QuestionState::Answered(reply);
}

pub fn leave_unanswered(plays: &mut Vec<QuestionState>, q: usize)
    requires { IsBegunAt plays.old.items q }
    ensures set { plays.new.items ≡ slice_set plays.old.items q QuestionState.Unanswered }
    ensures falls { open_plays plays.new.items < open_plays plays.old.items }
    ensures count { vec_len plays.new ≡ vec_len plays.old }
{
    plays[q] = QuestionState::Unanswered;
}

/// Questions that have not begun.
pub fn waiting(alloc: Global, questions: &[Question]) -> Result<Vec<QuestionState>, NoMemory>
    ensures count { IfOk result (λ plays. vec_len plays ≡ length questions.now) }
    ensures waits { IfOk result (λ plays. All (λ p. p ≡ QuestionState.Waiting) plays.items) }
{
    let mut plays = Vec::with_capacity(alloc, questions.len())?;
    for _question in questions {
        plays.push(QuestionState::Waiting)?;
    }
    Ok(plays)
}

/// Takes the reply of a question, which every question has in the end.
pub fn take_reply(alloc: Global, plays: &mut Vec<QuestionState>, q: usize) -> Reply
    requires { q < vec_len plays.old }
    ensures count { vec_len plays.new ≡ vec_len plays.old }
    ensures others { (k : ℕ) → k ≢ q → slice_get plays.new.items k ≡ slice_get plays.old.items k }
    ensures reply { ReplyOf (slice_get plays.old.items q) result }
{
    match mem::replace(&mut plays[q], QuestionState::Waiting) {
        QuestionState::Answered(reply) => Box::into_inner(reply),
        _ => no_memory(alloc),
    }
}

/// Takes the replies, in order.
pub fn replies(alloc: Global, plays: &mut Vec<QuestionState>) -> Result<Vec<Reply>, NoMemory>
    ensures count { IfOk result (λ replies. vec_len replies ≡ vec_len plays.old) }
    ensures each { IfOk result (λ replies. (q : ℕ) (reply : Reply) → slice_get replies.items q ≡ Some reply → ReplyOf (slice_get plays.old.items q) reply) }
{
    let mut replies = Vec::with_capacity(alloc, plays.len())?;
    for place in 0..plays.len() {
        let reply = take_reply(alloc, plays, place);
        replies.push(reply)?;
    }
    Ok(replies)
}
