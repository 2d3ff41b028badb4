//! A run of questions as one value, and how its turns are played.
ghost use Rattle.std.specs.Prelude.{◌≡◌, ◌≤◌, ◌<◌, ◌∷◌, ℕ, List, [], Some, IfOk, MatchBool, Contains, length, max, vec_len};
ghost use Rattle.dns_core.specs.declared.request.Question.{Question};
ghost use Rattle.dns_core.specs.declared.request.Turn.{Turn};
ghost use Rattle.order_carrier.specs.Growing.{TellsThat};
ghost use Rattle.resolution.specs.Turns.{run_moments};
ghost use Rattle.recursor_core.specs.Runs.{Runs, Leads, GoesOn, Turning, RunsOver, PlaysOn, PlaysGoOn, IsDue, told_by, work};
ghost use Rattle.recursor_core.specs.RecursorState.{RepliesHold};
ghost use Rattle.recursor_core.specs.Plays.{IsUnderWay};

use crate::machine::plays::{
    QuestionState, begin_at, is_waiting, leave_unanswered, put_answer, replies, under_way, waiting,
};
use crate::machine::resolutions::RecursorCore;
use crate::turns::turn_result;
use dns_core::{ConnectionProvider, NoMemory, Question, Turn};
use order_carrier::InFlight;
use recursor_types::Reply;
use server_core::Tick;
use std::alloc::Global;

/// A run: the machine, what carries out its orders, what became of each question, and how many polls an
/// order has at most.
#[derive(Drop)]
pub struct Run<P: ConnectionProvider> {
    pub(crate) core: RecursorCore,
    pub(crate) runner: InFlight<P>,
    pub(crate) plays: Vec<QuestionState>,
    pub(crate) patience: u32,
}

/// The place of the question that is under way after the next turn: the one that begins in it, or the
/// current one.
fn following(plays: &[QuestionState], current: usize, next: Option<&Turn>) -> usize {
    match next {
        Some(turn) if turn.question > 0 && is_waiting(plays, (turn.question - 1) as usize) => {
            (turn.question - 1) as usize
        }
        _ => current,
    }
}

impl<P: ConnectionProvider> Run<P> {
    /// Begins a question that has not begun, at the moment that has come.
    fn begin_one(&mut self, alloc: Global, questions: &[Question], q: usize)
        requires { Runs P.ConnectionProvider self.old }
        ensures leads { GoesOn P.ConnectionProvider self.old self.new }
        ensures plays { (start : ℕ) (turns rest left : List Turn) → IsDue self.old.core.moment rest left q → PlaysOn P.ConnectionProvider start turns rest left questions.now self.old self.new }
        ensures count { vec_len self.new.plays ≡ vec_len self.old.plays }
    {
        let now = self.core.moment();
        begin_at(alloc, &mut self.core, &mut self.plays, questions, q, now);
    }

    /// Gives the question that is under way as the resolution at a place a turn.
    fn play_at(&mut self, alloc: Global, q: usize, place: usize)
        requires runs { Runs P.ConnectionProvider self.old }
        requires under_way { IsUnderWay self.old.plays.items q (Some place) }
        ensures leads { GoesOn P.ConnectionProvider self.old self.new }
        ensures plays { PlaysGoOn P.ConnectionProvider self.old self.new }
        ensures falls { work self.new < work self.old }
        ensures count { vec_len self.new.plays ≡ vec_len self.old.plays }
    {
        let now = self.core.moment();
        let tick = Tick {
            now,
            patience: self.patience,
        };
        match turn_result(alloc, &mut self.core, &mut self.runner, place, tick) {
            Ok(Some(reply)) => put_answer(&mut self.plays, q, reply),
            Ok(None) => {}
            Err(_) => leave_unanswered(&mut self.plays, q),
        }
    }

    /// Gives a question that is under way a turn. It answers whether there was one.
    fn play(&mut self, alloc: Global, q: usize) -> bool
        requires { Runs P.ConnectionProvider self.old }
        ensures leads { GoesOn P.ConnectionProvider self.old self.new }
        ensures plays { PlaysGoOn P.ConnectionProvider self.old self.new }
        ensures falls { MatchBool result (work self.new < work self.old) (work self.new ≤ work self.old) }
        ensures count { vec_len self.new.plays ≡ vec_len self.old.plays }
    {
        let Some(place) = under_way(self.plays.as_slice(), q) else {
            return false;
        };
        self.play_at(alloc, q, place);
        true
    }

    /// Gives a question turns at this moment until it is no longer under way.
    fn finish(&mut self, alloc: Global, q: usize)
        requires { Runs P.ConnectionProvider self.old }
        ensures leads { GoesOn P.ConnectionProvider self.old self.new }
        ensures plays { PlaysGoOn P.ConnectionProvider self.old self.new }
        ensures count { vec_len self.new.plays ≡ vec_len self.old.plays }
    {
        'turns: loop {
            if !self.play(alloc, q) {
                return;
            }
        }
    }

    /// Before another question begins, the one that may be under way is played to its end, in the turn
    /// before. It answers which one may be under way after that.
    fn finish_current(&mut self, alloc: Global, current: usize, next: Option<&Turn>) -> usize
        requires { Runs P.ConnectionProvider self.old }
        ensures leads { GoesOn P.ConnectionProvider self.old self.new }
        ensures plays { PlaysGoOn P.ConnectionProvider self.old self.new }
        ensures count { vec_len self.new.plays ≡ vec_len self.old.plays }
    {
        let following = following(self.plays.as_slice(), current, next);
        if following != current {
            self.finish(alloc, current);
        }
        following
    }

    /// The moment of a turn comes, where it is later than the greatest so far.
    fn reach(&mut self, turn: &Turn)
        requires { Runs P.ConnectionProvider self.old }
        ensures leads { Leads P.ConnectionProvider (max self.old.core.moment turn.now.moment) self.old self.new }
        ensures plays { (start : ℕ) (turns rest : List Turn) (questions : List Question)
            → PlaysOn P.ConnectionProvider start turns (turn.now ∷ rest) (turn.now ∷ rest) questions self.old self.new }
        ensures count { vec_len self.new.plays ≡ vec_len self.old.plays }
    {
        self.core.reach(turn.moment);
    }

    /// A turn: its question begins where it has not begun, and has one round. A turn that names no question
    /// does nothing; one at a moment before the greatest so far happens at that one.
    fn play_turn(&mut self, alloc: Global, questions: &[Question], turn: &Turn)
        requires { Runs P.ConnectionProvider self.old }
        ensures leads { Leads P.ConnectionProvider (max self.old.core.moment turn.now.moment) self.old self.new }
        ensures plays { (start : ℕ) (turns rest : List Turn) → Contains (run_moments start turns) (max self.old.core.moment turn.now.moment)
            → PlaysOn P.ConnectionProvider start turns (turn.now ∷ rest) rest questions.now self.old self.new }
        ensures count { vec_len self.new.plays ≡ vec_len self.old.plays }
    {
        self.reach(turn);
        if turn.question == 0 {
            return;
        }
        let q = (turn.question - 1) as usize;
        self.begin_one(alloc, questions, q);
        let _played = self.play(alloc, q);
    }

    /// The turns, in order. It answers which question may be under way after them.
    fn play_turns(&mut self, alloc: Global, questions: &[Question], turns: &[Turn]) -> usize
        requires { Runs P.ConnectionProvider self.old }
        ensures turning { Turning P.ConnectionProvider turns.now [] self.old self.new }
        ensures plays { PlaysOn P.ConnectionProvider self.old.core.moment turns.now turns.now [] questions.now self.old self.new }
        ensures count { vec_len self.new.plays ≡ vec_len self.old.plays }
    {
        let mut current = following(self.plays.as_slice(), 0, turns.first());
        for n in 0..turns.len() {
            self.play_turn(alloc, questions, &turns[n]);
            current = self.finish_current(alloc, current, turns.get(n + 1));
        }
        current
    }

    /// Begins a question that has not begun, and plays it to its end.
    fn resolve_question(&mut self, alloc: Global, questions: &[Question], q: usize)
        requires { Runs P.ConnectionProvider self.old }
        ensures leads { GoesOn P.ConnectionProvider self.old self.new }
        ensures plays { (start : ℕ) (turns : List Turn) → Contains (run_moments start turns) self.old.core.moment → PlaysOn P.ConnectionProvider start turns [] [] questions.now self.old self.new }
        ensures count { vec_len self.new.plays ≡ vec_len self.old.plays }
    {
        self.begin_one(alloc, questions, q);
        self.finish(alloc, q);
    }

    /// The questions that have not begun, in order.
    fn play_rest(&mut self, alloc: Global, questions: &[Question])
        requires { Runs P.ConnectionProvider self.old }
        ensures leads { GoesOn P.ConnectionProvider self.old self.new }
        ensures plays { (start : ℕ) (turns : List Turn) → Contains (run_moments start turns) self.old.core.moment → PlaysOn P.ConnectionProvider start turns [] [] questions.now self.old self.new }
        ensures count { vec_len self.new.plays ≡ vec_len self.old.plays }
    {
        for q in 0..questions.len() {
            self.resolve_question(alloc, questions, q);
        }
    }

    /// The turns, and behind them the questions that are not answered, at the greatest moment.
    fn play_all(&mut self, alloc: Global, questions: &[Question], turns: &[Turn])
        requires { Runs P.ConnectionProvider self.old }
        ensures over { RunsOver P.ConnectionProvider turns.now self.old self.new }
        ensures plays { PlaysOn P.ConnectionProvider self.old.core.moment turns.now turns.now [] questions.now self.old self.new }
        ensures count { vec_len self.new.plays ≡ vec_len self.old.plays }
    {
        let current = self.play_turns(alloc, questions, turns);
        self.finish(alloc, current);
        self.play_rest(alloc, questions);
    }

    /// Answers the questions, each of which waits at first.
    pub fn answer(
        &mut self,
        alloc: Global,
        questions: &[Question],
        turns: &[Turn],
    ) -> Result<Vec<Reply>, NoMemory>
        requires { Runs P.ConnectionProvider self.old }
        ensures over { RunsOver P.ConnectionProvider turns.now self.old self.new }
        ensures answered { IfOk result (λ replies. vec_len replies ≡ length questions.now) }
        ensures replies { IfOk result (λ given. TellsThat (told_by P.ConnectionProvider self.new) (λ log.
            RepliesHold self.old.core.policy log self.old.core.moment turns.now questions.now given.items)) }
    {
        self.plays = waiting(alloc, questions)?;
        self.play_all(alloc, questions, turns);
        replies(alloc, &mut self.plays)
    }
}
