//! Answers questions over a provider, whatever it tells.
ghost use Rattle.std.specs.Prelude.{◌≡◌, ◌≤◌, List, Contains, length, min, IfOk, vec_len};
ghost use Rattle.dns_core.specs.declared.log.LogEntry.{LogEntry};
ghost use Rattle.order_carrier.specs.Growing.{TellsThat};
ghost use Rattle.recursor_types.specs.Policy.{with_patience};
ghost use Rattle.resolution.specs.Theorem.{IsRun};
ghost use Rattle.resolution.specs.Turns.{run_moments};
ghost use Rattle.recursor_core.specs.Runs.{OnLogs};
ghost use Rattle.recursor_core.specs.RecursorState.{policy_of_run, RepliesHold};

use crate::recursor::Recursor;
use dns_core::{ConnectionProvider, NoMemory, Question, Turn};
use recursor_types::Reply;
use std::alloc::Global;

/// Answers the questions: the turns are played in order, and then the questions that have not begun
/// are played at the greatest moment. Before another question begins, the one under way is played to its
/// end, in the turn before. Questions are numbered from 1; moments are in microseconds and do
/// not fall; an order is pending at fewer polls than `patience`. What is kept of lookups, in this run
/// and those before, is answered again while it lives.
pub fn drive<P: ConnectionProvider>(
    alloc: Global,
    recursor: &mut Recursor<P>,
    questions: &[Question],
    turns: &[Turn],
    patience: u32,
) -> Result<Vec<Reply>, NoMemory>
    // Each question has its reply, in order.
    ensures answered { IfOk result (λ replies. vec_len replies ≡ length questions.now) }

    // The log has grown turn by turn, each entry at the moment of its turn; behind the turns at the greatest.
    // Only servers were asked: by what was told before, each address that was opened serves a zone, and
    // each one that was asked serves a zone at or above the name of the question. Each is a root, or its
    // address is not denied. No moment falls, and no entry was waited for beyond patience.
    ensures run { OnLogs (P.log recursor.old.provider) (P.log recursor.new.provider) (IsRun (policy_of_run patience recursor.old) patience recursor.old.moment recursor.new.moment turns.now) }

    // Each message that is answered is what counts of a response that a server of a zone at or above the
    // name told: since the question began, or within its life before that, and then it was authoritative.
    // The walk went down to this zone. Each error has its cause: a name that is not fully qualified, a
    // denial or a referral that such a server told, and that was as fresh, a delegation without an
    // address that may be asked, or a lookup at all servers of such a zone that ended so.
    ensures replies { IfOk result (λ replies. TellsThat (P.log recursor.new.provider) (λ log.
        RepliesHold (policy_of_run patience recursor.old) log recursor.old.moment turns.now questions.now replies.items)) }

    // The recursor's moment is one of the run, and does not fall.
    ensures moment { Contains (run_moments recursor.old.moment turns.now) recursor.new.moment × (recursor.old.moment ≤ recursor.new.moment) }

    // The policy stays, but for the least patience, which is that of the runs so far.
    ensures policy { recursor.new.policy ≡ with_patience (min recursor.old.policy.patience patience) recursor.old.policy }

    // What the provider vouches for of its log it vouched for before.
    ensures vouches { (es : List LogEntry) → P.vouches recursor.new.provider es → P.vouches recursor.old.provider es }
{
    let run = &mut recursor.run;
    run.core.clear(patience);
    run.patience = patience;
    run.answer(alloc, questions, turns)
}
