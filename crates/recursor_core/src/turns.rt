//! Turns of questions: the machine's orders are carried out until nothing new is found.
ghost use Rattle.std.specs.Prelude.{◌≡◌, ◌≤◌, ◌<◌, ◌+◌, ℕ, max, true, false, Some, None, IfOk, IfSome, IfNone, IsSome, OnOk, MatchBool};
ghost use Rattle.std.specs.BTreeSet.{contains};
ghost use Rattle.std.specs.Ordering.{nat_cmp};
ghost use Rattle.order_carrier.specs.Growing.{TellsThat};
ghost use Rattle.order_carrier.specs.InFlight.{GoesRight, held_at, sent_by, HasTold};
ghost use Rattle.recursor_core.specs.Machine.{begun_at, need_at, open_at, given_by};
ghost use Rattle.recursor_core.specs.declared.machine.resolutions.RecursorCore.{RecursorCore};
ghost use Rattle.recursor_core.specs.RecursorState.{Holds, Ready, Goes, ReplyTold, TurnedTold};
ghost use Rattle.recursor_core.specs.Turns.{due, TurnFalls, AskFalls, AllPolled};

use crate::machine::resolutions::RecursorCore;
use dns_core::{ConnectionProvider, NoMemory};
use order_carrier::InFlight;
use recursor_question::{NextStep, Step};
use recursor_types::Reply;
use server_core::{After, Order, Outcome, Tick};
use std::alloc::Global;
use std::collections::BTreeSet;

/// What became of a turn of a question: it waits for an order, has its reply, or has ended without one.
#[derive(Drop)]
pub enum TurnResult {
    Pending,
    Done(Box<Reply>),
    Ended,
}

/// Feeds an outcome of an order that is under way to the machine. An order that has ended is forgotten; one
/// that has ended though it still is under way is given up: after its last poll, or where memory runs out. A
/// late outcome, which no order that is open has, ends the turn as out of memory; so does a cache for
/// which memory runs out.
fn settle<P: ConnectionProvider>(
    alloc: Global,
    core: &mut RecursorCore,
    runner: &mut InFlight<P>,
    number: u64,
    outcome: Outcome,
    tick: Tick,
) -> Result<(), NoMemory>
    requires ready { Ready P.ConnectionProvider tick core.old runner.old }
    requires held { IsSome (held_at runner.old number) }
    requires told { TellsThat (P.log runner.old.carrier.provider) (HasTold tick.now (sent_by runner.old number) outcome) }
    ensures goes { Goes P.ConnectionProvider tick core.old core.new runner.old runner.new }
    ensures keeps { due tick.patience core.new runner.new ≤ due tick.patience core.old runner.old }
{
    let waits = runner.awaited(number, &outcome);
    match core.put(alloc, number, outcome, waits, tick) {
        Ok(After::Kept) => Ok(()),
        Ok(After::Ended) => {
            runner.close(number);
            Ok(())
        }
        Ok(After::GiveUp) => {
            runner.give_up(number, tick.now);
            Ok(())
        }
        Ok(After::Late) => Err(NoMemory),
        Err(NoMemory) => {
            runner.give_up(number, tick.now);
            Err(NoMemory)
        }
    }
}

/// Starts an order that the machine gave, and polls it once.
fn start_order<P: ConnectionProvider>(
    alloc: Global,
    core: &mut RecursorCore,
    runner: &mut InFlight<P>,
    number: u64,
    order: Box<Order>,
    tick: Tick,
) -> Result<(), NoMemory>
    requires ready { Ready P.ConnectionProvider tick core.old runner.old }
    requires goes { GoesRight (P.log runner.old.carrier.provider) order.value core.old.policy }
    ensures goes { Goes P.ConnectionProvider tick core.old core.new runner.old runner.new }
    ensures few { due tick.patience core.new runner.new ≤ due tick.patience core.old runner.old + (max 1 tick.patience + 1) }
{
    let outcome = runner.start(number, order, tick)?;
    settle(alloc, core, runner, number, outcome, tick)
}

/// Begins an order that the machine gave in this turn, and notes that it was polled in it. Less is left to do
/// than before it was given.
fn begin_order<P: ConnectionProvider>(
    alloc: Global,
    core: &mut RecursorCore,
    runner: &mut InFlight<P>,
    polled: &mut BTreeSet<u64>,
    number: u64,
    order: Box<Order>,
    tick: Tick,
) -> Result<(), NoMemory>
    requires ready { Ready P.ConnectionProvider tick core.old runner.old }
    requires goes { GoesRight (P.log runner.old.carrier.provider) order.value core.old.policy }
    ensures goes { Goes P.ConnectionProvider tick core.old core.new runner.old runner.new }
    ensures falls { (before : RecursorCore) → number ≡ given_by before + 1 → given_by core.old ≡ given_by before + 1
        → due tick.patience core.new runner.new < due tick.patience before runner.old }
    ensures noted { OnOk result (contains nat_cmp polled.new number ≡ true) }
{
    if !polled.insert(number)? {
        return Err(NoMemory);
    }
    start_order(alloc, core, runner, number, order, tick)
}

/// Polls an order that a resolution waits for and that was not polled in this turn, and notes that it was.
fn poll_order<P: ConnectionProvider>(
    alloc: Global,
    core: &mut RecursorCore,
    runner: &mut InFlight<P>,
    polled: &mut BTreeSet<u64>,
    _r: usize,
    number: u64,
    tick: Tick,
) -> Result<(), NoMemory>
    requires ready { Ready P.ConnectionProvider tick core.old runner.old }
    requires awaited { open_at core.old _r ≡ Some number }
    requires fresh { contains nat_cmp polled.old number ≡ false }
    ensures goes { Goes P.ConnectionProvider tick core.old core.new runner.old runner.new }
    ensures falls { OnOk result (due tick.patience core.new runner.new < due tick.patience core.old runner.old) }
    ensures keeps { due tick.patience core.new runner.new ≤ due tick.patience core.old runner.old }
    ensures noted { OnOk result (contains nat_cmp polled.new number ≡ true) }
{
    let _new = polled.insert(number)?;
    let outcome = runner.poll(number, tick)?;
    settle(alloc, core, runner, number, outcome, tick)
}

/// The first half of a turn: the machine is asked until the resolution waits or is done, and each order that
/// it gives is begun.
fn ask<P: ConnectionProvider>(
    alloc: Global,
    core: &mut RecursorCore,
    runner: &mut InFlight<P>,
    polled: &mut BTreeSet<u64>,
    r: usize,
    tick: Tick,
) -> Result<TurnResult, NoMemory>
    requires ready { Ready P.ConnectionProvider tick core.old runner.old }
    ensures goes { Goes P.ConnectionProvider tick core.old core.new runner.old runner.new }
    ensures told { IfOk result (TurnedTold core.old.policy tick.now (P.log runner.new.carrier.provider) (begun_at core.old r)) }
    ensures falls { IfOk result (AskFalls (due tick.patience core.new runner.new) (due tick.patience core.old runner.old) (open_at core.new r) polled.new polled.old) }
    ensures keeps { due tick.patience core.new runner.new ≤ due tick.patience core.old runner.old }
{
    'orders: loop {
        match core.next(alloc, r)? {
            Step::Order { number, order } => {
                begin_order(alloc, core, runner, polled, number, order, tick)?;
            }
            Step::Waiting { .. } => return Ok(TurnResult::Pending),
            Step::Done(reply) => return Ok(TurnResult::Done(reply)),
            Step::Ended => return Ok(TurnResult::Ended),
        }
    }
}

/// The second half of a turn: each order that the resolution waits for is polled, by rising number, where it
/// was not polled in this turn. It answers whether there was one.
fn poll_rest<P: ConnectionProvider>(
    alloc: Global,
    core: &mut RecursorCore,
    runner: &mut InFlight<P>,
    polled: &mut BTreeSet<u64>,
    r: usize,
    tick: Tick,
) -> Result<bool, NoMemory>
    requires ready { Ready P.ConnectionProvider tick core.old runner.old }
    ensures goes { Goes P.ConnectionProvider tick core.old core.new runner.old runner.new }
    ensures falls { IfOk result (λ some. MatchBool some (due tick.patience core.new runner.new < due tick.patience core.old runner.old) (AllPolled polled.old core.old r)) }
    ensures keeps { due tick.patience core.new runner.new ≤ due tick.patience core.old runner.old }
    ensures all { IfOk result (λ some. AllPolled polled.new core.new r) }
{
    let mut some = false;
    'orders: loop {
        let Some(number) = core.next_open(r, polled) else {
            return Ok(some);
        };
        poll_order(alloc, core, runner, polled, r, number, tick)?;
        some = true;
    }
}

/// A turn: until nothing new is found the machine is asked till the resolution waits, each order that it
/// gives is begun, and each other order that the resolution waits for is polled, once in a turn.
fn turn<P: ConnectionProvider>(
    alloc: Global,
    core: &mut RecursorCore,
    runner: &mut InFlight<P>,
    r: usize,
    tick: Tick,
) -> Result<TurnResult, NoMemory>
    requires ready { Ready P.ConnectionProvider tick core.old runner.old }
    ensures goes { Goes P.ConnectionProvider tick core.old core.new runner.old runner.new }
    ensures told { IfOk result (TurnedTold core.old.policy tick.now (P.log runner.new.carrier.provider) (begun_at core.old r)) }
    ensures falls { IfOk result (TurnFalls (due tick.patience core.new runner.new) (due tick.patience core.old runner.old)) }
    ensures keeps { due tick.patience core.new runner.new ≤ due tick.patience core.old runner.old }
{
    let mut polled = BTreeSet::new(alloc);
    'rounds: loop {
        match ask(alloc, core, runner, &mut polled, r, tick)? {
            TurnResult::Pending => {}
            TurnResult::Done(reply) => return Ok(TurnResult::Done(reply)),
            TurnResult::Ended => return Ok(TurnResult::Ended),
        }
        if !poll_rest(alloc, core, runner, &mut polled, r, tick)? {
            return Ok(TurnResult::Pending);
        }
    }
}

/// Ends a resolution, and gives up the order that it waited for.
fn abandon<P: ConnectionProvider>(
    core: &mut RecursorCore,
    runner: &mut InFlight<P>,
    r: usize,
    tick: Tick,
)
    requires ready { Ready P.ConnectionProvider tick core.old runner.old }
    ensures goes { Goes P.ConnectionProvider tick core.old core.new runner.old runner.new }
    ensures keeps { due tick.patience core.new runner.new ≤ due tick.patience core.old runner.old }
    ensures withdrawn { (number : ℕ) → open_at core.old r ≡ Some number → held_at runner.new number ≡ None }
    ensures ended { need_at core.new r ≡ NextStep.Nothing }
{
    if let Some(number) = core.cancel(r) {
        runner.give_up(number, tick.now);
    }
}

/// A turn of a resolution: its reply, or none where an order stays pending. Where memory runs out it has
/// ended.
pub fn turn_result<P: ConnectionProvider>(
    alloc: Global,
    core: &mut RecursorCore,
    runner: &mut InFlight<P>,
    r: usize,
    tick: Tick,
) -> Result<Option<Box<Reply>>, NoMemory>
    requires holds { Holds P.ConnectionProvider tick.patience core.old runner.old }
    requires moment { core.old.moment ≤ tick.now }
    ensures goes { Goes P.ConnectionProvider tick core.old core.new runner.old runner.new }
    ensures told { IfOk result (λ reply. IfSome reply (λ given. ReplyTold core.old.policy tick.now (P.log runner.new.carrier.provider) (begun_at core.old r) given.value)) }
    ensures falls { IfOk result (λ reply. IfNone reply (due tick.patience core.new runner.new < due tick.patience core.old runner.old)) }
    ensures keeps { due tick.patience core.new runner.new ≤ due tick.patience core.old runner.old }
{
    core.reach(tick.now);
    match turn(alloc, core, runner, r, tick) {
        Ok(TurnResult::Pending) => Ok(None),
        Ok(TurnResult::Done(reply)) => Ok(Some(reply)),
        Ok(_) => Err(NoMemory),
        Err(_) => {
            abandon(core, runner, r, tick);
            Err(NoMemory)
        }
    }
}
