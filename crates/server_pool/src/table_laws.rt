//! How the lookups run, for whoever carries out their orders.
ghost use Rattle.std.specs.Prelude.{◌≡◌, ℕ, Bool, Some, Result};
ghost use Rattle.std.specs.declared.net.IpAddr.{IpAddr};
ghost use Rattle.dns_core.specs.declared.errors.NoMemory.{NoMemory};
ghost use Rattle.server_core.specs.declared.orders.order.After.{After};
ghost use Rattle.server_core.specs.declared.orders.order.Order.{Order as Given};
ghost use Rattle.server_core.specs.declared.orders.order.Outcome.{Outcome};
ghost use Rattle.server_core.specs.declared.orders.order.Tick.{Tick};
ghost use Rattle.server_pool.specs.declared.open_lookups.open_lookup.OpenLookup.{OpenLookup as Seen};
ghost use Rattle.server_pool.specs.Shared.{Shared, lookup_of, SameBut};
ghost use Rattle.server_pool.specs.Stepping.{HasStepped, HasPut};
ghost use Rattle.server_pool.specs.TableLaws.{RunsBy, RunsByOutcome, GoesToServer};
ghost use Rattle.server_pool.specs.declared.pool_shared.PoolStep.{PoolStep};
ghost use Rattle.server_pool.specs.declared.pool_shared.PoolStep.TheVariants as gives;

/// A lookup stands by the ends that it heard: its next step hears none, and an outcome of its order at
/// most that of its attempt.
pub fn a_lookup_runs_by_its_ends()
    ensures next { (denied : IpAddr → Bool) (n now : ℕ) (l : Seen) (old new : Shared) (told : PoolStep)
        → HasStepped n now l old told new → RunsBy denied (λ heard. heard) now n l old new }
    ensures put { (number n : ℕ) (l : Seen) (o : Outcome) (tick : Tick) (old new : Shared) (r : Result After NoMemory)
        → HasPut number n l o tick old r new → RunsByOutcome number n l o tick old r new }
{}

/// Only the lookup that makes a step, or takes an outcome, changes, and orders of it.
pub fn a_step_changes_one_lookup()
    ensures next { (n now : ℕ) (l : Seen) (old new : Shared) (told : PoolStep) → HasStepped n now l old told new → SameBut n old new }
    ensures put { (k n : ℕ) (l : Seen) (o : Outcome) (tick : Tick) (old new : Shared) (r : Result After NoMemory)
        → lookup_of old k ≡ Some n → HasPut k n l o tick old r new → SameBut n old new }
{}

/// The order that a step gives is open at its lookup, and goes to a server of its pool.
pub fn an_order_goes_to_a_server()
    ensures { (n now number : ℕ) (l : Seen) (old new : Shared) (order : Given)
        → HasStepped n now l old (gives.Order number order) new → GoesToServer number n l order old new }
{}
