//! How a lookup runs, by its ends and its orders.
ghost use Rattle.std.specs.Prelude.{◌≡◌, ℕ, ◌+◌, ◌≤◌, ◌==◌, Bool, true, List, if◌then◌else◌};
ghost use Rattle.std.specs.declared.net.IpAddr.{IpAddr};
ghost use Rattle.dns_core.specs.declared.request.DnsRequest.{DnsRequest};
ghost use Rattle.server_core.specs.declared.orders.order.After.TheVariants.{Kept};
ghost use Rattle.server_core.specs.declared.orders.order.Order.{Order as Given};
ghost use Rattle.server_core.specs.declared.orders.order.Outcome.{Outcome};
ghost use Rattle.server_core.specs.declared.orders.order.Tick.{Tick};
ghost use Rattle.server_core.specs.Servers.{Server};
ghost use Rattle.pool_rules.specs.declared.pool_server.PoolServer.{PoolServer};
ghost use Rattle.pool_lookup.specs.declared.lookup.State.TheVariants.{Asking};
ghost use Rattle.pool_lookup.specs.Asked.{opens, has_order};
ghost use Rattle.pool_lookup.specs.Hearing.{done_by, after_outcome, after_out_of_memory};
ghost use Rattle.pool_lookup.specs.Holds.{HeardEnd, HoldsBy, Holds};
ghost use Rattle.pool_lookup.specs.Lookup.{LookupState};
ghost use Rattle.pool_lookup.specs.Rounds.{begun, started};
ghost use Rattle.pool_lookup.specs.Running.{Steps, GivesAt, GivesFirst, StandsAfter, StandsOut, DecidesAt, IsGivenFor, StaysOpen};

/// A lookup stands by the ends that it heard: no step hears one, and an outcome at most that of its
/// attempt.
pub fn a_lookup_stands_by_its_ends()
    ensures next { (denied : IpAddr → Bool) (heard : List HeardEnd) (now : ℕ) (l new : LookupState) → Steps now l new → HoldsBy denied heard l → HoldsBy denied heard new }
    ensures put { (denied : IpAddr → Bool) (heard : List HeardEnd) (tick : Tick) (number : ℕ) (o : Outcome) (l : LookupState) → HoldsBy denied heard l
        → StandsAfter denied heard tick number o l }
    ensures out_of_memory { (denied : IpAddr → Bool) (heard : List HeardEnd) (number now : ℕ) (o : Outcome) (l : LookupState) → l.state ≡ Asking
        → HoldsBy denied heard l → StandsOut denied heard number now o l }
{}

/// A lookup is decided at the moment of the step that decides it.
pub fn a_lookup_is_decided_by_a_step()
    ensures next { (now : ℕ) (l new : LookupState) → Steps now l new → DecidesAt now l new }
    ensures put { (denied : IpAddr → Bool) (tick : Tick) (number : ℕ) (o : Outcome) (l : LookupState) → DecidesAt tick.now l (after_outcome denied tick number o l) }
    ensures out_of_memory { (number now : ℕ) (o : Outcome) (l : LookupState) → DecidesAt now l (after_out_of_memory number now o l) }
{}

/// An order is open at a lookup only where a step gave it, and then once.
pub fn a_lookup_opens_what_it_gives()
    ensures begun { (k : ℕ) (request : DnsRequest) (servers : List PoolServer) (concurrency timeout now : ℕ) → opens k (begun request servers concurrency timeout now) ≡ 0 }
    ensures order { (k number : ℕ) (table : List Server) (l : LookupState) (order : Given) (new : LookupState) → GivesAt table number l order new
        → opens k new ≤ opens k l + (if number == k then 1 else 0) }
    ensures put { (k : ℕ) (denied : IpAddr → Bool) (tick : Tick) (number : ℕ) (o : Outcome) (l : LookupState) → Holds denied l
        → opens k (after_outcome denied tick number o l) ≤ opens k l }
    ensures out_of_memory { (k number now : ℕ) (o : Outcome) (l : LookupState) → opens k (after_out_of_memory number now o l) ≤ opens k l }
    ensures started { (k now : ℕ) (l : LookupState) → opens k (started now l) ≤ opens k l }
    ensures has { (k : ℕ) (l : LookupState) → 1 ≤ opens k l → has_order k l ≡ true }
{}

/// The order that a step gives, under a number of which none is open, goes to a server of the pool, or
/// is that of a backoff.
pub fn a_lookup_sends_to_its_servers()
    ensures { (table : List Server) (number : ℕ) (l : LookupState) (order : Given) (new : LookupState) → GivesFirst table number l order new → IsGivenFor table number order new }
{}

/// An order that its outcome keeps is open as before, to the same server.
pub fn an_order_that_is_kept_stays_open()
    ensures { (denied : IpAddr → Bool) (tick : Tick) (number : ℕ) (o : Outcome) (l : LookupState) → done_by tick.patience number o l ≡ Kept
        → StaysOpen number l (after_outcome denied tick number o l) }
{}
