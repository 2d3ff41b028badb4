//! What holds of each lookup, whatever its servers answer.
ghost use Rattle.std.specs.Prelude.{◌≡◌, ℕ, ◌≤◌, ◌++◌, Bool, List};
ghost use Rattle.std.specs.declared.net.IpAddr.{IpAddr};
ghost use Rattle.dns_core.specs.declared.request.DnsRequest.{DnsRequest};
ghost use Rattle.server_core.specs.declared.orders.order.Outcome.{Outcome};
ghost use Rattle.server_core.specs.declared.orders.order.Tick.{Tick};
ghost use Rattle.server_core.specs.Hearing.{changed_at};
ghost use Rattle.server_core.specs.Servers.{Server};
ghost use Rattle.pool_rules.specs.declared.pool_server.PoolServer.{PoolServer};
ghost use Rattle.pool_lookup.specs.declared.giving.LookupStep.{LookupStep};
ghost use Rattle.pool_lookup.specs.declared.lookup.State.TheVariants.{Asking};
ghost use Rattle.pool_lookup.specs.declared.giving.Want.TheVariants.{Wait};
ghost use Rattle.pool_lookup.specs.Cancelling.{table_heard};
ghost use Rattle.pool_lookup.specs.Giving.{Gives, want_of, stepped_table, halted_table};
ghost use Rattle.pool_lookup.specs.Hearing.{after_outcome, after_out_of_memory};
ghost use Rattle.pool_lookup.specs.Holds.{HeardEnd, HoldsBy, Holds, AreReached};
ghost use Rattle.pool_lookup.specs.Lookup.{LookupState, begun_with};
ghost use Rattle.pool_lookup.specs.Promises.{IsFair, HasOpen};
ghost use Rattle.pool_lookup.specs.Rounds.{begun, round_begun, started};
ghost use Rattle.pool_lookup.specs.Tables.{configs};

/// What holds of a lookup when it begins holds after each of its steps.
pub fn what_holds_stays()
    ensures begun { (denied : IpAddr → Bool) (request : DnsRequest) (servers : List PoolServer) (concurrency timeout now : ℕ) → 1 ≤ concurrency
        → Holds denied (begun request servers concurrency timeout now) }
    ensures started { (denied : IpAddr → Bool) (now : ℕ) (l : LookupState) → Holds denied l → Holds denied (started now l) }
    ensures next { (denied : IpAddr → Bool) (n now : ℕ) (table : List Server) (l new : LookupState) (made : LookupStep)
        → Gives n now table (started now l) made new → Holds denied l → Holds denied new }
    ensures put { (denied : IpAddr → Bool) (tick : Tick) (number : ℕ) (o : Outcome) (l : LookupState) → Holds denied l → Holds denied (after_outcome denied tick number o l) }
    ensures out_of_memory { (denied : IpAddr → Bool) (number now : ℕ) (o : Outcome) (l : LookupState) → l.state ≡ Asking → Holds denied l
        → Holds denied (after_out_of_memory number now o l) }
{}

/// A lookup makes at most five sends to a server for each of its places, and one more to the one that
/// turned UDP off; at a pool of n places it makes at most 5 n + 1. It backs off until its deadline at most.
pub fn a_lookup_is_fair()
    ensures { (denied : IpAddr → Bool) (heard : List HeardEnd) (l : LookupState) → HoldsBy denied heard l → IsFair heard l }
{}

/// Once its round has begun, a lookup waits only where one of its orders is open.
pub fn a_lookup_waits_for_an_order()
    ensures { (now : ℕ) (l : LookupState) → want_of (started now l) ≡ Wait → HasOpen (started now l).state (started now l).attempts }
{}

/// What a lookup was begun with stays: what it asks, at which servers, for how long and since when.
pub fn what_it_was_begun_with_stays()
    ensures begun { (now : ℕ) (l : LookupState) → begun_with (round_begun now l) ≡ begun_with l }
    ensures started { (now : ℕ) (l : LookupState) → begun_with (started now l) ≡ begun_with l }
    ensures next { (number now : ℕ) (table : List Server) (l new : LookupState) (made : LookupStep)
        → Gives number now table (started now l) made new → begun_with new ≡ begun_with l }
    ensures put { (denied : IpAddr → Bool) (tick : Tick) (number : ℕ) (o : Outcome) (l : LookupState) → begun_with (after_outcome denied tick number o l) ≡ begun_with l }
    ensures out_of_memory { (number now : ℕ) (o : Outcome) (l : LookupState) → begun_with (after_out_of_memory number now o l) ≡ begun_with l }
{}

/// No step of a lookup changes how a server of the table is reached, so those of each lookup stay
/// reached, be it the one that steps or another.
pub fn servers_stay_reached()
    ensures changed { (f : Server → Server) (number : ℕ) (table : List Server) → ((s : Server) → (f s).config ≡ s.config) → configs (changed_at f number table) ≡ configs table }
    ensures next { (l : LookupState) (table : List Server) → configs (stepped_table l table) ≡ configs table }
    ensures halted { (l : LookupState) (table : List Server) → configs (halted_table l table) ≡ configs table }
    ensures put { (tick : Tick) (number : ℕ) (o : Outcome) (l : LookupState) (table : List Server) → configs (table_heard tick number o l table) ≡ configs table }
    ensures reached { (old new : List Server) (l m : LookupState) → configs new ≡ configs old → m.servers ≡ l.servers → AreReached old l → AreReached new m }
    ensures more { (table more : List Server) (l : LookupState) → AreReached table l → AreReached (table ++ more) l }
{}
