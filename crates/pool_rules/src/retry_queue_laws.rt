//! What holds of each lookup, whatever its servers answer.
ghost use Rattle.std.specs.Prelude.{◌≡◌, ℕ, ◌+◌, ◌*◌, ◌≤◌, ◌==◌, ◌||◌, ◌∷◌, not, List, length, IsTrue, Err};
ghost use Rattle.dns_core.specs.declared.message.Query.{Query};
ghost use Rattle.dns_core.specs.declared.net_error.NetError.TheVariants as net;
ghost use Rattle.resolution.specs.Lookups.{End, PoolRun, IsBounded};
ghost use Rattle.pool_rules.specs.declared.pool_server.PoolServer.{PoolServer};
ghost use Rattle.pool_rules.specs.RetryQueue.{QueueState, HasRoom, rules_of, class_of_sent, QueueStands};

/// A lookup makes at most five sends to a server for each of its places in the pool, and one more to
/// the one that turned UDP off. Of a pool of n places it makes at most 5 n + 1.
pub fn a_lookup_makes_few_sends()
    ensures each { (q : Query) (timeout : ℕ) (pool : List PoolServer) (ends : List (End PoolServer)) (under : List PoolServer) (p : QueueState) →
        QueueStands q timeout pool ends under p → IsBounded (rules_of timeout) (class_of_sent q) pool ends }
    ensures all { (q : Query) (timeout : ℕ) (pool : List PoolServer) (ends : List (End PoolServer)) (under : List PoolServer) (p : QueueState) →
        QueueStands q timeout pool ends under p → length ends + length under ≤ 5 * length pool + 1 }
{}

/// While a send to a server is under way, there is room to hear its end: it wants no memory.
pub fn an_end_can_be_heard()
    ensures { (q : Query) (timeout : ℕ) (pool : List PoolServer) (ends : List (End PoolServer)) (candidate : PoolServer) (under : List PoolServer) (p : QueueState) →
        QueueStands q timeout pool ends (candidate ∷ under) p → p.most ≡ length pool → HasRoom p }
{}

/// Where a deadline is reached before an end decided the lookup, it timed out. Only one without time
/// does so before an end.
pub fn a_deadline_ends_a_lookup()
    ensures { (q : Query) (timeout start now : ℕ) (pool : List PoolServer) (ends : List (End PoolServer)) (under : List PoolServer) (p : QueueState) →
        QueueStands q timeout pool ends under p → start + timeout ≤ now → IsTrue (not (length ends == 0) || timeout == 0)
        → PoolRun (rules_of timeout) (class_of_sent q) pool ends (Err net.Timeout) start now }
{}
