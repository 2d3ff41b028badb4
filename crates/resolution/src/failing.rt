//! Laws of failures: what a log shows of them a longer log shows too, in any spelling.
ghost use Rattle.std.specs.Prelude.{◌≡◌, ◌≤◌, ℕ, List, Bool, true, false, Some, Contains};
ghost use Rattle.std.specs.List.{list_all};
ghost use Rattle.std.specs.declared.net.ip_addr.IpAddr.{IpAddr};
ghost use Rattle.dns_core.specs.declared.net_error.NetError.TheVariants as net;
ghost use Rattle.resolution.specs.KeptError.{kept};
ghost use Rattle.resolution.specs.Lookups.{End, least_bad, is_retryable};
ghost use Rattle.resolution.specs.declared.class.Class.{Class};
ghost use Rattle.dns_core.specs.Name.{DomainName};
ghost use Rattle.dns_core.specs.Log.{Log, Extends};
ghost use Rattle.dns_core.specs.declared.message.Query.{Query};
ghost use Rattle.dns_core.specs.declared.log.LogEntry.{LogEntry};
ghost use Rattle.dns_core.specs.declared.net_error.NetError.{NetError};
ghost use Rattle.resolution.specs.Names.{root, same_query};
ghost use Rattle.recursor_types.specs.declared.policy.Policy.{Policy};
ghost use Rattle.recursor_types.specs.Policy.{with_patience};
ghost use Rattle.resolution.specs.Telling.{Logged, moment_of, NoneBefore, MomentsRise};
ghost use Rattle.resolution.specs.Ending.{Ended, EndsSend, same_ip};
ghost use Rattle.resolution.specs.Walking.{Walked};
ghost use Rattle.resolution.specs.Failing.{Barren, WalkFail};
ghost use Rattle.resolution.specs.Timing.{known_to_drive};

/// A failure stays one when the log grows and when less patience is given.
pub fn a_longer_log_keeps_failures()
    ensures ended { (policy : Policy) (less : ℕ) (turns : List ℕ) (wanted exhausted : Bool) (old new : Log) (asked_at : ℕ) (q : Query) (z : DomainName) (g : List ℕ) (e : NetError) →
        less ≤ policy.patience → Extends old new → Ended policy (known_to_drive turns wanted exhausted old asked_at) old asked_at q z g e
        → Ended (with_patience less policy) (known_to_drive turns wanted exhausted new asked_at) new asked_at q z g e }
    ensures walked { (policy : Policy) (less : ℕ) (old new : Log) (q : Query) (z : DomainName) →
        less ≤ policy.patience → Extends old new → Walked policy old q z → Walked (with_patience less policy) new q z }
    ensures barren { (policy : Policy) (less : ℕ) (turns : List ℕ) (wanted exhausted : Bool) (old new : Log) (asked_at : ℕ) (names stack : List DomainName) (c : DomainName) (d : ℕ) →
        less ≤ policy.patience → Extends old new → Barren policy (known_to_drive turns wanted exhausted old asked_at) old asked_at names c stack d
        → Barren (with_patience less policy) (known_to_drive turns wanted exhausted new asked_at) new asked_at names c stack d }
    ensures walk_fails { (policy : Policy) (less : ℕ) (turns : List ℕ) (wanted exhausted : Bool) (old new : Log) (asked_at : ℕ) (names stack : List DomainName) (n : DomainName) (d : ℕ) →
        less ≤ policy.patience → Extends old new → WalkFail policy (known_to_drive turns wanted exhausted old asked_at) old asked_at names n stack d
        → WalkFail (with_patience less policy) (known_to_drive turns wanted exhausted new asked_at) new asked_at names n stack d }
{}

/// How a lookup ended does not depend on the spelling of its question.
pub fn case_of_a_failure_is_ignored()
    ensures { (q p : Query) (policy : Policy) (turns : List ℕ) (wanted exhausted : Bool) (log : Log) (asked_at : ℕ) (z : DomainName) (g : List ℕ) (e : NetError) →
        same_query q p ≡ true → Ended policy (known_to_drive turns wanted exhausted log asked_at) log asked_at q z g e
        → Ended policy (known_to_drive turns wanted exhausted log asked_at) log asked_at p z g e }
{}

/// Where moments do not fall, no entry from one on carries a moment below t exactly where that one
/// does not.
pub fn moments_decide_what_is_late()
    ensures late { (log : Log) (n m t : ℕ) (e : LogEntry) → MomentsRise log → Logged log n e → moment_of e ≡ Some m → t ≤ m → NoneBefore log n t }
    ensures not_late { (log : Log) (n m t : ℕ) (e : LogEntry) → Logged log n e → moment_of e ≡ Some m → NoneBefore log n t → t ≤ m }
{}

/// Where a question to the roots ends without a connection, each root has an entry by which a send
/// of the question to it ended.
pub fn no_root_is_left_out()
    ensures { (policy : Policy) (turns : List ℕ) (wanted exhausted : Bool) (log : Log) (asked_at : ℕ) (q : Query) (g : List ℕ) (ip : IpAddr) →
        Ended policy (known_to_drive turns wanted exhausted log asked_at) log asked_at q root g net.NoConnections → Contains policy.roots ip →
        (n : ℕ) × (m : ℕ) × (e : End IpAddr) × Contains g n × (same_ip ip e.server ≡ true) × EndsSend policy log q n e m }
{}

/// Keeping the most specific error, end by end, gives what the list of ends says: without a
/// truncation, or after one.
pub fn kept_errors_are_the_least_bad()
    ensures plain { (cs : List Class) → list_all (is_retryable false) cs ≡ true → kept net.NoConnections cs ≡ least_bad false cs }
    ensures truncated { (cs : List Class) → list_all (is_retryable false) cs ≡ true → kept net.Truncated cs ≡ least_bad true cs }
{}
