//! What holds of each pool.
ghost use Rattle.std.specs.Prelude.{ℕ, ◌+◌, ◌^◌, ◌<◌, ◌↔◌};
ghost use Rattle.server_pool.specs.Pool.{good_for, IsExpired};
ghost use Rattle.server_pool.specs.declared.pool.NameServerPool.{NameServerPool};

/// A pool that was made good for so many microseconds at a moment has expired exactly at the moments
/// that are later than their sum.
pub fn a_pool_expires_after_its_ttl()
    ensures { (pool : NameServerPool) (ttl made now : ℕ) → now < 2 ^ 64 → (IsExpired (good_for ttl made pool) now ↔ made + ttl < now) }
{}
