//! How the keys of a cache hash.

use std::hash::{BuildHasher, DefaultHasher, RandomState};

/// The keys of the hash, SipHash-1-3. Whoever knows them can choose names that collide, which makes searches
/// slow and changes nothing else; a program that has random bytes hands in others.
#[derive(Clone, Copy, Debug)]
pub enum HashKeys {
    /// Both keys are 0.
    Fixed,
    Given(RandomState),
}

impl BuildHasher for HashKeys {
    ghost use Rattle.recent_cache.specs.HashKeys.{first_state};

    type Hasher = DefaultHasher;

    ghost build_hasher = { first_state };

    fn build_hasher(&self) -> DefaultHasher {
        match self {
            HashKeys::Fixed => DefaultHasher::new(),
            HashKeys::Given(keys) => keys.build_hasher(),
        }
    }
}
