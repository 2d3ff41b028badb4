//! The cache, over `lru`.
ghost use Rattle.std.specs.Prelude.{◌≡◌, ◌≤◌, [], length, option_copied, IfOk, OnOk, OnErr, IsOk, IsSome};
ghost use Rattle.std.specs.Borrow.{sem};
ghost use Rattle.std.specs.Map.{lookup, keys_of};
ghost use Rattle.std.specs.List.{IsDistinct};
ghost use Rattle.recent_cache.specs.Recent.{recent, touched, with_pair};

use crate::hash_keys::HashKeys;
use dns_core::NoMemory;
use lru::LruCache;
use std::alloc::Global;
use std::hash::Hash;
use std::marker::Model;
use std::num::NonZeroUsize;

/// At most a number of keys with their values, the last used first. With a size of 0 there is no map.
#[derive(Drop)]
pub struct RecentCache<K: Eq + Hash, V> {
    pairs: Option<LruCache<K, V, HashKeys>>,
}

impl<K: Eq + Hash, V> Model for RecentCache<K, V> {
    ghost use Rattle.recent_cache.specs.Recent.{Recent, recent_code, seen_of};

    ghost Value = { Recent K V };

    ghost coded = { recent_code K.code V.code };

    ghost view = { λ a. seen_of a.pairs };
}

impl<K: Eq + Hash + Drop, V: Drop> RecentCache<K, V> {
    ghost use Rattle.recent_cache.specs.Rests.{RestsWith};

    /// An empty cache of at most `size` pairs; with 0 it keeps nothing. Its room grows with its pairs.
    pub fn new(alloc: Global, size: usize, keys: HashKeys) -> Result<Self, NoMemory>
        ensures { IfOk result (λ cache. cache ≡ recent [] size) }
    {
        let Some(most) = NonZeroUsize::new(size) else {
            return Ok(RecentCache { pairs: None });
        };
        let mut pairs = LruCache::unbounded_with_hasher(alloc, keys)?;
        pairs.resize(most);
        Ok(RecentCache { pairs: Some(pairs) })
    }

    /// How many pairs there are. No two keys are equal.
    pub fn len(&self) -> usize
        ensures count { result ≡ length self.now.pairs }
        ensures few { result ≤ self.now.size }
        ensures apart { IsDistinct K.eq (keys_of self.now.pairs) }
    {
        match &self.pairs {
            None => 0,
            Some(pairs) => pairs.len(),
        }
    }

    /// The value of a key. Its pair goes to the front.
    pub fn get(&mut self, key: &K) -> Option<&V>
        ensures* used { sem 𝓛 (RestsWith K.row V.row K.Hash self.entry (touched K.eq key.now self.old.pairs)) }
        ensures found { option_copied result ≡ lookup (K.eq key.now) self.old.pairs }
    {
        match &mut self.pairs {
            None => None,
            Some(pairs) => pairs.get(key),
        }
    }

    /// Puts a pair in front. It takes the place of the pair of an equal key, of which the key stays as it is
    /// spelled; of too many pairs the last leaves.
    pub fn put(&mut self, key: K, value: V) -> Result<(), NoMemory>
        ensures ok { OnOk result (self.new ≡ recent (with_pair K.eq self.old.size key value self.old.pairs) self.old.size) }
        ensures err { OnErr result (self.new ≡ self.old) }
        ensures replaced { IsSome (lookup (K.eq key) self.old.pairs) → IsOk result }
        ensures kept_nothing { self.old.size ≡ 0 → IsOk result }
    {
        match &mut self.pairs {
            None => Ok(()),
            Some(pairs) => {
                // The length tells the proof that there is room for a pair.
                let _count = pairs.len();
                pairs.put(key, value)?;
                Ok(())
            }
        }
    }
}
