//! The bounds of the time for which an answer is kept.
ghost use Rattle.std.specs.Prelude.{◌≡◌, [], IfOk, OnErr, None, false};
ghost use Rattle.resolver_settings.specs.Ttl.{bounds_of, own_bounds, with_own, one_day, is_reversed, has_reversed, same_type, same_tables, same_tables_per, same_tables_equiv};

use dns_core::{NoMemory, RecordType, TryClone};
use std::alloc::Global;
use std::collections::BTreeMap;
use std::marker::Model;

/// The least and the greatest time to live of positive and of negative answers (RFC 2308), in
/// seconds.
#[derive(Clone, Copy, Debug, PartialEq, Eq)]
pub struct TtlBounds {
    pub positive_min: u64,
    pub positive_max: u64,
    pub negative_min: u64,
    pub negative_max: u64,
}

impl TtlBounds {
    /// Whether a least time is above its greatest, of positive or of negative answers, so that no
    /// time is within these bounds.
    pub fn is_reversed(&self) -> bool
        ensures { result ≡ is_reversed self.now }
    {
        self.positive_max < self.positive_min || self.negative_max < self.negative_min
    }
}

/// The bounds of each type: its own, or else the general ones.
#[derive(Debug)]
pub struct TtlConfig {
    general: TtlBounds,
    by_type: BTreeMap<RecordType, TtlBounds>,
}

impl Drop for TtlConfig {
    fn drop(self) {
        let TtlConfig {
            general: _,
            by_type: _,
        } = self;
    }
}

impl Model for TtlConfig {
    ghost use Rattle.resolver_settings.specs.Ttl.{TtlTable};

    ghost Value = { TtlTable };

    ghost view = { λ a. record { general = a.general; own = a.by_type.entries } };
}

impl TtlConfig {
    /// From 0 to 86,400 seconds, a day, for every answer.
    pub fn standard(alloc: Global) -> Self
        ensures table { result ≡ record { general = one_day; own = [] } }
        ensures bounds { (t : RecordType) → bounds_of result t ≡ one_day }
    {
        let general = TtlBounds {
            positive_min: 0,
            positive_max: 86_400,
            negative_min: 0,
            negative_max: 86_400,
        };
        TtlConfig::new(alloc, general)
    }

    /// These bounds for every type.
    pub fn new(alloc: Global, general: TtlBounds) -> Self
        ensures table { result ≡ record { general = general; own = [] } }
        ensures bounds { (t : RecordType) → bounds_of result t ≡ general }
    {
        TtlConfig {
            general,
            by_type: BTreeMap::new(alloc),
        }
    }

    /// With bounds for one type, in place of those that it had. Only a type that had none wants
    /// memory.
    pub fn with_bounds(
        self,
        _alloc: Global,
        query_type: RecordType,
        bounds: TtlBounds,
    ) -> Result<Self, NoMemory>
        ensures table { IfOk result (λ config. config ≡ with_own self query_type bounds) }
        ensures own { IfOk result (λ config. bounds_of config query_type ≡ bounds) }
        ensures others { IfOk result (λ config. (t : RecordType) → same_type query_type t ≡ false → bounds_of config t ≡ bounds_of self t) }
        ensures err { OnErr result (own_bounds self query_type ≡ None) }
    {
        let mut config = self;
        config.by_type.insert(query_type, bounds)?;
        Ok(config)
    }

    /// The bounds of the types that have none of their own.
    pub fn general(&self) -> TtlBounds
        ensures { result ≡ self.now.general }
    {
        self.general
    }

    /// Whether the general bounds or those of some type are reversed.
    pub fn is_reversed(&self) -> bool
        ensures { result ≡ has_reversed self.now }
    {
        self.general.is_reversed() || self.by_type.iter().any(|(_, bounds)| bounds.is_reversed())
    }

    fn bounds(&self, record_type: RecordType) -> TtlBounds
        ensures { result ≡ bounds_of self.now record_type }
    {
        match self.by_type.get(&record_type) {
            Some(bounds) => *bounds,
            None => self.general,
        }
    }

    /// The least and the greatest time for which a positive answer of a type is kept, in seconds.
    pub fn positive_response_ttl_bounds(&self, record_type: RecordType) -> (u64, u64)
        ensures { result ≡ ((bounds_of self.now record_type).positive_min, (bounds_of self.now record_type).positive_max) }
    {
        let bounds = self.bounds(record_type);
        (bounds.positive_min, bounds.positive_max)
    }

    /// The least and the greatest time for which a negative answer of a type is kept, in seconds.
    pub fn negative_response_ttl_bounds(&self, record_type: RecordType) -> (u64, u64)
        ensures { result ≡ ((bounds_of self.now record_type).negative_min, (bounds_of self.now record_type).negative_max) }
    {
        let bounds = self.bounds(record_type);
        (bounds.negative_min, bounds.negative_max)
    }
}

impl PartialEq for TtlConfig {
    ghost eq = { same_tables };

    ghost laws = { same_tables_per };

    fn eq(&self, other: &Self) -> bool {
        self.general == other.general && self.by_type == other.by_type
    }
}

impl Eq for TtlConfig {
    ghost laws = { same_tables_equiv };
}

impl TryClone for TtlConfig {
    fn try_clone(&self, _alloc: Global) -> Result<Self, NoMemory> {
        let by_type = self.by_type.clone()?;
        Ok(TtlConfig {
            general: self.general,
            by_type,
        })
    }
}
