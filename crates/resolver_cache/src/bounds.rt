//! Why a cache is refused its bounds of TTLs.

use std::error::Error;
use std::fmt;

/// The least TTL of some type's positive or negative responses is above the greatest one.
#[derive(Clone, Copy, Debug, PartialEq, Eq)]
pub struct ReversedTtl;

impl fmt::Display for ReversedTtl {
    ghost use Rattle.std.specs.Prelude.{Some, codes};

    ghost output = { λ _. Some (codes "minimum TTL above maximum TTL") };

    fn fmt<W: fmt::Write>(&self, f: &mut fmt::Formatter<W>) -> fmt::Result {
        f.write_str("minimum TTL above maximum TTL")
    }
}

impl Error for ReversedTtl {}
