//! What a lookup came to.

use dns_core::NetError;
use resolution::Verdict;

/// What a lookup came to: a response was told by an entry, which counts so for its question or is the
/// error; or it failed.
#[derive(Drop)]
pub enum LookupResult {
    Told {
        entry: u64,
        verdict: Result<Verdict, NetError>,
    },
    Error(NetError),
}
