//! Programs that compute the definitions of `resolution` over a whole log, as they are written there: entry
//! by entry, with no index and no cache. They are slow, and say of a log whether an address serves a zone by
//! it, and whether an entry is what a reply rests on.
#![tactic(auto)]

mod kept;
mod plain_base;
mod plain_serving;
mod setting;
mod threads;

pub use kept::entries::{Answered, told_answer};
pub use kept::kept::{Kept, base_of, behind, is_above, is_among, is_suffix};
pub use plain_base::base;
pub use plain_serving::serves;
pub use setting::Setting;
