//! How the records and the names of a world lie: each record in its own zone, and no name in the way of
//! another. A world is seen by its zones, or through an index too (`Sight`).
#![tactic(auto)]

mod layout;
mod naming;
mod sight;
mod threads;

pub use layout::{has_authority, is_ds_at, is_laid_out, is_left_by_all, is_root};
pub use naming::has_sound_names;
pub use sight::Sight;
