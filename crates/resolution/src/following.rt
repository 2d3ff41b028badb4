//! Where the aliases inside a response lead.

use dns_core::Name;

/// Where the aliases inside a response lead: no further, or to a name of which it says nothing.
#[derive(Drop, Debug, PartialEq, Eq)]
pub enum Follow {
    Done,
    Restart(Name),
}
