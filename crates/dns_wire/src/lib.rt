//! Messages in wire form (RFC 1035 section 4.1, with the OPT record of RFC 6891 section 6.1): a reader that
//! is the grammar, and a writer.
#![tactic(auto)]

mod header;
mod message;
mod reading;
mod rooms;
mod spelling;
mod threads;
mod writing;

pub use message::WireMessage;
pub use reading::read;
pub use wire_names::WireError;
pub use wire_records::Edns;
pub use writing::{WriteError, write};
