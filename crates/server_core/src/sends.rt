//! One send of a request to a server: which of the connections that are kept to the server is used, or
//! over which way a new one is opened, and what each step and each outcome does. All of it is values with
//! no clock: the caller gives each moment.

pub mod choice_laws;
pub mod context;
pub mod copies;
pub mod policy;
pub mod server_send;
pub mod threads;
