//! What the resolver knows of each server that it asks: how long it takes to answer, and which
//! connections to it are kept. All of it is values with no clock: the caller gives each moment.
#![tactic(auto)]

mod copies;
mod delay_laws;
mod delays;
mod heard;
mod name_server;
mod orders;
mod protocols;
mod sends;
mod server_table;
mod status;
mod threads;

pub use delay_laws::{
    a_delay_falls_as_time_goes, a_delay_stays_within_five_seconds, reading_never_raises_a_delay,
};
pub use delays::DecayingSrtt;
pub use heard::{Heard, heard_error, heard_of};
pub use name_server::{Connection, NameServer, is_udp};
pub use orders::order::{After, Order, Outcome, SentBy, Tick};
pub use orders::same_orders::same_address;
pub use protocols::Protocols;
pub use sends::choice_laws::{a_connection_is_chosen_alone, a_way_is_chosen_alone};
pub use sends::context::PoolContext;
pub use sends::policy::ConnectionPolicy;
pub use sends::server_send::{Asked, SendStep, ServerSend, Stage};
pub use server_table::ServerTable;
pub use status::{Status, a_status_is_read_back};
