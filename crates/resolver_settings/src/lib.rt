//! What a resolver is set to: the networks whose addresses it may ask, its name servers, its options,
//! how long it keeps answers, and what a system's text of its resolver says of these.
#![tactic(auto)]

mod access;
mod address_text;
mod conf_error;
mod config;
mod directives;
mod name_server;
mod net;
mod number_text;
mod opportunistic;
mod options;
mod recommended;
mod resolver_text;
mod search_domains;
mod search_list;
mod system_conf;
mod text_lines;
mod text_options;
mod text_servers;
mod threads;
mod ttl;

pub use access::{AccessControlSet, AccessControlSetBuilder, Nets};
pub use conf_error::ConfError;
pub use config::ResolverConfig;
pub use name_server::{ConnectionConfigs, NameServerConfig};
pub use net::{IpNet, PrefixTooLong};
pub use opportunistic::{OpportunisticEncryption, OpportunisticEncryptionConfig};
pub use options::{ResolverOpts, ServerOrderingStrategy};
pub use recommended::recommended_server_filters;
pub use resolver_text::parse_resolv_conf;
pub use search_domains::parse_search_domains;
pub use system_conf::read_system_conf;
pub use ttl::{TtlBounds, TtlConfig};
