//! Which types of this crate may go to another thread, and be shared among threads.

use crate::access::{AccessControlSet, AccessControlSetBuilder};
use crate::conf_error::ConfError;
use crate::config::ResolverConfig;
use crate::name_server::NameServerConfig;
use crate::net::{IpNet, PrefixTooLong};
use crate::opportunistic::{OpportunisticEncryption, OpportunisticEncryptionConfig};
use crate::options::{ResolverOpts, ServerOrderingStrategy};
use crate::ttl::{TtlBounds, TtlConfig};
use dns_core::CrossesThreads;

impl CrossesThreads for IpNet {}

impl CrossesThreads for AccessControlSetBuilder {}

impl CrossesThreads for AccessControlSet {}

impl CrossesThreads for NameServerConfig {}

impl CrossesThreads for ResolverConfig {}

impl CrossesThreads for ServerOrderingStrategy {}

impl CrossesThreads for ResolverOpts {}

impl CrossesThreads for TtlBounds {}

impl CrossesThreads for TtlConfig {}

impl CrossesThreads for OpportunisticEncryption {}

impl CrossesThreads for OpportunisticEncryptionConfig {}

impl CrossesThreads for ConfError {}

impl CrossesThreads for PrefixTooLong {}
