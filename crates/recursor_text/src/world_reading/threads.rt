//! Which types of this crate may go to another thread, and be shared among threads.

use crate::world_reading::counts::Count;
use crate::world_reading::draft::{OpenZone, WorldDraft, WorldStage};
use crate::world_reading::lines::{WorldForm, ZoneHead};
use crate::world_reading::listed::{HostList, ZoneList};
use dns_core::CrossesThreads;

impl CrossesThreads for Count {}

impl CrossesThreads for HostList {}

impl CrossesThreads for OpenZone {}

impl CrossesThreads for WorldDraft {}

impl CrossesThreads for WorldForm {}

impl CrossesThreads for WorldStage {}

impl CrossesThreads for ZoneHead {}

impl CrossesThreads for ZoneList {}
