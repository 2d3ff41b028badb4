//! Which types of this crate may go to another thread, and be shared among threads.

use crate::lines::lines::Form;
use crate::lines::option_form::{Bounds, OptionLine};
use crate::lines::rules::{Counts, MessageHead, OpenRule};
use dns_core::CrossesThreads;

impl CrossesThreads for Bounds {}

impl CrossesThreads for Counts {}

impl CrossesThreads for Form {}

impl CrossesThreads for MessageHead {}

impl CrossesThreads for OpenRule {}

impl CrossesThreads for OptionLine {}
